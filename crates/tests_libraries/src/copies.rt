//! Copies that are fed by hand: what each message makes them send.

use crate::looks::are;
use crate::operations::{name, view};
use crate::pieces::{expect_row, expect_so};
use crate::sets::set;
use common_types::{Items, TryClone};
use entry_core::{Id, Sealed};
use group_messages::{IntervalSets, Party};
use peer_core::{Body, Daemon, Message, Role, Sent};
use std::alloc::Global;
use std::process::Abort;
use verdict_core::{SharedTicket, Ticket};

// What a message says, in short: requests are given by their numbers. A query tells a length and the last number, 0 for none.
#[derive(Clone, Copy)]
pub(crate) enum Says {
    Sets(usize, &'static [u8]),
    Query(u64, usize, u32),
    Info(u64, u64, usize, &'static [u32]),
    Install(u64, usize, &'static [u32]),
    Installed(u64),
    Append(u64, usize, u32),
    Appended(u64, usize),
    Request(u32),
    Reply(u32),
    NotHere(u32),
}

use Says::{Append, Appended, Info, Install, Installed, NotHere, Query, Reply, Request, Sets};

// What must be sent, to whom, in order.
type Sends = &'static [(Party, Says)];

// What happens to a daemon, or what must be seen of it.
#[derive(Clone, Copy)]
enum Line {
    // A message, and what is sent.
    On(Party, Says, Sends),
    // What a kick sends.
    Kick(Sends),
    Restart,
    // How many entries it has, how many of them are decided, and how many requests wait.
    Counts(usize, usize, usize),
    // Its number, its promise and its base.
    Is(u8, u64, u64),
    // The numbers of its log's requests, and its base.
    Holds(&'static [u32], u64),
    Leads,
    Idles,
    // Its log has this request.
    Has(u32),
}

use Line::{Counts, Has, Holds, Idles, Is, Kick, Leads, On, Restart};

// What a story is called, its daemon's number and least size, and what happens.
type Story = (&'static str, u8, usize, &'static [Line]);

const CLIENT: Party = Party::Client;

const ZERO: Party = Party::Osd(0);

const ONE: Party = Party::Osd(1);

const TWO: Party = Party::Osd(2);

const THREE: Party = Party::Osd(3);

// A listing of one who may do nothing: what is decided of it does not matter here.
fn request<R: Abort>(rt: &R, alloc: Global, number: u32) -> Sealed {
    let ticket = SharedTicket::of(Ticket::empty(alloc, None)).expect(rt, "memory");
    let view = view(rt, alloc, 1);
    let namespace = name(rt, alloc, "");
    Sealed::listing(alloc, Id::new(1, number), ticket, 0, view, 0, namespace).expect(rt, "memory")
}

// Sets of intervals, each of which has the same members.
fn sets<R: Abort>(rt: &R, alloc: Global, count: usize, members: &[u8]) -> IntervalSets {
    let set = set(members);
    let mut sets = IntervalSets::new();
    for _ in 0..count {
        sets = sets.followed_by(alloc, set).expect(rt, "memory");
    }
    sets
}

fn part<R: Abort>(rt: &R, alloc: Global, numbers: &[u32]) -> Items<Sealed> {
    let mut part = Items::new(alloc);
    for number in numbers {
        part.push(request(rt, alloc, *number)).expect(rt, "memory");
    }
    part
}

fn last(number: u32) -> Option<Id> {
    match number {
        0 => None,
        _ => Some(Id::new(1, number)),
    }
}

fn body<R: Abort>(rt: &R, alloc: Global, says: Says) -> Body {
    match says {
        Sets(count, members) => Body::Interval(sets(rt, alloc, count, members)),
        Query(interval, len, number) => Body::Query {
            interval,
            len,
            last: last(number),
        },
        Info(interval, base, start, numbers) => Body::Info {
            interval,
            base,
            start,
            part: part(rt, alloc, numbers),
        },
        Install(interval, start, numbers) => Body::Install {
            interval,
            start,
            part: part(rt, alloc, numbers),
        },
        Installed(interval) => Body::Installed { interval },
        Append(interval, index, number) => Body::Append {
            interval,
            index,
            request: request(rt, alloc, number),
        },
        Appended(interval, index) => Body::Appended { interval, index },
        Request(number) => Body::Request(request(rt, alloc, number)),
        Reply(number) | NotHere(number) => Body::NotHere(Id::new(1, number)),
    }
}

// Whether a part has the requests of these numbers.
fn has(part: &Items<Sealed>, numbers: &[u32]) -> bool {
    part.len() == numbers.len()
        && part
            .as_slice()
            .iter()
            .zip(numbers)
            .all(|(request, number)| request.id().number() == *number)
}

// Whether a message says that.
pub(crate) fn is_said(body: &Body, says: Says) -> bool {
    match (body, says) {
        (
            Body::Query {
                interval,
                len,
                last: told,
            },
            Query(wanted, places, number),
        ) => *interval == wanted && *len == places && *told == last(number),
        (
            Body::Info {
                interval,
                base,
                start,
                part,
            },
            Info(wanted, began, place, numbers),
        ) => *interval == wanted && *base == began && *start == place && has(part, numbers),
        (
            Body::Install {
                interval,
                start,
                part,
            },
            Install(wanted, place, numbers),
        ) => *interval == wanted && *start == place && has(part, numbers),
        (Body::Installed { interval }, Installed(wanted)) => *interval == wanted,
        (
            Body::Append {
                interval,
                index,
                request,
            },
            Append(wanted, place, number),
        ) => *interval == wanted && *index == place && request.id().number() == number,
        (Body::Appended { interval, index }, Appended(wanted, place)) => {
            *interval == wanted && *index == place
        }
        (Body::Reply { id, .. }, Reply(number)) => id.number() == number,
        (Body::NotHere(id), NotHere(number)) => id.number() == number,
        _ => false,
    }
}

// Whether what was sent is this, in this order.
fn are_sent(sent: &[Sent], want: Sends) -> bool {
    sent.len() == want.len()
        && sent.iter().zip(want).all(|(sent, (to, says))| sent.to == *to
            && is_said(&sent.body, *says))
}

// Whether a daemon looks as a line says. One that asks for no look does.
fn sees(daemon: &Daemon, line: Line) -> bool {
    match line {
        Counts(entries, decided, waiting) => {
            daemon.log().len() == entries
                && daemon.decided().len() == decided
                && daemon.waiting_count() == waiting
        }
        Is(number, promise, base) => {
            daemon.number() == number && daemon.promise() == promise && daemon.base() == base
        }
        Holds(numbers, base) => {
            daemon.base() == base
                && daemon.log().len() == numbers.len()
                && are(daemon.log().entries(), numbers)
        }
        Leads => matches!(daemon.role(), Role::Active(None)),
        Idles => matches!(daemon.role(), Role::Idle),
        Has(number) => daemon.log().contains(Id::new(1, number)),
        _ => true,
    }
}

// Whether a line goes as it says.
fn goes<R: Abort>(rt: &R, alloc: Global, daemon: &mut Daemon, line: Line) -> bool {
    match line {
        On(from, says, want) => {
            let body = body(rt, alloc, says);
            let sent = daemon.on(Message { from, body }).expect(rt, "memory");
            are_sent(sent.as_slice(), want)
        }
        Kick(want) => {
            let sent = daemon.kick().expect(rt, "memory");
            are_sent(sent.as_slice(), want)
        }
        Restart => {
            daemon.restart();
            true
        }
        _ => sees(daemon, line),
    }
}

// A daemon after all the lines of its story, each of which must go as it says.
fn play<R: Abort>(rt: &R, alloc: Global, (name, number, min_size, lines): Story) -> Daemon {
    let mut daemon = Daemon::new(alloc, number, min_size);
    for (place, line) in lines.iter().enumerate() {
        expect_row(rt, goes(rt, alloc, &mut daemon, *line), name, place);
    }
    daemon
}

const APPENDS: Sends = &[(ONE, Append(1, 1, 7)), (TWO, Append(1, 1, 7))];

const QUERIES: Sends = &[(ONE, Query(1, 0, 0)), (TWO, Query(1, 0, 0))];

const INSTALLS: Sends = &[(ONE, Install(1, 0, &[])), (TWO, Install(1, 0, &[]))];

const REPLY: Sends = &[(CLIENT, Reply(7))];

// A set of one answers at once.
const ALONE: &[Line] = &[
    On(CLIENT, Sets(1, &[0]), &[]),
    On(CLIENT, Request(7), REPLY),
    On(CLIENT, Request(7), REPLY),
    On(CLIENT, Request(8), &[(CLIENT, Reply(8))]),
    Counts(2, 2, 0),
];

// A leader of three appends a request once, and answers it when two members have it.
const LED: &[Line] = &[
    On(CLIENT, Sets(1, &[0, 1, 2]), QUERIES),
    On(ONE, Info(1, 0, 0, &[]), &[]),
    On(TWO, Info(1, 0, 0, &[]), INSTALLS),
    On(ONE, Installed(1), &[]),
    On(TWO, Installed(1), &[]),
    Leads,
    On(CLIENT, Request(7), APPENDS),
    On(CLIENT, Request(7), &[]),
    On(ONE, Appended(1, 1), &[]),
    Counts(1, 0, 0),
    On(TWO, Appended(1, 1), REPLY),
    On(CLIENT, Request(7), REPLY),
    Counts(1, 1, 0),
    Is(0, 1, 1),
];

// After each message a kick sends again what was not answered.
const KICKED: &[Line] = &[
    Kick(&[]),
    On(CLIENT, Sets(1, &[0, 1, 2]), QUERIES),
    Kick(QUERIES),
    On(ONE, Info(1, 0, 0, &[]), &[]),
    Kick(&[(TWO, Query(1, 0, 0))]),
    On(TWO, Info(1, 0, 0, &[]), INSTALLS),
    Kick(INSTALLS),
    On(ONE, Installed(1), &[]),
    Kick(&[(TWO, Install(1, 0, &[]))]),
    On(TWO, Installed(1), &[]),
    Kick(&[]),
    On(CLIENT, Request(7), APPENDS),
    On(TWO, Appended(1, 1), &[]),
    Kick(&[(ONE, Append(1, 1, 7))]),
];

// A second request waits until the first is decided, and is then appended.
const IN_TURN: &[Line] = &[
    On(CLIENT, Sets(1, &[0, 1, 2]), QUERIES),
    On(ONE, Info(1, 0, 0, &[]), &[]),
    On(TWO, Info(1, 0, 0, &[]), INSTALLS),
    On(ONE, Installed(1), &[]),
    On(TWO, Installed(1), &[]),
    On(CLIENT, Request(7), APPENDS),
    On(CLIENT, Request(8), &[]),
    On(CLIENT, Request(8), &[]),
    On(TWO, Appended(1, 1), &[]),
    Counts(1, 0, 1),
    On(
        ONE,
        Appended(1, 1),
        &[
            (CLIENT, Reply(7)),
            (ONE, Append(1, 2, 8)),
            (TWO, Append(1, 2, 8)),
        ],
    ),
    Counts(2, 1, 0),
];

// A leader that restarts leads no more, and has what it had.
const RESTARTED: &[Line] = &[
    On(CLIENT, Sets(1, &[0, 1, 2]), QUERIES),
    On(ONE, Info(1, 0, 0, &[]), &[]),
    On(TWO, Info(1, 0, 0, &[]), INSTALLS),
    On(ONE, Installed(1), &[]),
    On(TWO, Installed(1), &[]),
    On(CLIENT, Request(7), APPENDS),
    Restart,
    On(CLIENT, Sets(1, &[0, 1, 2]), &[]),
    Idles,
    Is(0, 1, 1),
    Holds(&[7], 1),
];

// The greatest base is chosen.
const CHOSEN: &[Line] = &[
    On(
        CLIENT,
        Sets(2, &[0, 1, 2]),
        &[(ONE, Query(2, 0, 0)), (TWO, Query(2, 0, 0))],
    ),
    On(ONE, Info(2, 0, 0, &[1, 2]), &[]),
    On(
        TWO,
        Info(2, 1, 0, &[3]),
        &[(ONE, Install(2, 0, &[3])), (TWO, Install(2, 1, &[]))],
    ),
    Has(3),
    Holds(&[3], 2),
];

// A member follows.
const FOLLOWED: &[Line] = &[
    On(ZERO, Query(3, 0, 0), &[(ZERO, Info(3, 0, 0, &[]))]),
    On(ZERO, Query(2, 0, 0), &[]),
    On(ZERO, Install(3, 0, &[5]), &[(ZERO, Installed(3))]),
    On(ZERO, Append(3, 2, 7), &[(ZERO, Appended(3, 2))]),
    On(ZERO, Append(3, 2, 7), &[(ZERO, Appended(3, 2))]),
    On(CLIENT, Request(9), &[(CLIENT, NotHere(9))]),
    Counts(2, 0, 0),
    Is(1, 3, 3),
];

// Nobody lacks anything: no request is sent.
const PRIMARY: &[Line] = &[
    On(CLIENT, Sets(1, &[0]), &[]),
    On(CLIENT, Request(1), &[(CLIENT, Reply(1))]),
    On(CLIENT, Request(2), &[(CLIENT, Reply(2))]),
    On(CLIENT, Request(3), &[(CLIENT, Reply(3))]),
    On(CLIENT, Request(4), &[(CLIENT, Reply(4))]),
    On(CLIENT, Request(5), &[(CLIENT, Reply(5))]),
    On(
        CLIENT,
        Sets(2, &[0, 1, 2]),
        &[(ONE, Query(2, 5, 5)), (TWO, Query(2, 5, 5))],
    ),
    On(ONE, Info(2, 1, 5, &[]), &[]),
    Kick(&[(TWO, Query(2, 5, 5))]),
    On(
        TWO,
        Info(2, 1, 5, &[]),
        &[(ONE, Install(2, 5, &[])), (TWO, Install(2, 5, &[]))],
    ),
    Holds(&[1, 2, 3, 4, 5], 2),
    On(ONE, Installed(2), &[]),
    Kick(&[(TWO, Install(2, 5, &[]))]),
    On(TWO, Installed(2), &[]),
    Leads,
];

// The copy that is asked has all five, too.
const ASKED: &[Line] = &[
    On(CLIENT, Sets(1, &[1]), &[]),
    On(CLIENT, Request(1), &[(CLIENT, Reply(1))]),
    On(CLIENT, Request(2), &[(CLIENT, Reply(2))]),
    On(CLIENT, Request(3), &[(CLIENT, Reply(3))]),
    On(CLIENT, Request(4), &[(CLIENT, Reply(4))]),
    On(CLIENT, Request(5), &[(CLIENT, Reply(5))]),
    On(ZERO, Query(2, 5, 5), &[(ZERO, Info(2, 1, 5, &[]))]),
    On(ZERO, Install(2, 5, &[]), &[(ZERO, Installed(2))]),
    Holds(&[1, 2, 3, 4, 5], 2),
    // An asker that has three of them gets the others, and one that has more gets the last one.
    On(ZERO, Query(3, 3, 3), &[(ZERO, Info(3, 2, 3, &[4, 5]))]),
    On(ZERO, Query(3, 6, 6), &[(ZERO, Info(3, 2, 4, &[5]))]),
    // What does not fit changes nothing.
    On(ZERO, Install(3, 3, &[6]), &[]),
    Holds(&[1, 2, 3, 4, 5], 2),
    On(ZERO, Install(3, 3, &[4, 6, 7]), &[(ZERO, Installed(3))]),
    Holds(&[1, 2, 3, 4, 6, 7], 3),
];

// A peering that was left half done: request 1 is in this log alone, and 2 was decided without it.
const HALF: &[Line] = &[
    On(CLIENT, Sets(1, &[0]), &[]),
    On(CLIENT, Request(1), &[(CLIENT, Reply(1))]),
    On(CLIENT, Sets(3, &[0, 1]), &[(ONE, Query(3, 1, 1))]),
    // An offer that begins behind the log's end is not heard.
    On(ONE, Info(3, 2, 2, &[2]), &[]),
    On(ONE, Info(3, 2, 0, &[2]), &[(ONE, Install(3, 1, &[]))]),
    Holds(&[2], 3),
    Kick(&[(ONE, Install(3, 1, &[]))]),
];

// The other one has request 2 alone.
const OTHER: &[Line] = &[
    On(CLIENT, Sets(1, &[1]), &[]),
    On(CLIENT, Request(2), &[(CLIENT, Reply(2))]),
    On(ZERO, Query(3, 1, 1), &[(ZERO, Info(3, 1, 0, &[2]))]),
    On(ZERO, Install(3, 1, &[]), &[(ZERO, Installed(3))]),
    Holds(&[2], 3),
];

// What each of the others lacks is sent to it.
const LACKING: &[Line] = &[
    On(CLIENT, Sets(1, &[0]), &[]),
    On(CLIENT, Request(1), &[(CLIENT, Reply(1))]),
    On(CLIENT, Request(2), &[(CLIENT, Reply(2))]),
    On(
        CLIENT,
        Sets(2, &[0, 1, 2]),
        &[(ONE, Query(2, 2, 2)), (TWO, Query(2, 2, 2))],
    ),
    On(ONE, Info(2, 0, 0, &[]), &[]),
    On(
        TWO,
        Info(2, 1, 1, &[2, 3]),
        &[(ONE, Install(2, 0, &[1, 2, 3])), (TWO, Install(2, 3, &[]))],
    ),
    Holds(&[1, 2, 3], 2),
    Kick(&[(ONE, Install(2, 0, &[1, 2, 3])), (TWO, Install(2, 3, &[]))]),
];

// What the chosen log sends, which is made before the last entry of the leader's own log goes: the second member has the
// first request that is new, and the third one has the entry that goes.
const CHANGED: Sends = &[
    (ONE, Install(3, 3, &[])),
    (TWO, Install(3, 2, &[4])),
    (THREE, Install(3, 1, &[3, 4])),
];

// The last entry goes for two requests.
const DROPPED: &[Line] = &[
    On(CLIENT, Sets(1, &[0]), &[]),
    On(CLIENT, Request(1), &[(CLIENT, Reply(1))]),
    On(CLIENT, Request(2), &[(CLIENT, Reply(2))]),
    On(
        CLIENT,
        Sets(3, &[0, 1, 2, 3]),
        &[
            (ONE, Query(3, 2, 2)),
            (TWO, Query(3, 2, 2)),
            (THREE, Query(3, 2, 2)),
        ],
    ),
    On(ONE, Info(3, 2, 1, &[3, 4]), &[]),
    On(TWO, Info(3, 1, 1, &[3]), &[]),
    On(THREE, Info(3, 1, 2, &[]), CHANGED),
    Holds(&[1, 3, 4], 3),
    Kick(CHANGED),
];

// An id would stand twice: nothing is chosen, and nothing is sent.
const UNFIT: &[Line] = &[
    On(CLIENT, Sets(1, &[0]), &[]),
    On(CLIENT, Request(1), &[(CLIENT, Reply(1))]),
    On(CLIENT, Request(2), &[(CLIENT, Reply(2))]),
    On(CLIENT, Sets(3, &[0, 1]), &[(ONE, Query(3, 2, 2))]),
    On(ONE, Info(3, 2, 2, &[3, 1]), &[]),
    Holds(&[1, 2], 1),
    Kick(&[]),
];

const STORIES: [Story; 14] = [
    ("alone", 0, 1, ALONE),
    ("led", 0, 2, LED),
    ("kicked", 0, 2, KICKED),
    ("in turn", 0, 2, IN_TURN),
    ("restarted", 0, 2, RESTARTED),
    ("chosen", 0, 2, CHOSEN),
    ("followed", 1, 2, FOLLOWED),
    ("primary", 0, 1, PRIMARY),
    ("asked", 1, 1, ASKED),
    ("half", 0, 1, HALF),
    ("other", 1, 1, OTHER),
    ("lacking", 0, 1, LACKING),
    ("dropped", 0, 1, DROPPED),
    ("unfit", 0, 1, UNFIT),
];

#[test]
fn daemons_answer_messages(rt: HostRuntime) {
    for story in STORIES {
        play(&rt, rt.alloc(), story);
    }
}

// How daemon 0 of a set of three becomes the leader of interval 1.
const LEADING: &[Line] = &[
    On(CLIENT, Sets(1, &[0, 1, 2]), QUERIES),
    On(ONE, Info(1, 0, 0, &[]), &[]),
    On(TWO, Info(1, 0, 0, &[]), INSTALLS),
    On(ONE, Installed(1), &[]),
    On(TWO, Installed(1), &[]),
];

// Whether a leader and its copy send the same at a message and its copy, also by a copy of what is sent.
fn is_copied<R: Abort>(rt: &R, alloc: Global, leader: &mut Daemon) -> bool {
    let mut copy = leader.copy().expect(rt, "memory");
    let message = Message {
        from: CLIENT,
        body: body(rt, alloc, Request(7)),
    };
    let copied = message.copy().expect(rt, "memory");
    let copied = copy.on(copied).expect(rt, "memory");
    let copied = copied.copy().expect(rt, "memory");
    let sent = leader.on(message).expect(rt, "memory");
    are_sent(copied.as_slice(), APPENDS) && are_sent(sent.as_slice(), APPENDS)
}

#[test]
fn copies_are_equal(rt: HostRuntime) {
    let mut leader = play(&rt, rt.alloc(), ("leading", 0, 2, LEADING));
    expect_so(&rt, is_copied(&rt, rt.alloc(), &mut leader), "a copy");
}
