//! The long examples of peering, each with one thing gone wrong at one place. After that the group settles, is kicked and
//! settles: every request is answered, none is decided twice, and what was answered before stands.

use super::requests::request;
use super::steps::{begun, has_decided, is_answered};
use crate::operations::Work;
use crate::pieces::expect_row;
use crate::sets::{set, up};
use Event::{Deliver, Lose, LoseAll, Move, Settle, Submit};
use Party::{Client, Osd};
use common_types::TryClone;
use entry_core::{Id, Reply};
use group_core::Group;
use group_messages::{GroupFault, Party};
use peer_core::Body;
use std::alloc::Global;
use std::process::Abort;

#[derive(Clone, Copy, PartialEq, Eq)]
enum Kind {
    Interval,
    Query,
    Info,
    Install,
    Installed,
    Append,
    Appended,
    Request,
    Reply,
    NotHere,
}

fn kind_of(body: &Body) -> Kind {
    match body {
        Body::Interval(_) => Kind::Interval,
        Body::Query { .. } => Kind::Query,
        Body::Info { .. } => Kind::Info,
        Body::Install { .. } => Kind::Install,
        Body::Installed { .. } => Kind::Installed,
        Body::Append { .. } => Kind::Append,
        Body::Appended { .. } => Kind::Appended,
        Body::Request(_) => Kind::Request,
        Body::Reply { .. } => Kind::Reply,
        Body::NotHere(_) => Kind::NotHere,
    }
}

// What happens in an example. A message is named by its kind and its receiver: it is the first such message on the
// wire. If the wire has no such message, the step is skipped.
#[derive(Clone, Copy)]
enum Event {
    Submit(Work),
    Deliver(Kind, Party),
    Lose(Kind, Party),
    LoseAll,
    Move(&'static [u8], &'static [u8]),
    Settle,
}

// What goes wrong, with a message that is to be delivered or lost, or after that.
#[derive(Clone, Copy)]
enum Mishap {
    Lost,
    Repeated,
    // It goes behind all that is on the wire.
    Overtaken,
    // It stays on the wire to the end of the example.
    Late,
    Restart(u8),
}

// A group in the middle of an example.
#[derive(Drop)]
struct Stage {
    group: Group,
    asked: u32,
    // how many messages were met, requests submitted and intervals begun
    count: usize,
    // what goes wrong, and at which of these
    mishap: Mishap,
    at: usize,
    // where the message is that is late
    late: Option<usize>,
    // how many steps were passed over
    passed_over: usize,
}

impl Stage {
    // The first message of this kind to this party that is not late.
    fn place(&self, of: Kind, to: Party) -> Option<usize> {
        for (k, sent) in self.group.wire().iter().enumerate() {
            if sent.to == to && kind_of(&sent.body) == of && self.late != Some(k) {
                return Some(k);
            }
        }
        None
    }

    // The first message that is not late.
    fn oldest(&self) -> Option<usize> {
        let first = if self.late == Some(0) { 1 } else { 0 };
        if first < self.group.wire().len() {
            Some(first)
        } else {
            None
        }
    }

    // Takes the message at place k from the wire.
    fn takes(&mut self, k: usize, loses: bool) -> bool {
        if let Some(late) = self.late {
            if k < late {
                self.late = Some(late - 1);
            }
        }
        if loses {
            self.group.lose(k).is_ok()
        } else {
            matches!(self.group.deliver(k), Ok(()) | Err(GroupFault::Unreachable))
        }
    }

    // The message at place k is to be delivered or lost, where nothing goes wrong with it.
    fn meets(&mut self, k: usize, loses: bool) -> bool {
        if self.count != self.at {
            return self.takes(k, loses);
        }
        match self.mishap {
            Mishap::Lost => self.takes(k, true),
            Mishap::Repeated => self.group.repeat(k).is_ok() && self.takes(k, loses),
            Mishap::Overtaken => self.group.repeat(k).is_ok() && self.takes(k, true),
            Mishap::Late => {
                self.late = Some(k);
                true
            }
            Mishap::Restart(_) => self.takes(k, loses),
        }
    }

    // Counts what happened, after which a daemon may restart.
    fn counts(&mut self) -> bool {
        let now = self.count == self.at;
        self.count = self.count.saturating_add(1);
        match self.mishap {
            Mishap::Restart(daemon) if now => self.group.restart(daemon).is_ok(),
            _ => true,
        }
    }

    fn meets_one(&mut self, of: Kind, to: Party, loses: bool) -> bool {
        match self.place(of, to) {
            Some(k) => self.meets(k, loses) && self.counts(),
            None => {
                self.passed_over = self.passed_over.saturating_add(1);
                true
            }
        }
    }

    // Message after message, the oldest first.
    fn meets_all(&mut self, loses: bool) -> bool {
        for _ in 0..1000 {
            match self.oldest() {
                Some(k) => {
                    if !(self.meets(k, loses) && self.counts()) {
                        return false;
                    }
                }
                None => return true,
            }
        }
        false
    }

    fn submits<R: Abort>(&mut self, rt: &R, alloc: Global, work: Work) -> bool {
        self.asked = self.asked.saturating_add(1);
        let request = request(rt, alloc, self.asked, work);
        self.group.submit(request).is_ok() && self.counts()
    }

    fn moves(&mut self, acting: &[u8], running: &[u8]) -> bool {
        let moved = self.group.new_interval(set(acting), up(running));
        moved.is_ok() && self.counts()
    }

    // Whether this was accepted.
    fn plays<R: Abort>(&mut self, rt: &R, alloc: Global, event: Event) -> bool {
        match event {
            Submit(work) => self.submits(rt, alloc, work),
            Deliver(of, to) => self.meets_one(of, to, false),
            Lose(of, to) => self.meets_one(of, to, true),
            LoseAll => self.meets_all(true),
            Move(acting, running) => self.moves(acting, running),
            Settle => self.meets_all(false),
        }
    }
}

// Whether two replies have the same outputs, which a denial has not.
fn same(one: &Reply, other: &Reply) -> bool {
    let (Reply::Done(one), Reply::Done(other)) = (one, other) else {
        return false;
    };
    one.len() == other.len()
        && one
            .as_slice()
            .iter()
            .zip(other.as_slice())
            .all(|(one, other)| one.as_slice() == other.as_slice())
}

// Whether each of the first requests is answered, and as it was before where it was.
fn answers(before: &Group, group: &Group, asked: u32) -> bool {
    for number in 0..asked {
        let id = Id::new(1, number + 1);
        let Some(reply) = group.answer(id) else {
            return false;
        };
        if let Some(earlier) = before.answer(id) {
            if !same(earlier, reply) {
                return false;
            }
        }
    }
    true
}

// Whether no id is twice among what was decided.
fn is_decided_once(group: &Group) -> bool {
    for (k, entry) in group.decided().iter().enumerate() {
        for earlier in group.decided().iter().take(k) {
            if earlier.sealed.id() == entry.sealed.id() {
                return false;
            }
        }
    }
    true
}

fn settles_and_kicks(group: &mut Group) -> bool {
    group.settle().is_ok() && group.kick().is_ok() && group.settle().is_ok()
}

// An example begins with daemons 0, 1 and 2 up, and this set.
#[derive(Clone, Copy)]
struct Example {
    acting: &'static [u8],
    events: &'static [Event],
    // how many messages are met, requests submitted and intervals begun
    count: usize,
    // what is decided, in order, and what the last of the requests is answered
    decided: &'static [u32],
    last: &'static str,
}

const LATE_ACKNOWLEDGEMENT: Example = Example {
    acting: &[0, 1],
    events: &[
        Settle,
        Submit(Work::Append("a")),
        Deliver(Kind::Request, Osd(0)),
        Deliver(Kind::Append, Osd(1)),
        Move(&[1, 2], &[0, 1, 2]),
        Deliver(Kind::Interval, Osd(1)),
        Deliver(Kind::Query, Osd(2)),
        Deliver(Kind::Info, Osd(1)),
        Deliver(Kind::Appended, Osd(0)),
        Deliver(Kind::Reply, Client),
        Settle,
    ],
    count: 22,
    decided: &[1],
    last: "",
};

const REPLY_LOST: Example = Example {
    acting: &[0, 1, 2],
    events: &[
        Settle,
        Submit(Work::Add),
        Deliver(Kind::Request, Osd(0)),
        Deliver(Kind::Append, Osd(1)),
        Deliver(Kind::Append, Osd(2)),
        Deliver(Kind::Appended, Osd(0)),
        Deliver(Kind::Appended, Osd(0)),
        Lose(Kind::Reply, Client),
        Move(&[1, 2], &[1, 2]),
        Settle,
        Submit(Work::Get),
        Settle,
    ],
    count: 33,
    decided: &[1, 2],
    last: "1",
};

const HALF_DONE: Example = Example {
    acting: &[0, 1, 2],
    events: &[
        Settle,
        Submit(Work::Append("a")),
        Deliver(Kind::Request, Osd(0)),
        Lose(Kind::Append, Osd(1)),
        Lose(Kind::Append, Osd(2)),
        Move(&[1, 2], &[1, 2]),
        Deliver(Kind::Interval, Osd(1)),
        Deliver(Kind::Query, Osd(2)),
        Deliver(Kind::Info, Osd(1)),
        LoseAll,
        Move(&[0, 2], &[0, 2]),
        Deliver(Kind::Interval, Osd(0)),
        Deliver(Kind::Query, Osd(2)),
        Deliver(Kind::Info, Osd(0)),
        LoseAll,
        Move(&[1, 2], &[1, 2]),
        Lose(Kind::Request, Osd(1)),
        Submit(Work::Append("b")),
        Settle,
        Move(&[0, 1, 2], &[0, 1, 2]),
        Settle,
        Submit(Work::Read),
        Settle,
    ],
    count: 70,
    decided: &[2, 1, 3],
    last: "ba",
};

const EXAMPLES: [Example; 3] = [HALF_DONE, REPLY_LOST, LATE_ACKNOWLEDGEMENT];

// An example to its end, where this goes wrong there. Every event must be accepted.
fn played<R: Abort>(rt: &R, alloc: Global, example: Example, mishap: Mishap, at: usize) -> Stage {
    let mut stage = Stage {
        group: begun(rt, alloc, 2, example.acting),
        asked: 0,
        count: 0,
        mishap,
        at,
        late: None,
        passed_over: 0,
    };
    for event in example.events {
        expect_row(
            rt,
            stage.plays(rt, alloc, *event),
            "refused where it goes wrong at",
            at,
        );
    }
    stage
}

// Whether an example in which nothing goes wrong ends as it says.
fn goes_as_told<R: Abort>(rt: &R, alloc: Global, example: Example) -> bool {
    let stage = played(rt, alloc, example, Mishap::Lost, usize::MAX);
    stage.passed_over == 0
        && stage.count == example.count
        && has_decided(&stage.group, example.decided)
        && is_answered(&stage.group, stage.asked, &[example.last])
}

#[test]
fn nothing_goes_wrong(rt: HostRuntime) {
    for example in EXAMPLES {
        let goes = goes_as_told(&rt, rt.alloc(), example);
        expect_row(&rt, goes, "the example of messages", example.count);
    }
}

// Whether an example in which this goes wrong there ends well.
fn ends_well<R: Abort>(rt: &R, alloc: Global, example: Example, mishap: Mishap, at: usize) -> bool {
    let mut stage = played(rt, alloc, example, mishap, at);
    let before = stage.group.copy().expect(rt, "memory");
    stage.group.ready()
        && settles_and_kicks(&mut stage.group)
        && answers(&before, &stage.group, stage.asked)
        && is_decided_once(&stage.group)
}

// An example ends well, where this goes wrong at one place after another.
fn expect_well<R: Abort>(rt: &R, alloc: Global, example: Example, mishap: Mishap) {
    for at in 0..example.count {
        let is_well = ends_well(rt, alloc, example, mishap, at);
        expect_row(rt, is_well, "it goes wrong at", at);
    }
}

const MISHAPS: [Mishap; 7] = [
    Mishap::Lost,
    Mishap::Repeated,
    Mishap::Overtaken,
    Mishap::Late,
    Mishap::Restart(0),
    Mishap::Restart(1),
    Mishap::Restart(2),
];

#[test]
fn one_thing_goes_wrong(rt: HostRuntime) {
    for example in EXAMPLES {
        for mishap in MISHAPS {
            expect_well(&rt, rt.alloc(), example, mishap);
        }
    }
}
