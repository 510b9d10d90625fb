//! A driver: steps that a group takes one after another, and what must be seen on the way.

ghost use Rattle.std.specs.Prelude.{◌≤◌};

use super::requests::request;
use crate::copies::{Says, is_said};
use crate::looks::{are, gives};
use crate::operations::{Work, name};
use crate::pieces::expect_row;
use crate::sets::{set, up};
use common_types::TryClone;
use entry_core::{GroupId, Id, Sealed};
use group_core::Group;
use group_messages::{GroupFault, Party};
use std::alloc::Global;
use std::process::Abort;

// An event, which must be accepted, or what must be seen.
#[derive(Clone, Copy)]
pub(super) enum Step {
    Ask(u32, Work),
    TakeBack(u32),
    Deliver(usize),
    Lose(usize),
    LoseAll,
    Repeat(usize),
    Move(&'static [u8], &'static [u8]),
    Restart(u8),
    Kick,
    Settle(u32),
    SettleAll,
    Refused(u32, GroupFault),
    Stuck(u8),
    Named(&'static str, u32),
    Has(u32),
    Lacks(u32),
    Wire(usize),
    Ready(bool),
    IsFull(bool, bool),
    Audit(&'static [u32]),
    Audited(usize),
    Open(u32),
    Gives(u32, &'static [&'static str]),
    // The message at this place: from whom, to whom, and what it says.
    Sent(usize, Party, Party, Says),
    // A copy settles, and leaves the group as it is.
    Copied,
}

use Step::{
    Ask, Audit, Audited, Copied, Deliver, Gives, Has, IsFull, Kick, Lacks, Lose, LoseAll, Move,
    Named, Open, Ready, Refused, Repeat, Restart, Sent, Settle, SettleAll, Stuck, TakeBack, Wire,
};

// Whether the request of a number is answered by just these outputs.
pub(super) fn is_answered(group: &Group, number: u32, outputs: &[&str]) -> bool {
    match group.answer(Id::new(1, number)) {
        Some(reply) => gives(reply, outputs),
        None => false,
    }
}

// Whether the requests of these numbers were decided, in this order.
pub(super) fn has_decided(group: &Group, numbers: &[u32]) -> bool {
    group.decided_count() == numbers.len() && are(group.decided(), numbers)
}

fn is_sent(group: &Group, place: usize, from: Party, to: Party, says: Says) -> bool {
    match group.wire().get(place) {
        Some(sent) => sent.from == from && sent.to == to && is_said(&sent.body, says),
        None => false,
    }
}

fn copy_settles<R: Abort>(rt: &R, group: &Group) -> bool {
    let mut copy = group.copy().expect(rt, "memory");
    copy.settle().is_ok() && copy.wire().is_empty()
}

// Whether a group looks as a step says. One that asks for no look does.
fn sees(group: &Group, step: Step) -> bool {
    match step {
        Named(pool, number) => {
            group.group().pool.as_str() == pool && group.group().number == number
        }
        Has(number) => group.has(Id::new(1, number)),
        Lacks(number) => !group.has(Id::new(1, number)),
        Wire(count) => group.wire().len() == count,
        Ready(ready) => group.ready() == ready,
        IsFull(requests, intervals) => {
            group.is_full_of_requests() == requests && group.is_full_of_intervals() == intervals
        }
        Audit(numbers) => has_decided(group, numbers),
        Open(number) => group.answer(Id::new(1, number)).is_none(),
        Sent(place, from, to, says) => is_sent(group, place, from, to, says),
        Gives(number, outputs) => is_answered(group, number, outputs),
        _ => true,
    }
}

// Whether a move, a restart or a kick is accepted, or refused as it must be.
fn changes<R: Abort>(rt: &R, group: &mut Group, step: Step) -> bool {
    match step {
        Move(acting, running) => group.new_interval(set(acting), up(running)).is_ok(),
        Restart(daemon) => group.restart(daemon).is_ok(),
        Stuck(daemon) => matches!(group.restart(daemon), Err(GroupFault::Full)),
        Kick => group.kick().is_ok(),
        Settle(count) => matches!(group.settle(), Ok(delivered) if delivered == count),
        SettleAll => group.settle().is_ok(),
        Audited(count) => group.audit().expect(rt, "memory").len() == count,
        Copied => copy_settles(rt, group),
        _ => sees(group, step),
    }
}

// Loses every message, and says that it did.
fn loses_all(group: &mut Group) -> bool {
    for _ in 0..group.wire().len() {
        if group.lose(0).is_err() {
            return false;
        }
    }
    true
}

// Submits a request, and takes it back at once where it was accepted. Says whether it was.
fn submits_and_takes_back(group: &mut Group, request: Sealed) -> bool {
    group.keeps_promises();
    match group.submit(request) {
        Ok(()) => {
            group.undo_submit();
            true
        }
        Err(_) => false,
    }
}

// Whether a step goes as it says: whether an event is accepted, or refused as it must be, or what must be seen is.
fn goes<R: Abort>(rt: &R, alloc: Global, group: &mut Group, step: Step) -> bool {
    match step {
        Ask(number, work) => group.submit(request(rt, alloc, number, work)).is_ok(),
        Refused(number, fault) => {
            let request = request(rt, alloc, number, Work::Read);
            matches!(group.submit(request), Err(told) if told == fault)
        }
        TakeBack(number) => {
            let request = request(rt, alloc, number, Work::Append("a"));
            submits_and_takes_back(group, request)
        }
        Deliver(k) => group.deliver(k).is_ok(),
        Lose(k) => group.lose(k).is_ok(),
        LoseAll => loses_all(group),
        Repeat(k) => group.repeat(k).is_ok(),
        _ => changes(rt, group, step),
    }
}

// A group takes these steps, one after another, each of which must go as it says.
pub(super) fn expect<R: Abort>(rt: &R, alloc: Global, group: &mut Group, steps: &[Step]) {
    for (place, step) in steps.iter().enumerate() {
        expect_row(rt, goes(rt, alloc, group, *step), "step", place);
    }
}

// A group of daemons 0, 1 and 2, all up, that begins with this set.
pub(super) fn begun<R: Abort>(rt: &R, alloc: Global, min_size: usize, members: &[u8]) -> Group
    requires { 1 ≤ min_size }
{
    let group = GroupId {
        pool: name(rt, alloc, "data"),
        number: 5,
    };
    let acting = set(members);
    Group::new(alloc, group, min_size, 3, acting, up(&[0, 1, 2])).expect(rt, "memory")
}

// Such a group takes these steps.
pub(super) fn expect_from<R: Abort>(
    rt: &R,
    alloc: Global,
    min_size: usize,
    members: &[u8],
    steps: &[Step],
)
    requires { 1 ≤ min_size }
{
    let mut group = begun(rt, alloc, min_size, members);
    expect(rt, alloc, &mut group, steps);
}
