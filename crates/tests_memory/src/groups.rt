//! Groups: peerings that were left half done, and an acknowledgement that comes late.

use crate::looks::{NOTHING, mix, with_id, with_reply, with_wire};
use crate::requests::request;
use Step::{Append, Deliver, Kick, Lose, Move, Read, Settle};
use common_types::{Name, OutOfMemory, TryClone};
use entry_core::{GroupId, Id, Reply};
use group_core::Group;
use object_core::NeedsFault;
use place_core::{ActingSet, DaemonSet};
use std::alloc::Global;
use std::test::Fail;

/// What happens to a group: a request of a number, a message at an index of the wire, or a new interval with these
/// members. Then exactly the daemons of the second list are up, and the members are among them.
#[derive(Clone, Copy)]
enum Step {
    Append(u32, &'static str),
    Read(u32),
    Deliver(usize),
    Lose(usize),
    Move(&'static [u8], &'static [u8]),
    Kick,
    Settle,
}

/// An example: its first members, its steps, and what the requests 1, 2 and so on are answered.
#[derive(Drop)]
struct Example {
    first: &'static [u8],
    steps: &'static [Step],
    answers: &'static [&'static str],
    order: &'static [u32],
}

const HALF_DONE: Example = Example {
    first: &[0, 1, 2],
    steps: &[
        Settle,
        Append(1, "a"),
        Deliver(0),
        Lose(0),
        Lose(0),
        Move(&[1, 2], &[1, 2]),
        Deliver(0),
        Deliver(3),
        Deliver(3),
        Lose(0),
        Lose(0),
        Lose(0),
        Lose(0),
        Move(&[0, 2], &[0, 2]),
        Deliver(0),
        Deliver(3),
        Deliver(3),
        Lose(0),
        Lose(0),
        Lose(0),
        Lose(0),
        Move(&[1, 2], &[1, 2]),
        Lose(2),
        Append(2, "b"),
        Settle,
        Move(&[0, 1, 2], &[0, 1, 2]),
        Settle,
        Kick,
        Settle,
        Read(3),
        Settle,
    ],
    answers: &["", "", "ba"],
    order: &[2, 1, 3],
};

const LATE_ACKNOWLEDGEMENT: Example = Example {
    first: &[1, 2],
    steps: &[
        Settle,
        Append(1, "a"),
        Deliver(0),
        Deliver(0),
        Move(&[0, 1], &[0, 1, 2]),
        Deliver(1),
        Deliver(4),
        Deliver(4),
        Deliver(0),
        Deliver(3),
        Settle,
        Read(2),
        Settle,
    ],
    answers: &["", "a"],
    order: &[1, 2],
};

// The wire, what was decided, what was submitted and what is answered.
fn look(group: &Group) -> u64 {
    let mut all = with_wire(NOTHING, group.wire());
    for entry in group.decided() {
        all = with_reply(with_id(mix(all, 1), entry.sealed.id()), &entry.reply);
    }
    for request in group.requests() {
        all = with_id(mix(all, 2), request.id());
        if let Some(answer) = group.answer(request.id()) {
            all = with_reply(mix(all, 3), answer);
        }
    }
    all
}

fn up(daemons: &[u8]) -> DaemonSet {
    let mut all = DaemonSet::first(0);
    for daemon in daemons {
        all.set(*daemon, true);
    }
    all
}

fn moves(group: &mut Group, members: &[u8], daemons: &[u8]) -> bool {
    match ActingSet::from_slice(members) {
        Some(acting) => group.new_interval(acting, up(daemons)).is_ok(),
        None => false,
    }
}

fn submits(alloc: Global, group: &mut Group, number: u32, text: &str) -> Result<bool, NeedsFault> {
    let request = request(alloc, number, text)?;
    Ok(group.submit(request).is_ok())
}

// Whether a step is made.
fn is_made(alloc: Global, group: &mut Group, step: Step) -> Result<bool, NeedsFault> {
    match step {
        Append(number, text) => submits(alloc, group, number, text),
        Read(number) => submits(alloc, group, number, ""),
        Deliver(place) => Ok(group.deliver(place).is_ok()),
        Lose(place) => Ok(group.lose(place).is_ok()),
        Move(members, daemons) => Ok(moves(group, members, daemons)),
        Kick => Ok(group.kick().is_ok()),
        Settle => Ok(group.settle().is_ok()),
    }
}

// Whether a step is made at once, or leaves the group as it was and is made then. A settling keeps the deliveries before the
// one that was refused.
fn is_made_again(alloc: Global, group: &mut Group, step: Step) -> bool {
    let before = look(group);
    if matches!(is_made(alloc, group, step), Ok(true)) {
        return true;
    }
    let stays = matches!(step, Settle) || look(group) == before;
    stays && matches!(is_made(alloc, group, step), Ok(true))
}

// Whether a copy is made at once or then, and looks as the group.
fn is_copied(group: &Group) -> bool {
    let before = look(group);
    if let Ok(copy) = group.copy() {
        return look(&copy) == before;
    }
    match group.copy() {
        Ok(copy) => look(&copy) == before && look(group) == before,
        Err(_) => false,
    }
}

fn begun(alloc: Global, first: &[u8]) -> Result<Group, OutOfMemory> {
    let group = GroupId {
        pool: Name::new(alloc, "data")?,
        number: 5,
    };
    let acting = ActingSet::from_slice(first).unwrap_or(ActingSet::new());
    Group::new(alloc, group, 2, 3, acting, up(&[0, 1, 2]))
}

fn begun_again(alloc: Global, first: &[u8]) -> Result<Group, OutOfMemory> {
    match begun(alloc, first) {
        Ok(group) => Ok(group),
        Err(_) => begun(alloc, first),
    }
}

fn is_output(reply: Option<&Reply>, output: &str) -> bool {
    match reply {
        Some(Reply::Done(outputs)) => match outputs.as_slice() {
            [only] => only.as_slice() == output.as_bytes(),
            _ => false,
        },
        _ => false,
    }
}

// Whether the requests are answered and were decided as an example says.
fn is_answered(group: &Group, example: &Example) -> bool {
    let mut right = group.decided().len() == example.order.len();
    for (entry, number) in group.decided().iter().zip(example.order) {
        right = right && entry.sealed.id().number() == *number;
    }
    let mut number: u32 = 1;
    for output in example.answers {
        right = right && is_output(group.answer(Id::new(1, number)), *output);
        number = number.saturating_add(1);
    }
    right
}

// The place of the first step that is not made as it is to be, or how many steps there are.
fn gone(alloc: Global, group: &mut Group, steps: &[Step]) -> usize {
    for (place, step) in steps.iter().enumerate() {
        if !is_made_again(alloc, group, *step) || !is_copied(group) {
            return place;
        }
    }
    steps.len()
}

fn goes(alloc: Global, example: &Example) -> Result<(usize, bool), OutOfMemory> {
    let mut group = begun_again(alloc, example.first)?;
    let gone = gone(alloc, &mut group, example.steps);
    Ok((gone, is_answered(&group, example)))
}

#[test]
fn half_done(rt: HostRuntime) -> Result<(), Fail> {
    assert_eq!(&rt;
        goes(rt.alloc(), &HALF_DONE)?,
        (HALF_DONE.steps.len(), true)
    );
    Ok(())
}

#[test]
fn late_acknowledgement(rt: HostRuntime) -> Result<(), Fail> {
    let wanted = (LATE_ACKNOWLEDGEMENT.steps.len(), true);
    assert_eq!(&rt; goes(rt.alloc(), &LATE_ACKNOWLEDGEMENT)?, wanted);
    Ok(())
}
