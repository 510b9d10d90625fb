//! What an event takes from the messages of a group and what it sends, each by a call of its own.

use super::lines::{begun, event_of, group_of};
use crate::expecting::expect_so;
use entry_core::GroupId;
use group_story::{WireStep, hold_wire, step_and_tell, tell_step};
use std::alloc::Global;
use std::process::Abort;
use world_core::World;

/// An event, whether it happens, whether it takes a message of the group `data` 0, and how many it sends there.
type Row = (&'static str, bool, bool, usize);

const ROWS: &[Row; 9] = &[
    ("osd pool create data 1 1 1", true, false, 1),
    ("auth add client.a osd 'allow rw'", true, false, 0),
    ("deliver data 0 1", false, false, 0),
    ("deliver data 0 0", true, true, 0),
    ("open client.a", true, false, 0),
    ("do 1 data '' x append a", true, false, 1),
    ("deliver data 0 0", true, true, 1),
    ("lose data 0 0", true, true, 0),
    ("kick data 0", true, false, 2),
];

/// Whether this was taken and sent.
fn tells(step: &WireStep, takes: bool, sends: usize) -> bool {
    step.taken.is_some() == takes && step.sent.len() == sends
}

/// Whether an event does what its row says.
fn is_so<R: Abort>(
    rt: &R,
    alloc: Global,
    world: &mut World,
    group: &GroupId,
    (line, happens, takes, sends): Row,
) -> bool {
    let event = event_of(rt, alloc, line, world.map().epoch());
    let step = step_and_tell(alloc, world, group, event).expect(rt, "memory");
    step.done.is_ok() == happens && tells(&step.wire, takes, sends)
}

#[test]
fn each_event_takes_and_sends_what_is_told(rt: HostRuntime) {
    let mut world = begun(&rt, rt.alloc(), 1);
    let group = group_of(&rt, rt.alloc(), "data 0");
    for row in ROWS {
        let is_so = is_so(&rt, rt.alloc(), &mut world, &group, *row);
        expect_so(&rt, is_so, row.0);
    }
}

/// What a step did in which the first of two messages of a group, a reply, is taken.
fn first_taken<R: Abort>(rt: &R, alloc: Global) -> WireStep {
    let mut world = begun(rt, alloc, 1);
    let group = group_of(rt, alloc, "data 0");
    for row in &ROWS[..7] {
        is_so(rt, alloc, &mut world, &group, *row);
    }
    is_so(rt, alloc, &mut world, &group, ROWS[8]);
    let held = hold_wire(world.wire(&group).unwrap_or(&[]), Some(0)).expect(rt, "memory");
    is_so(rt, alloc, &mut world, &group, ROWS[6]);
    tell_step(alloc, held, world.wire(&group).unwrap_or(&[])).expect(rt, "memory")
}

#[test]
fn a_held_wire_tells_the_step(rt: HostRuntime) {
    let step = first_taken(&rt, rt.alloc());
    expect_so(&rt, tells(&step, true, 0), "a held wire");
}
