//! Two passes on one thread, one of which hears by a note what the other did.

ghost use Rattle.std.specs.Prelude.{◌<◌, All, IfSome};
ghost use Rattle.cluster.specs.Asks.{IsPassOf};
ghost use Rattle.cluster.specs.Noted.{IsNoteOf};
ghost use Rattle.cluster.specs.Passes.{AreSeatsOf, group_count};

use crate::begun::{begun, take_pass};
use crate::looks::look;
use crate::steps::{APPEND, READ, Row, is_expected, make, times, wants_memory};
use cluster::{Cluster, ClusterFault, Note, Pass, Seats};
use std::alloc::Global;
use std::sync::Wait;
use std::test::Fail;

// Whether a call tells at once what it is to tell, or leaves the group as it was and tells it then.
fn is_made_with_look<R: Wait>(
    rt: &R,
    alloc: Global,
    cluster: &Cluster,
    pass: &mut Pass,
    seats: &mut Seats,
    row: &Row,
) -> bool
    requires pass { IsPassOf cluster.now pass.old }
    requires seats { AreSeatsOf cluster.now seats.old }
    requires group { 0 < group_count cluster.now }
    ensures pass { IsPassOf cluster.now pass.new }
    ensures seats { AreSeatsOf cluster.now seats.new }
{
    let before = look(rt, cluster, seats);
    let told = make(rt, alloc, cluster, pass, row.0);
    if !wants_memory(&told) {
        return is_expected(&told, row.1);
    }
    if look(rt, cluster, seats) != before {
        return false;
    }
    is_expected(&make(rt, alloc, cluster, pass, row.0), row.1)
}

// Whether a row's call is made as often as the row says.
fn is_made_often<R: Wait>(
    rt: &R,
    alloc: Global,
    cluster: &Cluster,
    pass: &mut Pass,
    seats: &mut Seats,
    row: &Row,
) -> bool
    requires pass { IsPassOf cluster.now pass.old }
    requires seats { AreSeatsOf cluster.now seats.old }
    requires group { 0 < group_count cluster.now }
    ensures pass { IsPassOf cluster.now pass.new }
    ensures seats { AreSeatsOf cluster.now seats.new }
{
    for _time in 0..times(row.0) {
        if !is_made_with_look(rt, alloc, cluster, pass, seats, row) {
            return false;
        }
    }
    true
}

// Whether all rows' calls are made.
fn are_made<R: Wait>(
    rt: &R,
    alloc: Global,
    cluster: &Cluster,
    pass: &mut Pass,
    seats: &mut Seats,
    rows: &[Row],
) -> bool
    requires pass { IsPassOf cluster.now pass.old }
    requires seats { AreSeatsOf cluster.now seats.old }
    requires group { 0 < group_count cluster.now }
    ensures pass { IsPassOf cluster.now pass.new }
    ensures seats { AreSeatsOf cluster.now seats.new }
{
    for row in rows {
        if !is_made_often(rt, alloc, cluster, pass, seats, row) {
            return false;
        }
    }
    true
}

// A note at once, or once more where memory was refused and the group stayed as it was.
fn note_again<R: Wait>(
    rt: &R,
    alloc: Global,
    cluster: &Cluster,
    pass: &mut Pass,
    seats: &mut Seats,
) -> Option<Note>
    requires pass { IsPassOf cluster.now pass.old }
    requires seats { AreSeatsOf cluster.now seats.old }
    requires group { 0 < group_count cluster.now }
    ensures pass { IsPassOf cluster.now pass.new }
    ensures seats { AreSeatsOf cluster.now seats.new }
    ensures note { IfSome result (IsNoteOf cluster.now) }
{
    let before = look(rt, cluster, seats);
    match pass.note(cluster, alloc) {
        Ok(note) => Some(note),
        Err(ClusterFault::OutOfMemory) => {
            if look(rt, cluster, seats) != before {
                return None;
            }
            match pass.note(cluster, alloc) {
                Ok(note) => Some(note),
                Err(_) => None,
            }
        }
        Err(_) => None,
    }
}

// The first appends and gives a note. The second hears it and reads.
fn append_and_read<R: Wait>(
    rt: &R,
    alloc: Global,
    cluster: &Cluster,
    first: &mut Pass,
    second: &mut Pass,
    seats: &mut Seats,
) -> bool
    requires passes { IsPassOf cluster.now first.old × IsPassOf cluster.now second.old }
    requires seats { AreSeatsOf cluster.now seats.old }
    requires group { 0 < group_count cluster.now }
{
    if !are_made(rt, alloc, cluster, first, seats, APPEND) {
        return false;
    }
    let Some(note) = note_again(rt, alloc, cluster, first, seats) else {
        return false;
    };
    second.read_note(cluster, note);
    are_made(rt, alloc, cluster, second, seats, READ)
}

// Two passes at work, and a third that only looks.
fn three<R: Wait>(rt: &R, alloc: Global, cluster: &Cluster, passes: Vec<Pass>) -> bool
    requires passes { All (IsPassOf cluster.now) passes.items }
    requires group { 0 < group_count cluster.now }
{
    let mut passes = passes;
    let Some(looker) = take_pass(cluster, &mut passes) else {
        return false;
    };
    let Some(mut second) = take_pass(cluster, &mut passes) else {
        return false;
    };
    let Some(mut first) = take_pass(cluster, &mut passes) else {
        return false;
    };
    let mut seats = looker.into_seats();
    append_and_read(rt, alloc, cluster, &mut first, &mut second, &mut seats)
}

#[test]
fn a_pass_hears_what_another_did(rt: HostRuntime) -> Result<(), Fail> {
    let alloc = rt.alloc();
    let (cluster, monitor, passes) = begun(&rt, alloc, 1, 3)?;
    let right = cluster.group_count() == 1 && three(&rt, alloc, &cluster, passes);
    monitor.end(&rt);
    assert!(&rt; right);
    Ok(())
}
