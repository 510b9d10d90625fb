//! A list of names in a cluster of four groups, which is cut short where memory is refused.

ghost use Rattle.std.specs.Prelude.{All};
ghost use Rattle.cluster.specs.Asks.{IsPassOf};

use crate::begun::{USER, begun, group, take_pass};
use crate::steps::new_request;
use cluster::{Cluster, ClusterFault, Pass, Submitted};
use common_types::{Name, OutOfMemory};
use entry_core::Id;
use std::alloc::Global;
use std::sync::Wait;
use std::test::Fail;
use world_core::WorldFault;

/// How many groups the pool has.
const GROUPS: u32 = 4;

fn open<R: Wait>(
    rt: &R,
    alloc: Global,
    cluster: &Cluster,
    pass: &mut Pass,
) -> Result<u32, ClusterFault>
    requires { IsPassOf cluster.now pass.old }
    ensures { IsPassOf cluster.now pass.new }
{
    let user = Name::new(alloc, USER)?;
    cluster.open(rt, pass, user, None)
}

// Whether session 1 is opened, at once, or once more where memory was refused.
fn is_opened<R: Wait>(rt: &R, alloc: Global, cluster: &Cluster, pass: &mut Pass) -> bool
    requires { IsPassOf cluster.now pass.old }
    ensures { IsPassOf cluster.now pass.new }
{
    match open(rt, alloc, cluster, pass) {
        Err(ClusterFault::OutOfMemory) => matches!(open(rt, alloc, cluster, pass), Ok(1)),
        opened => matches!(opened, Ok(1)),
    }
}

// The pieces 1 to 4 of session 1, one for each group.
fn pieces(alloc: Global) -> Result<Vec<Submitted>, OutOfMemory> {
    let mut pieces = Vec::with_capacity(alloc, 4)?;
    for number in 0..GROUPS {
        pieces.push(Submitted {
            id: Id::new(1, number + 1),
            group: group(alloc, number)?,
        })?;
    }
    Ok(pieces)
}

fn pieces_again(alloc: Global) -> Result<Vec<Submitted>, OutOfMemory> {
    match pieces(alloc) {
        Ok(pieces) => Ok(pieces),
        Err(_) => pieces(alloc),
    }
}

fn list<R: Wait>(
    rt: &R,
    alloc: Global,
    cluster: &Cluster,
    pass: &mut Pass,
) -> Result<Vec<Submitted>, ClusterFault>
    requires { IsPassOf cluster.now pass.old }
    ensures { IsPassOf cluster.now pass.new }
{
    let new_request = new_request(alloc, 1)?;
    cluster.list(rt, pass, new_request)
}

// How many of the pieces stand submitted, where those are the first ones. None of them is answered yet, so this takes no memory.
fn standing<R: Wait>(
    rt: &R,
    cluster: &Cluster,
    pass: &mut Pass,
    pieces: &[Submitted],
) -> Option<u32>
    requires { IsPassOf cluster.now pass.old }
    ensures { IsPassOf cluster.now pass.new }
{
    let (mut count, mut is_over) = (0u32, false);
    for piece in pieces {
        match cluster.answer(rt, pass, piece) {
            Ok(None) if !is_over => count = count.saturating_add(1),
            Err(ClusterFault::World(WorldFault::NoRequest)) => is_over = true,
            _ => return None,
        }
    }
    Some(count)
}

// Whether these are four pieces of session 1, one for each group, numbered from `behind` + 1 on.
fn are_pieces(submitted: &[Submitted], behind: u32) -> bool {
    let mut number: u32 = 0;
    for piece in submitted {
        let id = Id::new(1, behind.saturating_add(number).saturating_add(1));
        if piece.id != id || piece.group.number != number {
            return false;
        }
        number = number.saturating_add(1);
    }
    number == GROUPS
}

// How many pieces stood where a list was refused, and 0 where none was. The list that is made once more begins behind them. None where
// that is not so.
fn listed<R: Wait>(
    rt: &R,
    alloc: Global,
    cluster: &Cluster,
    pass: &mut Pass,
    pieces: &[Submitted],
) -> Option<u32>
    requires { IsPassOf cluster.now pass.old }
    ensures { IsPassOf cluster.now pass.new }
{
    match list(rt, alloc, cluster, pass) {
        Ok(submitted) if are_pieces(submitted.as_slice(), 0) => Some(0),
        Err(ClusterFault::OutOfMemory) => {
            let Some(count) = standing(rt, cluster, pass, pieces) else {
                return None;
            };
            match list(rt, alloc, cluster, pass) {
                Ok(submitted) if are_pieces(submitted.as_slice(), count) => Some(count),
                _ => None,
            }
        }
        _ => None,
    }
}

// What `listed` returns for a new pass, which opens its session.
fn opened_and_listed<R: Wait>(
    rt: &R,
    alloc: Global,
    cluster: &Cluster,
    passes: Vec<Pass>,
    pieces: &[Submitted],
) -> Option<u32>
    requires { All (IsPassOf cluster.now) passes.items }
{
    let mut passes = passes;
    let Some(mut pass) = take_pass(cluster, &mut passes) else {
        return None;
    };
    if !is_opened(rt, alloc, cluster, &mut pass) {
        return None;
    }
    listed(rt, alloc, cluster, &mut pass, pieces)
}

#[test]
fn a_list_begins_behind_what_stands(rt: HostRuntime) -> Result<(), Fail> {
    let alloc = rt.alloc();
    let pieces = pieces_again(alloc)?;
    let (cluster, monitor, passes) = begun(&rt, alloc, GROUPS, 1)?;
    let stood = opened_and_listed(&rt, alloc, &cluster, passes, pieces.as_slice());
    monitor.end(&rt);
    match stood {
        None => Err(Fail::new("no list")),
        Some(0) => Ok(()),
        Some(count) => Err(Fail::new(format_args!("{count} pieces stood"))),
    }
}
