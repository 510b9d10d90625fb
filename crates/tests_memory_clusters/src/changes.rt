//! A daemon goes down in a cluster of four groups, and the change is left in part where memory is refused.

ghost use Rattle.std.specs.Prelude.{All, IfSome};
ghost use Rattle.map_core.specs.State.{History};
ghost use Rattle.cluster.specs.Asks.{IsBegun, IsPassOf};
ghost use Rattle.cluster.specs.Monitors.{IsMonitorOf, Follows, FollowsStart};

use crate::begun::{POOL, TEXT, USER, begun, group};
use crate::looks::{NOTHING, mix, with_wire};
use crate::worlds::closed;
use auth_db::Caps;
use cluster::{ChangeFault, CloseFault, Cluster, Monitor, Pass, TellFault};
use common_types::{Name, OutOfMemory};
use entry_core::GroupId;
use grant_core::ProfileTable;
use map_core::{MapCommand, MapFault};
use std::alloc::Global;
use std::sync::Wait;
use std::test::Fail;
use world_core::{AuthCommand, Event, World, WorldFault, run};

/// How many groups the pool has.
const GROUPS: u32 = 4;

/// What became of the change.
#[derive(Clone, Copy, PartialEq, Eq)]
enum Change {
    /// It was made, at once, or once more where it had left all as it was.
    Made,
    /// K1 came at this group, or at the number of groups.
    Left(usize),
    /// It was what it must not be.
    Wrong,
}

// Makes the refused change once more. The refusal must have left nothing to finish.
fn changed_again<R: Wait>(rt: &R, cluster: &Cluster, monitor: &mut Monitor) -> Change
    requires { IsMonitorOf cluster.now monitor.old }
    ensures monitor { IsMonitorOf cluster.now monitor.new }
    ensures follows { (first : History) → Follows first monitor.old → Follows first monitor.new }
{
    let is_whole = monitor.tell(cluster).is_ok();
    match monitor.change_map(rt, cluster, MapCommand::OsdDown(1)) {
        Ok(3) if is_whole => Change::Made,
        _ => Change::Wrong,
    }
}

// A daemon of all groups goes down.
fn changed<R: Wait>(rt: &R, cluster: &Cluster, monitor: &mut Monitor) -> Change
    requires { IsMonitorOf cluster.now monitor.old }
    ensures monitor { IsMonitorOf cluster.now monitor.new }
    ensures follows { (first : History) → Follows first monitor.old → Follows first monitor.new }
{
    match monitor.change_map(rt, cluster, MapCommand::OsdDown(1)) {
        Ok(3) => Change::Made,
        Err(ChangeFault::Unfinished(at)) => Change::Left(at),
        Err(ChangeFault::Map(MapFault::OutOfMemory)) => changed_again(rt, cluster, monitor),
        _ => Change::Wrong,
    }
}

// Whether another change and the news are refused, since one is left at this group.
fn is_left<R: Wait>(rt: &R, cluster: &Cluster, monitor: &mut Monitor, at: usize) -> bool
    requires { IsMonitorOf cluster.now monitor.old }
    ensures monitor { IsMonitorOf cluster.now monitor.new }
    ensures follows { (first : History) → Follows first monitor.old → Follows first monitor.new }
{
    let other = monitor.change_map(rt, cluster, MapCommand::OsdDown(2));
    let told = matches!(monitor.tell(cluster), Err(TellFault::Unfinished(place)) if place == at);
    other == Err(ChangeFault::Unfinished(at)) && told
}

// The world of a cluster whose change is left at this group: it is not closed and all comes back, the change is finished, and then
// it is closed.
fn finished_and_closed<R: Wait>(
    rt: &R,
    alloc: Global,
    cluster: Cluster,
    monitor: Monitor,
    passes: Vec<Pass>,
    at: usize,
) -> Option<World>
    requires begun { IsBegun cluster }
    requires monitor { IsMonitorOf cluster monitor × FollowsStart cluster monitor }
    requires passes { All (IsPassOf cluster) passes.items }
{
    match cluster.close(rt, alloc, monitor, passes) {
        Err((CloseFault::Unfinished, cluster, mut monitor, passes)) => {
            let stays = is_left(rt, &cluster, &mut monitor, at);
            let finished = monitor.finish(rt, &cluster) == Ok(());
            if !stays || !finished || cluster.group_count() != 4 || passes.len() != 2 {
                monitor.end(rt);
                return None;
            }
            closed(rt, alloc, cluster, monitor, passes)
        }
        Err((_, _cluster, monitor, _passes)) => {
            monitor.end(rt);
            None
        }
        Ok(_parts) => None,
    }
}

// The world of a cluster after the change, and what became of it.
fn changed_and_closed<R: Wait>(
    rt: &R,
    alloc: Global,
    cluster: Cluster,
    mut monitor: Monitor,
    passes: Vec<Pass>,
) -> Option<(World, Change)>
    requires begun { IsBegun cluster }
    requires monitor { IsMonitorOf cluster monitor × FollowsStart cluster monitor }
    requires passes { All (IsPassOf cluster) passes.items }
{
    let change = changed(rt, &cluster, &mut monitor);
    let world = match change {
        Change::Made => closed(rt, alloc, cluster, monitor, passes),
        Change::Left(at) => finished_and_closed(rt, alloc, cluster, monitor, passes, at),
        Change::Wrong => {
            monitor.end(rt);
            None
        }
    };
    match world {
        Some(world) => Some((world, change)),
        None => None,
    }
}

// The cluster's pool.
fn creation(alloc: Global) -> Result<Event, OutOfMemory> {
    Ok(Event::Map(MapCommand::PoolCreate {
        name: Name::new(alloc, POOL)?,
        pg_num: GROUPS,
        size: 3,
        min_size: 2,
    }))
}

// The cluster's user.
fn addition(alloc: Global) -> Result<Event, OutOfMemory> {
    let mut caps = Caps::none();
    caps.osd = Some(Name::new(alloc, TEXT)?);
    let name = Name::new(alloc, USER)?;
    Ok(Event::Auth(AuthCommand::Add { name, caps }))
}

// What happened to the cluster, as events of a world.
fn events(alloc: Global) -> Result<Vec<Event>, OutOfMemory> {
    let mut events = Vec::with_capacity(alloc, 3)?;
    events.push(creation(alloc)?)?;
    events.push(addition(alloc)?)?;
    events.push(Event::Map(MapCommand::OsdDown(1)))?;
    Ok(events)
}

fn world_of_events(alloc: Global) -> Result<World, WorldFault> {
    let events = events(alloc).map_err(|_| WorldFault::OutOfMemory)?;
    let table = ProfileTable::builtin(alloc).map_err(|_| WorldFault::OutOfMemory)?;
    run(alloc, table, 3, events.as_slice()).map_err(|(_, fault)| fault)
}

// The groups of the pool.
fn groups(alloc: Global) -> Result<Vec<GroupId>, OutOfMemory> {
    let mut groups = Vec::with_capacity(alloc, 4)?;
    for number in 0..GROUPS {
        groups.push(group(alloc, number)?)?;
    }
    Ok(groups)
}

// The epoch, who is up, the user, and each group's wire.
fn look(world: &World, groups: &[GroupId]) -> u64 {
    let mut all = mix(NOTHING, u64::from(world.map().epoch()));
    for daemon in [0, 1, 2] {
        all = mix(all, u64::from(world.map().up().has(daemon)));
    }
    all = mix(all, u64::from(world.users().get(USER).is_ok()));
    for group in groups {
        all = match world.wire(group) {
            Ok(wire) => with_wire(mix(all, 1), wire),
            Err(_) => mix(all, 2),
        };
    }
    all
}

// Whether the world looks as one to which the same happened.
fn is_as_by_events(alloc: Global, world: &World) -> Result<bool, WorldFault> {
    let groups = groups(alloc).map_err(|_| WorldFault::OutOfMemory)?;
    let other = world_of_events(alloc)?;
    Ok(look(world, groups.as_slice()) == look(&other, groups.as_slice()))
}

// Whether the world looks as one to which the same happened. When out of memory, it looks once more.
fn is_as_by_events_again(alloc: Global, world: &World) -> bool {
    match is_as_by_events(alloc, world) {
        Err(WorldFault::OutOfMemory) => matches!(is_as_by_events(alloc, world), Ok(true)),
        Err(_) => false,
        Ok(same) => same,
    }
}

#[test]
fn a_change_is_finished(rt: HostRuntime) -> Result<(), Fail> {
    let alloc = rt.alloc();
    let (cluster, monitor, passes) = begun(&rt, alloc, GROUPS, 2)?;
    let Some((world, change)) = changed_and_closed(&rt, alloc, cluster, monitor, passes) else {
        return Err(Fail::new("no world"));
    };
    assert!(&rt; is_as_by_events_again(alloc, &world));
    match change {
        Change::Left(at) => Err(Fail::new(format_args!("left at group {at}"))),
        _ => Ok(()),
    }
}
