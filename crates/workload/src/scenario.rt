//! The workload: its cluster, its workers, and its end.

ghost use Rattle.std.specs.Prelude.{All, IfOk};
ghost use Rattle.cluster.specs.Asks.{IsBegun, IsPassOf};
ghost use Rattle.cluster.specs.Monitors.{IsMonitorOf, FollowsStart};
ghost use Rattle.world_core.specs.Parts.{FitTogether};
ghost use Rattle.workload.specs.Workers.{AreWorkersOf};

use crate::fault::WorkloadFault;
use crate::load::Load;
use crate::moving::move_often;
use crate::settling::{kick, settle};
use crate::tally::{Tally, tally_of};
use crate::team::{begin, passes_of, workers_of};
use crate::worker::{Worker, work_all};
use cluster::{Cluster, ClusterFault, Monitor, Pass};
use std::alloc::Global;
use std::sync::Wait;
use std::thread::{Threads, join_mut};
use world_core::{World, WorldParts};

/// How many groups the pool has.
const GROUPS: u32 = 4;

// The workers at work, while the monitor moves the groups where it is asked to: how many changes it made.
fn run_all<R: Threads + Wait + Sync>(
    rt: &R,
    alloc: Global,
    cluster: &Cluster,
    monitor: &mut Monitor,
    workers: &mut [Worker],
    moves: bool,
) -> Result<Option<u32>, WorkloadFault>
    requires monitor { IsMonitorOf cluster.now monitor.old × FollowsStart cluster.now monitor.old }
    requires workers { AreWorkersOf cluster.now workers.old }
    ensures monitor { IsMonitorOf cluster.now monitor.new × FollowsStart cluster.now monitor.new }
    ensures workers { AreWorkersOf cluster.now workers.new }
{
    if !moves {
        work_all(rt, alloc, cluster, workers, Load::Counting);
        return Ok(None);
    }
    let (moved, ()) = join_mut(
        rt,
        &mut || move_often(rt, cluster, monitor),
        &mut ||
            requires { AreWorkersOf cluster.now workers.now }
        { work_all(rt, alloc, cluster, workers, Load::Counting) },
    );
    match moved {
        Ok(count) => Ok(Some(count)),
        Err(fault) => Err(WorkloadFault::Change(fault)),
    }
}

// What the workers and the monitor do: the passes, and how many changes of the map there were.
fn work<R: Threads + Wait + Sync>(
    rt: &R,
    alloc: Global,
    cluster: &Cluster,
    monitor: &mut Monitor,
    passes: Vec<Pass>,
    moves: bool,
) -> Result<(Vec<Pass>, Option<u32>), WorkloadFault>
    requires monitor { IsMonitorOf cluster.now monitor.old × FollowsStart cluster.now monitor.old }
    requires passes { All (IsPassOf cluster.now) passes.items }
    ensures monitor { IsMonitorOf cluster.now monitor.new × FollowsStart cluster.now monitor.new }
    ensures passes { IfOk result (λ r. All (IsPassOf cluster.now) r.0.items) }
{
    let mut workers = workers_of(alloc, cluster, passes)?;
    let count = run_all(rt, alloc, cluster, monitor, workers.as_mut_slice(), moves)?;
    Ok((passes_of(alloc, cluster, workers)?, count))
}

// Closes the cluster. Where that is refused the monitor is ended.
fn close<R: Wait>(
    rt: &R,
    alloc: Global,
    cluster: Cluster,
    monitor: Monitor,
    passes: Vec<Pass>,
) -> Result<WorldParts, WorkloadFault>
    requires begun { IsBegun cluster }
    requires monitor { IsMonitorOf cluster monitor × FollowsStart cluster monitor }
    requires passes { All (IsPassOf cluster) passes.items }
    ensures { IfOk result FitTogether }
{
    match cluster.close(rt, alloc, monitor, passes) {
        Ok(parts) => Ok(parts),
        Err((fault, _cluster, monitor, _passes)) => {
            monitor.end(rt);
            Err(WorkloadFault::Close(fault))
        }
    }
}

// The parts of the world that the workload leaves, and how many changes of the map there were.
fn run_cluster<R: Threads + Wait + Sync>(
    rt: &R,
    alloc: Global,
    workers: u32,
    moves: bool,
) -> Result<(WorldParts, Option<u32>), WorkloadFault>
    ensures { IfOk result (λ r. FitTogether r.0) }
{
    let (cluster, mut monitor, passes) = begin(rt, alloc, GROUPS, workers)?;
    match work(rt, alloc, &cluster, &mut monitor, passes, moves) {
        Ok((passes, count)) => Ok((close(rt, alloc, cluster, monitor, passes)?, count)),
        Err(fault) => {
            monitor.end(rt);
            Err(fault)
        }
    }
}

/// Runs `workers` workers, at least one, over a cluster of three daemons and a pool of four groups. Each worker has a
/// thread of its own. Returns the world that they leave once every group has settled, and how many changes of the map
/// there were.
///
/// Each worker asks for 50 additions of 1 to one counter, as a user who is allowed to, and then for 10 appends, as one
/// who is not. With `moves` a daemon goes down and comes up 20 times meanwhile. Then each group settles, sends again
/// what is unanswered, and settles.
pub fn world_of_workload<R: Threads + Wait + Sync>(
    rt: &R,
    alloc: Global,
    workers: u32,
    moves: bool,
) -> Result<(World, Option<u32>), WorkloadFault> {
    let (parts, count) = run_cluster(rt, alloc, workers, moves)?;
    let Ok(mut world) = World::of(parts) else {
        return Err(WorkloadFault::Cluster(ClusterFault::OutOfMemory));
    };
    settle(alloc, &mut world, GROUPS)?;
    if moves {
        kick(alloc, &mut world, GROUPS)?;
        settle(alloc, &mut world, GROUPS)?;
    }
    Ok((world, count))
}

/// What became of the requests of such a workload.
pub fn run_workload<R: Threads + Wait + Sync>(
    rt: &R,
    alloc: Global,
    workers: u32,
    moves: bool,
) -> Result<Tally, WorkloadFault> {
    let (world, count) = world_of_workload(rt, alloc, workers, moves)?;
    Ok(tally_of(alloc, &world, workers.saturating_mul(2), count)?)
}
