//! Loads that are measured: on threads of a cluster, and on one thread of a world.

ghost use Rattle.std.specs.Prelude.{All};
ghost use Rattle.cluster.specs.Asks.{IsPassOf};
ghost use Rattle.cluster.specs.Monitors.{IsMonitorOf, FollowsStart};
ghost use Rattle.workload.specs.Workers.{AreWorkersOf};

use crate::fault::WorkloadFault;
use crate::load::Load;
use crate::moving::move_until;
use crate::team::{begin, sum_of, workers_of};
use crate::worker::{Worker, work_all};
use cluster::{Cluster, Monitor, Pass};
use std::alloc::Global;
use std::sync::Wait;
use std::sync::atomic::{AtomicU64, Ordering};
use std::thread::{Threads, join_mut};

// The workers at work, while the monitor moves the groups until they end.
fn work_and_move<R: Threads + Wait + Sync>(
    rt: &R,
    alloc: Global,
    cluster: &Cluster,
    monitor: &mut Monitor,
    workers: &mut [Worker],
    load: Load,
) -> Result<(), WorkloadFault>
    requires monitor { IsMonitorOf cluster.now monitor.old × FollowsStart cluster.now monitor.old }
    requires workers { AreWorkersOf cluster.now workers.old }
{
    let ended = AtomicU64::new(0);
    let (moved, ()) = join_mut(
        rt,
        &mut || move_until(rt, cluster, monitor, &ended),
        &mut ||
            requires { AreWorkersOf cluster.now workers.now }
        {
            work_all(rt, alloc, cluster, workers, load);
            ended.store(1, Ordering::SeqCst);
        },
    );
    match moved {
        Ok(()) => Ok(()),
        Err(fault) => Err(WorkloadFault::Change(fault)),
    }
}

// The workers at work, while the monitor moves the groups where it is asked to: how much they did.
fn work<R: Threads + Wait + Sync>(
    rt: &R,
    alloc: Global,
    cluster: &Cluster,
    monitor: &mut Monitor,
    passes: Vec<Pass>,
    load: Load,
    moves: bool,
) -> Result<u64, WorkloadFault>
    requires monitor { IsMonitorOf cluster.now monitor.old × FollowsStart cluster.now monitor.old }
    requires passes { All (IsPassOf cluster.now) passes.items }
{
    let mut workers = workers_of(alloc, cluster, passes)?;
    if moves {
        work_and_move(rt, alloc, cluster, monitor, workers.as_mut_slice(), load)?;
    } else {
        work_all(rt, alloc, cluster, workers.as_mut_slice(), load);
    }
    sum_of(workers)
}

/// Runs a load with `workers` workers, at least one, over a new cluster of three daemons and a pool of `groups` groups.
/// Each worker has a thread of its own. Returns how much of what they asked for had the expected result: requests done,
/// verdicts that allow, views that show the pool.
///
/// With `moves` a daemon goes down and comes up meanwhile, until the workers end, or 500 times.
pub fn run_load<R: Threads + Wait + Sync>(
    rt: &R,
    alloc: Global,
    groups: u32,
    workers: u32,
    load: Load,
    moves: bool,
) -> Result<u64, WorkloadFault> {
    let (cluster, mut monitor, passes) = begin(rt, alloc, groups, workers)?;
    let done = work(rt, alloc, &cluster, &mut monitor, passes, load, moves);
    monitor.end(rt);
    done
}
