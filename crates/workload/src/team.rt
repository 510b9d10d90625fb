//! A cluster, and a worker for each of its passes.

ghost use Rattle.std.specs.Prelude.{All, IfOk};
ghost use Rattle.cluster.specs.Asks.{IsBegun, IsPassOf};
ghost use Rattle.cluster.specs.Monitors.{IsMonitorOf, FollowsStart};
ghost use Rattle.workload.specs.Workers.{AreWorkersOf};

use crate::asking::POOL;
use crate::fault::WorkloadFault;
use crate::worker::{READER, WRITER, Worker};
use auth_db::Caps;
use cluster::{Cluster, Monitor, Pass, PoolSpec, UserSpec, start};
use common_types::Name;
use grant_core::ProfileTable;
use std::alloc::Global;
use std::sync::Wait;

/// How many daemons there are.
pub(crate) const DAEMONS: u8 = 3;

// A user with an osd text alone.
fn user(alloc: Global, name: &str, osd: &str) -> Result<UserSpec, WorkloadFault> {
    let mut caps = Caps::none();
    caps.osd = Some(Name::new(alloc, osd)?);
    Ok(UserSpec {
        name: Name::new(alloc, name)?,
        caps,
    })
}

// The pool, of `groups` groups.
fn pools(alloc: Global, groups: u32) -> Result<Vec<PoolSpec>, WorkloadFault> {
    let pool = PoolSpec {
        name: Name::new(alloc, POOL)?,
        pg_num: groups,
        size: 3,
        min_size: 2,
    };
    Ok(vec![in alloc; pool]?)
}

// Who may add, and who may read alone.
fn users(alloc: Global) -> Result<Vec<UserSpec>, WorkloadFault> {
    let writer = user(alloc, WRITER, "allow rwx pool=data")?;
    let reader = user(alloc, READER, "allow r pool=data")?;
    let mut users = vec![in alloc; writer]?;
    users.push(reader)?;
    Ok(users)
}

// A cluster of three daemons and a pool of `groups` groups, with `passes` passes, at least one.
pub(crate) fn begin<R: Wait>(
    rt: &R,
    alloc: Global,
    groups: u32,
    passes: u32,
) -> Result<(Cluster, Monitor, Vec<Pass>), WorkloadFault>
    ensures begun { IfOk result (λ r. IsBegun r.0 × All (IsPassOf r.0) r.2.items) }
    ensures monitor { IfOk result (λ r. IsMonitorOf r.0 r.1 × FollowsStart r.0 r.1) }
{
    let table = ProfileTable::builtin(alloc)?;
    let pools = pools(alloc, groups)?;
    let users = users(alloc)?;
    let passes = if passes == 0 { 1 } else { passes as usize };
    Ok(start(rt, alloc, table, DAEMONS, pools, users, passes)?)
}

// A worker for each pass.
pub(crate) fn workers_of(
    alloc: Global,
    cluster: &Cluster,
    passes: Vec<Pass>,
) -> Result<Vec<Worker>, WorkloadFault>
    requires { All (IsPassOf cluster.now) passes.items }
    ensures { IfOk result (λ workers. AreWorkersOf cluster.now workers.items) }
{
    let mut workers = Vec::new(alloc);
    for pass in passes {
        workers.push(Worker {
            pass,
            done: 0,
            fault: None,
        })?;
    }
    Ok(workers)
}

// The passes of workers that met no fault.
pub(crate) fn passes_of(
    alloc: Global,
    cluster: &Cluster,
    workers: Vec<Worker>,
) -> Result<Vec<Pass>, WorkloadFault>
    requires { AreWorkersOf cluster.now workers.items }
    ensures { IfOk result (λ passes. All (IsPassOf cluster.now) passes.items) }
{
    let mut passes = Vec::new(alloc);
    for worker in workers {
        if let Some(fault) = worker.fault {
            return Err(WorkloadFault::Cluster(fault));
        }
        passes.push(worker.pass)?;
    }
    Ok(passes)
}

// How much all workers did, where none met a fault.
pub(crate) fn sum_of(workers: Vec<Worker>) -> Result<u64, WorkloadFault> {
    let mut sum: u64 = 0;
    for worker in workers {
        if let Some(fault) = worker.fault {
            return Err(WorkloadFault::Cluster(fault));
        }
        sum = sum.saturating_add(worker.done as u64);
    }
    Ok(sum)
}
