//! The cluster that each test begins with.

ghost use Rattle.std.specs.Prelude.{◌≤◌, All, IfOk, IfSome};
ghost use Rattle.cluster.specs.Asks.{IsBegun, IsPassOf};
ghost use Rattle.cluster.specs.Monitors.{IsMonitorOf, FollowsStart};

use auth_db::Caps;
use cluster::{Cluster, ClusterFault, Monitor, Pass, PoolSpec, UserSpec, start};
use common_types::{Name, OutOfMemory};
use entry_core::GroupId;
use grant_core::ProfileTable;
use std::alloc::Global;
use std::sync::Wait;

/// The one pool.
pub(crate) const POOL: &str = "data";

/// The one user, who may read and write.
pub(crate) const USER: &str = "client.a";

/// The user's osd text.
pub(crate) const TEXT: &str = "allow rw";

fn user(alloc: Global) -> Result<UserSpec, OutOfMemory> {
    let mut caps = Caps::none();
    caps.osd = Some(Name::new(alloc, TEXT)?);
    Ok(UserSpec {
        name: Name::new(alloc, USER)?,
        caps,
    })
}

fn pool(alloc: Global, groups: u32) -> Result<PoolSpec, OutOfMemory> {
    Ok(PoolSpec {
        name: Name::new(alloc, POOL)?,
        pg_num: groups,
        size: 3,
        min_size: 2,
    })
}

fn begun_once<R: Wait>(
    rt: &R,
    alloc: Global,
    groups: u32,
    passes: usize,
) -> Result<(Cluster, Monitor, Vec<Pass>), ClusterFault>
    requires { 1 ≤ passes }
    ensures begun { IfOk result (λ r. IsBegun r.0 × All (IsPassOf r.0) r.2.items) }
    ensures monitor { IfOk result (λ r. IsMonitorOf r.0 r.1 × FollowsStart r.0 r.1) }
{
    let pools = vec![in alloc; pool(alloc, groups)?]?;
    let users = vec![in alloc; user(alloc)?]?;
    let table = ProfileTable::builtin(alloc)?;
    start(rt, alloc, table, 3, pools, users, passes)
}

/// A cluster of three daemons, with the pool in `groups` groups, size 3, min_size 2, its user, and `passes` passes.
/// When out of memory, it begins once more.
pub(crate) fn begun<R: Wait>(
    rt: &R,
    alloc: Global,
    groups: u32,
    passes: usize,
) -> Result<(Cluster, Monitor, Vec<Pass>), ClusterFault>
    requires { 1 ≤ passes }
    ensures begun { IfOk result (λ r. IsBegun r.0 × All (IsPassOf r.0) r.2.items) }
    ensures monitor { IfOk result (λ r. IsMonitorOf r.0 r.1 × FollowsStart r.0 r.1) }
{
    match begun_once(rt, alloc, groups, passes) {
        Ok(begun) => Ok(begun),
        Err(ClusterFault::OutOfMemory) => begun_once(rt, alloc, groups, passes),
        Err(fault) => Err(fault),
    }
}

/// The next pass.
pub(crate) fn take_pass(cluster: &Cluster, passes: &mut Vec<Pass>) -> Option<Pass>
    requires { All (IsPassOf cluster.now) passes.old.items }
    ensures rest { All (IsPassOf cluster.now) passes.new.items }
    ensures pass { IfSome result (IsPassOf cluster.now) }
{
    passes.pop()
}

/// Puts the pass behind the others: whether there was memory.
pub(crate) fn put_pass(cluster: &Cluster, passes: &mut Vec<Pass>, pass: Pass) -> bool
    requires rest { All (IsPassOf cluster.now) passes.old.items }
    requires pass { IsPassOf cluster.now pass }
    ensures { All (IsPassOf cluster.now) passes.new.items }
{
    passes.push(pass).is_ok()
}

/// A group of the pool.
pub(crate) fn group(alloc: Global, number: u32) -> Result<GroupId, OutOfMemory> {
    Ok(GroupId {
        pool: Name::new(alloc, POOL)?,
        number,
    })
}
