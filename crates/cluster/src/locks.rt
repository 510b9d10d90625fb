//! The locks of a cluster, and their seats.

ghost use Rattle.std.specs.Prelude.{◌≡◌, ℕ, ◌+◌, ◌<◌, [], ◌∷◌, ◌++◌, All, vec_len, map as each, IfOk};
ghost use Rattle.turn_lock.specs.Seats.{IsNewSeatOf, first_of};
ghost use Rattle.cluster_locks.specs.Places.{InStep, Beside, IsFreshRow, share_of};
ghost use Rattle.cluster.specs.Passes.{ArePassOf, AreMonitorOf, AreFreshOf, firsts_of};
ghost use Rattle.cluster_locks.specs.Groups.{group_in};
ghost use Rattle.cluster_locks.specs.Shares.{pass_share, monitor_share, shares_of};

use crate::cluster::{Cluster, Seats};
use cluster_locks::{LockedGroup, Row, UserTable, open_groups, open_lock};
use map_core::ClusterMap;
use std::alloc::{AllocError, Global};

// Each row with a seat of the users.
fn pair(
    alloc: Global,
    mut rows: Vec<Row<LockedGroup>>,
    mut users: Row<UserTable>,
) -> Result<Vec<Seats>, AllocError>
    requires { vec_len users ≡ vec_len rows }
    ensures { IfOk result (λ all. InStep (λ row seat s. (s.groups.items ≡ row.items) × (s.users ≡ seat)) rows.items users.items all.items) }
{
    let mut all = Vec::with_capacity(alloc, rows.len())?;
    while let Some(row) = rows.pop() {
        all.push(Seats::of(row, users.pop().unwrap()))?;
    }
    all.reverse();
    Ok(all)
}

/// A cluster that begins with this map, these groups and these users, the seats of its monitor, and those of `passes`
/// passes.
///
/// The passes and the monitor evenly share all numbers that their turns may draw. Each pass may take about
/// 2^64 / (passes + 1) turns on each lock.
pub(crate) fn open_cluster(
    alloc: Global,
    map: ClusterMap,
    groups: Vec<LockedGroup>,
    users: UserTable,
    passes: usize,
) -> Result<(Cluster, Seats, Vec<Seats>), AllocError>
    ensures count { IfOk result (λ r. (r.0.passes ≡ passes) × (vec_len r.2 ≡ passes)) }
    ensures monitor { IfOk result (λ r. AreMonitorOf r.0 r.1) }
    ensures passes { IfOk result (λ r. All (ArePassOf r.0) r.2.items) }
    ensures fresh { IfOk result (λ r. AreFreshOf r.0 (monitor_share passes) r.1 × All (AreFreshOf r.0 (pass_share passes)) r.2.items) }
    ensures groups { IfOk result (λ r. firsts_of r.0 ≡ each group_in groups.items) }
    ensures users { IfOk result (λ r. r.0.users.first ≡ users) }
    ensures start { IfOk result (λ r. r.0.start ≡ map) }
{
    let Some(count) = passes.checked_add(1) else {
        return Err(AllocError);
    };
    let (locks, rows) = open_groups(alloc, groups, count)?;
    let (users, seats) = open_lock(alloc, users, count)?;
    let mut all = pair(alloc, rows, seats)?;
    let monitor = all.pop().unwrap();
    Ok((Cluster::of(locks, users, map, passes), monitor, all))
}
