//! Closing a cluster.

ghost use Rattle.std.specs.Prelude.{◌≡◌, ◌≤◌, [], All, map as each, vec_len, IfOk, IfErr, OnOk, IsNone};
ghost use Rattle.std.specs.Vec.{vec_capacity};
ghost use Rattle.world_core.specs.Parts.{FitTogether};
ghost use Rattle.cluster.specs.Passes.{AreSeatsOf, Gathers};
ghost use Rattle.cluster_locks.specs.Groups.{group_in};
ghost use Rattle.cluster.specs.Monitors.{IsMonitorOf, IsWhole, Follows, FollowsStart};
ghost use Rattle.cluster.specs.Asks.{IsBegun, IsPassOf, seats_of, sessions_of};
ghost use Rattle.cluster.specs.Ends.{IsEndOf, AreAll, CloseFails};
ghost use Rattle.cluster.specs.Numbering.{AreNumbered, HasRoom};

use crate::cluster::{Cluster, Ended, Seats};
use crate::monitor::Monitor;
use crate::numbering::{greatest_number, sessions_by_number};
use crate::pass::Pass;
use cluster_locks::{LockedGroup, UserTable};
use group_core::Group;
use std::alloc::{AllocError, Global};
use std::sync::Wait;
use world_core::{Session, WorldParts};

/// Why a cluster is not closed.
#[derive(Clone, Copy, Debug, PartialEq, Eq)]
pub enum CloseFault {
    /// L1: a pass that `start` gave is missing. The call checks the number of passes, and that the numbers of their
    /// sessions have no gap: they have none if all passes are there.
    MissingPass,
    /// L2: a change of the map is unfinished.
    Unfinished,
    /// L3: a growth was refused.
    OutOfMemory,
}

// Memory for the groups, under locks and without, and the sessions.
struct Room {
    locked: Vec<LockedGroup>,
    groups: Vec<Group>,
    sessions: Vec<Session>,
}

// Memory for the groups, and copies of the sessions, whose greatest number is this.
fn take_room(
    alloc: Global,
    cluster: &Cluster,
    passes: &[Pass],
    most: u32,
) -> Result<Room, AllocError>
    requires { AreNumbered (each sessions_of passes.now) most }
    ensures { IfOk result (HasRoom cluster.now (each sessions_of passes.now)) }
{
    let count = cluster.group_count();
    Ok(Room {
        locked: Vec::with_capacity(alloc, count)?,
        groups: Vec::with_capacity(alloc, count)?,
        sessions: sessions_by_number(alloc, passes, most)?,
    })
}

// Whether all passes are there and nothing is unfinished, and then memory for the end.
fn prepare(
    alloc: Global,
    cluster: &Cluster,
    monitor: &Monitor,
    passes: &[Pass],
) -> Result<Room, CloseFault>
    ensures room { IfOk result (HasRoom cluster.now (each sessions_of passes.now)) }
    ensures whole { OnOk result (AreAll cluster.now passes.now × IsNone monitor.now.unfinished) }
    ensures err { IfErr result (CloseFails cluster.now monitor.now passes.now) }
{
    if passes.len() != cluster.pass_count() {
        return Err(CloseFault::MissingPass);
    }
    let Some(most) = greatest_number(passes) else {
        return Err(CloseFault::MissingPass);
    };
    if monitor.unfinished.is_some() {
        return Err(CloseFault::Unfinished);
    }
    match take_room(alloc, cluster, passes, most) {
        Ok(room) => Ok(room),
        Err(_) => Err(CloseFault::OutOfMemory),
    }
}

// The monitor's seats, which have heard of all passes and have their numbers.
fn gather(cluster: &Cluster, mut all: Seats, passes: Vec<Pass>) -> Seats
    requires seats { AreSeatsOf cluster.now all }
    requires passes { All (λ pass. AreSeatsOf cluster.now pass.seats) passes.items }
    ensures seats { AreSeatsOf cluster.now result }
    ensures heard { Gathers all (each seats_of passes.items) result }
{
    for pass in passes {
        cluster.absorb(&mut all, pass.seats);
    }
    all
}

// The groups, without their locks.
fn unlock(locked: Vec<LockedGroup>, mut groups: Vec<Group>) -> Vec<Group>
    requires { (groups.items ≡ []) × (vec_len locked ≤ vec_capacity groups) }
    ensures { result.items ≡ each group_in locked.items }
{
    for placed in locked {
        groups.push_reserved(placed.group);
    }
    groups
}

// Ends the publication, and takes a last turn on each lock, by seats that have heard of all.
fn end_all<R: Wait>(
    rt: &R,
    cluster: Cluster,
    monitor: Monitor,
    passes: Vec<Pass>,
    room: Room,
) -> WorldParts
    requires begun { IsBegun cluster }
    requires monitor { IsMonitorOf cluster monitor × Follows cluster.start monitor × IsNone monitor.unfinished }
    requires passes { All (IsPassOf cluster) passes.items }
    requires all { AreAll cluster passes.items }
    requires room { HasRoom cluster (each sessions_of passes.items) room }
    ensures end { IsEndOf cluster monitor passes.items result }
    ensures fits { FitTogether result }
{
    let Room {
        locked,
        groups,
        sessions,
    } = room;
    let (map, seats) = monitor.end(rt);
    let _epoch = map.epoch();
    let all = gather(&cluster, seats, passes);
    let Ended {
        groups: locked,
        users,
    } = cluster.end(rt, all, locked);
    let UserTable { db, sessions: _ } = users;
    WorldParts {
        users: db,
        map,
        sessions,
        groups: unlock(locked, groups),
    }
}

impl Cluster {
    /// Closes the cluster, and gives the parts of a world: the users, the monitor's map, the groups, and the sessions of all passes.
    ///
    /// Pass the parts to `World::of`, which makes a world of them if there is memory for it. How much that takes is
    /// known only once the locks are open. So it is a separate call, which returns the parts if an allocation fails.
    ///
    /// The first of these faults that applies is returned: L1 if a pass is missing, L2 if a change of the map is
    /// unfinished, L3 if an allocation fails. All memory is taken before the first lock is closed. So at `Err`
    /// nothing changed, and the cluster, the monitor and the passes are returned.
    ///
    /// It ends the publication, for which it waits until no reader is within a reading. It takes a last turn on each
    /// lock. A note that nobody has read does not hinder it. Its time is at most quadratic in the number of
    /// sessions.
    pub fn close<R: Wait>(
        self,
        rt: &R,
        alloc: Global,
        monitor: Monitor,
        passes: Vec<Pass>,
    ) -> Result<WorldParts, (CloseFault, Cluster, Monitor, Vec<Pass>)>
        requires begun { IsBegun self }
        requires monitor { IsMonitorOf self monitor × FollowsStart self monitor }
        requires passes { All (IsPassOf self) passes.items }
        ensures end { IfOk result (IsEndOf self monitor passes.items) }
        ensures fits { IfOk result FitTogether }
        ensures whole { OnOk result (AreAll self passes.items × IsWhole monitor) }
        ensures fault { IfErr result (λ refused. CloseFails self monitor passes.items refused.0) }
        ensures back { IfErr result (λ refused. (refused.1 ≡ self) × (refused.2 ≡ monitor) × (refused.3 ≡ passes)) }
    {
        match prepare(alloc, &self, &monitor, passes.as_slice()) {
            Ok(room) => Ok(end_all(rt, self, monitor, passes, room)),
            Err(fault) => Err((fault, self, monitor, passes)),
        }
    }
}
