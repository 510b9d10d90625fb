//! Starting a cluster.

ghost use Rattle.std.specs.Prelude.{◌≡◌, ℕ, ◌<◌, ◌≤◌, ◌^◌, ◌++◌, [], All, map as each, vec_len, IfOk, IfErr, IsNone, MatchResult};
ghost use Rattle.cluster.specs.Passes.{AreFreshOf, AreMonitorOf, HaveDrawnNone, firsts_of, start_of};
ghost use Rattle.cluster_locks.specs.Beginning as spec;
ghost use Rattle.cluster_locks.specs.Groups.{group_in};
ghost use Rattle.cluster_locks.specs.Shares.{pass_share};
ghost use Rattle.cluster.specs.Monitors.{IsMonitorOf, Follows, FollowsStart, IsWhole, own_map, monitor_seats};
ghost use Rattle.cluster.specs.Asks.{IsBegun, IsPassOf, seats_of, sessions_of};
ghost use Rattle.cluster.specs.Begun.{HasWorld, HasParts, HasChangedNothing, AreIdle};
ghost use Rattle.cluster.specs.Starts.{IsStartOf, IsWant, StartFails};

use crate::cluster::{Cluster, Seats};
use crate::fault::ClusterFault;
use crate::locks::open_cluster;
use crate::monitor::Monitor;
use crate::pass::Pass;
use cluster_locks::{LockedGroup, PoolSpec, UserSpec, UserTable, events_of};
use common_types::{OutOfMemory, TryClone};
use entry_core::GroupId;
use grant_core::ProfileTable;
use group_core::Group;
use map_core::ClusterMap;
use published_map::publish_first;
use std::alloc::{AllocError, Global};
use std::sync::Wait;
use world_core::{WorldFault, WorldParts, run};

/// How many news there may be at once, beside a reader for each pass.
const MAX_NEWS: usize = 64;

/// The most passes: each has a reader of the published map.
const MAX_PASSES: usize = 65536;

// Each group, to be put under a lock.
fn to_lock(alloc: Global, groups: Vec<Group>) -> Result<Vec<LockedGroup>, AllocError>
    ensures { IfOk result (λ locked. each group_in locked.items ≡ groups.items) }
{
    let mut locked = Vec::with_capacity(alloc, groups.len())?;
    for group in groups {
        locked.push(LockedGroup { group })?;
    }
    Ok(locked)
}

// Which groups these are, in order.
fn places_of(alloc: Global, groups: &[LockedGroup]) -> Result<Vec<GroupId>, AllocError>
    ensures { IfOk result (λ places. places.items ≡ each (λ g. g.group) (each group_in groups.now)) }
{
    let mut places = Vec::with_capacity(alloc, groups.len())?;
    for placed in groups {
        places.push(placed.group.group().copy()?)?;
    }
    Ok(places)
}

// A monitor of a cluster by its map, which is published for at most `readers` readers at once.
fn watch<R: Wait>(
    rt: &R,
    alloc: Global,
    cluster: &Cluster,
    seats: Seats,
    map: ClusterMap,
    places: Vec<GroupId>,
    readers: usize,
) -> Result<Monitor, OutOfMemory>
    requires seats { AreMonitorOf cluster.now seats }
    requires places { places.items ≡ each (λ g. g.group) (firsts_of cluster.now) }
    requires readers { (0 < readers) × (readers < 2 ^ 32) }
    ensures monitor { IfOk result (IsMonitorOf cluster.now) }
    ensures whole { IfOk result (λ monitor. IsNone monitor.unfinished × (monitor.seats ≡ seats) × (monitor.map ≡ map)) }
    ensures follows { IfOk result (λ monitor. (share : ℕ) → AreFreshOf cluster.now share seats → Follows map monitor) }
{
    let _groups = cluster.group_count();
    let writer = publish_first(rt, alloc, &map, readers)?;
    Ok(Monitor {
        map,
        places,
        seats,
        writer,
        unfinished: None,
    })
}

// A pass of these seats, with a reader that knows the monitor's map.
fn pass_with(
    alloc: Global,
    cluster: &Cluster,
    monitor: &mut Monitor,
    seats: Seats,
) -> Result<Pass, ClusterFault>
    requires monitor { IsMonitorOf cluster.now monitor.old × IsNone monitor.old.unfinished }
    requires follows { (monitor.old.map ≡ cluster.now.start) × Follows cluster.now.start monitor.old }
    requires begun { IsBegun cluster.now }
    requires fresh { AreFreshOf cluster.now (pass_share cluster.now.passes) seats }
    ensures monitor { IsMonitorOf cluster.now monitor.new × IsNone monitor.new.unfinished × (monitor.new.seats ≡ monitor.old.seats) }
    ensures follows { (monitor.new.map ≡ cluster.now.start) × Follows cluster.now.start monitor.new }
    ensures pass { IfOk result (λ pass. IsPassOf cluster.now pass × HaveDrawnNone pass.seats × (pass.sessions.items ≡ [])) }
    ensures err { IfErr result IsWant }
{
    match monitor.tell(cluster) {
        Err(_) => Err(ClusterFault::NoReader),
        Ok(news) => Ok(Pass {
            seats,
            reader: news.into_reader(),
            sessions: Vec::new(alloc),
        }),
    }
}

// A pass of each of these seats.
fn all_passes(
    alloc: Global,
    cluster: &Cluster,
    monitor: &mut Monitor,
    seats: Vec<Seats>,
) -> Result<Vec<Pass>, ClusterFault>
    requires monitor { HasChangedNothing cluster.now monitor.old }
    requires begun { IsBegun cluster.now }
    requires fresh { All (AreFreshOf cluster.now (pass_share cluster.now.passes)) seats.items }
    ensures monitor { HasChangedNothing cluster.now monitor.new }
    ensures passes { MatchResult result (λ passes. (vec_len passes ≡ vec_len seats) × AreIdle cluster.now passes.items) IsWant }
{
    let mut passes = Vec::new(alloc);
    for own in seats {
        passes.reserve(1)?;
        passes.push_reserved(pass_with(alloc, cluster, monitor, own)?);
    }
    Ok(passes)
}

// The cluster of a world's parts.
fn cluster_of<R: Wait>(
    rt: &R,
    alloc: Global,
    parts: WorldParts,
    passes: usize,
) -> Result<(Cluster, Monitor, Vec<Pass>), ClusterFault>
    requires { HasWorld parts }
    ensures { MatchResult result (λ r. HasParts parts r.0 × HasChangedNothing r.0 r.1 × (vec_len r.2 ≡ passes) × AreIdle r.0 r.2.items) IsWant }
{
    let WorldParts {
        users,
        map,
        sessions: _,
        groups,
    } = parts;
    if passes > MAX_PASSES {
        return Err(ClusterFault::NoReader);
    }
    let groups = to_lock(alloc, groups)?;
    let places = places_of(alloc, groups.as_slice())?;
    let start = map.copy()?;
    let users = UserTable {
        db: users,
        sessions: 0,
    };
    let (cluster, seats, all) = open_cluster(alloc, start, groups, users, passes)?;
    match watch(rt, alloc, &cluster, seats, map, places, passes + MAX_NEWS) {
        Err(_) => Err(ClusterFault::OutOfMemory),
        Ok(monitor) => with_passes(rt, alloc, cluster, monitor, all),
    }
}

// With a pass of each of these seats. Without them the monitor is ended.
fn with_passes<R: Wait>(
    rt: &R,
    alloc: Global,
    cluster: Cluster,
    mut monitor: Monitor,
    seats: Vec<Seats>,
) -> Result<(Cluster, Monitor, Vec<Pass>), ClusterFault>
    requires monitor { HasChangedNothing cluster monitor }
    requires begun { IsBegun cluster }
    requires fresh { All (AreFreshOf cluster (pass_share cluster.passes)) seats.items }
    ensures { MatchResult result (λ r. (r.0 ≡ cluster) × HasChangedNothing cluster r.1 × (vec_len r.2 ≡ vec_len seats) × AreIdle cluster r.2.items) IsWant }
{
    match all_passes(alloc, &cluster, &mut monitor, seats) {
        Ok(passes) => Ok((cluster, monitor, passes)),
        Err(fault) => {
            monitor.end(rt);
            Err(fault)
        }
    }
}

/// Starts a cluster of 1 to 16 daemons, all up, with these pools and users. It returns the cluster, its monitor, and
/// `passes` passes: one for each thread, and at least one.
///
/// No pool can be created later. Each pass may take about 2^64 / (passes + 1) turns on each group and on the users.
///
/// A world creates the pools in order, then adds the users: the first of these events that it refuses is the fault.
/// K3: out of memory. K4: the published map gives no reader; it can give one for each of 65,536 passes.
pub fn start<R: Wait>(
    rt: &R,
    alloc: Global,
    table: ProfileTable,
    daemons: u8,
    pools: Vec<PoolSpec>,
    users: Vec<UserSpec>,
    passes: usize,
) -> Result<(Cluster, Monitor, Vec<Pass>), ClusterFault>
    requires some { 1 ≤ daemons }
    requires few { daemons ≤ 16 }
    requires pass { 1 ≤ passes }
    ensures begun { IfOk result (λ r. IsBegun r.0) }
    ensures cluster { IfOk result (λ r. IsStartOf table daemons (spec.events_of pools.items users.items) r.0) }
    ensures monitor { IfOk result (λ r. IsMonitorOf r.0 r.1 × FollowsStart r.0 r.1) }
    ensures whole { IfOk result (λ r. IsWhole r.1 × (own_map r.1 ≡ start_of r.0)) }
    ensures passes { IfOk result (λ r. (vec_len r.2 ≡ passes) × All (IsPassOf r.0) r.2.items) }
    ensures idle { IfOk result (λ r. All (λ pass. sessions_of pass ≡ []) r.2.items) }
    ensures numbers { IfOk result (λ r. HaveDrawnNone (monitor_seats r.1) × All (λ pass. HaveDrawnNone (seats_of pass)) r.2.items) }
    ensures err { IfErr result (λ fault. StartFails table daemons (spec.events_of pools.items users.items) fault) }
{
    let events = events_of(alloc, pools, users)?;
    match run(alloc, table, daemons, events.as_slice()) {
        Ok(world) => cluster_of(rt, alloc, world.into_parts(), passes),
        Err((_, WorldFault::OutOfMemory)) => Err(ClusterFault::OutOfMemory),
        Err((_, fault)) => Err(ClusterFault::World(fault)),
    }
}
