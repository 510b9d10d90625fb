//! Workers: a thread for each pass, which delivers messages round by round.

ghost use Rattle.std.specs.Prelude.{◌≡◌, ◌↔◌, ◌<◌, ◌≤◌, ℕ, [], Err, All, map as each, false, length, slice_index_or, vec_len, IsTrue, MatchResult, Result};
ghost use Rattle.std.specs.Vec.{vec_capacity};
ghost use Rattle.cluster_locks.specs.Places.{Beside};
ghost use Rattle.cluster.specs.Asks.{IsPassOf};
ghost use Rattle.cluster.specs.declared.fault.ClusterFault.{ClusterFault as Fault};
ghost use Rattle.cluster.specs.Passes.{group_count};
ghost use Rattle.cluster.specs.Deliveries.{WorksAt};
ghost use Rattle.cluster.specs.Workers.{HasWorked, HasWorkedOf, HasDelivered, IsCutShortBy, EndsBy, IsPassedOver, GoesOnAfter, TellsFault, AreAtWork, first_fault, pass_of, fault_of};

use crate::cluster::Cluster;
use crate::fault::ClusterFault;
use crate::pass::Pass;
use cluster_locks::{Worked, first_of};
use group_messages::GroupFault;
use std::alloc::Global;
use std::sync::Wait;
use std::thread;
use std::thread::Threads;
use world_core::WorldFault;

/// Submitted before each round of a worker.
pub trait Gate {
    // Which rounds of which workers the gate may refuse.
    ghost refuses: { Self → ℕ → ℕ → Type 0 } = { λ _ _ _. Unit {0} };

    /// Whether this worker goes on with this round, both counted from 0. The worker ends where it does not.
    fn enter(&self, worker: usize, round: u32) -> bool
        ensures { result ≡ false → refuses self.now worker round };
}

/// A pass at work, and why it ended before its last round, if it did.
#[derive(Drop)]
struct Worker {
    pass: Pass,
    fault: Option<ClusterFault>,
}

// Whether a worker passes over a fault: the message was to a daemon that is down, and is dropped.
fn is_passed_over(fault: &ClusterFault) -> bool
    ensures { IsTrue result ↔ IsPassedOver fault.now }
{
    matches!(
        fault,
        ClusterFault::World(WorldFault::Group(GroupFault::Unreachable))
    )
}

// Delivers message 0 of a group. `Ok` also where the fault is passed over.
fn work_one<R: Wait>(
    rt: &R,
    cluster: &Cluster,
    pass: &mut Pass,
    place: usize,
) -> Result<(), ClusterFault>
    requires pass { IsPassOf cluster.now pass.old }
    requires place { place < group_count cluster.now }
    ensures pass { IsPassOf cluster.now pass.new }
    ensures told { MatchResult result (λ _. (answer : Result Worked Fault) × WorksAt cluster.now place pass.old pass.new answer × GoesOnAfter answer)
        (λ fault. WorksAt cluster.now place pass.old pass.new (Err fault) × (IsPassedOver fault → ⊥)) }
{
    match cluster.work_at(rt, pass, place) {
        Ok(_) => Ok(()),
        Err(fault) => {
            if is_passed_over(&fault) {
                Ok(())
            } else {
                Err(fault)
            }
        }
    }
}

// Delivers message 0 of each group, in order, once, and passes over messages to daemons that are down.
fn work_round<R: Wait>(rt: &R, cluster: &Cluster, pass: &mut Pass) -> Result<(), ClusterFault>
    requires { IsPassOf cluster.now pass.old }
    ensures pass { IsPassOf cluster.now pass.new }
    ensures worked { HasWorked 1 pass.old pass.new }
    ensures told { MatchResult result (λ _. HasDelivered cluster.now (group_count cluster.now) pass.old pass.new) (λ fault. IsCutShortBy cluster.now fault pass.old pass.new) }
{
    for place in 0..cluster.group_count() {
        match work_one(rt, cluster, pass, place) {
            Ok(()) => {}
            Err(fault) => return Err(fault),
        }
    }
    Ok(())
}

// At most `rounds` rounds, as long as the gate lets the worker in.
fn work_rounds<R: Wait, G: Gate>(
    rt: &R,
    cluster: &Cluster,
    gate: &G,
    number: usize,
    pass: &mut Pass,
    rounds: u32,
) -> Option<ClusterFault>
    requires { IsPassOf cluster.now pass.old }
    ensures pass { IsPassOf cluster.now pass.new }
    ensures worked { HasWorked rounds pass.old pass.new }
    ensures told { EndsBy cluster.now (G.refuses gate.now number) rounds result pass.old pass.new }
{
    for round in 0..rounds {
        if !gate.enter(number, round) {
            return None;
        }
        match work_round(rt, cluster, pass) {
            Ok(()) => {}
            Err(fault) => return Some(fault),
        }
    }
    None
}

// One worker's rounds. It keeps the fault that ended it.
fn work_on<R: Wait, G: Gate>(
    rt: &R,
    cluster: &Cluster,
    gate: &G,
    number: usize,
    worker: &mut Worker,
    rounds: u32,
)
    requires { IsPassOf cluster.now worker.old.pass }
    ensures { HasWorkedOf cluster.now (G.refuses gate.now number) rounds worker.old worker.new }
{
    worker.fault = work_rounds(rt, cluster, gate, number, &mut worker.pass, rounds);
}

// All workers' rounds, each on a thread of its own where there can be one.
fn work_all<R: Threads + Wait + Sync, G: Gate + Sync>(
    rt: &R,
    cluster: &Cluster,
    gate: &G,
    workers: &mut [Worker],
    rounds: u32,
)
    requires { AreAtWork cluster.now workers.old }
    ensures count { length workers.new ≡ length workers.old }
    ensures each { (i : ℕ) (d : Worker) → i < length workers.old → HasWorkedOf cluster.now (G.refuses gate.now i) rounds (slice_index_or workers.old i d) (slice_index_or workers.new i d) }
{
    let count = workers.len();
    if count == 0 {
        return;
    }
    thread::for_each_mut(
        rt,
        workers,
        count,
        &|number, worker|
            requires { IsPassOf cluster.now worker.now.pass }
            ensures { HasWorkedOf cluster.entry.now (G.refuses gate.entry.now number) rounds worker.entry.now worker.exit.now }
        { work_on(rt, cluster, gate, number, worker, rounds) },
    );
}

// Passes, to be put to work.
fn enlist(passes: Vec<Pass>, mut workers: Vec<Worker>) -> Vec<Worker>
    requires { (workers.items ≡ []) × (vec_len passes ≤ vec_capacity workers) }
    ensures { each pass_of result.items ≡ passes.items }
{
    for pass in passes {
        workers.push_reserved(Worker { pass, fault: None });
    }
    workers
}

// The passes of workers, and the first fault that ended one.
fn dismiss(workers: Vec<Worker>, mut passes: Vec<Pass>) -> (Vec<Pass>, Option<ClusterFault>)
    requires { (passes.items ≡ []) × (vec_len workers ≤ vec_capacity passes) }
    ensures passes { result.0.items ≡ each pass_of workers.items }
    ensures fault { result.1 ≡ first_fault (each fault_of workers.items) }
{
    let mut first = None;
    for worker in workers {
        first = first_of(first, worker.fault);
        passes.push_reserved(worker.pass);
    }
    (passes, first)
}

/// Runs workers that deliver messages, each with a pass and on a thread of its own: worker w has pass w, both counted
/// from 0.
///
/// In each of the `rounds` a worker asks the gate, and ends if the gate does not let it in. Then it delivers message 0
/// of each group once, in order. It passes over a message to a daemon that is down. Another fault ends that worker. So
/// a worker without a fault has done all its rounds, or those before one that the gate refused.
///
/// The passes are returned in order, even if a worker ended early. The fault is that of the last turn of the first
/// worker, by number, that a fault ended. If memory runs out before any round, it is K3. If no thread can be started,
/// the workers run one after another, so a gate that waits for another worker may wait forever.
pub fn run_workers<R: Threads + Wait + Sync, G: Gate + Sync>(
    rt: &R,
    alloc: Global,
    cluster: &Cluster,
    passes: Vec<Pass>,
    gate: &G,
    rounds: u32,
) -> (Vec<Pass>, Option<ClusterFault>)
    requires { All (IsPassOf cluster.now) passes.items }
    ensures passes { All (IsPassOf cluster.now) result.0.items }
    ensures worked { Beside (HasWorked rounds) passes.items result.0.items }
    ensures fault { TellsFault cluster.now (G.refuses gate.now) rounds passes.items result.0.items result.1 }
{
    let Ok(workers) = Vec::with_capacity(alloc, passes.len()) else {
        return (passes, Some(ClusterFault::OutOfMemory));
    };
    let Ok(room) = Vec::with_capacity(alloc, passes.len()) else {
        return (passes, Some(ClusterFault::OutOfMemory));
    };
    let mut workers = enlist(passes, workers);
    work_all(rt, cluster, gate, workers.as_mut_slice(), rounds);
    dismiss(workers, room)
}
