//! Two workers on threads of their own, one of which meets a fault.

ghost use Rattle.std.specs.Prelude.{All};
ghost use Rattle.cluster.specs.Asks.{IsPassOf};

use crate::begun::{begun, put_pass, take_pass};
use crate::steps::{Expected, Row, Step, are_made};
use Outcome::{Before, Done, Met};
use cluster::{Cluster, ClusterFault, Gate, Pass, run_workers};
use std::alloc::Global;
use std::sync::Wait;
use std::sync::atomic::{AtomicU64, Ordering};
use std::test::Fail;
use std::thread::Threads;

/// How many rounds the workers have, which is more than enough.
const ROUNDS: u32 = 24;

/// How the workers ended: by no fault, by one before any round, or by one in a round.
#[derive(Clone, Copy, PartialEq, Eq)]
enum Outcome {
    Done,
    Before,
    Met,
}

/// A session asks, and nothing is delivered yet.
const ASK: &[Row; 2] = &[
    (Step::Open, Expected::Session(1)),
    (Step::Append(1), Expected::First(1)),
];

/// It is answered.
const ANSWER: &[Row; 1] = &[(Step::Answer(1), Expected::Output(""))];

/// Lets each worker in, and counts them.
#[derive(Drop)]
struct Count {
    entries: AtomicU64,
}

impl Gate for Count {
    fn enter(&self, _worker: usize, _round: u32) -> bool {
        self.entries.fetch_add(1, Ordering::SeqCst);
        true
    }
}

// Runs the rounds of all workers. Returns how they ended, or `None` for a fault other than out of memory.
fn run<R: Threads + Wait + Sync>(
    rt: &R,
    alloc: Global,
    cluster: &Cluster,
    passes: Vec<Pass>,
) -> (Vec<Pass>, Option<Outcome>)
    requires { All (IsPassOf cluster.now) passes.items }
    ensures { All (IsPassOf cluster.now) result.0.items }
{
    let count = Count {
        entries: AtomicU64::new(0),
    };
    let (passes, fault) = run_workers(rt, alloc, cluster, passes, &count, ROUNDS);
    let began = count.entries.load(Ordering::SeqCst) > 0;
    let ended = match fault {
        None => Some(Done),
        Some(ClusterFault::OutOfMemory) => Some(if began { Met } else { Before }),
        Some(_) => None,
    };
    (passes, ended)
}

// Calls `run`, and once more after a fault. The second run must end without one. Returns how the first run ended.
fn run_again<R: Threads + Wait + Sync>(
    rt: &R,
    alloc: Global,
    cluster: &Cluster,
    passes: Vec<Pass>,
) -> (Vec<Pass>, Option<Outcome>)
    requires { All (IsPassOf cluster.now) passes.items }
    ensures { All (IsPassOf cluster.now) result.0.items }
{
    let (passes, first) = run(rt, alloc, cluster, passes);
    if first == Some(Done) || passes.len() != 2 {
        return (passes, first);
    }
    let (passes, second) = run(rt, alloc, cluster, passes);
    let ended = if second == Some(Done) { first } else { None };
    (passes, ended)
}

// A pass asks, and both work until it is answered: how they ended, or `None` where that is not so.
fn ask_and_run<R: Threads + Wait + Sync>(
    rt: &R,
    alloc: Global,
    cluster: &Cluster,
    passes: Vec<Pass>,
) -> Option<Outcome>
    requires { All (IsPassOf cluster.now) passes.items }
{
    let mut passes = passes;
    let Some(mut pass) = take_pass(cluster, &mut passes) else {
        return None;
    };
    let submitted = are_made(rt, alloc, cluster, &mut pass, ASK);
    if !put_pass(cluster, &mut passes, pass) || !submitted {
        return None;
    }
    let (mut passes, ended) = run_again(rt, alloc, cluster, passes);
    let Some(mut pass) = take_pass(cluster, &mut passes) else {
        return None;
    };
    if are_made(rt, alloc, cluster, &mut pass, ANSWER) {
        ended
    } else {
        None
    }
}

#[test]
fn a_worker_meets_a_fault(rt: HostRuntime) -> Result<(), Fail> {
    let alloc = rt.alloc();
    let (cluster, monitor, passes) = begun(&rt, alloc, 1, 2)?;
    let ended = ask_and_run(&rt, alloc, &cluster, passes);
    monitor.end(&rt);
    match ended {
        None => Err(Fail::new("no answer")),
        Some(Met) => Err(Fail::new("a worker met a fault")),
        Some(Before) | Some(Done) => Ok(()),
    }
}
