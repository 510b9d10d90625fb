//! What requests, verdicts and views cost on a cluster's threads.

use crate::fault::Fault;
use common_types::OutOfMemory;
use std::alloc::{AllocError, Global};
use std::sync::Wait;
use std::thread::Threads;
use std::time::Clock;
use stopwatch::{Table, Work};
use workload::{ClusterFault, Load, WorkloadFault, run_load, run_requests};

/// How many requests each worker asks for.
const REQUESTS: u32 = 500;

/// How many verdicts each worker asks for.
const VERDICTS: u32 = 1_000_000;

/// How many views the worker asks for.
const VIEWS: u32 = 20_000;

/// A load on a new cluster of `groups` groups, by workers on threads. The time is that of one request, verdict or view.
#[derive(Drop)]
struct Loaded<'a, R> {
    rt: &'a R,
    alloc: Global,
    groups: u32,
    workers: u32,
    load: Load,
    moves: bool,
    size: u64,
}

/// Whether a load was done in full.
fn is_full(done: Result<u64, WorkloadFault>, size: u64) -> Result<bool, OutOfMemory> {
    match done {
        Ok(done) => Ok(done == size),
        Err(WorkloadFault::Cluster(ClusterFault::OutOfMemory)) => Err(AllocError),
        Err(_) => Ok(false),
    }
}

impl<R: Threads + Wait + Sync> Work for Loaded<'_, R> {
    ghost use Rattle.std.specs.Thread.{IsSync};

    // the threads share the runtime
    ghost ready = { λ _. IsSync R.row };

    fn once(&self, _turn: usize) -> Result<bool, OutOfMemory> {
        let done = run_load(
            self.rt,
            self.alloc,
            self.groups,
            self.workers,
            self.load,
            self.moves,
        );
        is_full(done, self.size)
    }

    fn size(&self) -> u64 {
        self.size.max(1)
    }
}

/// The requests of one worker in a world, on one thread and without locks.
#[derive(Drop)]
struct Alone {
    alloc: Global,
}

impl Work for Alone {
    fn once(&self, _turn: usize) -> Result<bool, OutOfMemory> {
        is_full(run_requests(self.alloc, REQUESTS), REQUESTS as u64)
    }

    fn size(&self) -> u64 {
        REQUESTS as u64
    }
}

/// What is measured on threads: requests by `workers` workers on `groups` groups, verdicts by `workers` workers, and
/// views by one worker, while the map changes or not.
#[derive(Clone, Copy)]
enum Kind {
    Requests { groups: u32, workers: u32 },
    Verdicts { workers: u32 },
    Views { moves: bool },
}

/// All loads, in the order of their rows.
const LOADS: &[Kind] = &[
    Kind::Requests {
        groups: 1,
        workers: 1,
    },
    Kind::Requests {
        groups: 1,
        workers: 4,
    },
    Kind::Requests {
        groups: 4,
        workers: 1,
    },
    Kind::Requests {
        groups: 4,
        workers: 4,
    },
    Kind::Verdicts { workers: 1 },
    Kind::Verdicts { workers: 2 },
    Kind::Verdicts { workers: 4 },
    Kind::Views { moves: false },
    Kind::Views { moves: true },
];

impl Kind {
    /// How a row is named.
    fn name(self, alloc: Global) -> Result<String, OutOfMemory> {
        match self {
            Kind::Requests { groups, workers } => {
                format!(in alloc; "cluster, a request, groups: {groups}, threads: {workers}")
            }
            Kind::Verdicts { workers } => format!(in alloc;
                "cluster, a verdict, threads: {workers}"
            ),
            Kind::Views { moves: false } => format!(in alloc; "cluster, a view"),
            Kind::Views { moves: true } => format!(in alloc;
                "cluster, a view while the map changes"
            ),
        }
    }

    /// The load, by workers on these threads.
    fn work<R>(self, rt: &R, alloc: Global) -> Loaded<'_, R> {
        let (groups, workers, load, times, moves) = match self {
            Kind::Requests { groups, workers } => {
                (groups, workers, Load::Requests(REQUESTS), REQUESTS, false)
            }
            Kind::Verdicts { workers } => (1, workers, Load::Verdicts(VERDICTS), VERDICTS, false),
            Kind::Views { moves } => (4, 1, Load::Views(VIEWS), VIEWS, moves),
        };
        Loaded {
            rt,
            alloc,
            groups,
            workers,
            load,
            moves,
            size: (workers as u64).saturating_mul(times as u64),
        }
    }
}

/// Adds the row of a load.
fn add_row<C: Clock, R: Threads + Wait + Sync>(
    table: &mut Table<'_, C>,
    rt: &R,
    kind: Kind,
) -> Result<(), Fault> {
    let row = kind.name(table.alloc())?;
    Ok(table.row(row.as_str(), &kind.work(rt, table.alloc()))?)
}

/// Adds the rows of clusters: the time of a request, a verdict or a view, of all that the threads ask for.
pub(crate) fn add_clusters<C: Clock, R: Threads + Wait + Sync>(
    table: &mut Table<'_, C>,
    rt: &R,
) -> Result<(), Fault> {
    let alloc = table.alloc();
    table.row("world, a request without locks", &Alone { alloc })?;
    for kind in LOADS {
        add_row(table, rt, *kind)?;
    }
    Ok(())
}
