//! Workers, each on a thread of its own.

ghost use Rattle.std.specs.Prelude.{All, slice_index_or};
ghost use Rattle.cluster.specs.Asks.{IsPassOf};
ghost use Rattle.workload.specs.Workers.{AreWorkersOf, IsWorkerOf};

use crate::asking::{Wish, ask};
use crate::load::{Load, ask_often, judge_often, view_often};
use cluster::{Cluster, ClusterFault, Pass};
use common_types::Name;
use std::alloc::Global;
use std::sync::Wait;
use std::thread;
use std::thread::Threads;

/// How many additions each worker asks for.
const ADDITIONS: u32 = 50;

/// How many appends each worker asks for, which are denied.
const APPENDS: u32 = 10;

/// Who may add.
pub(crate) const WRITER: &str = "client.w";

/// Who may read alone.
pub(crate) const READER: &str = "client.r";

/// A pass at work, how much its worker did, and why it ended early, if it did.
#[derive(Drop)]
pub(crate) struct Worker {
    pub(crate) pass: Pass,
    pub(crate) done: u32,
    pub(crate) fault: Option<ClusterFault>,
}

// Opens a session of `user`, and asks for `wish` `times` times.
fn ask_as<R: Wait>(
    rt: &R,
    alloc: Global,
    cluster: &Cluster,
    pass: &mut Pass,
    user: &str,
    wish: Wish,
    times: u32,
) -> Result<u32, ClusterFault>
    requires { IsPassOf cluster.now pass.old }
    ensures { IsPassOf cluster.now pass.new }
{
    let session = cluster.open(rt, pass, Name::new(alloc, user)?, None)?;
    for _time in 0..times {
        ask(rt, alloc, cluster, pass, session, wish)?;
    }
    Ok(times)
}

// Additions by who may add, and then appends by who may not.
fn count<R: Wait>(
    rt: &R,
    alloc: Global,
    cluster: &Cluster,
    pass: &mut Pass,
) -> Result<u32, ClusterFault>
    requires { IsPassOf cluster.now pass.old }
    ensures { IsPassOf cluster.now pass.new }
{
    let added = ask_as(rt, alloc, cluster, pass, WRITER, Wish::Addition, ADDITIONS)?;
    let appended = ask_as(rt, alloc, cluster, pass, READER, Wish::Append, APPENDS)?;
    Ok(added.saturating_add(appended))
}

// What the worker with this number does, and how much.
fn work<R: Wait>(
    rt: &R,
    alloc: Global,
    cluster: &Cluster,
    pass: &mut Pass,
    number: usize,
    load: Load,
) -> Result<u32, ClusterFault>
    requires { IsPassOf cluster.now pass.old }
    ensures { IsPassOf cluster.now pass.new }
{
    match load {
        Load::Counting => count(rt, alloc, cluster, pass),
        Load::Requests(times) => ask_often(rt, alloc, cluster, pass, number, times),
        Load::Verdicts(times) => judge_often(rt, alloc, cluster, pass, times),
        Load::Views(times) => view_often(alloc, cluster, pass, times),
    }
}

// One worker.
fn work_on<R: Wait>(
    rt: &R,
    alloc: Global,
    cluster: &Cluster,
    worker: &mut Worker,
    number: usize,
    load: Load,
)
    requires { IsWorkerOf cluster.now worker.old }
    ensures { IsWorkerOf cluster.now worker.new }
{
    match work(rt, alloc, cluster, &mut worker.pass, number, load) {
        Ok(done) => worker.done = done,
        Err(fault) => worker.fault = Some(fault),
    }
}

// All workers, each on a thread of its own.
pub(crate) fn work_all<R: Threads + Wait + Sync>(
    rt: &R,
    alloc: Global,
    cluster: &Cluster,
    workers: &mut [Worker],
    load: Load,
)
    requires { AreWorkersOf cluster.now workers.old }
    ensures { AreWorkersOf cluster.now workers.new }
{
    let count = workers.len();
    if count == 0 {
        return;
    }
    thread::for_each_mut(
        rt,
        workers,
        count,
        &|number, worker|
            requires { IsWorkerOf cluster.now worker.now }
            ensures { IsWorkerOf cluster.entry.now worker.exit.now }
        { work_on(rt, alloc, cluster, worker, number, load) },
    );
}
