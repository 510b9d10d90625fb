//! What waits for nobody, and for no other group, while a turn holds the lock of one group.

ghost use Rattle.std.specs.Prelude.{All, ◌<◌};
ghost use Rattle.cluster.specs.Asks.{IsPassOf};
ghost use Rattle.cluster.specs.Passes.{AreSeatsOf, group_count};

use crate::begun::{MAX_TRIES, begun, expect_so, name_of, open, two_passes};
use cluster::{Cluster, ClusterFault, Located, LockedGroup, Pass, Seats, Worked};
use common_types::Name;
use entry_core::GroupId;
use map_core::PoolView;
use std::alloc::Global;
use std::process::Abort;
use std::sync::Wait;
use std::sync::atomic::{AtomicU64, Ordering};
use std::thread::{Threads, join_mut};
use turn_lock::Step;
use verdict_core::{Calls, Needs};

/// How many turns one waits at most for the other.
const MAX_TURNS: u32 = 10_000_000;

/// How far the two have come: 1 once the lock is held, 2 once all was answered meanwhile.
#[derive(Drop)]
struct Progress {
    stage: AtomicU64,
}

impl Progress {
    // Waits until this stage has come, for at most `MAX_TURNS` turns. Returns whether it has.
    fn has_come(&self, stage: u64) -> bool {
        for _turn in 0..MAX_TURNS {
            if self.stage.load(Ordering::SeqCst) >= stage {
                return true;
            }
        }
        false
    }
}

/// Holds a group's lock until all was answered meanwhile: whether it was.
#[derive(Drop)]
struct Hold<'a> {
    progress: &'a Progress,
}

impl<'a> Step for Hold<'a> {
    ghost use Rattle.tests_clusters.specs.Held.{hold_entry, HoldTells};

    type Value = LockedGroup;

    type Answer = bool;

    ghost entry = { hold_entry };

    ghost tells = { HoldTells };

    fn run(&mut self, _locked: &mut LockedGroup) -> bool {
        self.progress.stage.store(1, Ordering::SeqCst);
        self.progress.has_come(2)
    }
}

// Holds the lock of group 0: whether all was answered meanwhile.
fn hold_group<R: Wait>(rt: &R, cluster: &Cluster, seats: &mut Seats, progress: &Progress) -> bool
    requires seats { AreSeatsOf cluster.now seats.old }
    requires group { 0 < group_count cluster.now }
{
    cluster.turn(rt, seats, 0, Hold { progress })
}

// A pool. Where there is no reading the call is made again.
fn view(cluster: &Cluster, pass: &mut Pass, pool: &Name) -> Result<PoolView, ClusterFault>
    requires { IsPassOf cluster.now pass.old }
    ensures { IsPassOf cluster.now pass.new }
{
    for _try in 0..MAX_TRIES {
        match cluster.view(pass, pool) {
            Err(ClusterFault::NoReader) => {}
            seen => return seen,
        }
    }
    Err(ClusterFault::NoReader)
}

// Where an object is. Where there is no reading the call is made again.
fn locate(
    cluster: &Cluster,
    pass: &mut Pass,
    pool: &Name,
    namespace: &Name,
    object: &Name,
) -> Result<Located, ClusterFault>
    requires { IsPassOf cluster.now pass.old }
    ensures { IsPassOf cluster.now pass.new }
{
    for _try in 0..MAX_TRIES {
        match cluster.locate(pass, pool, namespace, object) {
            Err(ClusterFault::NoReader) => {}
            seen => return seen,
        }
    }
    Err(ClusterFault::NoReader)
}

// Looks at the map, judges, and works on group 1, and all is answered.
fn look<R: Wait + Abort>(rt: &R, alloc: Global, cluster: &Cluster, pass: &mut Pass, session: u32)
    requires { IsPassOf cluster.now pass.old }
{
    let pool = name_of(rt, alloc, "data");
    let namespace = name_of(rt, alloc, "");
    let object = name_of(rt, alloc, "x");
    let view = view(cluster, pass, &pool).expect(rt, "a view");
    expect_so(rt, view.pg_num == 2, "the groups of the pool");
    let located = locate(cluster, pass, &pool, &namespace, &object).expect(rt, "a place");
    expect_so(rt, located.group < 2, "a group of the pool");
    let needs = Needs {
        reads: true,
        writes: false,
        calls: Calls::new(alloc),
    };
    let allowed = cluster.judge(pass, session, &view, "", "x", &needs, 0);
    expect_so(rt, allowed.expect(rt, "a session"), "a verdict");
    let group = GroupId { pool, number: 1 };
    let worked = cluster.work(rt, pass, &group).expect(rt, "a delivery");
    expect_so(rt, worked == Worked::Delivered, "a delivery");
}

// Does what `look` does once the lock is held, and then reports that all was answered.
fn look_meanwhile<R: Wait + Abort>(
    rt: &R,
    alloc: Global,
    cluster: &Cluster,
    pass: &mut Pass,
    session: u32,
    progress: &Progress,
)
    requires { IsPassOf cluster.now pass.old }
{
    expect_so(rt, progress.has_come(1), "that the lock is held");
    look(rt, alloc, cluster, pass, session);
    progress.stage.store(2, Ordering::SeqCst);
}

// One pass holds a lock while the other looks.
fn hold_and_look<R: Threads + Wait + Abort + Sync>(
    rt: &R,
    alloc: Global,
    cluster: &Cluster,
    passes: Vec<Pass>,
)
    requires passes { All (IsPassOf cluster.now) passes.items }
    requires groups { 0 < group_count cluster.now }
{
    let (holder, mut looker) = two_passes(rt, cluster, passes);
    let session = open(rt, alloc, cluster, &mut looker, None);
    let mut seats = holder.into_seats();
    let progress = Progress {
        stage: AtomicU64::new(0),
    };
    let (held, ()) = join_mut(
        rt,
        &mut || hold_group(rt, cluster, &mut seats, &progress),
        &mut || look_meanwhile(rt, alloc, cluster, &mut looker, session, &progress),
    );
    expect_so(rt, held, "that all was answered");
}

#[test]
fn judge_while_a_step_is_held(rt: HostRuntime) {
    let alloc = rt.alloc();
    let (cluster, monitor, passes) = begun(&rt, alloc, 2, "client.a", "allow r pool=data", 2);
    assert!(rt; cluster.group_count() == 2);
    hold_and_look(&rt, alloc, &cluster, passes);
    monitor.end(&rt);
}
