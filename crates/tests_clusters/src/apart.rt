//! The same failover with the monitor and both passes on threads of their own, in the script's order by notes and news alone.

ghost use Rattle.cluster.specs.Asks.{IsPassOf};
ghost use Rattle.cluster.specs.Monitors.{IsMonitorOf};

use crate::begun::{Wish, begun, open, submit, two_passes};
use crate::failover::{
    add_user, catch_up, delete_user, expect_one, goes_on, move_and_untag, set_tag,
};
use cluster::{Cluster, Monitor, Pass, Submitted};
use std::alloc::Global;
use std::process::Abort;
use std::sync::Wait;
use std::thread::{Threads, join_mut};

// The monitor tags the pool while the second pass adds the user.
fn prepare<R: Threads + Wait + Abort + Sync>(
    rt: &R,
    alloc: Global,
    cluster: &Cluster,
    monitor: &mut Monitor,
    second: &mut Pass,
)
    requires monitor { IsMonitorOf cluster.now monitor.old }
    requires pass { IsPassOf cluster.now second.old }
    ensures monitor { IsMonitorOf cluster.now monitor.new }
    ensures pass { IsPassOf cluster.now second.new }
{
    join_mut(
        rt,
        &mut || set_tag(rt, alloc, cluster, monitor),
        &mut || add_user(rt, alloc, cluster, second),
    );
}

// A daemon goes down and the tag is removed while the first pass works on another thread until its request is answered.
fn move_meanwhile<R: Threads + Wait + Abort + Sync>(
    rt: &R,
    alloc: Global,
    cluster: &Cluster,
    monitor: &mut Monitor,
    first: &mut Pass,
    submitted: &Submitted,
)
    requires monitor { IsMonitorOf cluster.now monitor.old }
    requires pass { IsPassOf cluster.now first.old }
    ensures monitor { IsMonitorOf cluster.now monitor.new }
    ensures pass { IsPassOf cluster.now first.new }
{
    join_mut(
        rt,
        &mut || expect_one(rt, cluster, first, submitted),
        &mut || move_and_untag(rt, alloc, cluster, monitor),
    );
}

// The second pass deletes the user while the first one asks for its answer again.
fn delete_meanwhile<R: Threads + Wait + Abort + Sync>(
    rt: &R,
    alloc: Global,
    cluster: &Cluster,
    first: &mut Pass,
    second: &mut Pass,
    submitted: &Submitted,
)
    requires { IsPassOf cluster.now first.old × IsPassOf cluster.now second.old }
    ensures { IsPassOf cluster.now first.new × IsPassOf cluster.now second.new }
{
    join_mut(
        rt,
        &mut || expect_one(rt, cluster, first, submitted),
        &mut || delete_user(rt, alloc, cluster, second),
    );
}

#[test]
fn a_tag_and_a_user_go_by_other_threads(rt: HostRuntime) {
    let alloc = rt.alloc();
    let (cluster, mut monitor, passes) = begun(&rt, alloc, 1, "client.b", "allow r", 2);
    let (mut first, mut second) = two_passes(&rt, &cluster, passes);
    prepare(&rt, alloc, &cluster, &mut monitor, &mut second);
    catch_up(&rt, alloc, &cluster, &mut monitor, &mut first, &mut second);
    let session = open(&rt, alloc, &cluster, &mut first, None);
    let submitted = submit(&rt, alloc, &cluster, &mut first, session, "x", Wish::Add, 0).expect(
        &rt,
        "a request",
    );
    move_meanwhile(&rt, alloc, &cluster, &mut monitor, &mut first, &submitted);
    delete_meanwhile(&rt, alloc, &cluster, &mut first, &mut second, &submitted);
    catch_up(&rt, alloc, &cluster, &mut monitor, &mut first, &mut second);
    goes_on(&rt, alloc, &cluster, &mut first, session);
    monitor.end(&rt);
}
