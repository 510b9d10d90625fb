//! That a cluster is closed with all its passes, and not before.

ghost use Rattle.std.specs.Prelude.{All};
ghost use Rattle.cluster.specs.Asks.{IsBegun, IsPassOf};
ghost use Rattle.cluster.specs.Monitors.{IsMonitorOf, FollowsStart};

use crate::begun::{begun, expect_so, put_pass, take_pass};
use cluster::{CloseFault, Cluster, Monitor, Pass};
use std::alloc::Global;
use std::process::Abort;
use std::sync::Wait;
use world_core::World;

// The world of a cluster that is closed.
fn close_whole<R: Wait + Abort>(
    rt: &R,
    alloc: Global,
    cluster: Cluster,
    monitor: Monitor,
    passes: Vec<Pass>,
) -> World
    requires begun { IsBegun cluster }
    requires monitor { IsMonitorOf cluster monitor × FollowsStart cluster monitor }
    requires passes { All (IsPassOf cluster) passes.items }
{
    match cluster.close(rt, alloc, monitor, passes) {
        Ok(parts) => World::of(parts).ok().expect(rt, "memory"),
        Err(_) => panic!(rt; "it is not closed"),
    }
}

// Without one pass a cluster is not closed, and all comes back; then it is closed with all.
fn close_late<R: Wait + Abort>(
    rt: &R,
    alloc: Global,
    cluster: Cluster,
    monitor: Monitor,
    mut passes: Vec<Pass>,
) -> World
    requires begun { IsBegun cluster }
    requires monitor { IsMonitorOf cluster monitor × FollowsStart cluster monitor }
    requires passes { All (IsPassOf cluster) passes.items }
{
    let last = take_pass(&cluster, &mut passes).expect(rt, "a pass");
    match cluster.close(rt, alloc, monitor, passes) {
        Err((CloseFault::MissingPass, cluster, monitor, mut passes)) => {
            expect_so(
                rt,
                put_pass(&cluster, &mut passes, last),
                "a pass that is put back",
            );
            close_whole(rt, alloc, cluster, monitor, passes)
        }
        _ => panic!(rt; "it is not told that a pass is missing"),
    }
}

#[test]
fn a_cluster_is_closed_with_all_its_passes(rt: HostRuntime) {
    let alloc = rt.alloc();
    let (cluster, monitor, passes) = begun(&rt, alloc, 1, "client.w", "allow rwx", 2);
    let world = close_late(&rt, alloc, cluster, monitor, passes);
    expect_so(&rt, world.map().epoch() == 2, "the epoch");
}
