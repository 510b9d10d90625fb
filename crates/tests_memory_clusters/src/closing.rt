//! A cluster that is closed, with a request that was answered.

ghost use Rattle.std.specs.Prelude.{All};
ghost use Rattle.cluster.specs.Asks.{IsBegun, IsPassOf};
ghost use Rattle.cluster.specs.Monitors.{IsMonitorOf, FollowsStart};

use crate::begun::{USER, begun, put_pass, take_pass};
use crate::steps::{APPEND, are_made, is_output};
use crate::worlds::closed;
use cluster::{Cluster, Monitor, Pass};
use entry_core::Id;
use std::alloc::Global;
use std::sync::Wait;
use std::test::Fail;
use world_core::World;

// One of the passes appends, and then the cluster is closed with all of them.
fn append_and_close<R: Wait>(
    rt: &R,
    alloc: Global,
    cluster: Cluster,
    monitor: Monitor,
    mut passes: Vec<Pass>,
) -> Option<World>
    requires begun { IsBegun cluster }
    requires monitor { IsMonitorOf cluster monitor × FollowsStart cluster monitor }
    requires passes { All (IsPassOf cluster) passes.items }
{
    let Some(mut pass) = take_pass(&cluster, &mut passes) else {
        monitor.end(rt);
        return None;
    };
    let right = are_made(rt, alloc, &cluster, &mut pass, APPEND);
    if !put_pass(&cluster, &mut passes, pass) || !right {
        monitor.end(rt);
        return None;
    }
    closed(rt, alloc, cluster, monitor, passes)
}

// Whether a world has the map, the user and the answer of the cluster.
fn is_right(world: &World) -> bool {
    let answer = world.answer(Id::new(1, 1));
    world.map().epoch() == 2
        && world.users().get(USER).is_ok()
        && answer.is_ok_and(|reply| is_output(reply, ""))
}

#[test]
fn a_cluster_is_closed_again(rt: HostRuntime) -> Result<(), Fail> {
    let alloc = rt.alloc();
    let (cluster, monitor, passes) = begun(&rt, alloc, 1, 2)?;
    match append_and_close(&rt, alloc, cluster, monitor, passes) {
        None => Err(Fail::new("no world")),
        Some(world) => {
            assert!(&rt; is_right(&world));
            Ok(())
        }
    }
}
