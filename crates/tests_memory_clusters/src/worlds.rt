//! The world that a cluster's parts make up.

ghost use Rattle.std.specs.Prelude.{All, IfErr};
ghost use Rattle.world_core.specs.Parts.{FitTogether};
ghost use Rattle.cluster.specs.Asks.{IsBegun, IsPassOf};
ghost use Rattle.cluster.specs.Monitors.{IsMonitorOf, FollowsStart};

use cluster::{CloseFault, Cluster, Monitor, Pass};
use std::alloc::Global;
use std::sync::Wait;
use world_core::{World, WorldParts};

// A world of these parts, at once, or once more of the parts that came back.
fn world_of(parts: WorldParts) -> Option<World>
    requires { FitTogether parts }
{
    match World::of(parts) {
        Ok(world) => Some(world),
        Err((parts, _)) => World::of(parts).ok(),
    }
}

// The world of a cluster that closes at once.
fn close_once<R: Wait>(
    rt: &R,
    alloc: Global,
    cluster: Cluster,
    monitor: Monitor,
    passes: Vec<Pass>,
) -> Option<World>
    requires begun { IsBegun cluster }
    requires monitor { IsMonitorOf cluster monitor × FollowsStart cluster monitor }
    requires passes { All (IsPassOf cluster) passes.items }
{
    match cluster.close(rt, alloc, monitor, passes) {
        Ok(parts) => world_of(parts),
        Err((_, _cluster, monitor, _passes)) => {
            monitor.end(rt);
            None
        }
    }
}

/// The world of a cluster that closes at once, or once more where memory was refused and all came back.
pub(crate) fn closed<R: Wait>(
    rt: &R,
    alloc: Global,
    cluster: Cluster,
    monitor: Monitor,
    passes: Vec<Pass>,
) -> Option<World>
    requires begun { IsBegun cluster }
    requires monitor { IsMonitorOf cluster monitor × FollowsStart cluster monitor }
    requires passes { All (IsPassOf cluster) passes.items }
{
    let (groups, count) = (cluster.group_count(), passes.len());
    match cluster.close(rt, alloc, monitor, passes) {
        Ok(parts) => world_of(parts),
        Err((fault, cluster, monitor, passes)) => {
            if fault != CloseFault::OutOfMemory
                || cluster.group_count() != groups
                || passes.len() != count
            {
                monitor.end(rt);
                return None;
            }
            close_once(rt, alloc, cluster, monitor, passes)
        }
    }
}
