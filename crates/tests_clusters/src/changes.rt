//! Changes of the map, and what a pass learns of them.

ghost use Rattle.cluster.specs.Asks.{IsPassOf};
ghost use Rattle.cluster.specs.Monitors.{IsMonitorOf};

use crate::begun::{begun, expect_so, name_of, take_pass};
use cluster::{ChangeFault, Cluster, Monitor, Pass};
use map_core::{MapCommand, MapFault};
use std::alloc::Global;
use std::process::Abort;
use std::sync::Wait;

fn creation<R: Abort>(rt: &R, alloc: Global) -> MapCommand {
    MapCommand::PoolCreate {
        name: name_of(rt, alloc, "more"),
        pg_num: 1,
        size: 3,
        min_size: 2,
    }
}

// A daemon goes down, and its group moves; what is so already and a new pool are refused, and nothing is left to finish.
fn changes<R: Wait>(rt: &R, cluster: &Cluster, monitor: &mut Monitor, pool: MapCommand) -> bool
    requires { IsMonitorOf cluster.now monitor.old }
    ensures { IsMonitorOf cluster.now monitor.new }
{
    let down = monitor.change_map(rt, cluster, MapCommand::OsdDown(1));
    let again = monitor.change_map(rt, cluster, MapCommand::OsdDown(1));
    let created = monitor.change_map(rt, cluster, pool);
    let finished = monitor.finish(rt, cluster);
    down == Ok(3)
        && again == Err(ChangeFault::Map(MapFault::AlreadySo))
        && created == Err(ChangeFault::Map(MapFault::Limit))
        && finished == Ok(())
}

// A pass learns the news: its next view has epoch 3, and the one after no less.
fn learns<R: Abort>(
    rt: &R,
    alloc: Global,
    cluster: &Cluster,
    monitor: &mut Monitor,
    pass: &mut Pass,
)
    requires monitor { IsMonitorOf cluster.now monitor.old }
    requires pass { IsPassOf cluster.now pass.old }
    ensures monitor { IsMonitorOf cluster.now monitor.new }
{
    let news = monitor.tell(cluster).expect(rt, "news");
    expect_so(rt, pass.learn(news).is_ok(), "news that are learned");
    let pool = name_of(rt, alloc, "data");
    let first = cluster.view(pass, &pool).expect(rt, "a view");
    let second = cluster.view(pass, &pool).expect(rt, "a second view");
    expect_so(
        rt,
        first.epoch == 3 && second.epoch >= first.epoch,
        "epochs",
    );
}

#[test]
fn a_change_moves_the_groups_and_is_told(rt: HostRuntime) {
    let alloc = rt.alloc();
    let (cluster, mut monitor, mut passes) = begun(&rt, alloc, 1, "client.w", "allow rwx", 1);
    let mut pass = take_pass(&cluster, &mut passes).expect(&rt, "a pass");
    let are_right = changes(&rt, &cluster, &mut monitor, creation(&rt, alloc));
    expect_so(&rt, are_right, "changes");
    learns(&rt, alloc, &cluster, &mut monitor, &mut pass);
    monitor.end(&rt);
}
