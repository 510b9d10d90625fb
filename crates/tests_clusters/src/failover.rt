//! A tag is removed and a user deleted while a group moves, over a cluster with notes and news, on one thread.
//!
//! `apart` does the same on threads.

ghost use Rattle.cluster.specs.Asks.{IsPassOf};
ghost use Rattle.cluster.specs.Monitors.{IsMonitorOf};

use crate::begun::{
    USER, Wish, answered, begun, expect_so, is_denied, is_output, learn, name_of, open, submit,
    tell, two_passes,
};
use auth_db::{AuthFault, Caps};
use cluster::{Cluster, ClusterFault, Monitor, Pass, Submitted};
use map_core::MapCommand;
use std::alloc::Global;
use std::process::Abort;
use std::sync::Wait;
use verdict_core::Condition;
use world_core::{AuthCommand, WorldFault};

// Adds the user, who may do all that a tag of the pool allows.
pub(crate) fn add_user<R: Wait + Abort>(rt: &R, alloc: Global, cluster: &Cluster, second: &mut Pass)
    requires { IsPassOf cluster.now second.old }
    ensures { IsPassOf cluster.now second.new }
{
    let mut caps = Caps::none();
    caps.osd = Some(name_of(rt, alloc, "allow rwx tag app k=v"));
    let add = AuthCommand::Add {
        name: name_of(rt, alloc, USER),
        caps,
    };
    cluster.auth(rt, second, add).expect(rt, "an addition");
}

// Deletes the user.
pub(crate) fn delete_user<R: Wait + Abort>(
    rt: &R,
    alloc: Global,
    cluster: &Cluster,
    second: &mut Pass,
)
    requires { IsPassOf cluster.now second.old }
    ensures { IsPassOf cluster.now second.new }
{
    let delete = AuthCommand::Delete {
        name: name_of(rt, alloc, USER),
    };
    cluster.auth(rt, second, delete).expect(rt, "a deletion");
}

// Changes the map.
fn change<R: Wait + Abort>(rt: &R, cluster: &Cluster, monitor: &mut Monitor, command: MapCommand)
    requires { IsMonitorOf cluster.now monitor.old }
    ensures { IsMonitorOf cluster.now monitor.new }
{
    monitor
        .change_map(rt, cluster, command)
        .expect(rt, "a change");
}

// Tags the pool.
pub(crate) fn set_tag<R: Wait + Abort>(
    rt: &R,
    alloc: Global,
    cluster: &Cluster,
    monitor: &mut Monitor,
)
    requires { IsMonitorOf cluster.now monitor.old }
    ensures { IsMonitorOf cluster.now monitor.new }
{
    let enable = MapCommand::AppEnable {
        pool: name_of(rt, alloc, "data"),
        app: name_of(rt, alloc, "app"),
    };
    let set = MapCommand::AppSet {
        pool: name_of(rt, alloc, "data"),
        app: name_of(rt, alloc, "app"),
        key: name_of(rt, alloc, "k"),
        value: name_of(rt, alloc, "v"),
    };
    change(rt, cluster, monitor, enable);
    change(rt, cluster, monitor, set);
}

// A daemon goes down, and the tag is removed.
pub(crate) fn move_and_untag<R: Wait + Abort>(
    rt: &R,
    alloc: Global,
    cluster: &Cluster,
    monitor: &mut Monitor,
)
    requires { IsMonitorOf cluster.now monitor.old }
    ensures { IsMonitorOf cluster.now monitor.new }
{
    let remove = MapCommand::AppRm {
        pool: name_of(rt, alloc, "data"),
        app: name_of(rt, alloc, "app"),
        key: name_of(rt, alloc, "k"),
    };
    change(rt, cluster, monitor, MapCommand::OsdDown(0));
    change(rt, cluster, monitor, remove);
}

// The first pass hears what the second has seen, and learns what the monitor has published.
pub(crate) fn catch_up<R: Abort>(
    rt: &R,
    alloc: Global,
    cluster: &Cluster,
    monitor: &mut Monitor,
    first: &mut Pass,
    second: &mut Pass,
)
    requires monitor { IsMonitorOf cluster.now monitor.old }
    requires passes { IsPassOf cluster.now first.old × IsPassOf cluster.now second.old }
    ensures monitor { IsMonitorOf cluster.now monitor.new }
    ensures passes { IsPassOf cluster.now first.new × IsPassOf cluster.now second.new }
{
    let note = second.note(cluster, alloc).expect(rt, "a note");
    first.read_note(cluster, note);
    let news = tell(cluster, monitor).expect(rt, "news");
    expect_so(rt, learn(cluster, first, news), "news that are learned");
}

// The renewal is refused, since the user is gone, and a second request is denied by the tag of grant 1, which is gone.
pub(crate) fn goes_on<R: Wait + Abort>(
    rt: &R,
    alloc: Global,
    cluster: &Cluster,
    first: &mut Pass,
    session: u32,
)
    requires { IsPassOf cluster.now first.old }
    ensures { IsPassOf cluster.now first.new }
{
    let gone = matches!(
        cluster.renew(rt, first, session, None),
        Err(ClusterFault::World(WorldFault::Auth(AuthFault::NoEntity)))
    );
    expect_so(rt, gone, "a user who is gone");
    let submitted = submit(rt, alloc, cluster, first, session, "x", Wish::Add, 0).expect(
        rt,
        "a request",
    );
    let reply = answered(rt, cluster, first, &submitted);
    expect_so(rt, is_denied(&reply, Condition::Tag), "a denial");
}

// The request is answered `1`.
pub(crate) fn expect_one<R: Wait + Abort>(
    rt: &R,
    cluster: &Cluster,
    first: &mut Pass,
    submitted: &Submitted,
)
    requires { IsPassOf cluster.now first.old }
    ensures { IsPassOf cluster.now first.new }
{
    let reply = answered(rt, cluster, first, submitted);
    expect_so(rt, is_output(&reply, "1"), "an output");
}

// The first pass asks, and all else happens before its request is decided.
#[test]
fn a_tag_and_a_user_go_while_a_group_moves(rt: HostRuntime) {
    let alloc = rt.alloc();
    let (cluster, mut monitor, passes) = begun(&rt, alloc, 1, "client.b", "allow r", 2);
    let (mut first, mut second) = two_passes(&rt, &cluster, passes);
    add_user(&rt, alloc, &cluster, &mut second);
    set_tag(&rt, alloc, &cluster, &mut monitor);
    catch_up(&rt, alloc, &cluster, &mut monitor, &mut first, &mut second);
    let session = open(&rt, alloc, &cluster, &mut first, None);
    let submitted = submit(&rt, alloc, &cluster, &mut first, session, "x", Wish::Add, 0).expect(
        &rt,
        "a request",
    );
    move_and_untag(&rt, alloc, &cluster, &mut monitor);
    delete_user(&rt, alloc, &cluster, &mut second);
    expect_one(&rt, &cluster, &mut first, &submitted);
    catch_up(&rt, alloc, &cluster, &mut monitor, &mut first, &mut second);
    goes_on(&rt, alloc, &cluster, &mut first, session);
    monitor.end(&rt);
}
