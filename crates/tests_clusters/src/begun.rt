//! Clusters that the tests begin with, and what their passes ask for.

ghost use Rattle.std.specs.Prelude.{◌≤◌, All, IfSome};
ghost use Rattle.cluster.specs.Asks.{IsBegun, IsPassOf};
ghost use Rattle.cluster.specs.Monitors.{IsMonitorOf, FollowsStart};

use auth_db::Caps;
use cluster::{
    Cluster, ClusterFault, Monitor, NewRequest, News, Pass, PoolSpec, Submitted, TellFault,
    UserSpec, start,
};
use common_types::Name;
use entry_core::Reply;
use grant_core::ProfileTable;
use group_messages::GroupFault;
use object_core::{Bytes, Op};
use std::alloc::Global;
use std::process::Abort;
use std::sync::Wait;
use verdict_core::Condition;
use world_core::{Ops, WorldFault};

/// How often a call is made again for which the published map gave no reading.
pub(crate) const MAX_TRIES: u32 = 1000;

/// How many deliveries a request needs at most, here.
const MAX_DELIVERIES: u32 = 256;

/// The user who opens sessions.
pub(crate) const USER: &str = "client.a";

// Ends the test where something is not so, and names it.
pub(crate) fn expect_so<R: Abort>(rt: &R, is_so: bool, what: &str) {
    assert!(rt; is_so, "{what}");
}

// The name that a text is.
pub(crate) fn name_of<R: Abort>(rt: &R, alloc: Global, text: &str) -> Name {
    Name::new(alloc, text).expect(rt, "memory")
}

// A user with an osd text alone.
fn user<R: Abort>(rt: &R, alloc: Global, name: &str, osd: &str) -> UserSpec {
    let mut caps = Caps::none();
    caps.osd = Some(name_of(rt, alloc, osd));
    UserSpec {
        name: name_of(rt, alloc, name),
        caps,
    }
}

// A cluster of three daemons, one user and `passes` passes. Its pool `data` has `groups` groups, size 3, min_size 2.
pub(crate) fn begun<R: Wait + Abort>(
    rt: &R,
    alloc: Global,
    groups: u32,
    name: &str,
    osd: &str,
    passes: usize,
) -> (Cluster, Monitor, Vec<Pass>)
    requires { 1 ≤ passes }
    ensures begun { IsBegun result.0 × All (IsPassOf result.0) result.2.items }
    ensures monitor { IsMonitorOf result.0 result.1 × FollowsStart result.0 result.1 }
{
    let pool = PoolSpec {
        name: name_of(rt, alloc, "data"),
        pg_num: groups,
        size: 3,
        min_size: 2,
    };
    let pools = vec![in alloc; pool].expect(rt, "memory");
    let users = vec![in alloc; user(rt, alloc, name, osd)].expect(rt, "memory");
    let table = ProfileTable::builtin(alloc).expect(rt, "profiles");
    start(rt, alloc, table, 3, pools, users, passes).expect(rt, "a cluster")
}

// The next pass.
pub(crate) fn take_pass(cluster: &Cluster, passes: &mut Vec<Pass>) -> Option<Pass>
    requires { All (IsPassOf cluster.now) passes.old.items }
    ensures rest { All (IsPassOf cluster.now) passes.new.items }
    ensures pass { IfSome result (IsPassOf cluster.now) }
{
    passes.pop()
}

// Two passes.
pub(crate) fn two_passes<R: Abort>(rt: &R, cluster: &Cluster, passes: Vec<Pass>) -> (Pass, Pass)
    requires { All (IsPassOf cluster.now) passes.items }
    ensures { IsPassOf cluster.now result.0 × IsPassOf cluster.now result.1 }
{
    let mut passes = passes;
    let second = take_pass(cluster, &mut passes).expect(rt, "a pass");
    let first = take_pass(cluster, &mut passes).expect(rt, "another pass");
    (first, second)
}

// Puts the pass behind the others: whether there was memory.
pub(crate) fn put_pass(cluster: &Cluster, passes: &mut Vec<Pass>, pass: Pass) -> bool
    requires rest { All (IsPassOf cluster.now) passes.old.items }
    requires pass { IsPassOf cluster.now pass }
    ensures { All (IsPassOf cluster.now) passes.new.items }
{
    passes.push(pass).is_ok()
}

// Opens a session of the user, whose ticket ends at a tick or never.
pub(crate) fn open<R: Wait + Abort>(
    rt: &R,
    alloc: Global,
    cluster: &Cluster,
    pass: &mut Pass,
    until: Option<u64>,
) -> u32
    requires { IsPassOf cluster.now pass.old }
    ensures { IsPassOf cluster.now pass.new }
{
    let user = name_of(rt, alloc, USER);
    cluster.open(rt, pass, user, until).expect(rt, "a session")
}

// Who asks, in a namespace of the pool `data`, at a tick.
pub(crate) fn new_request<R: Abort>(
    rt: &R,
    alloc: Global,
    session: u32,
    namespace: &str,
    tick: u64,
) -> NewRequest {
    NewRequest {
        session,
        tick,
        pool: name_of(rt, alloc, "data"),
        namespace: name_of(rt, alloc, namespace),
    }
}

/// What is asked of an object.
#[derive(Clone, Copy)]
pub(crate) enum Wish {
    /// `append a`.
    Append,
    /// `read 0 0`.
    Read,
    /// `call counter add 1`.
    Add,
}

fn ops_of<R: Abort>(rt: &R, alloc: Global, wish: Wish) -> Ops {
    let op = match wish {
        Wish::Append => Op::Append(Bytes::from_slice(alloc, b"a").expect(rt, "memory")),
        Wish::Read => Op::Read {
            offset: 0,
            length: 0,
        },
        Wish::Add => Op::Call {
            class: name_of(rt, alloc, "counter"),
            method: name_of(rt, alloc, "add"),
            input: Bytes::from_slice(alloc, b"1").expect(rt, "memory"),
        },
    };
    let mut ops = Ops::new(alloc);
    ops.push(op).expect(rt, "memory");
    ops
}

// Submits a request on an object of the default namespace, at a tick. Where there is no reading the call is made again.
pub(crate) fn submit<R: Wait + Abort>(
    rt: &R,
    alloc: Global,
    cluster: &Cluster,
    pass: &mut Pass,
    session: u32,
    object: &str,
    wish: Wish,
    tick: u64,
) -> Result<Submitted, ClusterFault>
    requires { IsPassOf cluster.now pass.old }
    ensures { IsPassOf cluster.now pass.new }
{
    for _try in 0..MAX_TRIES {
        let new_request = new_request(rt, alloc, session, "", tick);
        let object = name_of(rt, alloc, object);
        match cluster.submit(rt, pass, new_request, object, ops_of(rt, alloc, wish)) {
            Err(ClusterFault::NoReader) => {}
            answer => return answer,
        }
    }
    Err(ClusterFault::NoReader)
}

// The monitor's news. Where no reader is left the call is made again.
pub(crate) fn tell(cluster: &Cluster, monitor: &mut Monitor) -> Option<News>
    requires { IsMonitorOf cluster.now monitor.old }
    ensures { IsMonitorOf cluster.now monitor.new }
{
    for _try in 0..MAX_TRIES {
        match monitor.tell(cluster) {
            Ok(news) => return Some(news),
            Err(TellFault::NoReader) => {}
            Err(_) => return None,
        }
    }
    None
}

// Whether a pass learns the news. Where there is no reading the call is made again.
pub(crate) fn learn(cluster: &Cluster, pass: &mut Pass, news: News) -> bool
    requires { IsPassOf cluster.now pass.old }
    ensures { IsPassOf cluster.now pass.new }
{
    let mut news = news;
    for _try in 0..MAX_TRIES {
        match pass.learn(news) {
            Ok(()) => return true,
            Err((back, _)) => news = back,
        }
    }
    false
}

// The reply to a request that is answered.
pub(crate) fn reply_of<R: Wait + Abort>(
    rt: &R,
    cluster: &Cluster,
    pass: &mut Pass,
    submitted: &Submitted,
) -> Reply
    requires { IsPassOf cluster.now pass.old }
    ensures { IsPassOf cluster.now pass.new }
{
    let reply = cluster.answer(rt, pass, submitted).expect(rt, "a request");
    reply.expect(rt, "a reply")
}

// Delivers messages of the request's group until it is answered.
pub(crate) fn answered<R: Wait + Abort>(
    rt: &R,
    cluster: &Cluster,
    pass: &mut Pass,
    submitted: &Submitted,
) -> Reply
    requires { IsPassOf cluster.now pass.old }
    ensures { IsPassOf cluster.now pass.new }
{
    for _delivery in 0..MAX_DELIVERIES {
        match cluster.work(rt, pass, &submitted.group) {
            Ok(_) | Err(ClusterFault::World(WorldFault::Group(GroupFault::Unreachable))) => {}
            Err(fault) => panic!(rt; "no delivery: {fault}"),
        }
    }
    reply_of(rt, cluster, pass, submitted)
}

// Whether a reply is a denial by this condition of grant 1.
pub(crate) fn is_denied(reply: &Reply, condition: Condition) -> bool {
    match reply {
        Reply::Denied(report) => match report.lines() {
            [(path, only)] => path.as_slice() == [1].as_slice() && *only == condition,
            _ => false,
        },
        _ => false,
    }
}

// Whether a reply is the one output.
pub(crate) fn is_output(reply: &Reply, text: &str) -> bool {
    match reply {
        Reply::Done(outputs) => match outputs.as_slice() {
            [only] => only.as_slice() == text.as_bytes(),
            _ => false,
        },
        _ => false,
    }
}
