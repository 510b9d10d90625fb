//! What workers do that is measured.

ghost use Rattle.cluster.specs.Asks.{IsPassOf};

use crate::asking::{OBJECT, POOL, Wish, deliver, submit_one};
use crate::worker::WRITER;
use cluster::{Cluster, ClusterFault, Pass};
use common_types::Name;
use entry_core::Reply;
use std::alloc::Global;
use std::sync::Wait;
use verdict_core::{Calls, Needs};

/// How many names are tried for an object of a group.
const MAX_NAMES: u32 = 1000;

/// How many deliveries a request waits for at most.
const MAX_DELIVERIES: u32 = 1000;

/// The objects that verdicts are asked for, in turn.
const OBJECTS: [&str; 4] = ["c0", "c1", "c2", "c3"];

/// What each worker does.
#[derive(Clone, Copy, Debug)]
pub enum Load {
    /// It asks for 50 additions of 1 to one counter as a user who is allowed to, and then for 10 appends as one who is
    /// not. After each it works once on the group.
    Counting,
    /// It asks for this many additions of 1 to a counter of its own. After each it works on the group until no message
    /// is left there, and looks for the answer.
    Requests(u32),
    /// It judges this many requests by one view.
    Verdicts(u32),
    /// It views the pool this many times.
    Views(u32),
}

// The group in which an object is, by its number in the pool.
fn group_of(
    alloc: Global,
    cluster: &Cluster,
    pass: &mut Pass,
    object: &str,
) -> Result<u32, ClusterFault>
    requires { IsPassOf cluster.now pass.old }
    ensures { IsPassOf cluster.now pass.new }
{
    let pool = Name::new(alloc, POOL)?;
    let namespace = Name::new(alloc, "")?;
    let object = Name::new(alloc, object)?;
    Ok(cluster.locate(pass, &pool, &namespace, &object)?.group)
}

// The names that are tried for an object.
fn numbered(alloc: Global, number: u32) -> Result<String, ClusterFault> {
    Ok(format!(in alloc; "c{number}")?)
}

// An object of the group with this number, by the names `c0`, `c1` and so on; or the common object where none is found.
fn object_in(
    alloc: Global,
    cluster: &Cluster,
    pass: &mut Pass,
    group: usize,
) -> Result<String, ClusterFault>
    requires { IsPassOf cluster.now pass.old }
    ensures { IsPassOf cluster.now pass.new }
{
    for number in 0..MAX_NAMES {
        let object = numbered(alloc, number)?;
        if group_of(alloc, cluster, pass, object.as_str())? as usize == group {
            return Ok(object);
        }
    }
    Ok(String::from_str(alloc, OBJECT)?)
}

// Asks for an addition, works until no message is left, and looks for the answer: whether it is done.
fn is_done<R: Wait>(
    rt: &R,
    alloc: Global,
    cluster: &Cluster,
    pass: &mut Pass,
    session: u32,
    object: &str,
) -> Result<bool, ClusterFault>
    requires { IsPassOf cluster.now pass.old }
    ensures { IsPassOf cluster.now pass.new }
{
    let submitted = submit_one(rt, alloc, cluster, pass, session, object, Wish::Addition)?;
    for _delivery in 0..MAX_DELIVERIES {
        if !deliver(rt, cluster, pass, &submitted.group)? {
            break;
        }
    }
    Ok(matches!(cluster.answer(rt, pass, &submitted)?, Some(Reply::Done(..))))
}

// So many additions to a counter of the group with this number, of those that the pool has: how many are done.
pub(crate) fn ask_often<R: Wait>(
    rt: &R,
    alloc: Global,
    cluster: &Cluster,
    pass: &mut Pass,
    number: usize,
    times: u32,
) -> Result<u32, ClusterFault>
    requires { IsPassOf cluster.now pass.old }
    ensures { IsPassOf cluster.now pass.new }
{
    let group = number.checked_rem(cluster.group_count()).unwrap_or(0);
    let object = object_in(alloc, cluster, pass, group)?;
    let session = cluster.open(rt, pass, Name::new(alloc, WRITER)?, None)?;
    let mut done: u32 = 0;
    for _time in 0..times {
        if is_done(rt, alloc, cluster, pass, session, object.as_str())? {
            done = done.saturating_add(1);
        }
    }
    Ok(done)
}

// So many verdicts by one view: how many allow.
pub(crate) fn judge_often<R: Wait>(
    rt: &R,
    alloc: Global,
    cluster: &Cluster,
    pass: &mut Pass,
    times: u32,
) -> Result<u32, ClusterFault>
    requires { IsPassOf cluster.now pass.old }
    ensures { IsPassOf cluster.now pass.new }
{
    let session = cluster.open(rt, pass, Name::new(alloc, WRITER)?, None)?;
    let view = cluster.view(pass, &Name::new(alloc, POOL)?)?;
    let needs = Needs {
        reads: true,
        writes: true,
        calls: Calls::new(alloc),
    };
    let mut allowed: u32 = 0;
    for time in 0..times {
        let object = OBJECTS[(time % 4) as usize];
        if cluster.judge(pass, session, &view, "", object, &needs, 0)? {
            allowed = allowed.saturating_add(1);
        }
    }
    Ok(allowed)
}

// So many views of the pool: how many show its groups.
pub(crate) fn view_often(
    alloc: Global,
    cluster: &Cluster,
    pass: &mut Pass,
    times: u32,
) -> Result<u32, ClusterFault>
    requires { IsPassOf cluster.now pass.old }
    ensures { IsPassOf cluster.now pass.new }
{
    let pool = Name::new(alloc, POOL)?;
    let mut seen: u32 = 0;
    for _time in 0..times {
        if cluster.view(pass, &pool)?.pg_num > 0 {
            seen = seen.saturating_add(1);
        }
    }
    Ok(seen)
}
