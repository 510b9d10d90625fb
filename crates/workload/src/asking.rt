//! What a worker asks for.

ghost use Rattle.cluster.specs.Asks.{IsPassOf};

use cluster::{Cluster, ClusterFault, NewRequest, Pass, Submitted, Worked};
use common_types::Name;
use entry_core::GroupId;
use group_messages::GroupFault;
use object_core::{Bytes, Op};
use std::alloc::Global;
use std::sync::Wait;
use world_core::{Ops, WorldFault};

/// How often a call is made again for which the published map gave no reading.
pub(crate) const MAX_TRIES: u32 = 1000;

/// The pool that all work on.
pub(crate) const POOL: &str = "data";

/// The object that all work on who have none of their own.
pub(crate) const OBJECT: &str = "c";

/// What a worker asks for.
#[derive(Clone, Copy)]
pub(crate) enum Wish {
    /// `counter.add` of 1.
    Addition,
    /// A byte more.
    Append,
}

// One operation.
pub(crate) fn ops_of(alloc: Global, wish: Wish) -> Result<Ops, ClusterFault> {
    let op = match wish {
        Wish::Addition => Op::Call {
            class: Name::new(alloc, "counter")?,
            method: Name::new(alloc, "add")?,
            input: Bytes::from_slice(alloc, b"1")?,
        },
        Wish::Append => Op::Append(Bytes::from_slice(alloc, b"x")?),
    };
    let mut ops = Ops::new(alloc);
    ops.push(op)?;
    Ok(ops)
}

// Who asks, and where.
fn new_request_of(alloc: Global, session: u32) -> Result<NewRequest, ClusterFault> {
    Ok(NewRequest {
        session,
        tick: 0,
        pool: Name::new(alloc, POOL)?,
        namespace: Name::new(alloc, "")?,
    })
}

// Submits one request. Where there is no reading the call is made again.
pub(crate) fn submit_one<R: Wait>(
    rt: &R,
    alloc: Global,
    cluster: &Cluster,
    pass: &mut Pass,
    session: u32,
    object: &str,
    wish: Wish,
) -> Result<Submitted, ClusterFault>
    requires { IsPassOf cluster.now pass.old }
    ensures { IsPassOf cluster.now pass.new }
{
    for _try in 0..MAX_TRIES {
        let new_request = new_request_of(alloc, session)?;
        let object = Name::new(alloc, object)?;
        let ops = ops_of(alloc, wish)?;
        match cluster.submit(rt, pass, new_request, object, ops) {
            Err(ClusterFault::NoReader) => {}
            answer => return answer,
        }
    }
    Err(ClusterFault::NoReader)
}

// Works once on a group: whether a message was there. One to a daemon that is down is passed over.
pub(crate) fn deliver<R: Wait>(
    rt: &R,
    cluster: &Cluster,
    pass: &mut Pass,
    group: &GroupId,
) -> Result<bool, ClusterFault>
    requires { IsPassOf cluster.now pass.old }
    ensures { IsPassOf cluster.now pass.new }
{
    match cluster.work(rt, pass, group) {
        Ok(worked) => Ok(worked == Worked::Delivered),
        Err(ClusterFault::World(WorldFault::Group(GroupFault::Unreachable))) => Ok(true),
        Err(fault) => Err(fault),
    }
}

// Submits one request, and works once on its group.
pub(crate) fn ask<R: Wait>(
    rt: &R,
    alloc: Global,
    cluster: &Cluster,
    pass: &mut Pass,
    session: u32,
    wish: Wish,
) -> Result<(), ClusterFault>
    requires { IsPassOf cluster.now pass.old }
    ensures { IsPassOf cluster.now pass.new }
{
    let submitted = submit_one(rt, alloc, cluster, pass, session, OBJECT, wish)?;
    deliver(rt, cluster, pass, &submitted.group)?;
    Ok(())
}
