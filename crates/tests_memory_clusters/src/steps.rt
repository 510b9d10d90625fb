//! Calls of a pass on a cluster of one group, and what each is to tell.

ghost use Rattle.cluster.specs.Asks.{IsPassOf};

use crate::begun::{POOL, USER, group};
use Step::{Answer, Append, Open, Read, Work};
use cluster::{Cluster, ClusterFault, NewRequest, Pass, Submitted};
use common_types::Name;
use entry_core::{Id, Reply};
use object_core::{Bytes, Op};
use std::alloc::Global;
use std::sync::Wait;
use world_core::Ops;

/// A call of a pass.
#[derive(Clone, Copy)]
pub(crate) enum Step {
    /// A session is opened.
    Open,
    /// The session of this number appends `a` to an object.
    Append(u32),
    /// The session of this number reads the object.
    Read(u32),
    /// This many messages are delivered.
    Work(u32),
    /// The answer to the first request of the session of this number is looked for.
    Answer(u32),
}

/// What a call tells.
#[derive(Drop)]
pub(crate) enum Told {
    Session(u32),
    Submitted(Id),
    Worked,
    Reply(Option<Reply>),
}

/// What a call is to tell: a session of this number, the request of its first number, or this output.
#[derive(Clone, Copy)]
pub(crate) enum Expected {
    Session(u32),
    First(u32),
    Worked,
    Output(&'static str),
}

/// A call, and what it is to tell.
pub(crate) type Row = (Step, Expected);

/// The session of this number appends, and is answered. The deliveries are more than enough.
pub(crate) const APPEND: &[Row; 4] = &[
    (Open, Expected::Session(1)),
    (Append(1), Expected::First(1)),
    (Work(24), Expected::Worked),
    (Answer(1), Expected::Output("")),
];

/// Session 2 reads, and is answered.
pub(crate) const READ: &[Row; 4] = &[
    (Open, Expected::Session(2)),
    (Read(2), Expected::First(2)),
    (Work(24), Expected::Worked),
    (Answer(2), Expected::Output("a")),
];

/// How often a call is made.
pub(crate) fn times(step: Step) -> u32 {
    match step {
        Work(count) => count,
        _ => 1,
    }
}

/// Who asks, in the default namespace of the pool.
pub(crate) fn new_request(alloc: Global, session: u32) -> Result<NewRequest, ClusterFault> {
    Ok(NewRequest {
        session,
        tick: 0,
        pool: Name::new(alloc, POOL)?,
        namespace: Name::new(alloc, "")?,
    })
}

fn op(alloc: Global, step: Step) -> Result<Op, ClusterFault> {
    match step {
        Append(_) => Ok(Op::Append(Bytes::from_slice(alloc, b"a")?)),
        _ => Ok(Op::Read {
            offset: 0,
            length: 0,
        }),
    }
}

fn submit<R: Wait>(
    rt: &R,
    alloc: Global,
    cluster: &Cluster,
    pass: &mut Pass,
    session: u32,
    step: Step,
) -> Result<Told, ClusterFault>
    requires { IsPassOf cluster.now pass.old }
    ensures { IsPassOf cluster.now pass.new }
{
    let new_request = new_request(alloc, session)?;
    let object = Name::new(alloc, "x")?;
    let mut ops = Ops::new(alloc);
    ops.push(op(alloc, step)?)?;
    let submitted = cluster.submit(rt, pass, new_request, object, ops)?;
    Ok(Told::Submitted(submitted.id))
}

fn answer<R: Wait>(
    rt: &R,
    alloc: Global,
    cluster: &Cluster,
    pass: &mut Pass,
    session: u32,
) -> Result<Told, ClusterFault>
    requires { IsPassOf cluster.now pass.old }
    ensures { IsPassOf cluster.now pass.new }
{
    let submitted = Submitted {
        id: Id::new(session, 1),
        group: group(alloc, 0)?,
    };
    Ok(Told::Reply(cluster.answer(rt, pass, &submitted)?))
}

/// Makes a call.
pub(crate) fn make<R: Wait>(
    rt: &R,
    alloc: Global,
    cluster: &Cluster,
    pass: &mut Pass,
    step: Step,
) -> Result<Told, ClusterFault>
    requires { IsPassOf cluster.now pass.old }
    ensures { IsPassOf cluster.now pass.new }
{
    match step {
        Open => {
            let user = Name::new(alloc, USER)?;
            Ok(Told::Session(cluster.open(rt, pass, user, None)?))
        }
        Append(session) | Read(session) => submit(rt, alloc, cluster, pass, session, step),
        Work(_) => {
            let group = group(alloc, 0)?;
            cluster.work(rt, pass, &group)?;
            Ok(Told::Worked)
        }
        Answer(session) => answer(rt, alloc, cluster, pass, session),
    }
}

/// Whether memory was refused.
pub(crate) fn wants_memory(told: &Result<Told, ClusterFault>) -> bool {
    matches!(told, Err(ClusterFault::OutOfMemory))
}

/// Whether a reply is this one output.
pub(crate) fn is_output(reply: Option<&Reply>, text: &str) -> bool {
    match reply {
        Some(Reply::Done(outputs)) => match outputs.as_slice() {
            [only] => only.as_slice() == text.as_bytes(),
            _ => false,
        },
        _ => false,
    }
}

/// Whether a call tells what it is to tell.
pub(crate) fn is_expected(told: &Result<Told, ClusterFault>, expected: Expected) -> bool {
    match (told, expected) {
        (Ok(Told::Session(number)), Expected::Session(wanted)) => *number == wanted,
        (Ok(Told::Submitted(id)), Expected::First(session)) => *id == Id::new(session, 1),
        (Ok(Told::Worked), Expected::Worked) => true,
        (Ok(Told::Reply(reply)), Expected::Output(text)) => is_output(reply.as_ref(), text),
        _ => false,
    }
}

// Whether a call tells at once what it is to tell, or once more where memory was refused.
fn is_made_again<R: Wait>(
    rt: &R,
    alloc: Global,
    cluster: &Cluster,
    pass: &mut Pass,
    row: &Row,
) -> bool
    requires { IsPassOf cluster.now pass.old }
    ensures { IsPassOf cluster.now pass.new }
{
    let told = make(rt, alloc, cluster, pass, row.0);
    if !wants_memory(&told) {
        return is_expected(&told, row.1);
    }
    is_expected(&make(rt, alloc, cluster, pass, row.0), row.1)
}

// Whether a row's call is made as often as the row says.
fn is_made<R: Wait>(rt: &R, alloc: Global, cluster: &Cluster, pass: &mut Pass, row: &Row) -> bool
    requires { IsPassOf cluster.now pass.old }
    ensures { IsPassOf cluster.now pass.new }
{
    for _time in 0..times(row.0) {
        if !is_made_again(rt, alloc, cluster, pass, row) {
            return false;
        }
    }
    true
}

/// Whether all rows' calls are made.
pub(crate) fn are_made<R: Wait>(
    rt: &R,
    alloc: Global,
    cluster: &Cluster,
    pass: &mut Pass,
    rows: &[Row],
) -> bool
    requires { IsPassOf cluster.now pass.old }
    ensures { IsPassOf cluster.now pass.new }
{
    for row in rows {
        if !is_made(rt, alloc, cluster, pass, row) {
            return false;
        }
    }
    true
}
