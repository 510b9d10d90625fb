//! Operations that tests ask for, and names and pools.

ghost use Rattle.std.specs.Prelude.{◌≤◌};

use Work::{Add, Append, AppendRead, Get, List, Read};
use common_types::{Name, Tags};
use map_core::PoolView;
use object_core::{Bytes, Op};
use std::alloc::Global;
use std::process::Abort;

// What is asked: one operation on an object, an append of `a` and a read in one vector, or the names of a group.
#[derive(Clone, Copy)]
pub(crate) enum Work {
    Append(&'static str),
    Read,
    AppendRead,
    // Calls of the class `counter`.
    Add,
    Get,
    List(u32),
}

pub(crate) fn name<R: Abort>(rt: &R, alloc: Global, text: &str) -> Name {
    Name::new(alloc, text).expect(rt, "memory")
}

fn bytes<R: Abort>(rt: &R, alloc: Global, text: &str) -> Bytes {
    Bytes::from_slice(alloc, text.as_bytes()).expect(rt, "memory")
}

// A call of a method of the class `counter`.
fn call<R: Abort>(rt: &R, alloc: Global, method: &str, input: &str) -> Op {
    Op::Call {
        class: name(rt, alloc, "counter"),
        method: name(rt, alloc, method),
        input: bytes(rt, alloc, input),
    }
}

// The first operation of this work.
fn op<R: Abort>(rt: &R, alloc: Global, work: Work) -> Op {
    match work {
        Append(text) => Op::Append(bytes(rt, alloc, text)),
        AppendRead => Op::Append(bytes(rt, alloc, "a")),
        Add => call(rt, alloc, "add", "1"),
        Get => call(rt, alloc, "get", ""),
        Read | List(_) => Op::Read {
            offset: 0,
            length: 0,
        },
    }
}

// The operations of this work, in order.
pub(crate) fn ops<R: Abort>(rt: &R, alloc: Global, work: Work) -> Vec<Op> {
    let mut ops = Vec::new(alloc);
    ops.push(op(rt, alloc, work)).expect(rt, "memory");
    if matches!(work, AppendRead) {
        ops.push(op(rt, alloc, Read)).expect(rt, "memory");
    }
    ops
}

// The pool `data` of `pg_num` groups.
pub(crate) fn view<R: Abort>(rt: &R, alloc: Global, pg_num: u32) -> PoolView
    requires { 1 ≤ pg_num }
    ensures { 1 ≤ result.pg_num }
{
    PoolView {
        epoch: 2,
        pool: name(rt, alloc, "data"),
        pg_num,
        size: 3,
        min_size: 2,
        tags: Tags::from_vec(Vec::new(alloc)),
    }
}
