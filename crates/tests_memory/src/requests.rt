//! Requests that append to one object, or read it.

ghost use Rattle.std.specs.Prelude.{◌≤◌, IfOk};

use cap_text::parse;
use common_types::{Name, OutOfMemory, Tags};
use entry_core::{Id, Sealed};
use grant_core::{GrantTree, ProfileTable, expand};
use map_core::PoolView;
use object_core::{Bytes, NeedsFault, Op};
use std::alloc::{AllocError, Global};
use verdict_core::{SharedTicket, Ticket};

fn grants(alloc: Global) -> Result<GrantTree, OutOfMemory> {
    let Ok(list) = parse(alloc, "allow rw") else {
        return Err(AllocError);
    };
    let table = ProfileTable::builtin(alloc)?;
    match expand(alloc, &table, &list) {
        Ok(tree) => Ok(tree),
        Err(_) => Err(AllocError),
    }
}

fn ticket(alloc: Global) -> Result<SharedTicket, OutOfMemory> {
    SharedTicket::of(Ticket::of(grants(alloc)?, None))
}

fn view(alloc: Global) -> Result<PoolView, OutOfMemory>
    ensures { IfOk result (λ view. 1 ≤ view.pg_num) }
{
    Ok(PoolView {
        epoch: 2,
        pool: Name::new(alloc, "data")?,
        pg_num: 8,
        size: 3,
        min_size: 2,
        tags: Tags::from_vec(Vec::new(alloc)),
    })
}

// An append of this text, or a read of all where it is empty.
fn op(alloc: Global, text: &str) -> Result<Op, OutOfMemory> {
    if text.is_empty() {
        return Ok(Op::Read {
            offset: 0,
            length: 0,
        });
    }
    Ok(Op::Append(Bytes::from_slice(alloc, text.as_bytes())?))
}

fn ops(alloc: Global, text: &str) -> Result<Vec<Op>, OutOfMemory> {
    let mut ops = Vec::new(alloc);
    ops.push(op(alloc, text)?)?;
    Ok(ops)
}

/// The request of this number of session 1: an append of this text to the object `x`, or a read of it where it is empty.
pub(crate) fn request(alloc: Global, number: u32, text: &str) -> Result<Sealed, NeedsFault> {
    let ops = ops(alloc, text)?;
    let ticket = ticket(alloc)?;
    let namespace = Name::new(alloc, "")?;
    let object = Name::new(alloc, "x")?;
    let view = view(alloc)?;
    let id = Id::new(1, number);
    Sealed::vector(alloc, id, ticket, 0, view, 5, namespace, object, ops)
}
