//! What it costs to run a vector of operations on an object.

ghost use Rattle.std.specs.Prelude.{length};

use crate::fault::Fault;
use common_types::{Name, OutOfMemory};
use object_core::{Attributes, Bytes, Object, Op, Outcome, run_vector};
use std::alloc::Global;
use std::time::Clock;
use stopwatch::{Table, Work};

/// A vector on an object, which is run. The outcome is dropped.
struct Run {
    alloc: Global,
    object: Object,
    ops: Vec<Op>,
}

impl Drop for Run {
    fn drop(self) {
        let Run {
            alloc: _,
            object: _,
            ops: _,
        } = self;
    }
}

impl Work for Run {
    fn once(&self, _turn: usize) -> Result<bool, OutOfMemory> {
        match run_vector(self.alloc, Some(&self.object), self.ops.as_slice())? {
            Outcome::Done { .. } => Ok(true),
            Outcome::Failed { .. } => Ok(false),
        }
    }

    fn size(&self) -> u64 {
        1
    }
}

/// The object of these bytes, the first 65,536 of them where there are more.
fn object_of(alloc: Global, bytes: &[u8]) -> Result<Object, OutOfMemory> {
    let kept = bytes.len().min(65536);
    let bytes = Bytes::from_slice(alloc, &bytes[..kept])?;
    Ok(Object::new(bytes, Attributes::new(alloc)))
}

/// The text again and again.
fn repeated(alloc: Global, text: &str, times: usize) -> Result<Object, OutOfMemory> {
    let mut bytes = Vec::new(alloc);
    for _ in 0..times {
        bytes.extend_from_slice(text.as_bytes())?;
    }
    object_of(alloc, bytes.as_slice())
}

fn read_all() -> Op {
    Op::Read {
        offset: 0,
        length: 0,
    }
}

fn append(alloc: Global, text: &str) -> Result<Op, OutOfMemory> {
    Ok(Op::Append(Bytes::from_slice(alloc, text.as_bytes())?))
}

/// A call of `counter.add` with the input 1.
fn add_one(alloc: Global) -> Result<Op, OutOfMemory> {
    Ok(Op::Call {
        class: Name::new(alloc, "counter")?,
        method: Name::new(alloc, "add")?,
        input: Bytes::from_slice(alloc, b"1")?,
    })
}

/// A setting of an attribute.
fn set_owner(alloc: Global, value: &str) -> Result<Op, OutOfMemory> {
    Ok(Op::SetAttribute {
        name: Name::new(alloc, "owner")?,
        value: Bytes::from_slice(alloc, value.as_bytes())?,
    })
}

/// Adds a read, an append, a setting of an attribute and a look at it.
fn push_four(ops: &mut Vec<Op>, alloc: Global, name: &str) -> Result<(), OutOfMemory> {
    ops.push(read_all())?;
    ops.push(append(alloc, name)?)?;
    ops.push(set_owner(alloc, name)?)?;
    ops.push(Op::GetAttribute(Name::new(alloc, "owner")?))?;
    Ok(())
}

/// Four times these four.
fn sixteen(alloc: Global, name: &str) -> Result<Vec<Op>, OutOfMemory> {
    let mut ops = Vec::new(alloc);
    for _ in 0..4 {
        push_four(&mut ops, alloc, name)?;
    }
    Ok(ops)
}

/// The vectors that are measured.
#[derive(Clone, Copy)]
enum Kind {
    Read,
    Append,
    Count,
    Sixteen,
}

/// All kinds, in the order of their rows.
const KINDS: &[Kind] = &[Kind::Read, Kind::Append, Kind::Count, Kind::Sixteen];

impl Kind {
    fn name(self) -> &'static str {
        match self {
            Kind::Read => "vector, a read of 1,024 names",
            Kind::Append => "vector, an append to 1,024 names",
            Kind::Count => "vector, counter.add",
            Kind::Sixteen => "vector, 16 operations on 16 names",
        }
    }

    /// The object, whose contents repeat a given name, or are a number.
    fn object(self, alloc: Global, name: &str) -> Result<Object, OutOfMemory> {
        match self {
            Kind::Read | Kind::Append => repeated(alloc, name, 1024),
            Kind::Count => object_of(alloc, b"41"),
            Kind::Sixteen => repeated(alloc, name, 16),
        }
    }

    /// The operations.
    fn ops(self, alloc: Global, name: &str) -> Result<Vec<Op>, OutOfMemory> {
        match self {
            Kind::Read => Ok(vec![in alloc; read_all()]?),
            Kind::Append => Ok(vec![in alloc; append(alloc, name)?]?),
            Kind::Count => Ok(vec![in alloc; add_one(alloc)?]?),
            Kind::Sixteen => sixteen(alloc, name),
        }
    }

    fn work(self, alloc: Global, name: &str) -> Result<Run, OutOfMemory> {
        Ok(Run {
            alloc,
            object: self.object(alloc, name)?,
            ops: self.ops(alloc, name)?,
        })
    }
}

/// Adds the rows of vectors, over a given name.
pub(crate) fn add_vectors<C: Clock>(table: &mut Table<'_, C>, name: &str) -> Result<(), Fault> {
    for kind in KINDS {
        let work = kind.work(table.alloc(), name)?;
        table.row(kind.name(), &work)?;
    }
    Ok(())
}
