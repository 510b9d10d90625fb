//! What a vector of operations asks for.

ghost use Rattle.std.specs.Prelude.{◌≡◌, ◌++◌, Some, None, IfOk, OnOk, option_to_list};
ghost use Rattle.std.specs.List.{list_any, filter_map};
ghost use Rattle.common_types.specs.Refused.{RefusedFirst};
ghost use Rattle.object_core.specs.Faults.{text_of, number_of_fault};
ghost use Rattle.object_core.specs.Needs.{needs_fault};
ghost use Rattle.object_core.specs.Needs as spec;
ghost use Rattle.object_core.specs.declared.needs.NeedsFault.TheVariants as faults;

use crate::class::{method_of, registered};
use crate::errors::{EINVAL, EOPNOTSUPP};
use crate::op::Op;
use common_types::OutOfMemory;
use std::alloc::{AllocError, AllocFailed, Global};
use std::error::Error;
use std::fmt;
use verdict_core::{Calls, ClassCall, Needs};

/// How many operations a vector has at most.
const MAX_OPERATIONS: usize = 16;

/// Why a vector of operations is refused before it runs.
#[derive(Clone, Copy, Debug, PartialEq, Eq)]
pub enum NeedsFault {
    /// It has no operation.
    EmptyVector,
    /// It has more than 16 operations.
    TooManyOps,
    /// It calls a method that the class registry has not.
    NoMethod,
    /// A growth was refused.
    OutOfMemory,
}

impl NeedsFault {
    /// The fault's error number. `OutOfMemory` has none.
    pub fn number(self) -> Option<u32>
        ensures { result ≡ number_of_fault self }
    {
        match self {
            NeedsFault::EmptyVector => Some(EINVAL),
            NeedsFault::TooManyOps => Some(EINVAL),
            NeedsFault::NoMethod => Some(EOPNOTSUPP),
            NeedsFault::OutOfMemory => None,
        }
    }
}

impl fmt::Display for NeedsFault {
    ghost output = { λ fault. Some (text_of fault) };

    fn fmt<W: fmt::Write>(&self, f: &mut fmt::Formatter<W>) -> fmt::Result {
        match self {
            NeedsFault::EmptyVector => write!(f, "N1 EmptyVector"),
            NeedsFault::TooManyOps => write!(f, "N2 TooManyOps"),
            NeedsFault::NoMethod => write!(f, "N3 NoMethod"),
            NeedsFault::OutOfMemory => write!(f, "N4 OutOfMemory"),
        }
    }
}

impl Error for NeedsFault {}

impl From<AllocError> for NeedsFault {
    ghost from_gives = { λ _ fault. fault ≡ faults.OutOfMemory };

    fn from(_error: AllocError) -> NeedsFault {
        NeedsFault::OutOfMemory
    }
}

impl<T: Drop> From<AllocFailed<T>> for NeedsFault {
    ghost from_gives = { λ _ fault. fault ≡ faults.OutOfMemory };

    fn from(_error: AllocFailed<T>) -> NeedsFault {
        NeedsFault::OutOfMemory
    }
}

/// Whether an operation needs the permission to read.
fn is_read(op: &Op) -> bool
    ensures { result ≡ spec.is_read op.now }
{
    matches!(op, Op::Read { .. } | Op::Stat | Op::GetAttribute(_))
}

/// Whether an operation needs the permission to write.
fn is_write(op: &Op) -> bool
    ensures { result ≡ spec.is_write op.now }
{
    match op {
        Op::Write { .. } | Op::WriteFull(_) | Op::Append(_) | Op::Truncate(_) => true,
        Op::Remove | Op::Create { .. } => true,
        Op::SetAttribute { .. } | Op::RemoveAttribute(_) => true,
        Op::Read { .. } | Op::Stat | Op::GetAttribute(_) | Op::Call { .. } => false,
    }
}

/// Whether an operation calls a method that the registry has not.
fn is_unknown(op: &Op) -> bool
    ensures { result ≡ spec.is_unknown op.now }
{
    match op {
        Op::Call { class, method, .. } => method_of(class, method).is_none(),
        _ => false,
    }
}

/// Whether some operation of a vector calls a method that the registry has not.
fn calls_unknown(ops: &[Op]) -> bool
    ensures { result ≡ list_any spec.is_unknown ops.now }
{
    ops.iter().any(|op| is_unknown(op))
}

/// Why a vector is refused. It takes no memory.
fn needs_fault(ops: &[Op]) -> Option<NeedsFault>
    ensures { result ≡ spec.needs_fault ops.now }
{
    if ops.is_empty() {
        Some(NeedsFault::EmptyVector)
    } else if ops.len() > MAX_OPERATIONS {
        Some(NeedsFault::TooManyOps)
    } else if calls_unknown(ops) {
        Some(NeedsFault::NoMethod)
    } else {
        None
    }
}

/// Adds the call that an operation is, if it is one of a known method.
fn push_call(calls: &mut Vec<ClassCall>, op: &Op) -> Result<(), OutOfMemory>
    ensures { OnOk result
        (calls.new.items ≡ calls.old.items ++ option_to_list (spec.call_of op.now)) }
{
    match op {
        Op::Call { class, method, .. } => match method_of(class, method) {
            None => Ok(()),
            Some(found) => {
                calls.push(registered(class, method, found)?)?;
                Ok(())
            }
        },
        _ => Ok(()),
    }
}

/// The calls of a vector, in order.
fn calls_of(alloc: Global, ops: &[Op]) -> Result<Calls, OutOfMemory>
    ensures { IfOk result (λ calls. calls ≡ filter_map spec.call_of ops.now) }
{
    let mut calls = Vec::new(alloc);
    for op in ops {
        push_call(&mut calls, op)?;
    }
    Ok(Calls::from_vec(calls))
}

/// Whether some operation of a vector needs the permission to read.
fn reads(ops: &[Op]) -> bool
    ensures { result ≡ list_any spec.is_read ops.now }
{
    ops.iter().any(|op| is_read(op))
}

/// Whether some operation of a vector needs the permission to write.
fn writes(ops: &[Op]) -> bool
    ensures { result ≡ list_any spec.is_write ops.now }
{
    ops.iter().any(|op| is_write(op))
}

/// What a vector requests: whether some operation reads, whether some writes, and its class calls in order,
/// each with what the class registry says of it. A call itself neither reads nor writes.
///
/// Refused are, in this order: the empty vector, a vector of more than 16 operations, and one that calls an unknown
/// method. `OutOfMemory` comes last.
pub fn needs_of(alloc: Global, ops: &[Op]) -> Result<Needs, NeedsFault>
    ensures refused { RefusedFirst (needs_fault ops.now) NeedsFault.OutOfMemory result }
    ensures needs { IfOk result (λ needs. needs ≡ spec.needs_of ops.now) }
{
    match needs_fault(ops) {
        Some(fault) => Err(fault),
        None => Ok(Needs {
            reads: reads(ops),
            writes: writes(ops),
            calls: calls_of(alloc, ops)?,
        }),
    }
}
