//! Operations on an object.

use crate::bytes::Bytes;
use common_types::{Name, OutOfMemory, TryClone};

/// An operation on an object. Places, lengths and sizes are in bytes.
#[derive(Debug)]
pub enum Op {
    /// Gives the bytes from `offset` on, at most `length`, or all of them where `length` is 0.
    Read {
        offset: u32,
        length: u32,
    },
    /// Gives the size in decimal.
    Stat,
    /// Lays bytes over the old ones from a place on, and fills a gap before them by zeros.
    Write {
        offset: u32,
        bytes: Bytes,
    },
    /// Replaces the bytes and keeps the attributes.
    WriteFull(Bytes),
    /// Adds bytes at the end.
    Append(Bytes),
    /// Cuts the bytes to a size, or extends them to it by zeros.
    Truncate(u32),
    /// Removes the object with its attributes.
    Remove,
    /// Makes the object where it is missing; where it is there, exclusive is refused.
    Create {
        exclusive: bool,
    },
    /// Gives the value of an attribute.
    GetAttribute(Name),
    /// Sets an attribute.
    SetAttribute {
        name: Name,
        value: Bytes,
    },
    /// Removes an attribute.
    RemoveAttribute(Name),
    /// Calls a method of an object class with an input.
    Call {
        class: Name,
        method: Name,
        input: Bytes,
    },
}

impl Drop for Op {
    fn drop(self) {
        match self {
            Op::Read {
                offset: _,
                length: _,
            }
            | Op::Stat
            | Op::Write {
                offset: _,
                bytes: _,
            }
            | Op::WriteFull(_)
            | Op::Append(_)
            | Op::Truncate(_)
            | Op::Remove
            | Op::Create { exclusive: _ }
            | Op::GetAttribute(_)
            | Op::SetAttribute { name: _, value: _ }
            | Op::RemoveAttribute(_)
            | Op::Call {
                class: _,
                method: _,
                input: _,
            } => (),
        }
    }
}

impl TryClone for Op {
    fn copy(&self) -> Result<Op, OutOfMemory> {
        match self {
            Op::Read { offset, length } => Ok(Op::Read {
                offset: *offset,
                length: *length,
            }),
            Op::Stat => Ok(Op::Stat),
            Op::Write { offset, bytes } => Ok(Op::Write {
                offset: *offset,
                bytes: bytes.copy()?,
            }),
            Op::WriteFull(bytes) => Ok(Op::WriteFull(bytes.copy()?)),
            Op::Append(bytes) => Ok(Op::Append(bytes.copy()?)),
            Op::Truncate(size) => Ok(Op::Truncate(*size)),
            Op::Remove => Ok(Op::Remove),
            Op::Create { exclusive } => Ok(Op::Create {
                exclusive: *exclusive,
            }),
            Op::GetAttribute(name) => Ok(Op::GetAttribute(name.copy()?)),
            Op::SetAttribute { name, value } => Ok(Op::SetAttribute {
                name: name.copy()?,
                value: value.copy()?,
            }),
            Op::RemoveAttribute(name) => Ok(Op::RemoveAttribute(name.copy()?)),
            Op::Call {
                class,
                method,
                input,
            } => Ok(Op::Call {
                class: class.copy()?,
                method: method.copy()?,
                input: input.copy()?,
            }),
        }
    }
}
