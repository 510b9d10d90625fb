//! What a request asks for, and where.

ghost use Rattle.std.specs.Prelude.{Some};
ghost use Rattle.request_types.specs.Text.{condition_text};

use common_types::{Items, Name, OutOfMemory, Tags, TryClone};
use std::fmt;
use std::marker::Model;

/// Where a request goes: an object of a namespace in a pool, and the pool's application tags.
///
/// It borrows all of it, so that a verdict copies nothing. Names are bytes, in no encoding. A listing has the empty object name.
#[derive(Drop)]
pub struct Target<'a> {
    pub pool: &'a [u8],
    pub tags: &'a Tags,
    pub namespace: &'a [u8],
    pub object: &'a [u8],
}

impl<'a> Model for Target<'a> {
    ghost use Rattle.request_types.specs.Target as seen;

    ghost Value = { seen.Target };

    ghost view = { λ t. record { pool = t.pool.now; tags = t.tags.now; namespace = t.namespace.now; object = t.object.now } };
}

/// A call of a class's method, with what the class registry says of the method.
#[derive(Debug)]
pub struct ClassCall {
    pub class: Name,
    pub method: Name,
    pub class_reads: bool,
    pub class_writes: bool,
    /// Whether flags alone may cover the class: it is on the default list.
    pub listed: bool,
}

impl Drop for ClassCall {
    fn drop(self) {
        let ClassCall {
            class: _,
            method: _,
            class_reads: _,
            class_writes: _,
            listed: _,
        } = self;
    }
}

/// What a request asks for.
#[derive(Debug, Drop)]
pub struct Needs {
    pub reads: bool,
    pub writes: bool,
    pub calls: Calls,
}

/// Calls in order, which contracts see as the list of them.
pub type Calls = Items<ClassCall>;

/// A condition of a grant that a request may fail, in the order in which they are looked at.
///
/// It prints as its word, such as `namespace` or `call 2`.
#[derive(Clone, Copy, Debug, PartialEq, Eq)]
pub enum Condition {
    /// The ticket's time is over.
    Expired,
    /// The client's address is not in the grant's network.
    Network,
    Pool,
    Namespace,
    Tag,
    Prefix,
    Read,
    Write,
    /// The first call that the grant does not cover, counted from 1 among the calls.
    Call(usize),
}

impl fmt::Display for Condition {
    ghost output = { λ condition. Some (condition_text condition) };

    fn fmt<W: fmt::Write>(&self, f: &mut fmt::Formatter<W>) -> fmt::Result {
        match self {
            Condition::Expired => write!(f, "expired"),
            Condition::Network => write!(f, "network"),
            Condition::Pool => write!(f, "pool"),
            Condition::Namespace => write!(f, "namespace"),
            Condition::Tag => write!(f, "tag"),
            Condition::Prefix => write!(f, "prefix"),
            Condition::Read => write!(f, "read"),
            Condition::Write => write!(f, "write"),
            Condition::Call(number) => write!(f, "call {number}"),
        }
    }
}

impl TryClone for ClassCall {
    fn copy(&self) -> Result<ClassCall, OutOfMemory> {
        Ok(ClassCall {
            class: self.class.copy()?,
            method: self.method.copy()?,
            class_reads: self.class_reads,
            class_writes: self.class_writes,
            listed: self.listed,
        })
    }
}
