//! The outcome of a vector of operations.

ghost use Rattle.std.specs.Prelude.{◌≡◌, ◌≤◌, IfOk, length, option_copied};
ghost use Rattle.object_core.specs.Content.{bytes_of, attributes_of};
ghost use Rattle.object_core.specs.Operations.{left_by};
ghost use Rattle.object_core.specs.ToldEffects.{after, told};

use crate::attributes::Attributes;
use crate::bytes::Bytes;
use crate::object::Object;
use common_types::{Items, OutOfMemory, TryClone};
use std::alloc::Global;
use std::marker::Model;

/// What operations gave, in their order, which contracts see as the list of them.
pub type Outputs = Items<Bytes>;

/// What becomes of the object that a vector is given.
#[derive(Debug, Drop)]
pub enum Change {
    /// It stays as it was given, and was not copied.
    Kept,
    /// It is this object now, or is gone.
    Became(Option<Object>),
}

/// The outcome of a vector of operations.
#[derive(Debug, Drop)]
pub enum Outcome {
    /// All operations were done: their outputs, and what becomes of the object.
    Done { outputs: Outputs, object: Change },
    /// The first operation that failed, counted from 1, and its error number: 2 ENOENT, 17 EEXIST, 22 EINVAL,
    /// 27 EFBIG, 34 ERANGE, 61 ENODATA or 95 EOPNOTSUPP. The object stays as it was.
    Failed { place: usize, number: u32 },
}

impl Change {
    /// The object after the change to a given one. It takes no memory.
    pub fn look<'a>(&'a self, given: Option<&'a Object>) -> Option<&'a Object>
        ensures { option_copied result ≡ after (option_copied given.entry) self.now }
    {
        match self {
            Change::Kept => given,
            Change::Became(object) => object.as_ref(),
        }
    }

    /// The object after the change to a given one, which is copied only where it was kept.
    pub fn into_object(self, given: Option<&Object>) -> Result<Option<Object>, OutOfMemory>
        ensures { IfOk result (λ object. object ≡ after (option_copied given.entry) self) }
    {
        match self {
            Change::Became(object) => Ok(object),
            Change::Kept => match given {
                None => Ok(None),
                Some(object) => Ok(Some(object.copy()?)),
            },
        }
    }

    /// The bytes and attributes after the change to a given object, of which a missing one has none.
    pub(crate) fn into_parts(
        self,
        alloc: Global,
        given: Option<&Object>,
    ) -> Result<(Bytes, Attributes), OutOfMemory>
        ensures bytes { IfOk result (λ parts. parts.0 ≡ bytes_of (after (option_copied given.entry) self)) }
        ensures attributes { IfOk result (λ parts. parts.1 ≡ attributes_of (after (option_copied given.entry) self)) }
        ensures limit { IfOk result (λ parts. length parts.0 ≤ 65536) }
    {
        match self.into_object(given)? {
            None => Ok((Bytes::new(alloc), Attributes::new(alloc))),
            Some(object) => Ok(object.into_parts()),
        }
    }

    /// The attributes after the change to a given object, of which a missing one has none. No bytes are copied.
    pub fn into_attributes(
        self,
        alloc: Global,
        given: Option<&Object>,
    ) -> Result<Attributes, OutOfMemory>
        ensures { IfOk result (λ attributes. attributes ≡ attributes_of (after (option_copied given.entry) self)) }
    {
        match self {
            Change::Became(None) => Ok(Attributes::new(alloc)),
            Change::Became(Some(object)) => Ok(object.into_parts().1),
            Change::Kept => match given {
                None => Ok(Attributes::new(alloc)),
                Some(object) => object.attributes().copy(),
            },
        }
    }

    /// An equal change.
    pub fn copy(&self) -> Result<Change, OutOfMemory>
        ensures { IfOk result (λ change. change ≡ self.now) }
    {
        match self {
            Change::Kept => Ok(Change::Kept),
            Change::Became(None) => Ok(Change::Became(None)),
            Change::Became(Some(object)) => Ok(Change::Became(Some(object.copy()?))),
        }
    }
}

impl Outcome {
    /// The object after a vector that was run on a given one: what fails leaves it as it was. It takes no
    /// memory.
    pub fn look<'a>(&'a self, given: Option<&'a Object>) -> Option<&'a Object>
        ensures { let object = option_copied given.entry in
            option_copied result ≡ left_by object (told object self.now) }
    {
        match self {
            Outcome::Done { object, .. } => object.look(given),
            Outcome::Failed { .. } => given,
        }
    }

    /// An equal outcome.
    pub fn copy(&self) -> Result<Outcome, OutOfMemory>
        ensures { IfOk result (λ outcome. outcome ≡ self.now) }
    {
        match self {
            Outcome::Done { outputs, object } => Ok(Outcome::Done {
                outputs: outputs.copy()?,
                object: object.copy()?,
            }),
            Outcome::Failed { place, number } => Ok(Outcome::Failed {
                place: *place,
                number: *number,
            }),
        }
    }
}
