//! What was decided on a request, before it stands in a log.

ghost use Rattle.std.specs.Prelude.{◌≡◌, IfOk};
ghost use Rattle.store_core.specs.Objects.{change_of, decided_of};

use crate::entry::Entry;
use crate::object_name::ObjectName;
use common_types::OutOfMemory;
use object_core::Object;
use std::marker::Model;
use std::sync::Arc;

/// What becomes of the object that a request names.
#[derive(Drop)]
pub enum ObjectChange {
    /// It stays as it was.
    Kept,
    /// It is this object now, or is gone.
    Became(Option<Arc<Object>>),
}

impl ObjectChange {
    /// An equal change, which shares its object.
    pub fn share(&self) -> Result<ObjectChange, OutOfMemory>
        ensures { IfOk result (λ change. change_of change ≡ change_of self.now) }
    {
        match self {
            ObjectChange::Kept => Ok(ObjectChange::Kept),
            ObjectChange::Became(None) => Ok(ObjectChange::Became(None)),
            ObjectChange::Became(Some(object)) => Ok(ObjectChange::Became(Some(Arc::try_clone(
                object,
            )?))),
        }
    }
}

/// What becomes of the object of a name.
#[derive(Drop)]
pub struct NamedChange {
    pub name: ObjectName,
    pub left: ObjectChange,
}

/// An entry, and what becomes of its object.
pub struct Decided {
    entry: Entry,
    left: ObjectChange,
}

impl Drop for Decided {
    fn drop(self) {
        let Decided { entry: _, left: _ } = self;
    }
}

impl Model for Decided {
    ghost use Rattle.store_core.specs.Deciding.{Decision};

    ghost Value = { Decision };

    ghost use Rattle.store_core.specs.Objects.{decided_of};

    ghost view = { λ d. decided_of d.entry d.left };
}

impl Decided {
    /// The entry that it will be.
    pub fn entry(&self) -> &Entry
        ensures { result.now ≡ self.now.entry }
    {
        &self.entry
    }

    pub(crate) fn new(entry: Entry, left: ObjectChange) -> Decided
        ensures { result ≡ decided_of entry left }
    {
        Decided { entry, left }
    }

    /// The entry that it will be, and what becomes of its object.
    pub fn into_parts(self) -> (Entry, ObjectChange)
        ensures { decided_of result.0 result.1 ≡ self }
    {
        let Decided { entry, left } = self;
        (entry, left)
    }
}
