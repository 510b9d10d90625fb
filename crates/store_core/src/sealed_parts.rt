//! The parts of a sealed request.

ghost use Rattle.std.specs.Prelude.{◌≡◌, option_copied};
ghost use Rattle.store_core.specs.Sealing.{ops_in, target_in};

use crate::id::Id;
use crate::object_name::ObjectName;
use map_core::PoolView;
use object_core::Op;
use verdict_core::{Needs, SharedTicket, Target};

/// What is asked.
pub(crate) enum Task {
    /// These operations on the object of the name.
    Vector(Vec<Op>),
    /// The names of the namespace's objects that the group holds.
    Listing,
}

impl Drop for Task {
    fn drop(self) {
        match self {
            Task::Vector(_) | Task::Listing => (),
        }
    }
}

/// A request with all that it is decided by, and with what it needs.
pub(crate) struct Parts {
    pub(crate) id: Id,
    pub(crate) ticket: SharedTicket,
    pub(crate) tick: u64,
    pub(crate) view: PoolView,
    pub(crate) group: u32,
    pub(crate) name: ObjectName,
    pub(crate) task: Task,
    pub(crate) needs: Needs,
}

impl Drop for Parts {
    fn drop(self) {
        let Parts {
            id: _,
            ticket: _,
            tick: _,
            view: _,
            group: _,
            name: _,
            task: _,
            needs: _,
        } = self;
    }
}

/// Where a request goes, as a verdict looks at it.
pub(crate) fn target_of(parts: &Parts) -> Target<'_>
    ensures { result ≡ target_in parts.now }
{
    Target {
        pool: parts.view.pool.as_str().as_bytes(),
        tags: &parts.view.tags,
        namespace: parts.name.namespace.as_str().as_bytes(),
        object: parts.name.name.as_str().as_bytes(),
    }
}

/// The operations, where it is a vector.
pub(crate) fn ops_of(parts: &Parts) -> Option<&[Op]>
    ensures { option_copied result ≡ ops_in parts.now.task }
{
    match &parts.task {
        Task::Vector(ops) => Some(ops.as_slice()),
        Task::Listing => None,
    }
}
