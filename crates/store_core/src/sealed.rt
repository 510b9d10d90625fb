//! Requests, sealed with the ticket and the map that they are decided by.

ghost use Rattle.std.specs.Prelude.{◌≡◌, ◌≤◌, false, IfOk, IfSome, None, option_copied};
ghost use Rattle.verdict_core.specs.Verdict.{report_of};
ghost use Rattle.common_types.specs.Refused.{RefusedFirst};
ghost use Rattle.object_core.specs.Needs.{needs_fault};
ghost use Rattle.store_core.specs.Deciding.{is_allowed_sealed, is_listed, name_of};
ghost use Rattle.store_core.specs.Request.{Vector, Listing, target_of, needs_for};
ghost use Rattle.store_core.specs.Sealing as sealing;

use crate::id::Id;
use crate::object_name::ObjectName;
use crate::sealed_parts::{Parts, Task, ops_of, target_of};
use common_types::{Name, OutOfMemory, TryClone};
use map_core::PoolView;
use object_core::{NeedsFault, Op, needs_of};
use place_core::group_of;
use std::alloc::{AllocError, Global};
use std::marker::Model;
use std::sync::Arc;
use verdict_core::{Calls, Needs, Report, SharedTicket};

/// Which placement group: its pool, and its number there, from 0 on.
#[derive(Debug, Drop)]
pub struct GroupId {
    pub pool: Name,
    pub number: u32,
}

impl TryClone for GroupId {
    fn copy(&self) -> Result<GroupId, AllocError> {
        Ok(GroupId {
            pool: self.pool.copy()?,
            number: self.number,
        })
    }
}

/// A request with all that it is decided by: who asks, the pool as the asker saw it, what is asked, and the tick
/// of its submission, by which a resend is judged too.
///
/// It holds no vector that has a fault of needs, and its pool has a group. Its copies share their parts.
#[derive(Drop)]
pub struct Sealed {
    parts: Arc<Parts>,
}

impl Model for Sealed {
    ghost use Rattle.store_core.specs.Request as request;

    ghost Value = { request.Sealed };

    ghost use Rattle.std.specs.Arc.{arc_value};
    ghost use Rattle.store_core.specs.Sealing.{sealed_of, IsSealed};

    ghost view = { λ s. sealed_of (arc_value s.parts) };

    ghost invariant = { λ s. IsSealed (arc_value s.parts) };
}

impl Sealed {
    /// A vector of operations on the object of a name in a namespace of the view's pool.
    ///
    /// The faults are those of `needs_of`: N1 for no operations, N2 for more than 16, N3 for a call of an unknown
    /// method. Out of memory, N4, is checked last.
    pub fn vector(
        alloc: Global,
        id: Id,
        ticket: SharedTicket,
        tick: u64,
        view: PoolView,
        group: u32,
        namespace: Name,
        object: Name,
        ops: Vec<Op>,
    ) -> Result<Sealed, NeedsFault>
        requires { 1 ≤ view.pg_num }
        ensures refused { RefusedFirst (needs_fault ops.items) NeedsFault.OutOfMemory result }
        ensures sealed { IfOk result (λ s. s
            ≡ record { id = id; ticket = ticket; tick = tick; view = view; group = group; namespace = namespace; work = Vector object ops.items }) }
    {
        let needs = needs_of(alloc, ops.as_slice())?;
        let name = ObjectName {
            pool: view.pool.copy()?,
            namespace,
            name: object,
        };
        let parts = Parts {
            id,
            ticket,
            tick,
            view,
            group,
            name,
            task: Task::Vector(ops),
            needs,
        };
        Ok(Sealed {
            parts: Arc::new(alloc, parts)?,
        })
    }

    /// The names of a namespace's objects that a group of the view's pool holds.
    pub fn listing(
        alloc: Global,
        id: Id,
        ticket: SharedTicket,
        tick: u64,
        view: PoolView,
        group: u32,
        namespace: Name,
    ) -> Result<Sealed, OutOfMemory>
        requires { 1 ≤ view.pg_num }
        ensures { IfOk result (λ s. s
            ≡ record { id = id; ticket = ticket; tick = tick; view = view; group = group; namespace = namespace; work = Listing }) }
    {
        let name = ObjectName {
            pool: view.pool.copy()?,
            namespace,
            name: Name::new(alloc, "")?,
        };
        let parts = Parts {
            id,
            ticket,
            tick,
            view,
            group,
            name,
            task: Task::Listing,
            needs: Needs {
                reads: true,
                writes: false,
                calls: Calls::from_vec(Vec::new(alloc)),
            },
        };
        Ok(Sealed {
            parts: Arc::new(alloc, parts)?,
        })
    }

    /// Which request it is.
    pub fn id(&self) -> Id
        ensures { result ≡ self.now.id }
    {
        self.parts.id
    }

    /// Which group it goes to: the pool is the view's.
    pub fn group(&self) -> Result<GroupId, OutOfMemory>
        ensures { IfOk result (λ g. g ≡ record { pool = self.now.view.pool; number = self.now.group }) }
    {
        let parts: &Parts = &self.parts;
        Ok(GroupId {
            pool: parts.view.pool.copy()?,
            number: parts.group,
        })
    }

    /// The number of the group that it goes to, in the view's pool. It takes no memory.
    pub fn group_number(&self) -> u32
        ensures { result ≡ self.now.group }
    {
        self.parts.group
    }

    /// The pool as the asker saw it.
    pub fn view(&self) -> &PoolView
        ensures view { result.now ≡ self.now.view }
        ensures groups { 1 ≤ result.now.pg_num }
    {
        &self.parts.view
    }

    /// The namespace.
    pub fn namespace(&self) -> &Name
        ensures { result.now ≡ self.now.namespace }
    {
        &self.parts.name.namespace
    }

    /// The operations, where it is a vector: such as `needs_of` takes.
    pub fn ops(&self) -> Option<&[Op]>
        ensures value { option_copied result ≡ sealing.ops_of self.now.work }
        ensures sound { IfSome result (λ ops. needs_fault ops.now ≡ None) }
    {
        ops_of(&self.parts)
    }

    /// Whether the ticket allows it at its tick. It takes no memory.
    pub fn is_allowed(&self) -> bool
        ensures { result ≡ is_allowed_sealed self.now }
    {
        let parts: &Parts = &self.parts;
        parts
            .ticket
            .as_ticket()
            .judge(&target_of(parts), &parts.needs, parts.tick)
    }

    /// Why it is not allowed.
    pub(crate) fn report(&self, alloc: Global) -> Result<Report, OutOfMemory>
        requires { is_allowed_sealed self.now ≡ false }
        ensures { IfOk result (λ r. r ≡ report_of self.now.ticket (target_of self.now) (needs_for self.now.work) self.now.tick) }
    {
        let parts: &Parts = &self.parts;
        parts
            .ticket
            .as_ticket()
            .report(alloc, &target_of(parts), &parts.needs, parts.tick)
    }

    /// Whether its listing has an object of this name.
    pub(crate) fn lists(&self, name: &ObjectName) -> bool
        ensures { result ≡ is_listed self.now name.now }
    {
        let parts: &Parts = &self.parts;
        name.pool.equals(&parts.view.pool)
            && name.namespace.equals(&parts.name.namespace)
            && group_of(
                name.namespace.as_str(),
                name.name.as_str(),
                parts.view.pg_num,
            ) == parts.group
    }

    /// The name of its object, which is empty for a listing.
    pub fn name(&self) -> &ObjectName
        ensures { result.now ≡ name_of self.now }
    {
        &self.parts.name
    }
}

impl TryClone for Sealed {
    fn copy(&self) -> Result<Sealed, AllocError> {
        Ok(Sealed {
            parts: Arc::try_clone(&self.parts)?,
        })
    }
}
