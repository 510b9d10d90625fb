//! Requests are sealed here, and nowhere else.

ghost use Rattle.std.specs.Prelude.{◌≡◌, ◌≤◌, ◌<◌, ◌+◌, IfOk};
ghost use Rattle.std.specs.Option.{option_map};
ghost use Rattle.object_core.specs.Needs.{needs_fault};
ghost use Rattle.store_core.specs.Request.{Listing, numbers};
ghost use Rattle.world_front.specs.Event.{OfNeeds};
ghost use Rattle.world_front.specs.Refusing.{RefusedOrMemory};
ghost use Rattle.world_front.specs.ControlPlane.{pieces_of, sealed_of, vector_of};

use crate::asking::Asker;
use crate::session::Session;
use common_types::{Items, Name, OutOfMemory};
use entry_core::{Id, Sealed};
use map_core::PoolView;
use place_core::group_of;
use std::alloc::Global;
use world_events::{Ask, Ops, WorldFault};

/// The request of a vector, which shares the session's ticket.
///
/// Its faults are those of its operations, N1 to N3, and out of memory.
pub fn seal_vector(
    alloc: Global,
    ask: &Ask,
    session: &Session,
    view: PoolView,
    object: Name,
    ops: Ops,
) -> Result<Sealed, WorldFault>
    requires { 1 ≤ view.pg_num }
    ensures sealed { IfOk result (λ s. s ≡ vector_of ask.now (record { session = session.now; view = view }) object ops) }
    ensures refused { RefusedOrMemory (option_map OfNeeds (needs_fault ops)) result }
{
    let id = Id::new(ask.session, session.next);
    let group = group_of(ask.namespace.as_str(), object.as_str(), view.pg_num);
    let ticket = session.ticket.copy()?;
    let namespace = ask.namespace.copy()?;
    let ops = ops.into_vec();
    let request = Sealed::vector(
        alloc, id, ticket, ask.tick, view, group, namespace, object, ops,
    )?;
    Ok(request)
}

/// The piece of a list for one group. Its number is the session's next one plus `offset`.
///
/// It shares the session's ticket, and its view is a copy.
pub fn seal_piece(
    alloc: Global,
    ask: &Ask,
    session: &Session,
    view: &PoolView,
    group: u32,
    offset: u32,
) -> Result<Sealed, OutOfMemory>
    requires groups { 1 ≤ view.now.pg_num }
    requires room { session.now.next + offset < numbers }
    ensures { IfOk result (λ s. s ≡ sealed_of ask.now (record { session = session.now; view = view.now }) Listing group offset) }
{
    let id = Id::new(ask.session, session.next + offset);
    let ticket = session.ticket.copy()?;
    let view = view.copy()?;
    let namespace = ask.namespace.copy()?;
    Sealed::listing(alloc, id, ticket, ask.tick, view, group, namespace)
}

/// The pieces of a list, one for each group of the pool, under consecutive numbers.
pub(crate) fn seal_pieces(
    alloc: Global,
    ask: &Ask,
    asker: &Asker<'_>,
) -> Result<Items<Sealed>, OutOfMemory>
    requires groups { 1 ≤ asker.now.view.pg_num }
    requires room { asker.now.session.now.next + asker.now.view.pg_num < numbers }
    ensures { IfOk result (λ all. all ≡ pieces_of ask.now (record { session = asker.now.session.now; view = asker.now.view })) }
{
    let mut all = Items::new(alloc);
    for group in 0..asker.view.pg_num {
        all.push(seal_piece(alloc, ask, asker.session, &asker.view, group, group)?)?;
    }
    Ok(all)
}
