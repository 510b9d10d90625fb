//! What a pass does with one session of its own. None of it takes a lock.

ghost use Rattle.std.specs.Prelude.{◌≡◌, ◌+◌, ◌<◌, ◌≤◌, IfOk};
ghost use Rattle.verdict_core.specs.Verdict.{is_allowed};
ghost use Rattle.store_core.specs.Request.{Listing, numbers};
ghost use Rattle.world_front.specs.ControlPlane.{asks_more, sealed_of};

use common_types::OutOfMemory;
use entry_core::Sealed;
use map_core::PoolView;
use std::alloc::{AllocError, Global};
use verdict_core::{Needs, Target};
use world_front::{Ask, Session, seal_piece};

/// Whether a session's ticket allows at a tick what is needed of an object, by the view in hand. It takes no memory.
pub fn judge_by(
    session: &Session,
    view: &PoolView,
    namespace: &str,
    object: &str,
    needs: &Needs,
    tick: u64,
) -> bool
    ensures { result ≡ is_allowed session.now.ticket (record { pool = view.now.pool; tags = view.now.tags; namespace = namespace.now; object = object.now }) needs.now tick }
{
    let target = Target {
        pool: view.pool.as_str().as_bytes(),
        tags: &view.tags,
        namespace: namespace.as_bytes(),
        object: object.as_bytes(),
    };
    session.ticket.as_ticket().judge(&target, needs, tick)
}

/// A session has asked for one request more: it knows the question's epoch and tick, and its next number is one more.
pub fn count_request(session: &mut Session, ask: &Ask)
    requires { session.old.next + 1 < numbers }
    ensures { session.new ≡ asks_more ask.now 1 session.old }
{
    session.epoch = ask.epoch;
    session.tick = ask.tick;
    session.next += 1;
}

/// The piece of a list for one group, under the session's next number.
///
/// `OutOfMemory`: an allocation failed, or the session's numbers are used up. No group has room for that many requests.
pub fn next_piece(
    alloc: Global,
    ask: &Ask,
    session: &Session,
    view: &PoolView,
    group: u32,
) -> Result<Sealed, OutOfMemory>
    requires { 1 ≤ view.now.pg_num }
    ensures piece { IfOk result (λ s. s ≡ sealed_of ask.now (record { session = session.now; view = view.now }) Listing group 0) }
    ensures room { IfOk result (λ s. session.now.next + 1 < numbers) }
{
    if session.next == u32::MAX {
        return Err(AllocError);
    }
    seal_piece(alloc, ask, session, view, group, 0)
}
