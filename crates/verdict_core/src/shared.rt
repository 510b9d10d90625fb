//! Tickets that many hold.

ghost use Rattle.std.specs.Prelude.{◌≡◌, IfOk};

use crate::indexed::IndexedTicket;
use crate::ticket::Ticket;
use common_types::OutOfMemory;
use std::marker::Model;
use std::sync::Arc;

/// An indexed ticket that a session and its requests share: a copy takes the same time and memory, however many grants it has.
///
/// Contracts see it as the ticket.
#[derive(Debug, Drop)]
pub struct SharedTicket {
    ticket: Arc<IndexedTicket>,
}

impl Model for SharedTicket {
    ghost use Rattle.std.specs.Arc.{arc_value};
    ghost use Rattle.verdict_core.specs.Ticket as seen;

    ghost Value = { seen.Ticket };

    ghost view = { λ t. arc_value t.ticket };
}

impl SharedTicket {
    /// The ticket with the chains of its grants, to be shared. Where a growth is refused, the ticket is dropped.
    pub fn of(ticket: Ticket) -> Result<SharedTicket, OutOfMemory>
        ensures { IfOk result (λ shared. shared ≡ ticket) }
    {
        let alloc = ticket.allocator();
        let indexed = match IndexedTicket::of(ticket) {
            Ok(indexed) => indexed,
            Err((_, error)) => return Err(error),
        };
        Ok(SharedTicket {
            ticket: Arc::new(alloc, indexed)?,
        })
    }

    /// The ticket that is shared.
    pub fn as_ticket(&self) -> &IndexedTicket
        ensures { result.now ≡ self.now }
    {
        &self.ticket
    }

    /// Shares the ticket once more.
    pub fn copy(&self) -> Result<SharedTicket, OutOfMemory>
        ensures { IfOk result (λ ticket. ticket ≡ self.now) }
    {
        Ok(SharedTicket {
            ticket: Arc::try_clone(&self.ticket)?,
        })
    }
}
