//! Tickets whose grants are found by the names that they have.

ghost use Rattle.std.specs.Prelude.{◌≡◌, ◌≤◌, false, map, length, IfOk, IfErr};
ghost use Rattle.verdict_core.specs.Verdict.{is_allowed, report_of};

use crate::judging::judge;
use crate::reporting;
use crate::ticket::{Report, Ticket};
use cap_text::AllowGrant;
use common_types::OutOfMemory;
use grant_core::Path;
use request_types::{Needs, Target};
use std::alloc::Global;
use std::marker::Model;

/// The most grants that are looked at one by one.
const FEW: usize = 4;

/// A ticket with chains of the grants that name the same pool, tag or class, and whose prefixes begin alike.
///
/// Contracts see it as the ticket. A verdict looks only at the grants that may speak of the request, so it
/// takes about as long over many grants as over a few. A ticket of one to four grants has no chains, nor has one
/// whose grants would all be in one: it is judged as the plain ticket is, by the same function.
#[derive(Debug, Drop)]
pub struct IndexedTicket {
    ticket: Ticket,
}

impl Model for IndexedTicket {
    ghost use Rattle.verdict_core.specs.Ticket as seen;

    ghost Value = { seen.Ticket };

    ghost view = { λ t. t.ticket };
}

impl IndexedTicket {
    /// The ticket with its chains. Where a growth is refused, the ticket is given back.
    pub fn of(ticket: Ticket) -> Result<IndexedTicket, (Ticket, OutOfMemory)>
        ensures made { IfOk result (λ indexed. indexed ≡ ticket) }
        ensures given_back { IfErr result (λ refused. refused.0 ≡ ticket) }
    {
        if ticket.grants().len() <= FEW {
            return Ok(IndexedTicket { ticket });
        }
        match ticket.with_chains() {
            Ok(ticket) => Ok(IndexedTicket { ticket }),
            Err(refused) => Err(refused),
        }
    }

    /// Whether the ticket allows a request at a tick, as `judge` says of a plain ticket. It takes no memory.
    pub fn judge(&self, target: &Target<'_>, needs: &Needs, tick: u64) -> bool
        ensures { result ≡ is_allowed self.now target.now needs.now tick }
    {
        judge(&self.ticket, target, needs, tick)
    }

    /// Why a request that is denied at a tick is denied, as `report` says of a plain ticket: in the ticket's
    /// order.
    pub fn report(
        &self,
        alloc: Global,
        target: &Target<'_>,
        needs: &Needs,
        tick: u64,
    ) -> Result<Report, OutOfMemory>
        requires { is_allowed self.now target.now needs.now tick ≡ false }
        ensures report { IfOk result (λ report. report ≡ report_of self.now target.now needs.now tick) }
        ensures paths { IfOk result (λ report. map (λ line. line.0) report ≡ map (λ entry. entry.0) self.now.grants) }
    {
        reporting::report(alloc, &self.ticket, target, needs, tick)
    }

    /// Its grants in the ticket's order, each with its path. It takes no memory.
    pub fn grants(&self) -> &[(Path, AllowGrant)]
        ensures grants { result.now ≡ self.now.grants }
        ensures few { length result.now ≤ 16384 }
    {
        self.ticket.grants()
    }

    /// The first tick at which it is expired, if there is one.
    pub fn until(&self) -> Option<u64>
        ensures { result ≡ self.now.until }
    {
        self.ticket.until()
    }

    /// An equal ticket, with its chains.
    pub fn copy(&self) -> Result<IndexedTicket, OutOfMemory>
        ensures { IfOk result (λ ticket. ticket ≡ self.now) }
    {
        Ok(IndexedTicket {
            ticket: self.ticket.copy()?,
        })
    }
}
