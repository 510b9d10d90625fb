//! The grants that rights give from some address.

ghost use Rattle.std.specs.Prelude.{◌≡◌, false, IfOk};
ghost use Rattle.rights_core.specs.Rights.{has_networks, live_grants};
ghost use Rattle.share_text.specs.Live.{IsLive};

use common_types::OutOfMemory;
use rights_core::Rights;
use std::alloc::Global;
use verdict_core::Ticket;

/// The ticket of the grants that some address has. Rights without networks need none, since their own is that of every
/// address.
pub(crate) fn live_ticket(alloc: Global, rights: &Rights) -> Result<Option<Ticket>, OutOfMemory>
    ensures { IfOk result (λ live. IsLive rights.now.grants live) }
{
    if rights.has_networks() {
        Ok(Some(rights.anywhere(alloc)?))
    } else {
        Ok(None)
    }
}

/// The ticket of rights without networks.
fn own_ticket(rights: &Rights) -> &Ticket
    requires { has_networks rights.now.grants ≡ false }
    ensures { result.now.grants ≡ live_grants rights.now.grants }
{
    match rights.as_ticket() {
        Some(ticket) => ticket,
        None => unreachable!(),
    }
}

/// The ticket that was made of the rights, or else their own.
pub(crate) fn ticket_in<'a>(rights: &'a Rights, live: &'a Option<Ticket>) -> &'a Ticket
    requires { IsLive rights.now.grants live.now }
    ensures { result.now.grants ≡ live_grants rights.now.grants }
{
    match live {
        Some(ticket) => ticket,
        None => own_ticket(rights),
    }
}
