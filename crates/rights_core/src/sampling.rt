//! Addresses that decide a question about rights over all addresses.

ghost use Rattle.std.specs.Prelude.{◌≡◌, ◌<◌, map, vec_len, All, IfOk};
ghost use Rattle.rights_core.specs.Rights as spec;
ghost use Rattle.rights_core.specs.Samples.{DecideFor};

use crate::rights::Rights;
use common_types::OutOfMemory;
use network_core::Address;
use std::alloc::Global;
use verdict_core::Ticket;

/// Finitely many addresses that decide a question about these rights over all addresses: for each address there is a sample at
/// which each of the rights has the same ticket.
pub fn addresses(alloc: Global, all: &[&Rights]) -> Result<Vec<Address>, OutOfMemory>
    ensures samples { IfOk result (λ samples. DecideFor (map (λ rights. rights.now) all.now) samples.items) }
    ensures some { IfOk result (λ samples. 0 < vec_len samples) }
{
    let mut networks = Vec::new(alloc);
    for rights in all {
        rights.push_networks(&mut networks)?;
    }
    let samples = network_core::samples(alloc, networks.as_slice())?;
    Ok(samples)
}

/// The ticket at each of some addresses.
pub fn tickets(
    alloc: Global,
    rights: &Rights,
    addresses: &[Address],
) -> Result<Vec<Ticket>, OutOfMemory>
    ensures { IfOk result (λ tickets. tickets.items ≡ map (spec.ticket_at rights.now) addresses.now) }
{
    let mut tickets = Vec::new(alloc);
    for address in addresses {
        tickets.push(rights.at(alloc, address)?)?;
    }
    Ok(tickets)
}
