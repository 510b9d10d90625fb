//! Whether an entity does what a rule demands for a region, from every address.

ghost use Rattle.std.specs.Prelude.{◌≡◌, ◌∷◌, [], IfOk, option_copied};
ghost use Rattle.rights_core.specs.Samples.{DecideFor};
ghost use Rattle.rules_core.specs.Breaking as spec;
ghost use Rattle.rules_core.specs.Breaking.{IsBrokenBy};
ghost use Rattle.rules_core.specs.Broken.{IsBreachOrNone};

use crate::always::lacking_request;
use crate::demand::Demand;
use crate::never::common_request;
use common_types::OutOfMemory;
use compare_core::Example;
use compare_text::AddressedExample;
use network_core::Address;
use rights_core::{Rights, addresses};
use share_core::Pool;
use std::alloc::Global;
use verdict_core::Ticket;

/// A request that breaks the demand, where these tickets hold.
fn broken_by(
    alloc: Global,
    demand: Demand,
    pools: Option<&[Pool]>,
    region: &Ticket,
    entity: &Ticket,
) -> Result<Option<Example>, OutOfMemory>
    ensures { IfOk result (IsBrokenBy demand (option_copied pools.entry) region.now.grants entity.now.grants) }
{
    match demand {
        Demand::Never => common_request(alloc, pools, region, entity),
        Demand::Always => lacking_request(alloc, pools, region, entity),
    }
}

/// A request from an address.
fn from_address(found: Option<Example>, from: Option<Address>) -> Option<AddressedExample>
    ensures { result ≡ spec.addressed found from }
{
    match found {
        None => None,
        Some(example) => Some(AddressedExample { from, example }),
    }
}

/// A request from one of some addresses that breaks the demand there.
fn breach_among(
    alloc: Global,
    demand: Demand,
    pools: Option<&[Pool]>,
    region: &Rights,
    entity: &Rights,
    samples: &[Address],
) -> Result<Option<AddressedExample>, OutOfMemory>
    requires { DecideFor (region.now ∷ entity.now ∷ []) samples.now }
    ensures { IfOk result (IsBreachOrNone demand (option_copied pools.entry) region.now.grants entity.now.grants) }
{
    for address in samples {
        let here = region.at(alloc, address)?;
        let there = entity.at(alloc, address)?;
        let found = broken_by(alloc, demand, pools, &here, &there)?;
        if found.is_some() {
            return Ok(from_address(found, Some(*address)));
        }
    }
    Ok(None)
}

/// A request that breaks a demand on an entity for a region, from some address, or from every address where neither has
/// networks; or nothing where the entity does what is demanded.
///
/// The requests are those that can be asked, by calls of every class registry, of all pools or of those that are given. Its
/// example shows the grant: for `Never` that of the entity, which allows it; for `Always` that of the region, which the entity
/// lacks. When rights end is not looked at. The only error is out of memory.
pub fn breach(
    alloc: Global,
    demand: Demand,
    pools: Option<&[Pool]>,
    region: &Rights,
    entity: &Rights,
) -> Result<Option<AddressedExample>, OutOfMemory>
    ensures { IfOk result (IsBreachOrNone demand (option_copied pools.entry) region.now.grants entity.now.grants) }
{
    if let Some(here) = region.as_ticket() {
        if let Some(there) = entity.as_ticket() {
            let found = broken_by(alloc, demand, pools, here, there)?;
            return Ok(from_address(found, None));
        }
    }
    let samples = addresses(alloc, &[region, entity])?;
    let found = breach_among(alloc, demand, pools, region, entity, samples.as_slice())?;
    Ok(found)
}
