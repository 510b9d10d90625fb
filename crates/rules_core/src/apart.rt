//! Whether neither of two entities writes what the other reads or writes.

ghost use Rattle.std.specs.Prelude.{◌≡◌, ◌∷◌, [], true, false, All, IfOk, option_copied};
ghost use Rattle.network_core.specs.Address.{IsAddress};
ghost use Rattle.rights_core.specs.Samples.{DecideFor};
ghost use Rattle.rules_core.specs.Breaking as spec;
ghost use Rattle.rules_core.specs.Broken.{IsCrossingOrNone};

use crate::requests::request_at;
use crate::targets::common_target;
use common_types::OutOfMemory;
use compare_core::Example;
use compare_text::AddressedExample;
use network_core::Address;
use rights_core::{Rights, addresses};
use share_core::{Pool, Touch};
use std::alloc::Global;
use verdict_core::Ticket;

/// A request of each of two entities for one target, of which one writes.
#[derive(Debug, Drop)]
pub struct Crossing {
    pub one: AddressedExample,
    pub other: AddressedExample,
}

/// A request of each of two tickets for one target, of which one writes.
#[derive(Debug, Drop)]
pub(crate) struct Pair {
    pub(crate) one: Example,
    pub(crate) other: Example,
}

/// The touch that writes, or else reads, in any way.
fn any_touch(writes: bool) -> Touch
    ensures { result ≡ spec.any_touch writes }
{
    if writes {
        Touch::AnyWrite
    } else {
        Touch::AnyRead
    }
}

/// A request of each ticket for one target: the one writes, or else reads, and so does the other.
fn pair_by(
    alloc: Global,
    pools: Option<&[Pool]>,
    ones: &Ticket,
    one_writes: bool,
    others: &Ticket,
    other_writes: bool,
) -> Result<Option<Pair>, OutOfMemory>
    ensures { IfOk result (spec.IsPairBy (option_copied pools.entry) ones.now.grants one_writes others.now.grants other_writes) }
{
    let one = any_touch(one_writes);
    let other = any_touch(other_writes);
    let Some(target) = common_target(alloc, pools, ones, &one, others, &other)? else {
        return Ok(None);
    };
    let Some(one) = request_at(alloc, ones.grants(), &target, one_writes)? else {
        return Ok(None);
    };
    let Some(other) = request_at(alloc, others.grants(), &target, other_writes)? else {
        return Ok(None);
    };
    Ok(Some(Pair { one, other }))
}

/// A request of each ticket for one target, of which one writes.
fn crossed_by(
    alloc: Global,
    pools: Option<&[Pool]>,
    ones: &Ticket,
    others: &Ticket,
) -> Result<Option<Pair>, OutOfMemory>
    ensures { IfOk result (spec.IsCrossedBy (option_copied pools.entry) ones.now.grants others.now.grants) }
{
    let both = pair_by(alloc, pools, ones, true, others, true)?;
    if both.is_some() {
        return Ok(both);
    }
    let writes = pair_by(alloc, pools, ones, true, others, false)?;
    if writes.is_some() {
        return Ok(writes);
    }
    let reads = pair_by(alloc, pools, ones, false, others, true)?;
    Ok(reads)
}

/// Two requests, each from an address.
fn crossing_of(pair: Pair, from: Option<Address>, other_from: Option<Address>) -> Crossing
    ensures { result ≡ spec.crossing_of pair from other_from }
{
    let Pair { one, other } = pair;
    Crossing {
        one: AddressedExample { from, example: one },
        other: AddressedExample {
            from: other_from,
            example: other,
        },
    }
}

/// Requests of a ticket that an address has, and of rights at one of some addresses.
fn crossing_with(
    alloc: Global,
    pools: Option<&[Pool]>,
    here: &Ticket,
    from: &Address,
    other: &Rights,
    samples: &[Address],
) -> Result<Option<Crossing>, OutOfMemory>
    requires { All IsAddress samples.now }
    ensures { IfOk result (spec.IsCrossedWith (option_copied pools.entry) here.now.grants from.now other.now.grants samples.now) }
{
    for address in samples {
        let there = other.at(alloc, address)?;
        if let Some(pair) = crossed_by(alloc, pools, here, &there)? {
            return Ok(Some(crossing_of(pair, Some(*from), Some(*address))));
        }
    }
    Ok(None)
}

/// Requests of two rights, each at one of some addresses.
fn crossing_among(
    alloc: Global,
    pools: Option<&[Pool]>,
    one: &Rights,
    other: &Rights,
    samples: &[Address],
) -> Result<Option<Crossing>, OutOfMemory>
    requires { DecideFor (one.now ∷ other.now ∷ []) samples.now }
    ensures { IfOk result (IsCrossingOrNone (option_copied pools.entry) one.now.grants other.now.grants) }
{
    for address in samples {
        let here = one.at(alloc, address)?;
        let found = crossing_with(alloc, pools, &here, address, other, samples)?;
        if found.is_some() {
            return Ok(found);
        }
    }
    Ok(None)
}

/// A request of each of two entities for one target, of which one writes; or nothing where neither writes what the other reads or
/// writes. A request comes from its address, or from every address where neither entity has networks.
///
/// The requests are those that can be asked, by calls of every class registry, of all pools or of those that are given. When
/// rights end is not looked at. The only error is out of memory.
pub fn crossing_between(
    alloc: Global,
    pools: Option<&[Pool]>,
    one: &Rights,
    other: &Rights,
) -> Result<Option<Crossing>, OutOfMemory>
    ensures { IfOk result (IsCrossingOrNone (option_copied pools.entry) one.now.grants other.now.grants) }
{
    if let Some(here) = one.as_ticket() {
        if let Some(there) = other.as_ticket() {
            return match crossed_by(alloc, pools, here, there)? {
                None => Ok(None),
                Some(pair) => Ok(Some(crossing_of(pair, None, None))),
            };
        }
    }
    let samples = addresses(alloc, &[one, other])?;
    let found = crossing_among(alloc, pools, one, other, samples.as_slice())?;
    Ok(found)
}
