//! Sample addresses.

ghost use Rattle.std.specs.Prelude.{◌≡◌, ◌≤◌, ◌<◌, ◌+◌, ◌*◌, ◌^◌, length, vec_len, All, IfOk, OnOk, MatchOption};
ghost use Rattle.std.specs.List.{Contains};
ghost use Rattle.network_core.specs.declared.address.Address.{Address};
ghost use Rattle.network_core.specs.Address.{width, IsAddress};
ghost use Rattle.network_core.specs.Edges as spec;
ghost use Rattle.network_core.specs.Samples.{AreSamples};

use crate::address::Address;
use crate::network::Network;
use common_types::OutOfMemory;
use std::alloc::Global;

/// The address of a family with this number, if the number has no more bits.
fn with_number(family: &Address, number: u128) -> Option<Address>
    ensures { MatchOption result (2 ^ width family.now ≤ number) (λ a. (a ≡ spec.with_number family.now number) × (number < 2 ^ width family.now)) }
{
    match family {
        Address::V4(_) => match u32::try_from(number) {
            Ok(number) => Some(Address::V4(number)),
            Err(_) => None,
        },
        Address::V6(_) => Some(Address::V6(number)),
    }
}

/// The number of a network's first address, and the one behind that of its last, if that has 128 bits at most.
fn edges(base: &Address, length: u8) -> (u128, Option<u128>)
    ensures first { result.0 ≡ spec.first_number base.now length }
    ensures first_fits { result.0 < 2 ^ width base.now }
    ensures behind { MatchOption result.1 (2 ^ 128 ≤ spec.behind_number base.now length) (λ n. n ≡ spec.behind_number base.now length) }
{
    let number = base.number();
    let behind = base.width().saturating_sub(length);
    if behind == 128 {
        return (0, None);
    }
    let size = 1u128 << behind;
    let first = (number >> behind) * size;
    (first, first.checked_add(size))
}

/// Adds an address, if there is one.
fn push_some(samples: &mut Vec<Address>, address: Option<Address>) -> Result<(), OutOfMemory>
    ensures has { OnOk result (MatchOption address Unit (λ a. Contains samples.new.items a)) }
    ensures keeps { OnOk result ((a : Address) → Contains samples.old.items a → Contains samples.new.items a) }
    ensures addresses { OnOk result (MatchOption address Unit IsAddress → All IsAddress samples.old.items → All IsAddress samples.new.items) }
    ensures few { OnOk result (vec_len samples.new ≤ vec_len samples.old + 1) }
{
    if let Some(address) = address {
        samples.push(address)?;
    }
    Ok(())
}

/// Adds a network's first address and the one behind its last.
#[tactic(auto, using(crate::proofs::Widths::most_wide))]
fn push_edges(samples: &mut Vec<Address>, network: &Network) -> Result<(), OutOfMemory>
    ensures has { OnOk result (spec.HasEdges samples.new.items network.now) }
    ensures keeps { OnOk result ((a : Address) → Contains samples.old.items a → Contains samples.new.items a) }
    ensures addresses { OnOk result (All IsAddress samples.old.items → All IsAddress samples.new.items) }
    ensures few { OnOk result (vec_len samples.new ≤ vec_len samples.old + 2) }
{
    if let Network::Range(base, length) = network {
        let (first, behind) = edges(base, *length);
        push_some(samples, with_number(base, first))?;
        if let Some(behind) = behind {
            push_some(samples, with_number(base, behind))?;
        }
    }
    Ok(())
}

/// Adds an address, unless it is the last one there.
fn push_once(kept: &mut Vec<Address>, address: &Address) -> Result<(), OutOfMemory>
    ensures has { OnOk result (Contains kept.new.items address.now) }
    ensures keeps { OnOk result ((a : Address) → Contains kept.old.items a → Contains kept.new.items a) }
    ensures addresses { OnOk result (IsAddress address.now → All IsAddress kept.old.items → All IsAddress kept.new.items) }
    ensures few { OnOk result (vec_len kept.new ≤ vec_len kept.old + 1) }
{
    if let Some(last) = kept.as_slice().last() {
        if last == address {
            return Ok(());
        }
    }
    kept.push(*address)?;
    Ok(())
}

/// Sorts addresses, and keeps each once. Many entities have the same network.
fn sorted_once(alloc: Global, mut samples: Vec<Address>) -> Result<Vec<Address>, OutOfMemory>
    ensures keeps { IfOk result (λ kept. (a : Address) → Contains samples.items a → Contains kept.items a) }
    ensures addresses { IfOk result (λ kept. All IsAddress samples.items → All IsAddress kept.items) }
    ensures few { IfOk result (λ kept. vec_len kept ≤ vec_len samples) }
{
    samples.sort_unstable();
    let sorted = samples.as_slice();
    let mut kept = Vec::new(alloc);
    for sample in sorted {
        push_once(&mut kept, sample)?;
    }
    Ok(kept)
}

/// Finitely many addresses that decide a question over all addresses: for each address there is a sample that exactly the
/// same of these networks match. They are one for each family, and two at most for each network.
pub fn samples(alloc: Global, networks: &[Network]) -> Result<Vec<Address>, OutOfMemory>
    ensures samples { IfOk result (λ samples. AreSamples networks.now samples.items) }
    ensures some { IfOk result (λ samples. 0 < vec_len samples) }
    ensures few { IfOk result (λ samples. vec_len samples ≤ 2 + 2 * length networks.now) }
{
    let mut samples = Vec::new(alloc);
    samples.push(Address::V4(0))?;
    samples.push(Address::V6(0))?;
    for network in networks {
        push_edges(&mut samples, network)?;
    }
    let kept = sorted_once(alloc, samples)?;
    Ok(kept)
}
