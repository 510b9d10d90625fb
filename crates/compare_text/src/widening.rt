//! What some rights allow from an address that other rights deny there.

ghost use Rattle.std.specs.Prelude.{◌≡◌, ◌||◌, ◌++◌, [], ◌∷◌, Some, None, true, IfOk, MatchOption, OnOk, if◌then◌else◌};
ghost use Rattle.std.specs.Option.{option_to_list};
ghost use Rattle.rights_core.specs.Rights.{grants_at, has_networks};
ghost use Rattle.rights_core.specs.Rights as rights;
ghost use Rattle.compare_core.specs.Widening.{IsExampleBy, IsGainedBy, WidensBy, request_of};
ghost use Rattle.compare_text.specs.Addresses.{AnswersFrom, IsExampleFrom, WidensFrom};
ghost use Rattle.compare_text.specs.Deciding as spec;

use common_types::OutOfMemory;
use compare_core::{Example, Registry, example_of};
use network_core::{Address, Network, samples};
use rights_core::{Entry, Rights};
use std::alloc::Global;

/// A request that a grant of new rights allows by itself and that old rights deny, and the address that it comes from.
#[derive(Debug)]
pub struct AddressedExample {
    /// The address. It is `None` if no grant of either side has a network: the request may come from every address.
    pub from: Option<Address>,
    pub example: Example,
}

impl Drop for AddressedExample {
    fn drop(self) {
        let AddressedExample {
            from: _,
            example: _,
        } = self;
    }
}

/// Whether a grant with this network, or with none, is for an address.
fn is_for(network: &Option<Network>, address: &Address) -> bool
    ensures { result ≡ rights.is_for network.now address.now }
{
    match network {
        None => true,
        Some(network) => network.matches(address),
    }
}

/// Samples of the networks of both: for each address there is one that the same of these networks match.
fn samples_of(alloc: Global, old: &Rights, new: &Rights) -> Result<Vec<Address>, OutOfMemory>
    ensures { IfOk result (λ samples. spec.DecideFor true old.now.grants new.now.grants samples.items) }
{
    let mut networks = Vec::new(alloc);
    old.push_networks(&mut networks)?;
    new.push_networks(&mut networks)?;
    let samples = samples(alloc, networks.as_slice())?;
    Ok(samples)
}

/// Addresses that decide for both. One does where no grant has a network.
fn deciding(
    alloc: Global,
    old: &Rights,
    new: &Rights,
    addressed: bool,
) -> Result<Vec<Address>, OutOfMemory>
    requires { addressed ≡ (has_networks old.now.grants || has_networks new.now.grants) }
    ensures { IfOk result (λ samples. spec.DecideFor addressed old.now.grants new.now.grants samples.items) }
{
    if !addressed {
        let mut one = Vec::new(alloc);
        one.push(Address::V4(0))?;
        return Ok(one);
    }
    let samples = samples_of(alloc, old, new)?;
    Ok(samples)
}

/// An example of what a grant by itself allows and the ticket that old rights have at an address denies.
fn example_there(
    alloc: Global,
    registry: Registry,
    old: &Rights,
    entry: &Entry<'_>,
    address: &Address,
) -> Result<Option<Example>, OutOfMemory>
    ensures { IfOk result (λ found. MatchOption found
        (¬ WidensBy registry (grants_at old.now.grants address.now) ((entry.now.path, entry.now.grant) ∷ []))
        (λ example. IsExampleBy registry (grants_at old.now.grants address.now) (entry.now.path, entry.now.grant) example)) }
{
    if let Some(ticket) = old.as_ticket() {
        let shown = example_of(alloc, registry, ticket, entry.path, entry.grant)?;
        return Ok(shown);
    }
    let ticket = old.at(alloc, address)?;
    let found = example_of(alloc, registry, &ticket, entry.path, entry.grant)?;
    Ok(found)
}

/// An example of what a grant by itself allows from an address and old rights deny there.
fn example_at(
    alloc: Global,
    registry: Registry,
    old: &Rights,
    entry: &Entry<'_>,
    address: &Address,
) -> Result<Option<Example>, OutOfMemory>
    ensures { IfOk result (λ found. MatchOption found
        (¬ WidensBy registry (grants_at old.now.grants address.now) (grants_at (entry.now ∷ []) address.now))
        (λ example. (example.path ≡ entry.now.path) × IsGainedBy registry (grants_at old.now.grants address.now) (grants_at (entry.now ∷ []) address.now) (request_of example))) }
{
    if !is_for(&entry.network, address) {
        return Ok(None);
    }
    let found = example_there(alloc, registry, old, entry, address)?;
    Ok(found)
}

/// The address, if examples have addresses.
fn given(addressed: bool, address: &Address) -> Option<Address>
    ensures { result ≡ (if addressed then Some address.now else None) }
{
    if addressed { Some(*address) } else { None }
}

/// An example of what a grant by itself allows from some address and old rights deny there, by addresses that decide for it.
fn example_from(
    alloc: Global,
    registry: Registry,
    old: &Rights,
    entry: &Entry<'_>,
    samples: &[Address],
    addressed: bool,
) -> Result<Option<AddressedExample>, OutOfMemory>
    requires { spec.DecideFor addressed old.now.grants (entry.now ∷ []) samples.now }
    ensures { IfOk result (λ found. MatchOption found
        (¬ WidensFrom registry old.now.grants (entry.now ∷ []))
        (λ found. IsExampleFrom registry addressed old.now.grants entry.now found)) }
{
    for address in samples {
        if let Some(example) = example_at(alloc, registry, old, entry, address)? {
            let from = given(addressed, address);
            return Ok(Some(AddressedExample { from, example }));
        }
    }
    Ok(None)
}

/// Adds an example, if there is one.
fn push_some(
    examples: &mut Vec<AddressedExample>,
    found: Option<AddressedExample>,
) -> Result<(), OutOfMemory>
    ensures { OnOk result (examples.new.items ≡ examples.old.items ++ option_to_list found) }
{
    if let Some(example) = found {
        examples.push(example)?;
    }
    Ok(())
}

/// The examples of each grant, by addresses that decide for all of them.
fn examples_of(
    alloc: Global,
    registry: Registry,
    old: &Rights,
    new: &Rights,
    addressed: bool,
) -> Result<Vec<AddressedExample>, OutOfMemory>
    requires { addressed ≡ (has_networks old.now.grants || has_networks new.now.grants) }
    ensures { IfOk result (λ examples. AnswersFrom registry old.now.grants new.now.grants examples.items) }
{
    let samples = deciding(alloc, old, new, addressed)?;
    let samples = samples.as_slice();
    let mut examples = Vec::new(alloc);
    let mut entries = new.entries();
    while let Some((entry, others)) = entries.split_first() {
        let found = example_from(alloc, registry, old, &entry, samples, addressed)?;
        push_some(&mut examples, found)?;
        entries = others;
    }
    Ok(examples)
}

/// For each grant of `new`, in order, that by itself allows some request from some address which `old` denies there, one such
/// request and the address, or no address where no grant of either has a network. Where there is no example, `new` allows
/// nothing from any address that `old` denies there. The requests are those of [`compare_core::widening_by`], and the only error
/// is out of memory.
pub fn widening_from(
    alloc: Global,
    registry: Registry,
    old: &Rights,
    new: &Rights,
) -> Result<Vec<AddressedExample>, OutOfMemory>
    ensures { IfOk result (λ examples. AnswersFrom registry old.now.grants new.now.grants examples.items) }
{
    let addressed = old.has_networks() || new.has_networks();
    let examples = examples_of(alloc, registry, old, new, addressed)?;
    Ok(examples)
}
