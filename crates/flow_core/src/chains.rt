//! The shortest chains from a place.

ghost use Rattle.std.specs.Prelude.{◌≡◌, ◌++◌, [], ◌∷◌, map, length, IfOk, OnOk};
ghost use Rattle.std.specs.List.Sorted.{IsPermutation, IsStrictlyIncreasing};
ghost use Rattle.flow_core.specs.Chains.{AreFound, end_of};
ghost use Rattle.flow_core.specs.Searching.{Finds, FindsEach, entry_of};

use crate::OutOfMemory;
use indexmap::IndexMap;
use std::alloc::Global;

/// A place that a chain leads to.
#[derive(Drop)]
pub struct Found {
    /// The place.
    pub end: usize,
    /// The places of a shortest chain to it, behind the start. The last one is the end.
    pub chain: Vec<usize>,
}

/// The chain with a place behind it.
fn longer(alloc: Global, chain: &[usize], place: usize) -> Result<Vec<usize>, OutOfMemory>
    ensures { IfOk result (λ longer. longer.items ≡ chain.now ++ place ∷ []) }
{
    let mut longer = Vec::from_slice(alloc, chain)?;
    longer.push(place)?;
    Ok(longer)
}

/// Finds a place by a step from the end of a chain, if it is below `places` and was not found before.
fn find(
    alloc: Global,
    found: &mut IndexMap<usize, Vec<usize>>,
    places: usize,
    chain: &[usize],
    place: usize,
) -> Result<(), OutOfMemory>
    ensures { OnOk result (Finds places chain.now place found.old.entries found.new.entries) }
{
    if place < places && !found.contains_key(&place) {
        found.insert(place, longer(alloc, chain, place)?)?;
    }
    Ok(())
}

/// Finds each place that a step leads to from the end of a chain.
fn find_each(
    alloc: Global,
    found: &mut IndexMap<usize, Vec<usize>>,
    places: usize,
    chain: &[usize],
    next: &[usize],
) -> Result<(), OutOfMemory>
    ensures { OnOk result (FindsEach places chain.now next.now found.old.entries found.new.entries) }
{
    for place in next {
        find(alloc, found, places, chain, *place)?;
    }
    Ok(())
}

/// What was found, by the places in ascending order.
fn in_order(
    alloc: Global,
    mut found: IndexMap<usize, Vec<usize>>,
) -> Result<Vec<Found>, OutOfMemory>
    ensures rising { IfOk result (λ listed. IsStrictlyIncreasing (map end_of listed.items)) }
    ensures same { IfOk result (λ listed. IsPermutation found.entries (map entry_of listed.items)) }
{
    found.sort_unstable_keys()?;
    let mut listed = Vec::new(alloc);
    for (end, chain) in found {
        listed.push(Found { end, chain })?;
    }
    Ok(listed)
}

/// Each place that a chain from the start leads to, with the places of a shortest one, in ascending order of the places.
/// `steps` lists for each place the places that it has a step to; a place that does not exist is no step, and a start that does
/// not exist reaches nothing. A chain has at least one step, so that the start is found where a chain leads back to it.
///
/// It is a breadth-first search: each step from a place that is found is looked at once. Time grows with these steps,
/// with the chains that are found, and with sorting them. A place that is not found takes no time. The only error is
/// `OutOfMemory`, which leaves nothing.
pub fn chains_from(
    alloc: Global,
    steps: &[Vec<usize>],
    start: usize,
) -> Result<Vec<Found>, OutOfMemory>
    ensures { IfOk result (λ found. AreFound (map (λ row. row.items) steps.now) start found.items) }
{
    let mut found = IndexMap::new(alloc);
    if start < steps.len() {
        find_each(alloc, &mut found, steps.len(), &[], steps[start].as_slice())?;
    }
    let mut next = 0;
    while next < found.len() {
        if let Some((place, chain)) = found.get_index(next) {
            let place = *place;
            let chain = Vec::from_slice(alloc, chain.as_slice())?;
            find_each(
                alloc,
                &mut found,
                steps.len(),
                chain.as_slice(),
                steps[place].as_slice(),
            )?;
        }
        next += 1;
    }
    in_order(alloc, found)
}
