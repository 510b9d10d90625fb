//! Which copy's log begins an interval.

ghost use Rattle.std.specs.Prelude.{◌≡◌, ◌+◌, length, IfOk};
ghost use Rattle.peer_core.specs.Choice.{is_better};

use crate::state::State;
use common_types::{Items, OutOfMemory, TryClone};
use entry_core::Sealed;
use group_messages::PeerInfo;
use place_core::ActingSet;
use std::alloc::Global;

/// The length of the log that was told, which may be any sum of two lengths.
fn size_of(start: usize, part: &[Sealed]) -> u128
    ensures { result ≡ start + length part.now }
{
    start as u128 + part.len() as u128
}

/// Equal requests, which share their parts.
fn copy_requests(alloc: Global, part: &[Sealed]) -> Result<Items<Sealed>, OutOfMemory>
    ensures { IfOk result (λ copy. copy ≡ part.now) }
{
    let mut copy = Items::new(alloc);
    for request in part {
        copy.push(request.copy()?)?;
    }
    Ok(copy)
}

/// Whether an offer is better than the other, which is given by its parts.
fn is_better(offer: &PeerInfo, number: u8, base: u64, start: usize, part: &[Sealed]) -> bool
    ensures { result ≡ is_better offer.now (record { number = number; base = base; start = start; part = part.now }) }
{
    if offer.base != base {
        return base < offer.base;
    }
    let size = size_of(start, part);
    let offered = size_of(offer.start, offer.part.as_slice());
    if offered != size {
        return size < offered;
    }
    offer.number < number
}

impl State {
    ghost use Rattle.std.specs.Prelude.{◌≡◌, ◌-◌, ◌||◌, nat_lt, length, take, IfOk};
    ghost use Rattle.std.specs.List.{list_any, list_all};
    ghost use Rattle.group_messages.specs.ActingSets.{covers};
    ghost use Rattle.peer_core.specs.Choice.{best, own_offer, is_informed, can_choose};

    /// The base of the best offer, this copy's own among them, and its start and its part.
    fn chosen<'a>(&'a self, informed: &'a [PeerInfo]) -> (u64, usize, &'a [Sealed])
        ensures base { result.0 ≡ (best (own_offer self.now) informed.now).base }
        ensures start { result.1 ≡ (best (own_offer self.now) informed.now).start }
        ensures part { result.2.now ≡ (best (own_offer self.now) informed.now).part }
    {
        let mut number = self.number;
        let mut base = self.base;
        let mut start = self.log.len();
        let mut part: &[Sealed] = &[];
        for offer in informed {
            if is_better(offer, number, base, start, part) {
                number = offer.number;
                base = offer.base;
                start = offer.start;
                part = offer.part.as_slice();
            }
        }
        (base, start, part)
    }
    /// The start and the part of the best offer. It takes memory for the part alone.
    pub fn chosen_part(&self, informed: &[PeerInfo]) -> Result<(usize, Items<Sealed>), OutOfMemory>
        ensures start { IfOk result (λ chosen. chosen.0 ≡ (best (own_offer self.now) informed.now).start) }
        ensures part { IfOk result (λ chosen. chosen.1 ≡ (best (own_offer self.now) informed.now).part) }
    {
        let (_, start, part) = self.chosen(informed);
        Ok((start, copy_requests(self.log.allocator(), part)?))
    }

    fn any_informed(&self, members: &[u8], informed: &[PeerInfo]) -> bool
        ensures { result ≡ list_any (is_informed self.now informed.now) members.now }
    {
        for member in members {
            if self.is_informed(informed, *member) {
                return true;
            }
        }
        false
    }

    fn all_informed(&self, members: &[u8], informed: &[PeerInfo]) -> bool
        ensures { result ≡ list_all (is_informed self.now informed.now) members.now }
    {
        for member in members {
            if !self.is_informed(informed, *member) {
                return false;
            }
        }
        true
    }

    /// The sets before the interval that was promised.
    fn earlier_sets(&self) -> &[ActingSet]
        ensures { result.now ≡ take (self.now.promise - 1) self.now.known }
    {
        let sets = self.known.as_slice();
        let before = self.promise.saturating_sub(1) as usize;
        if before < sets.len() {
            &sets[..before]
        } else {
            sets
        }
    }

    /// Whether an interval can't have taken entries that no copy that was heard has.
    fn is_covered(&self, interval: u64, members: &[u8], base: u64, informed: &[PeerInfo]) -> bool
        ensures { result ≡ (nat_lt interval base || nat_lt (length members.now) self.now.min_size || list_any (is_informed self.now informed.now) members.now) }
    {
        interval < base || members.len() < self.min_size || self.any_informed(members, informed)
    }

    fn covers(&self, base: u64, informed: &[PeerInfo]) -> bool
        ensures { result ≡ covers self.now.min_size base (is_informed self.now informed.now) 1 (take (self.now.promise - 1) self.now.known) }
    {
        let mut interval = 1;
        for members in self.earlier_sets() {
            if !self.is_covered(interval, members.as_slice(), base, informed) {
                return false;
            }
            interval += 1;
        }
        true
    }

    /// Whether every member was heard, and each earlier interval that the best copy may lack.
    pub fn can_choose(&self, informed: &[PeerInfo]) -> bool
        ensures { result ≡ can_choose self.now informed.now }
    {
        self.all_informed(self.set(), informed) && self.covers(self.chosen(informed).0, informed)
    }
}
