//! Tickets that are found by the pools that they name.

ghost use Rattle.std.specs.Prelude.{◌≡◌, ◌++◌, ◌<◌, ◌≤◌, ◌∷◌, [], ℕ, length, IfOk, OnOk, OnErr, None};
ghost use Rattle.std.specs.List.{All, Contains, filter};
ghost use Rattle.std.specs.List.Sorted.{IsStrictlyIncreasing};
ghost use Rattle.share_core.specs.Near.{AreNear, LeaveOutApart};
ghost use Rattle.share_core.specs.PoolPlaces as spec;
ghost use Rattle.share_core.specs.PoolPlaces.{has_unnamed};

use crate::pool_places::PoolPlaces;
use cap_text::AllowGrant;
use common_types::OutOfMemory;
use grant_core::Path;
use std::alloc::Global;
use std::marker::Model;
use verdict_core::Ticket;

/// Tickets in the order in which they were added, of which those are found that may share something with another one: grants
/// that name two pools never meet. Contracts see it as the lists of their grants.
///
/// It borrows the tickets, and keeps a place for each pool that a ticket names.
pub struct PoolIndex<'a> {
    tickets: Vec<&'a Ticket>,
    places: PoolPlaces,
}

impl Drop for PoolIndex<'_> {
    fn drop(self) {
        let PoolIndex {
            tickets: _,
            places: _,
        } = self;
    }
}

impl<'a> Model for PoolIndex<'a> {
    ghost use Rattle.std.specs.Prelude.{List, map};
    ghost use Rattle.grant_core.specs.Flat.{Flat};
    ghost use Rattle.share_core.specs.PoolPlaces.{AreNoted, noted};

    ghost Value = { List Flat };

    ghost view = { λ index. map (λ ticket. ticket.now.grants) index.tickets.items };

    ghost invariant = { λ index. AreNoted (noted index.places) (map (λ ticket. ticket.now.grants) index.tickets.items) };
}

/// Whether some grant names no pool.
fn is_open(grants: &[(Path, AllowGrant)]) -> bool
    ensures { result ≡ has_unnamed grants.now }
{
    grants.iter().any(|grant| grant.1.pool.is_none())
}

/// The numbers from one on, below another.
fn all_from(alloc: Global, from: usize, count: usize) -> Result<Vec<usize>, OutOfMemory>
    ensures { IfOk result (λ places. (place : ℕ) → from ≤ place → place < count → Contains places.items place) }
{
    let mut places = Vec::new(alloc);
    for place in from..count {
        places.push(place)?;
    }
    Ok(places)
}

/// Whether a place is from one on and below another.
fn is_between(place: usize, from: usize, count: usize) -> bool
    ensures { result ≡ spec.is_between from count place }
{
    from <= place && place < count
}

/// Leaves those from one on and below another.
fn keep_between(places: &mut Vec<usize>, from: usize, count: usize)
    ensures { places.new.items ≡ filter (spec.is_between from count) places.old.items }
{
    places.retain(|place| is_between(*place, from, count));
}

/// Puts some places in order, and leaves each once.
fn put_in_order(places: &mut Vec<usize>)
    ensures rising { IsStrictlyIncreasing places.new.items }
    ensures kept { (place : ℕ) → Contains places.old.items place → Contains places.new.items place }
    ensures among { All (Contains places.old.items) places.new.items }
{
    places.sort_unstable();
    places.dedup();
}

impl<'a> PoolIndex<'a> {
    /// No tickets. It takes no memory.
    pub fn new(alloc: Global) -> PoolIndex<'a>
        ensures { result ≡ [] }
    {
        PoolIndex {
            tickets: Vec::new(alloc),
            places: PoolPlaces::new(alloc),
        }
    }

    /// Adds a ticket behind the others. The only error is out of memory, which leaves the tickets as they were. The
    /// time depends on its grants.
    pub fn add(&mut self, ticket: &'a Ticket) -> Result<(), OutOfMemory>
        ensures ok { OnOk result (self.new ≡ self.old ++ ticket.now.grants ∷ []) }
        ensures err { OnErr result (self.new ≡ self.old) }
    {
        self.places
            .note_grants(ticket.grants(), self.tickets.len())?;
        self.tickets.push(ticket)?;
        Ok(())
    }

    /// The places of the tickets from one on that may share something with a ticket, in any order, and maybe others.
    fn candidates(&self, ticket: &Ticket, from: usize) -> Result<Vec<usize>, OutOfMemory>
        ensures { IfOk result (λ places. LeaveOutApart ticket.now.grants self.now from places.items) }
    {
        if is_open(ticket.grants()) {
            all_from(*self.tickets.allocator(), from, self.tickets.len())
        } else {
            self.places.gather(ticket.grants())
        }
    }

    /// The indices, from `from` on, of the tickets that have to be checked to see what they share with a ticket. They
    /// are those with a grant for a pool that it names too, and those with a grant without a pool. If it has such a
    /// grant itself, they are all tickets. No other ticket shares anything with it. Indices are counted from 0.
    ///
    /// The only error is out of memory. The time depends on the ticket's grants, and on the grants of all tickets that
    /// have to be checked, including those before `from`.
    pub fn near(&self, ticket: &Ticket, from: usize) -> Result<Vec<usize>, OutOfMemory>
        ensures { IfOk result (λ places. AreNear ticket.now.grants self.now from places.items) }
    {
        let mut places = self.candidates(ticket, from)?;
        keep_between(&mut places, from, self.tickets.len());
        put_in_order(&mut places);
        Ok(places)
    }
}
