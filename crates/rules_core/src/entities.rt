//! The entities of a cluster, found by the pools that they name.

ghost use Rattle.std.specs.Prelude.{◌≡◌, ◌<◌, ℕ, List, All, IfOk, MatchOption, length};
ghost use Rattle.std.specs.List.{Contains};
ghost use Rattle.std.specs.List.Sorted.{IsStrictlyIncreasing};
ghost use Rattle.network_core.specs.declared.address.Address.{Address};
ghost use Rattle.rights_core.specs.Rights.{NetworkGrant, grants_at};
ghost use Rattle.rules_core.specs.Near.{AreNear, ArePlaces, HasGrants};

use crate::rule::Subject;
use common_types::OutOfMemory;
use rights_core::Rights;
use share_core::PoolIndex;
use std::alloc::Global;
use std::marker::Model;
use verdict_core::Ticket;

/// The entities of a cluster. Those that may share something with some rights are found by the pools that they name. Contracts
/// see it as the list of the entities.
///
/// It borrows them, and keeps an index for each pool that one of them names.
pub struct Entities<'a> {
    subjects: &'a [Subject<'a>],
    tickets: PoolIndex<'a>,
    /// For each ticket the index of its entity.
    places: Vec<usize>,
    /// The indices of the other entities: the text could not be read, or a grant has a network.
    others: Vec<usize>,
}

impl Drop for Entities<'_> {
    fn drop(self) {
        let Entities {
            subjects: _,
            tickets: _,
            places: _,
            others: _,
        } = self;
    }
}

impl<'a> Model for Entities<'a> {
    ghost use Rattle.std.specs.Prelude.{List, length};
    ghost use Rattle.rules_core.specs.Near.{AreIndexed};
    ghost use Rattle.rules_core.specs.Subject as seen;

    ghost Value = { List seen.Subject };

    ghost view = { λ e. e.subjects.now };

    ghost invariant = { λ e. AreIndexed e.subjects.now (length e.subjects.now) e.tickets e.places.items e.others.items };
}

/// The ticket of an entity that could be read and has the same grants at every address.
fn ticket_of<'a>(subject: &Subject<'a>) -> Option<&'a Ticket>
    ensures { MatchOption result (Unit {0}) (λ ticket. HasGrants ticket.now.grants subject.now) }
{
    match subject.read_rights() {
        None => None,
        Some(rights) => rights.as_ticket(),
    }
}

/// Puts some indices in order, and leaves each once.
fn put_in_order(places: &mut Vec<usize>)
    ensures rising { IsStrictlyIncreasing places.new.items }
    ensures kept { (place : ℕ) → Contains places.old.items place → Contains places.new.items place }
    ensures among { All (Contains places.old.items) places.new.items }
{
    places.sort_unstable();
    places.dedup();
}

impl<'a> Entities<'a> {
    /// The entities of a list. The only error is out of memory.
    pub fn of(alloc: Global, subjects: &'a [Subject<'a>]) -> Result<Entities<'a>, OutOfMemory>
        ensures { IfOk result (λ entities. entities ≡ subjects.now) }
    {
        let mut tickets = PoolIndex::new(alloc);
        let mut places = Vec::new(alloc);
        let mut others = Vec::new(alloc);
        for place in 0..subjects.len() {
            match ticket_of(&subjects[place]) {
                None => others.push(place)?,
                Some(ticket) => {
                    tickets.add(ticket)?;
                    places.push(place)?;
                }
            }
        }
        Ok(Entities {
            subjects,
            tickets,
            places,
            others,
        })
    }

    /// The entities.
    pub(crate) fn subjects(&self) -> &'a [Subject<'a>]
        ensures { result.now ≡ self.now }
    {
        self.subjects
    }

    /// The indices of all entities.
    pub(crate) fn all(&self, alloc: Global) -> Result<Vec<usize>, OutOfMemory>
        ensures { IfOk result (λ places. ArePlaces self.now places.items × ((place : ℕ) → place < length self.now → Contains places.items place)) }
    {
        let mut places = Vec::new(alloc);
        for place in 0..self.subjects.len() {
            places.push(place)?;
        }
        Ok(places)
    }

    /// The indices of the entities that have to be checked to see what they share with grants that hold at every address.
    fn near_ticket(&self, ticket: &Ticket) -> Result<Vec<usize>, OutOfMemory>
        ensures { IfOk result (λ places. (grants : List NetworkGrant) → ((a : Address) → grants_at grants a ≡ ticket.now.grants) → AreNear grants self.now places.items) }
    {
        let near = self.tickets.near(ticket, 0)?;
        let mut places = self.others.clone()?;
        for index in &near {
            places.push(self.places[*index])?;
        }
        put_in_order(&mut places);
        Ok(places)
    }

    /// The indices of the entities that have to be checked to see what they share with some rights, in order: those with a grant
    /// for a pool that the rights name too, those with a grant without a pool, those with a network, and those whose text could
    /// not be read. They are all entities if the rights have a network or a grant without a pool.
    ///
    /// The only error is out of memory. The time depends on the grants of the rights, and of the entities that have to be checked.
    pub(crate) fn near(&self, alloc: Global, rights: &Rights) -> Result<Vec<usize>, OutOfMemory>
        ensures { IfOk result (λ places. AreNear rights.now.grants self.now places.items) }
    {
        match rights.as_ticket() {
            None => self.all(alloc),
            Some(ticket) => self.near_ticket(ticket),
        }
    }
}
