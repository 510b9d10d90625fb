//! Acting sets.

ghost use Rattle.std.specs.Prelude.{◌≡◌, ◌≤◌, ◌<◌, ◌≢◌, ◌++◌, [], ◌∷◌, true, false, length, min, AllPairs, IfOk, ◌↔◌, IsSome, IfSome, ◌==◌};
ghost use Rattle.std.specs.List.{list_any};
ghost use Rattle.std.specs.Str.{bytes_eq};
ghost use Rattle.place_core.specs.Distinct.{is_distinct};
ghost use Rattle.place_core.specs.Placement.{IsActing, acting_of, numbers_of};

use crate::daemons::DaemonSet;
use crate::ranking::ranked;
use std::alloc::{AllocError, Global};
use std::marker::Model;

/// The acting set of a group: at most five daemons in order, each once, which contracts see as the list of their numbers.
#[derive(Clone, Copy, Debug, PartialEq, Eq)]
pub struct ActingSet {
    members: [u8; 5],
    len: u8,
}

impl Model for ActingSet {
    ghost use Rattle.std.specs.Prelude.{List, ℕ};

    ghost Value = { List ℕ };

    ghost use Rattle.place_core.specs.Inside.{members_of, IsPadded, padded, padded_members};

    ghost view = { members_of };

    ghost invariant = { IsPadded };

    ghost inverse = { padded };

    ghost inverse_ok = { padded_members };
}

impl ActingSet {
    /// The set of nobody.
    pub fn new() -> ActingSet
        ensures { result ≡ [] }
    {
        ActingSet {
            members: [0; 5],
            len: 0,
        }
    }

    /// These daemons in this order, or `None` where they are more than five or one stands twice.
    pub fn from_slice(members: &[u8]) -> Option<ActingSet>
        ensures sets { IsSome result ↔ ((length members.now ≤ 5) × (is_distinct members.now ≡ true)) }
        ensures value { IfSome result (λ set. set ≡ members.now) }
    {
        if members.len() > 5 || !are_distinct(members) {
            return None;
        }
        let mut padded = [0; 5];
        for place in 0..members.len() {
            padded[place] = members[place];
        }
        Some(ActingSet {
            members: padded,
            len: members.len() as u8,
        })
    }

    /// Adds a daemon at the end.
    pub fn push(&mut self, daemon: u8)
        requires room { length self.old < 5 }
        requires other { list_any (λ d. d == daemon) self.old ≡ false }
        ensures { self.new ≡ self.old ++ daemon ∷ [] }
    {
        self.members[usize::from(self.len)] = daemon;
        self.len += 1;
    }

    /// The daemons in order. The first is the primary.
    pub fn as_slice(&self) -> &[u8]
        ensures value { result.now ≡ self.now }
        ensures few { length result.now ≤ 5 }
        ensures once { is_distinct result.now ≡ true }
    {
        &self.members[..usize::from(self.len)]
    }

    /// Whether two sets have the same daemons in the same order.
    pub fn equals(&self, other: &ActingSet) -> bool
        ensures { result ≡ bytes_eq self.now other.now }
    {
        self.as_slice() == other.as_slice()
    }

    /// Whether a daemon is a member.
    pub fn has(&self, daemon: u8) -> bool
        ensures { result ≡ list_any (λ d. d == daemon) self.now }
    {
        self.as_slice().contains(&daemon)
    }
}

// Whether no daemon stands twice.
fn are_distinct(members: &[u8]) -> bool
    ensures { result ≡ is_distinct members.now }
{
    match members.split_first() {
        Some((first, rest)) => !rest.contains(first) && are_distinct(rest),
        None => true,
    }
}

/// The acting set of a group: the up daemons by FNV-1a of the text `pool.group.daemon` (numbers in decimal), the greatest first and
/// the smaller number first where two are equal, cut at `size`.
///
/// `pool` is the pool's name. Source of the term: Ceph's Peering documentation; the ranking is this project's profile.
pub fn acting(
    alloc: Global,
    pool: &str,
    group: u32,
    up: &DaemonSet,
    size: u32,
) -> Result<Vec<u8>, AllocError>
    ensures acting { IfOk result (λ v. IsActing pool.now group (numbers_of up.now) size v.items) }
    ensures counted { IfOk result (λ v. v.items ≡ acting_of pool.now group (numbers_of up.now) size) }
{
    let mut members = [0; 16];
    let count = ranked(pool, group, up, size as usize, &mut members);
    Vec::from_slice(alloc, &members[..count])
}

/// The acting set of a group as [`acting`] gives it, cut at five daemons too. It takes no memory.
pub fn acting_set(pool: &str, group: u32, up: &DaemonSet, size: u32) -> ActingSet
    ensures acting { IsActing pool.now group (numbers_of up.now) (min size 5) result }
    ensures counted { result ≡ acting_of pool.now group (numbers_of up.now) (min size 5) }
    ensures distinct { AllPairs (λ a b. a ≢ b) result }
{
    let mut members = [0; 16];
    let count = ranked(pool, group, up, (size as usize).min(5), &mut members);
    match ActingSet::from_slice(&members[..count]) {
        Some(set) => set,
        None => unreachable!(),
    }
}
