//! Sets of daemons.

ghost use Rattle.std.specs.Prelude.{◌≡◌};
ghost use Rattle.entry_core.specs.Log.{is_in};
ghost use Rattle.place_core.specs.Placement.{numbers_of};
ghost use Rattle.group_model.specs.Group.{last_set, same_set};

use group_messages::IntervalSets;
use place_core::{ActingSet, DaemonSet};

/// Whether a daemon is one of those that are up. It takes no memory.
pub fn is_up(up: &DaemonSet, daemon: u8) -> bool
    ensures { result ≡ is_in (numbers_of up.now) daemon }
{
    up.has(daemon)
}

/// Whether a daemon is a member of a set. It takes no memory.
pub fn has_member(set: &ActingSet, daemon: u8) -> bool
    ensures { result ≡ is_in set.now daemon }
{
    set.has(daemon)
}

/// Whether two sets have the same members in the same order. It takes no memory.
#[tactic(auto, using(group_model_whole::proofs::Sets::equals_is))]
pub fn same_set(one: &ActingSet, other: &ActingSet) -> bool
    ensures { result ≡ same_set one.now other.now }
{
    one.equals(other)
}

/// The set of the last interval, or no daemons where there is no interval. It takes no memory.
pub fn last_set(sets: &IntervalSets) -> ActingSet
    ensures { result ≡ last_set sets.now }
{
    match sets.as_slice().last() {
        Some(set) => *set,
        None => ActingSet::new(),
    }
}
