//! Laws of what tenants share: functions that do nothing, whose clauses are the laws.

ghost use Rattle.share_core.specs.Held.{TargetsAreHeld};

/// A cluster map can hold each target whose tags are possible and whose pool, applications, keys and values have names that a
/// map takes, 1 to 64 word bytes, at most 8 applications and 16 pairs of each. So `share` speaks of real maps, and an example
/// is a target of one wherever the texts' names are names of pools and applications.
pub fn possible_targets_are_held()
    ensures { TargetsAreHeld }
{}
