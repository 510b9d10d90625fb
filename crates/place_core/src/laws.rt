//! Laws of placement, each the contract of a function that does nothing.

ghost use Rattle.place_core.specs.Laws.{ActingIsTheRanking, ActingIsASet, DaemonsAreSixteen};

/// The acting set that is counted is the one by the condition on pairs, for every pool, group, set of daemons and size.
pub fn acting_is_the_ranking()
    ensures { ActingIsTheRanking }
{}

/// Cut at five it has at most five daemons, each once, and each of them up.
pub fn acting_is_a_set()
    ensures { ActingIsASet }
{}

/// The daemons of a set are among the numbers 0 to 15, each once.
pub fn daemons_are_sixteen()
    ensures { DaemonsAreSixteen }
{}
