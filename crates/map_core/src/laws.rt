//! Laws of the map, each the contract of a function that does nothing.

ghost use Rattle.map_core.specs.Laws.{SetsAreActing, UpAreThere, PoolsDiffer, PoolsAreFew, PoolsStay, TagsArePossible, ViewsAreOfPools, ViewsArePossible, CommandsBeginIntervals, PresentSetIsLast, OthersLeaveSets};

/// On every map a group's acting set is that of its ranking: at most five daemons, each once, and each of them up. Each
/// daemon that is up has a number below the number of daemons.
pub fn sets_are_acting()
    ensures sets { SetsAreActing }
    ensures up { UpAreThere }
{}

/// No two pools have one name, and there are at most 32.
pub fn pools_differ()
    ensures differ { PoolsDiffer }
    ensures few { PoolsAreFew }
{}

/// A pool has each application once, and each key of an application once, at every epoch.
pub fn tags_are_possible()
    ensures pools { TagsArePossible }
    ensures views { ViewsArePossible }
{}

/// A pool keeps its groups and the sizes of its sets for good, and a view of any epoch shows them.
pub fn pools_stay()
    ensures stay { PoolsStay }
    ensures views { ViewsAreOfPools }
{}

/// A command begins at most one interval of a group; the present acting set is that of the last; and commands that move no
/// daemon leave the sets.
pub fn intervals_follow_the_sets()
    ensures one { CommandsBeginIntervals }
    ensures last { PresentSetIsLast }
    ensures others { OthersLeaveSets }
{}
