//! Laws of every sound world, each the contract of a function that does nothing.

ghost use Rattle.closed_laws.specs.Closed.{PartsMakeSoundWorlds, EveryPlaceHasItsGroup, GroupsAreFoundByPlace, GroupsAreServed, KickRecovers, LossesLoseAll};

/// The world that `World::of` makes of parts that fit together is sound.
pub fn parts_make_sound_worlds()
    ensures { PartsMakeSoundWorlds }
{}

/// The groups of a sound world are those of the map's places, in their order. A group is found just where the map has its pool and
/// its number, which is just where the front does not refuse them.
pub fn every_place_has_its_group()
    ensures all { EveryPlaceHasItsGroup }
    ensures found { GroupsAreFoundByPlace }
{}

/// Each group of a sound world is one that there can be, whose last set is the map's present one, and whose sets were within the
/// daemons that were up.
pub fn groups_are_served()
    ensures { GroupsAreServed }
{}

/// Where a group of a sound world is ready: once all its messages are lost, a kick and the delivery of message 0 until none is left
/// answer every request for the group. Users, map, sessions and the other groups stay.
pub fn a_kick_recovers()
    ensures recovers { KickRecovers }
    ensures loses { LossesLoseAll }
{}
