//! The laws of sound worlds: what holds of the world that a closed cluster gives, as of one that events made.
//!
//! Most laws of `world_laws` are stated of the world that a list of accepted events makes. These are stated of every world that
//! is sound, which is the invariant of `World`. The world of the parts that `Cluster::close` gives is such a world.
#![tactic(auto)]

mod laws;

pub use laws::{
    a_kick_recovers, every_place_has_its_group, groups_are_served, parts_make_sound_worlds,
};
