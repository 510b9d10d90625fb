//! The world: users, map, sessions and groups, one event at a time.
//!
//! The definitions are in `specs/`; the laws over all histories of events are the crate `world_laws`. All of it is this project's
//! profile, over the commands of the Ceph manual and the placement groups of the RADOS paper.
//!
//! # What contracts see
//!
//! A world is a `ControlPlane` (users, map, sessions, submissions), its groups in order of creation, and the entries that were decided.
//! To the groups every event is a list of parts, each one event of one group (`parts_of`), so each invariant is proved once, for
//! one part. The invariant names facts of the parts alone, and no history. The laws are functions of `world_laws` that do
//! nothing. The READMEs of `world_front` and `world_core` have the definitions one by one.
//!
//! # Costs
//!
//! A group is found by the pools alone: the earlier pools' numbers of groups, and its own number. Submissions and lists are found
//! by hash. A command on a daemon costs a step and its messages for each group. A list takes one request for each group of its
//! pool, all or none.
//!
//! # Design
//!
//! In code a world is its front, its groups, and the runs of what was decided, each a range of one group's own list, so that no
//! entry is stored twice. A command on a daemon makes all groups ready, which takes all the memory, then changes the map, and
//! then moves each group, which cannot be refused. Where memory is refused each is given up as it was.
#![tactic(auto)]

mod after_command;
mod audit;
mod calls;
mod creating;
mod group_places;
mod joining;
mod moves;
mod running;
mod taking;
mod world;

pub use group_places::place_of;
pub use running::run;
pub use world::{World, WorldParts};
pub use world_front::{
    Ask, AuthCommand, Event, Ops, Session, Told, WorldFault, are_names, change_users, is_namespace,
    seal_vector,
};
