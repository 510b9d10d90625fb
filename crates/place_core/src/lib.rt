//! Placement: the group of an object, and the daemons that serve a group.
//!
//! # What contracts see
//!
//! A set of daemons is its sixteen flags, an acting set its list of at most five numbers.
//!
//! # Costs
//!
//! An acting set is sixteen short hashes and a selection in place. The text that ranks a daemon is never built: its hash goes
//! over the parts.
#![tactic(auto)]

mod acting_sets;
mod daemons;
mod hashing;
mod laws;
mod ranking;

pub use acting_sets::{ActingSet, acting, acting_set};
pub use daemons::DaemonSet;
pub use hashing::{group_of, hash};
pub use laws::{acting_is_a_set, acting_is_the_ranking, daemons_are_sixteen};
pub use std::alloc::AllocError as OutOfMemory;
