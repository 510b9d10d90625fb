//! The cluster map: pools, the applications that they are tagged with, and which daemons are up.
//!
//! A map is what its accepted commands made of it. Each command makes an epoch, and a pool can be seen as it was at any of them.
//! `edits` carries a command out, `refusals` says first whether it is refused.
//!
//! # What contracts see
//!
//! A `ClusterMap` is its `History`: the number of daemons and the commands that were accepted. It also keeps the pools
//! and the daemons as they are now, and its invariant says that these are what the commands lead to.
//!
//! # Costs
//!
//! A command costs look-ups by name among at most 32 pools, 8 applications and 16 pairs, one push for which room was reserved,
//! and copies of the names that it adds. A refusal takes no memory. A view at the present epoch is one look-up and a copy of that
//! pool. A view at an earlier epoch is a walk over the commands up to it, which applies those on its pool again. A
//! command that is kept takes about a hundred bytes and its names: 65,535 of them, each setting a pair of names of 64
//! bytes, take about 35 megabytes.
#![tactic(auto)]

mod acting_sets;
mod command;
mod edits;
mod fault;
mod laws;
mod map;
mod pool;
mod refusals;
mod replay;

pub use command::MapCommand;
pub use fault::MapFault;
pub use laws::{intervals_follow_the_sets, pools_differ, pools_stay, sets_are_acting};
pub use map::ClusterMap;
pub use pool::{Epoch, Pool, PoolView};
