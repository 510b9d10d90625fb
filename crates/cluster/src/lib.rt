//! The world on threads: groups and users under turn locks, and the published map.
//!
//! A [`Cluster`] has a turn lock for each group and one for the users. A [`Pass`] goes to one thread: it has a seat of each lock, a reader
//! of the published map, and the sessions that it opened. Each call on a group or on the users takes a turn: it finds the state after a
//! list of turns that begins with all that the pass had seen, and adds one entry, its own. A [`Note`] carries what a pass has seen to
//! another. A [`Monitor`] changes the map, which `published_map` shows to all passes.
//!
//! # What contracts see
//!
//! A group under a lock is the group, whose list has an event, a look or an idle turn for each turn. Seats, one of each lock, are
//! what they have seen, made and may still draw. A pass has seats, a reader, and its sessions with their tickets and next
//! numbers; the monitor has seats, and a map of its own. The READMEs of `cluster_locks` and `cluster` have each step and each
//! call, and what is open.
//!
//! # Costs
//!
//! A request is one reading of the map and one turn on its group. A change of the map is a look at each group, a turn on each
//! that moves, and a publication.
//!
//! # Design
//!
//! The monitor asks its own map whether a command is refused, looks whether each group has room for the interval that it begins,
//! changes its map, moves the groups in order, and publishes. At the end its seats take in those of all passes. Then each group's
//! list, told apart by who made its entries, is a history of that group beside the map's: the monitor's entries are the commands'
//! events, and a pass's are requests sealed by the pools of the start, or deliveries. Such groups make a world together.
//! `cluster_locks` has what can be said of one lock, of one row of seats or of one session. All mutants of the two crates stand
//! there, so `cluster`, which has the largest types of all, is proved once.
#![tactic(auto)]

mod asking;
mod closing;
mod cluster;
mod command_effects;
mod deliveries;
mod fault;
mod fault_text;
mod group_moves;
mod locks;
mod monitor;
mod notes;
mod numbering;
mod pass;
mod pools;
mod starting;
mod user_turns;
mod views;
mod workers;

pub use asking::{NewRequest, Submitted};
pub use closing::CloseFault;
pub use cluster::{Cluster, Ended, Seats};
pub use cluster_locks::{LockedGroup, PoolSpec, UserSpec, Worked};
pub use fault::ClusterFault;
pub use monitor::{ChangeFault, Monitor, TellFault};
pub use notes::Note;
pub use pass::Pass;
pub use published_map::{Located, News};
pub use starting::start;
pub use workers::{Gate, run_workers};
