//! What all groups share, and what the copies of a group send each other.
//!
//! Who sends, the acting sets of intervals, what moves a group, and why a call on one is refused; then messages, roles, where logs begin
//! alike, and the requests that wait.
//!
//! # What contracts see
//!
//! A `Party` is the client or a daemon's number; `IntervalSets` is the list of the acting sets of all intervals, which copies
//! share; a `GroupMove` is what a map's command is to a group; a `GroupFault` is why a call is refused.
#![tactic(auto)]

mod beginnings;
mod fault;
mod group_move;
mod interval_sets;
mod message;
mod party;
mod queue;
mod role;

pub use beginnings::{alike_part, alike_requests, count_at, part_from, start_for};
pub use fault::GroupFault;
pub use group_move::GroupMove;
pub use interval_sets::IntervalSets;
pub use message::{Body, Message, Sent};
pub use party::Party;
pub use queue::Queue;
pub use role::{Common, PeerInfo, Role};
