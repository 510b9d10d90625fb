//! What is between a group, its clients and its daemons: requests, answers, and the messages on their way.
//!
//! A group's own calls stand in the crate above, and are made of the calls that stand here.
#![tactic(auto)]

mod answers;
mod daemon_sets;
mod element_at;
pub mod furthest;
mod ledger;
mod opening;
mod requests;
mod sending;
mod wire;

pub use answers::Answer;
pub use daemon_sets::{has_member, is_up, last_set, same_set};
pub use element_at::at;
pub use ledger::Ledger;
pub use opening::{Opening, open, prepare};
pub use sending::{announced, resent, retransmit_primary, to_primary};
pub use wire::Wire;
