//! What a request asks of a ticket: its target, its needs, and the conditions that a grant can fail.
#![tactic(auto)]

mod request;

pub use request::{Calls, ClassCall, Condition, Needs, Target};
