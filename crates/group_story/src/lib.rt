//! The step of a world, as one of its groups sees it: the message that an event takes from the group's wire, and those that it sends.
//! The definitions are in `specs/`.
//!
//! `wire` compares the messages on their way before and after a step; `telling` makes the world's step.
#![tactic(auto)]

mod laws;
mod telling;
mod wire;

pub use laws::steps_take_and_send;
pub use telling::{GroupStep, step_and_tell};
pub use wire::{WireStep, hold_wire, tell_step};
