//! Chains of steps between places, which are the numbers below a count.
//!
//! Each step is a pair of places. The only error is `OutOfMemory`.
#![tactic(auto)]

mod chains;

pub use chains::{Found, chains_from};
pub use std::alloc::AllocError as OutOfMemory;
