//! What an entity reaches of a pool: an exact answer, letter by letter.
//!
//! # What contracts see
//!
//! A `Cell` has an `Extent` for each `Letter`: no request of that kind is allowed, some are, or every one is.
//!
//! # Costs
//!
//! A cell takes some comparisons of names for each grant and each sample address. `cells` makes the tickets of the sample
//! addresses once for all pools.
//!
//! # Design
//!
//! A read, a write, a listing or a call is allowed by one grant alone. So some request of a kind is allowed where one grant is for
//! the pool and gives that kind. Every request is allowed just where one grant takes every namespace and every object: no other
//! list of grants takes a namespace and an object that none of them speaks of.
#![tactic(auto)]

mod cell;
mod giving;
mod reaching;

pub use cell::{Cell, Extent, Letter};
pub use reaching::cells;
