//! The narrowest capability text, at a grain, that allows every request that was seen.
//!
//! A grain divides targets into regions: pools, namespaces of pools, or in these the names that begin as all names seen there
//! do. A tag that all pools seen share replaces their names. A text of the grain has at most one grant of flags for each region,
//! and grants of class methods. Of those texts that allow all requests seen there is a least one, and `suggest` returns it.
//!
//! # What contracts see
//!
//! A request seen is its target and its needs. A text is a list of grants, each with its number as its path. `specs/Region.antt`
//! says which regions there are, `specs/Grain.antt` which texts are of a grain, and `specs/Suggestion.antt` what a suggestion is.
//!
//! # Costs
//!
//! Each request is compared with the grants so far. For each region the requests are gone over once more for each flag.
//!
//! # Design
//!
//! A request that reads or writes needs flags, and its calls need class flags in the same grant. So these requests come first:
//! each that the grants so far deny adds the flags of its whole region. A request of calls alone then adds a grant of each
//! method that is not covered yet.
#![tactic(auto)]

mod access;
mod grain;
mod region;
mod seen;
mod suggesting;

pub use grain::{Division, Grain};
pub use seen::{Seen, asks_nothing, needs_all};
pub use suggesting::{Suggestion, suggest};
