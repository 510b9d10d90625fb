//! Profiles, and what a list of grants expands to with them.
//!
//! A profile is a named list of grants that a capability text may use: the Ceph manual's User Management chapter,
//! "Authorization capabilities". How a use fills the grants of its profile, and the limits, are this project's profile.
//!
//! # What contracts see
//!
//! A `ProfileTable` is the list of names and bodies in order, a `GrantTree` its flat list of paths and grants.
//!
//! # Costs
//!
//! `add` and `expand` are linear in the grants that they give, times the limits of a body and of a table.
//!
//! # Design
//!
//! The table keeps each profile's flat size beside its body. So a table's limit is a sum, and a use that gives nothing is passed
//! over without a visit.
#![tactic(auto)]

mod built_in;
mod expansion;
mod fault;
mod filling;
mod path;
mod refusal;
mod table;
mod tree;

pub use expansion::expand;
pub use fault::ExpandFault;
pub use path::Path;
pub use table::ProfileTable;
pub use tree::GrantTree;
