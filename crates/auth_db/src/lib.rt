//! The users of an object cluster and their capability texts.
//!
//! The commands are those of the Ceph manual's User Management chapter: `auth add`, `auth get-or-create`, `auth caps`,
//! `auth del`. Limits, and the order of refusals, are this project's profile.
//!
//! # What contracts see
//!
//! An `AuthDb` is its table of profiles and the list of its users, sorted by the bytes of their names, each with four optional
//! texts.
//!
//! # Costs
//!
//! A name is found by search in an ordered map. A ticket is made by a parse and an expansion.
//!
//! # Design
//!
//! Texts are kept as they were given. An osd text is parsed and expanded when it comes, so that it is known to be good, and again
//! where its ticket is asked for.
#![tactic(auto)]

mod caps;
mod db;
mod fault;
mod name;
mod osd_texts;
mod users;

pub use caps::Caps;
pub use db::{AuthDb, Creation, goes_by_step, refusals_are_the_texts};
pub use fault::AuthFault;
