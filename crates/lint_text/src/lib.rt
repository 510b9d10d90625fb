//! What the program prints of grants that nobody needs.
//!
//! Each text is a value, made of a capability text or of entities. Each call borrows its arguments, and its only error
//! is out of memory: what is wrong with a capability text is part of what is printed. The forms of the lines are this
//! project's profile.
//!
//! # What contracts see
//!
//! A `Printed`, as in `verdict_text`. The lines of an entity stand behind its name.
//!
//! # Costs
//!
//! Those of `lint_core`, for each text.
#![tactic(auto)]

mod ceph;
mod entities;
mod found;
mod lines;
mod reading;
mod texts;

pub use ceph::{lint_ceph_caps, lint_ceph_entities};
pub use entities::{lint_entities, lint_read_entities};
pub use found::{found_grants, found_read_grants};
pub use texts::{lint_caps, lint_read, tidy_caps, tidy_read};
