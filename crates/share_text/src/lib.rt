//! What the program prints of what tenants share: of two capability texts, and of the entities of a file.
//!
//! Each text is a value. Each call borrows its arguments, and its only error is `OutOfMemory`. A fault of a capability
//! text is part of what is printed, or leaves its entity out. The forms of the lines are this project's profile.
//!
//! # What contracts see
//!
//! A `Printed`, as in `verdict_text`. The entities of a file whose texts have rights are tenants. Each two tenants are
//! reported in turn. A tenant's ticket has the grants that some address has (`live_grants`). A law says that two
//! tenants share something by these exactly where they share it from some address of each. `flow_entities` lists for
//! each tenant those that read what it writes. `flow_core` finds the chains, and each chain to another tenant has a
//! line.
//!
//! # Costs
//!
//! A tenant borrows its entity's ticket; a ticket is made only where a grant has a network. Each two tenants that
//! `near` does not leave out take `share`, or `share_in` where pools are given, for up to four kinds. They take memory
//! only where they share something, which is once. Flows take it for one kind, both ways, and then a search from each
//! tenant along the steps that were found.
//!
//! A search keeps an `IndexMap` from each place that it found to the chain there. Its order is the queue, and at the
//! end it is sorted by places. So a search takes time and memory by the places that are found, their steps and their
//! chains, and none for the other tenants.
#![tactic(auto)]

mod detail;
mod documents;
mod everybody;
mod everywhere;
mod flows;
mod holder;
mod kind;
mod laws;
mod live;
mod retags;
mod tenants;
mod texts;
mod writers;

pub use detail::Detail;
pub use documents::{flow_document, share_document};
pub use everybody::everybody_entities;
pub use flows::flow_entities;
pub use holder::{Holder, holders_of};
pub use laws::{retags_are_of_two_targets, shares_are_from_addresses};
pub use retags::{retag_entities, retag_rights};
pub use tenants::{Strictness, share_entities};
pub use texts::{share_read, share_texts};
pub use writers::writer_entities;
