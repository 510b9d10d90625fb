//! Which grants of a list nobody needs, exactly, and the list without them.
//!
//! A grant here is one of the list: an allow, or a use of a profile with all that it expands to. It is redundant if the
//! list without it allows the same, over all pools, objects and class registries. `compare_core` decides that.
//!
//! # What contracts see
//!
//! How each grant of a list stands to the others is a list of `Standing`s, one for each grant: needed, redundant
//! without a cover, or covered by the grant of a number. A tidied list is a list. Which grants match no pool is a list
//! of truth values, one for each grant. A pool is its name and its tags.
//!
//! # Costs
//!
//! Each grant takes a ticket of the others, and a comparison of the grant alone with that ticket. A redundant grant
//! takes a comparison with each other grant alone. `tidied` takes a comparison of the whole list for each grant. A list
//! has at most 64 grants.
//!
//! # Rights
//!
//! `lint_rights` decides the same of a text that Ceph's rules expand. Its grants may have networks: a grant is
//! redundant if it is so at every address. Finitely many sample addresses decide that.
//!
//! # Design
//!
//! `compare_core` decides whether the list allows something that the list without the grant denies. The other direction
//! needs no check, since a list allows all that it allows without some of its grants (a lemma). For the same reason one
//! pass is enough to tidy up: a grant that is needed among more grants is needed among fewer. The list without a grant
//! is expanded anew. That has no fault if the whole list has none.
#![tactic(auto)]

mod findings;
mod laws;
mod parts;
mod pools;
mod rights_lint;
mod tickets;
mod tidying;

pub use findings::{Standing, redundancy};
pub use laws::no_grant_is_idle;
pub use pools::without_pool;
pub use rights_lint::{GrantLint, Reach, lint_rights};
pub use share_core::Pool;
pub use tidying::tidied;
