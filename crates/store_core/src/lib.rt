//! Requests, and what a store of objects decides on them.
//!
//! A request is sealed with all that its verdict looks at, so that it is denied on every store or on none. All of it is this
//! project's profile, after Ceph's placement group logs.
#![tactic(auto)]

mod decided;
mod deciding;
mod entry;
mod id;
mod id_hasher;
mod object_name;
mod objects;
mod reply;
mod sealed;
mod sealed_parts;
mod texts;

pub use decided::{Decided, NamedChange, ObjectChange};
pub use deciding::decide;
pub use entry::Entry;
pub use id::Id;
pub use id_hasher::IdHash;
pub use object_name::ObjectName;
pub use objects::Objects;
pub use reply::{Reply, reply_number};
pub use sealed::{GroupId, Sealed};
