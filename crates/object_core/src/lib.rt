//! Objects, and vectors of operations on them, which run whole or not at all.
//!
//! The operations and the numbers of their errors are those of Ceph's RADOS objects: `looking` has those that read, `changing` those
//! that write. The object classes, the limits and how a vector is refused are this project's profile.
//!
//! # What contracts see
//!
//! An `Object` is its bytes and its attributes, in the order in which they were set. No two attributes have one name.
//!
//! # Costs
//!
//! A vector works on a borrowed object until its first change. So one that only looks copies nothing but its answers, and one
//! that changes copies the object once at most.
#![tactic(auto)]

mod attributes;
mod bytes;
mod calling;
mod changing;
mod class;
mod errors;
mod laws;
mod looking;
mod needs;
mod number;
mod object;
mod op;
mod outcome;
mod running;

pub use attributes::Attributes;
pub use bytes::Bytes;
pub use class::registry;
pub use laws::removed_is_gone;
pub use needs::{NeedsFault, needs_of};
pub use object::Object;
pub use op::Op;
pub use outcome::{Change, Outcome, Outputs};
pub use running::run_vector;
