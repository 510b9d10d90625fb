//! What happens to a world, what a call reports of it, and why a call is refused.
//!
//! The submitted requests are kept here too, each found by its id. All of it is this project's profile, over the
//! commands of the Ceph manual.
#![tactic(auto)]

mod event;
mod fault;
mod fault_text;
mod ops;
mod submissions;

pub use event::{Ask, AuthCommand, Event, Told};
pub use fault::WorldFault;
pub use ops::Ops;
pub use submissions::Submissions;
