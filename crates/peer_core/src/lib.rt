//! One daemon's copy of one placement group, where peering sends suffixes of logs: a machine that takes one message at a
//! time, and says what is sent.
//!
//! # What contracts see
//!
//! A `Daemon` is the plain record of its state: promise, base, log, the sets that it was told, role, and what waits. `copy_step`
//! is a function by cases over messages and roles. All definitions take the types of messages, roles and copies from one module,
//! `specs/Types.antt`. Messages carry no logs. A Query tells the length of its sender's log and the id of the last request there.
//! An Info carries the requests of a log after a place up to which the asker has the same, and an Install what the member lacks
//! of the chosen log. A copy that installs keeps with how many entries each member's log begins like the chosen one, so a kick
//! sends the same.
//!
//! # Costs
//!
//! A request, an `Append` and its answer cost nothing in the log's length, but the size of the set. That a request's id does not
//! wait yet is one look-up, unless it waited before: then all that wait are looked at. A Query, an Info, an Install and a choice
//! cost what the parts cost that they carry, and nothing in the log's length. Where the copy itself lacks something of the chosen
//! log, or drops its last entry for it, an Install and a choice cost one `fit` besides. No log is copied for them. A set of one
//! member copies its log only where more than one request waits at a time, or where one waits while its log is fitted.
//!
//! # Design
//!
//! A handler makes all that can fail first, the log's push last, and then assigns. A new interval, an offer and a
//! request put into the queue are undone by moves where an allocation fails. The number of entries with which two logs
//! begin alike is looked for behind the index up to which they are known to be equal: behind the entries that stay.
//!
//! What a choice sends is made before the log is fitted, from the entries that stay and the requests that come behind
//! them (`Fitting`): messages carry requests, and a fit changes none. The log is fitted last, in place, so an
//! allocation that fails leaves nothing to undo. Where the log does not fit, the messages are dropped.
#![tactic(auto)]

mod arrival;
mod choice;
mod daemon;
mod fitting;
mod installing;
mod peering;
mod peers;
mod requests;
mod serve;
mod state;

pub use daemon::Daemon;
pub use group_messages::{Body, Message, Role, Sent};
