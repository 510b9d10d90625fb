//! The copies of one group, where peering sends suffixes of logs, and the messages among them.
//!
//! # What contracts see
//!
//! A `Group` is a record of its copies, wire, sets, who is up, requests, answers and audit. Its invariant says that some list of
//! events makes it, so that each law over all lists of events holds of each group. `group_step` is the definition of each event.
//!
//! # Costs
//!
//! A submission costs one push, and a delivery what the copy's handler costs. `new_interval`, `restart` and `kick` look at the
//! requests that have no answer, which are sent again, and at no others. An answer looks up its request's place, and takes it out
//! of the places of those, a vector in order: a binary search, and a move of those behind it, at most 128 KiB. Delivering message
//! 0 moves nothing. `new_interval` with an equal set, and `ready`, take no memory. Through a settled group of three a request
//! takes as many instructions among 8,000 as among 1,000; `docs/PERFORMANCE.md` has the figures. A copy of a group copies each
//! log, message and request once, and shares only what nothing changes.
//!
//! # Design
//!
//! What was decided is not stored again: it is the beginning of the log of the copy that is furthest on (the greatest base, then
//! the longest log), and the group keeps its length. Requests and answers are lists, each beside an `IndexSet` of its ids in the
//! same order. A `Ledger` has both, and beside them the places of the requests that have no answer. Its invariant says that they
//! are these, of the two lists alone, so no other proof speaks of them: contracts see a ledger as its requests and its answers.
//! The wire is a vector of which a front is passed over and dropped later, 32 messages or more at a time. Before a
//! step it makes room for all that the step may send, so that nothing needs to be undone. A move makes what it sends,
//! and room on the wire, before it changes anything (`Opening`). So it can be prepared and abandoned
//! (`PreparedGroup`).
//!
//! No law about a group is proved here. Each group that can be corresponds to one that sends whole logs and to which
//! the same happened. What the code needs is carried over from that one (`proofs/Reached.antt`,
//! `proofs/Lowering.antt`, `proofs/Sends.antt`):
//! - each log is legal;
//! - what was decided begins the furthest log;
//! - no request was submitted twice;
//! - how many messages a step sends;
//! - deliveries end.
//!
//! Only where the requests in parts come from is an induction of its own (`proofs/Asks.antt`), since the other group
//! has no parts.
#![tactic(auto)]

mod call;
mod effects;
mod group;
mod moves;
mod ready;
mod state;

pub use call::GroupCall;
pub use group::Group;
pub use moves::PreparedGroup;
