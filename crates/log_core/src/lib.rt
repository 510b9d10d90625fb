//! The lines of an OSD's log that tell of requests, which of them make one operation, and how its requests are counted.
//!
//! At `debug_osd 20` an OSD logs, for each operation of a client, the object on one line and the decision on another one of the
//! same thread. The decision names a session, and an earlier line names the session's entity.
//!
//! # What contracts see
//!
//! `specs/Log.antt` says which entity and which object belong to a decision, by all lines before it. A `Ledger` counts each
//! decision once: with its request, or as one whose entity or object is not known (`specs/Ledger.antt`, `specs/Tally.antt`). A
//! `LineBuffer` is the bytes that wait for the end of their line. `Marks` finds the lines that may say something of requests
//! (`specs/Marks.antt`).
//!
//! # Costs
//!
//! A line without a mark takes three searches, and each other one a few look-ups. The memory is one entity for each session that
//! began, one object for each thread, and a summary for each distinct request.
#![tactic(auto)]

mod buffer;
mod ledger;
mod line;
mod line_counts;
mod marks;
mod pairing;
mod request;
mod tally;

pub use buffer::LineBuffer;
pub use ledger::Ledger;
pub use line::Line;
pub use line_counts::LineCounts;
pub use marks::Marks;
pub use request::Request;
pub use tally::Summary;
