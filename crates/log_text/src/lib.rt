//! What an OSD's log says of requests, against the capability texts of a file; and suggested texts.
//!
//! `log_core` says which lines make one operation, and counts them. Here lines become values: an entity, a request and a decision.
//!
//! # What contracts see
//!
//! The values of a decision are those that Ceph writes as its line (`specs/Decision.antt`, `specs/Object.antt`): they are read
//! without a contract, written again, and compared with the line. So a name that imitates other parts of a line is not taken
//! for them. `agreement_with` compares a decision with the gate's verdict, and `specs/Sides.antt` says what is printed of a condition
//! that failed. The `Ledger` of `log_core` counts each decision once.
//!
//! Which bytes make a line, and which lines tell of requests, is outside of all contracts.
//!
//! # Costs
//!
//! Most lines take a look at their first words. A request that is made again takes one look-up.
#![tactic(auto)]

mod agreement;
mod counts;
mod decided;
mod decision;
mod document;
mod front;
mod object;
mod reading;
mod report;
mod sides;
mod standing;
mod suggested;
mod told;
mod words;
mod written;

pub use agreement::{Agreement, agreement_with};
pub use counts::Counts;
pub use decided::Decided;
pub use document::request_piece;
pub use log_core::Summary;
pub use reading::{LogReading, LoggedRequest};
pub use report::push_report;
pub use sides::{failed_condition, push_asked, push_entry_failure, push_held};
pub use standing::{Standing, standing_of};
pub use suggested::{allows_each, compared_with_present, seen_of, suggested_text, tags_of};
pub use words::push_words;
pub use written::has_tags;
