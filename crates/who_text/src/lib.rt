//! What is printed of many entities: which may do what a request asks for, and a table of entities and requests.
//!
//! Each call borrows what it is given, and its only error is out of memory: what is wrong with a capability text or with calls is
//! part of what is printed. The forms of the lines are this project's profile.
#![tactic(auto)]

mod brief;
mod columns;
mod table;
mod who;

pub use table::who_table;
pub use who::who_text;
