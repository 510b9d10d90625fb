//! What the entities of a cluster reach of its pools, as a text, as comma-separated values, and as JSON.
#![tactic(auto)]

mod csv;
mod json;
mod lines;
mod matrix;
mod reached;
mod report;
mod words;

pub use csv::audit_csv;
pub use json::audit_json;
pub use reached::{Reached, is_alike, is_first, reached_by};
pub use report::{audit_text, is_everywhere, is_unwritten};
pub use words::push_cell_word;
