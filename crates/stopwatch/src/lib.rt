//! How long work takes: runs that are timed, and tables of their times.
//!
//! The caller passes a clock. What is measured is a `Work` of the calling crate.
#![tactic(auto)]

mod fault;
mod measure;
mod table;
mod text;

pub use fault::MeasureFault;
pub use measure::Work;
pub use table::{Mode, Table};
