//! The command `check`: rules that the entities of a file must keep.
//!
//! It has the four steps of the crate `gate_commands`: arguments become a struct, files become values, the rules are checked, and
//! the answer is rendered. The last two read nothing.
#![tactic(auto)]

mod arguments;
mod check;
mod rules_file;

pub use check::run_check;
