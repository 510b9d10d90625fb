//! The laws of scripts: what plain ones write, and four of them worked through.
#![tactic(auto)]

mod laws;

pub use laws::{plain_scripts_print, worked_scripts};
