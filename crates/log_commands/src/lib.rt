//! The commands `log` and `suggest`: what the logs of OSDs say, against the capability texts of a file.
//!
//! A command has four steps: its arguments become a struct, its files become values, the question is answered, and the answer
//! is rendered. A log is read chunk by chunk, so that its size does not matter; all other files are read whole.
#![tactic(auto)]

mod commands;
mod entities;
mod log_command;
mod log_files;
mod log_notes;
mod pool_lines;
mod requests;
mod seen_requests;
mod suggest_command;
mod suggest_lines;

pub use commands::{is_log_command, run_log_command};
pub use log_files::{LogFiles, TakesChunks, pour};
