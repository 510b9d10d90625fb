//! The command line of the program `osdgate`: from words to what is written, and the status.
//!
//! `run_command` takes the words, files and streams, so that tests run it on their own. The program hands it those of
//! its host. The commands that ask the gate stand in `gate_commands`, below the worlds.
#![tactic(auto)]

mod auditing;
mod bad_line;
mod checking;
mod command;
mod drawing;
mod output_files;
mod run;

pub use command::run_command;
pub use output_files::OutputFiles;
