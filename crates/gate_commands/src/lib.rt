//! The commands `verdict`, `explain`, `compare`, `who`, `share` and `lint`.
//!
//! Each command is a file with four steps: its arguments become a struct, its inputs become values, the question is answered,
//! and the answer is rendered. The last two read nothing.
//!
//! Nothing here knows of worlds, so a program of these commands alone is built in less than half the time. The crate
//! `command_line` has the commands that run worlds.
#![tactic(auto)]

mod any_request;
mod caps;
mod ceph_tidy;
mod change_lines;
mod compare;
mod documents;
mod explain;
mod known_changes;
mod known_lint;
mod limited;
mod lint;
mod lint_document;
mod notes;
mod question;
mod service_lines;
mod share;
mod verdict;
mod who;
mod who_any;

pub use question::{run_gate, run_question};
