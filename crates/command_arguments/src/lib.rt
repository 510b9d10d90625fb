//! The command line: which commands and options there are, their help, completions and man page, and what was meant by
//! arguments that clap does not take.
//!
//! Nothing here reads a file or answers a question.
#![tactic(auto)]

mod advice;
mod arguments;
mod audit_arguments;
mod check_arguments;
mod commands;
mod completions;
mod log_arguments;
mod man_page;
mod near;
mod tips;
mod wrapping;

pub use advice::advice_line;
pub use arguments::{is_option, request_command};
pub use commands::command_words;
pub use completions::{Shell, completions_for};
pub use man_page::manual;
pub use near::nearest;
pub use tips::{complaint, first_words};
pub use wrapping::wrapped;
