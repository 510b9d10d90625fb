//! The text of scripts: lines, words and numbers as they are read, and texts as they are printed.
//!
//! This crate knows no command. What a script's words mean is said by the crates above.
#![tactic(auto)]

mod counts;
mod fault;
mod laws;
mod lines;
mod numbers;
mod printing;
mod streams;
mod words;

pub use counts::{Count, push_count};
pub use fault::{LineFault, ScriptFault};
pub use laws::{
    lines_are_read_back, lines_are_the_text, numbers_are_read_back, numerals_are_decimal,
    pairs_are_read_back, quoted_is_read_back,
};
pub use lines::{Line, Lines};
pub use numbers::{number_of, pair_of};
pub use printing::{push_item, push_number, push_quoted};
pub use streams::{end_line, read_script, write_text};
pub use words::Words;
