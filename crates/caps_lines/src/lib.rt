//! Lines of the command `ceph` that give an entity its capability texts.
//!
//! `ceph auth caps` replaces all texts of an entity, so a line has the texts of every service. Names and texts are words of a
//! POSIX shell, which reads exactly these words back and expands none of them.
#![tactic(auto)]

mod laws;
mod line;
mod words;

pub use laws::words_are_read_back;
pub use line::{Verb, push_line};
pub use words::push_shell_word;
