//! The words of a line of a file of rules, and whom they name.
//!
//! # What contracts see
//!
//! `specs/Words.antt` relates the bytes of a line to its words, or to its first fault. A line has one such result
//! (`lines_are_cut_once`). `specs/Naming.antt` defines the names that words stand for and the first fault of words, as
//! functions of the words and of the groups above them.
//!
//! # Costs
//!
//! Reading a line takes time linear in its length, and memory for its words. A name is compared with each group.
#![tactic(auto)]

mod laws;
mod naming;
mod words;

pub use laws::lines_are_cut_once;
pub use naming::{Group, NameFault, NamesFault, WhoNames, group_from, quoted_from, who_from};
pub use words::{BadWord, CutLine, Word, blanks_len, words_of};
