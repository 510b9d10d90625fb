//! Scripts over a world, from a reader to a writer: one command on each line.
//!
//! The definitions are in `specs/`. `reading` reads a line as a `Command`, `line` carries it out, and what is printed is
//! `script_printing`'s. The commands are this project's profile, after Ceph's command line.
//!
//! # What contracts see
//!
//! A script is the list of its bytes. `Lines` is the lines that are left and how many were taken, `Words` the words that are
//! left; both borrow the script. `words_of` is a function by where a line is being read: between words, in a bare word, behind a
//! quote, or behind a closed one. A `Count` is its number. In `world_script` a line is a `Command` (`read_line`), a function of
//! its words that takes them from the front, one part of a command after another. In `script_printing` each call adds the text
//! that `Text` says to a `String`. What a script writes over a world is `script_output`, in `world_script`, and what a plain
//! script writes over one store is `plain_output`, in `script_laws`.
//!
//! # Costs
//!
//! `Words::of` reads a line once to see that it is no bad line, and each `next_word` cuts one word off its front. So words take
//! time linear in the line and no memory. A script is read by chunks of 4,096 bytes.
//!
//! # Design
//!
//! A script is read whole and then carried out line by line; each line's text is written before the next line. A `Count` is kept
//! as decimal digits, the lowest first: adding one looks at the nines in front, and takes memory only where all digits are nines.
#![tactic(auto)]

mod command;
mod groups;
mod line;
mod machine;
mod operations;
mod osd_commands;
mod questions;
mod reading;
mod script;
mod session_commands;
mod taking;
mod texts;
mod user_commands;

pub use command::Command;
pub use reading::read_line;
pub use script::run_script;
pub use script_text::ScriptFault;
