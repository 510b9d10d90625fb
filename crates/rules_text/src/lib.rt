//! Files of rules that the entities of a cluster must keep, and what is printed where these are checked.
//!
//! # What contracts see
//!
//! A file of rules is bytes, and what it says is a relation between these, the entities and a list of rules (`specs/Grammar.antt`,
//! `specs/File.antt`, above those of `rules_words`). Where it has a fault the first one is returned, with its line and
//! its byte. What is printed of checked rules is a function of these, byte by byte (`specs/Report.antt`, `specs/Json.antt`,
//! `specs/Junit.antt`).
//!
//! # Costs
//!
//! A file is read line by line; a name is looked up among the groups. Each entity's capability text is read once, before.
#![tactic(auto)]

mod checked;
mod content;
mod fault;
mod file;
mod json;
mod junit;
mod report;

pub use checked::{CheckedRule, Watch, check_rules, some_fail};
pub use fault::{BadRule, RuleFault};
pub use file::{RuleLine, read_rules};
pub use json::check_json;
pub use junit::check_junit;
pub use report::check_report;
