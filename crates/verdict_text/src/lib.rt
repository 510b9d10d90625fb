//! What is printed of one capability text: verdicts, explanations, and where a fault is; and its ticket, or why it has none.
//!
//! Each text is a value, made of a capability text, entities and a request. Each call borrows what it is given, and what is
//! wrong with a capability text or with calls is part of what is printed. The forms of the lines are this project's
//! profile.
//!
//! # What contracts see
//!
//! An `Answer` is a `Verdict` or a `VerdictFault`, and stays a value until it is written: `answer` makes it, `verdict_by` gives
//! its bytes, with the grants of the rights. What any other command prints is a `Printed`: a text, and whether the command fails.
//!
//! # Costs
//!
//! The cost of what is printed of entities is linear in their number. Names are found by their hash (`NamedEntities`),
//! and the built-in profiles are made once for all texts. Each text is read once by each set of rules.
//!
//! # Documents
//!
//! A document is a `Value` of `serde_json`, made by `json!`, and its bytes are those of `Value::to_string`; both have contracts
//! there, so that a definition of the value's members says every byte. A list of entities is printed entity by entity, as the
//! text is: each adds a piece with a comma in front, and the first comma is left out at the end.
//!
//! # Design
//!
//! Its contracts need no command line and no world. So it is proved, and its mutants are tested, in parallel with the
//! crates of the world and not after them.
#![tactic(auto)]

mod asked;
mod caret;
mod ceph_lines;
mod document;
mod document_ceph;
mod entity;
mod expanded;
mod explain;
mod format;
mod named;
mod printed;
mod reading;
mod reasons;
mod reasons_json;
mod rules_member;
mod shown_name;
mod verdict;

pub use asked::{Asked, needs_asked};
pub use caret::{point_at_fault, push_shown_text};
pub use document::{
    calls_json, entities_by, entity_piece, fault_value, json_line, list_by, piece_of, row_piece,
};
pub use entity::{Entity, ReadEntity};
pub use explain::{Explained, explain_ceph, explain_text, read_explained};
pub use format::Format;
pub use named::NamedEntities;
pub use printed::Printed;
pub use reading::{
    CephRights, ReadText, Reader, Reading, Rules, Spelled, TextFault, first_word,
    push_fault_number, read_ceph_rights,
};
pub use reasons::{Printing, verdict_by};
pub use rules_member::{rules_word, with_rules};
pub use shown_name::push_name;
pub use verdict::{Answer, Verdict, VerdictFault, answer, answer_of, text_of, verdict_text};
