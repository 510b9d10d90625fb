//! What is printed of two capability texts or of two lists of entities: what one allows and the other denies, with examples.
//!
//! Each text is a value, made of capability texts and entities. Each call borrows what it is given, and its only error is out of
//! memory: what is wrong with a capability text is part of what is printed. The forms of the lines are this project's profile.
#![tactic(auto)]

mod call_words;
mod compare;
mod compare_auth;
mod compare_json;
mod comparison;
mod pairs;
mod relation;
mod request;
mod request_json;
mod widening;

pub use compare::{Change, compare_read, compare_text, print_change};
pub use compare_auth::{compare_entities, compare_pair, compare_pairs, print_pair};
pub use comparison::Comparison;
pub use pairs::{ReadPair, read_pairs};
pub use relation::{Presence, Relation};
pub use request::{push_request, push_target};
pub use request_json::{addressed_value, target_example};
pub use widening::{AddressedExample, widening_from};
