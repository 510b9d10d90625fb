//! Capability texts of object storage daemons, and the grants that they spell.
//!
//! The lexer (`lexer`) reads tokens, a state machine (`machine`) driven one token at a time builds grants, and `parser` runs both.
//!
//! # What contracts see
//!
//! A text is the list of its bytes. `Reads` and `IsText` say how tokens are written, `GrantPhrase` and `Grants` are the grammar
//! on tokens. Together they make `Spells text grants`, a relation between whole texts and lists of grants, with no cursor and no
//! state of a tokenizer. `IsFirstFault` says where a fault stands by what may follow. A `CapList` is its list of grants, each of
//! which meets `is_spellable`.
//!
//! # Costs
//!
//! A parse takes time linear in the text, and copies only the names that it keeps. `print` writes each byte once. Counted by
//! callgrind on the built program, a verdict by 1, 32 and 64 grants of 55 bytes takes 0.22, 0.54 and 0.87 million instructions
//! from its first to its last: about 10,000 for each grant.
//!
//! # Design
//!
//! The parser is a push machine (`machine.rt`): what may come next and a token give what may come then. It writes what it reads
//! of a grant into one sheet (`draft.rt`), which the end of the grant empties into the list. Contracts see both together as the
//! stage in the grammar (`specs/GrantBuilder.antt`). A loop (`parser.rt`) takes one token after another from the front of the rest.
//! Keywords are found by their first byte (`keyword.rt`), bytes of words by a table (`bytes.rt`).
#![tactic(auto)]

mod bytes;
mod caps;
mod draft;
mod fault;
mod fault_text;
mod keyword;
mod lexer;
mod machine;
mod parser;
mod printing;
mod spellable;
mod stage;
mod state;
mod token;

pub use cap_grants::{
    Access, AllowGrant, FaultKind, Flags, Grant, NsMatch, Part, ProfileUse, Tag, copy_namespace,
    is_spellable,
};
pub use caps::CapList;
pub use fault::CapFault;
pub use parser::{
    parse, reads_nothing_else, reads_the_grammar, spells_at_most_one, tells_the_first_fault,
};
pub use printing::{print, push_allow};
pub use spellable::{spellable_is_spelled, spelled_is_spellable};
