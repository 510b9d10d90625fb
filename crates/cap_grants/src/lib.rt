//! Grants of capability texts as values, and which of them the grammar can spell.
#![tactic(auto)]

mod fault_kind;
mod grant;
mod grants;
mod spelling;

pub use fault_kind::FaultKind;
pub use grant::{Access, AllowGrant, Flags, Grant, NsMatch, Part, ProfileUse, Tag, copy_namespace};
pub use grants::Grants;
pub use spelling::{are_spellable, is_quotable, is_spellable};
