//! The small types that the crates above share: names, lists, a pool's tags, bytes shown by their numbers, and the
//! error of a failed allocation.
//!
//! # What contracts see
//!
//! A `Name` is its bytes. An `Items<T>` is a plain list: `Pairs` and a pool's `Tags` here, `Calls`, `Outputs` and `Ops` in crates
//! above, are names for it.
//!
//! # Design
//!
//! Texts, the map, verdicts and requests all speak of names and tags, so these stand below all of them. Faults, scripts and
//! pictures show a byte by its number, as `\x` and two digits: `push_escape` writes it for all three.
#![tactic(auto)]

mod escapes;
mod items;
mod memory;
mod name;
mod tags;
mod word_bytes;

pub use escapes::push_escape;
pub use items::{Items, TryClone};
pub use memory::OutOfMemory;
pub use name::{Name, copy_name};
pub use tags::{AppTags, Pairs, Tags};
pub use word_bytes::{are_word_bytes, is_word_byte};
