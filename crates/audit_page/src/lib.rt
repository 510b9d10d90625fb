//! What the entities of a cluster reach, as a page: one HTML document that needs no other file, no network and no script.
//!
//! # What contracts see
//!
//! The bytes of a text inside the page (`escaped_text`): no name ends a tag or an attribute. The rest of the page is tested.
//!
//! # Costs
//!
//! The matrix has a cell for each row and pool, of 5 to 20 bytes. Each two entities are compared, and each grant with each pool.
//!
//! # Design
//!
//! The document is complete without its script. The script filters, sorts and explains a cell, and it reads all that it shows
//! from the document: it decides nothing about grants.
#![tactic(auto)]

mod escaping;
mod example;
mod grants;
mod lists;
mod matrix;
mod page;
mod rows;
mod script;
mod style;

pub use escaping::{escaped_text_is_inert, push_escaped};
pub use page::{NoteList, audit_page};
