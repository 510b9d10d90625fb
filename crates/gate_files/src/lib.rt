//! Files of entities, pools and requests, and the entities that a command is about.
//!
//! Each file is read once, into values: texts, entities with their rights (`ReadEntity`), and pools with their tags. One
//! [`verdict_text::Reader`] reads the capability texts of a run. Nothing here knows of options or commands.
//!
//! # Costs
//!
//! Reading is linear in a file's bytes. A file has at most 64 MiB.
#![tactic(auto)]

mod auth_file;
mod auth_json;
mod build_note;
mod chosen;
mod doubled_keys;
mod entity_list;
mod excerpt;
mod file_fault;
mod input_files;
mod json_text;
mod keyring;
mod listing;
mod pools;
mod pools_json;
mod raising;
mod read_words;
mod screen;
mod services;
mod shell_words;
mod unchecked;

pub use auth_file::{AuthFile, auth_of};
pub use chosen::{Choice, Chosen, keep_chosen, read_all, unmatched_line};
pub use excerpt::{fault_lines, pointed_line};
pub use file_fault::{DoubledKey, FileFault, Form, Likeness, Place, Purpose};
pub use input_files::{InputFiles, read_text, without_mark};
pub use name_patterns::matches_any;
pub use pools::{no_pool_line, pool_of, taken_line};
pub use pools_json::pools_of;
pub use raising::can_raise;
pub use read_words::{WordsFault, words};
pub use screen::Screen;
pub use services::{Service, ServiceChange, ServiceText, keep_chosen_services, service_changes};
pub use shell_words::split_words;
pub use unchecked::Unchecked;
