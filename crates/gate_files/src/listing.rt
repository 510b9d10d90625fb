//! Entities as plain `ceph auth ls` prints them.

use crate::auth_file::AuthFile;
use crate::entity_list::EntityList;
use crate::file_fault::{FileFault, Form, Place};
use crate::services::Service;
use std::alloc::Global;

/// The line that stands in front of the entities, where standard error went along.
pub(crate) const HEAD: &str = "installed auth entries:";

/// Whether this is an entity's name: a type, a full stop and an ID, without blanks.
pub(crate) fn is_entity_name(words: &str) -> bool {
    match words.split_once('.') {
        Some((kind, _)) => {
            !kind.is_empty()
                && kind.chars().all(|letter| letter.is_ascii_lowercase())
                && !words.contains(char::is_whitespace)
        }
        None => false,
    }
}

/// Takes an indented line below an entity's name; whether it is one of a listing. A text goes to the last entity; a key is not
/// kept.
fn take_indented(alloc: Global, entities: &mut EntityList, words: &str) -> Result<bool, FileFault> {
    if words.starts_with("key:") || words.starts_with("auid:") {
        return Ok(!entities.is_empty());
    }
    let Some(behind) = words.strip_prefix("caps: [") else {
        return Ok(false);
    };
    match behind.split_once("] ") {
        Some(("osd", text)) => Ok(entities.give_text(String::from_str(alloc, text)?)),
        Some((name, text)) => match Service::of(name) {
            Some(service) => Ok(entities.give_service(service, text)?),
            None => Ok(!entities.is_empty()),
        },
        None => Ok(false),
    }
}

/// Takes a line that is not blank; whether it is one of a listing.
fn take_line(alloc: Global, entities: &mut EntityList, line: &str) -> Result<bool, FileFault> {
    if line.starts_with(' ') || line.starts_with('\t') {
        return take_indented(alloc, entities, line.trim());
    }
    let name = line.trim();
    if name == HEAD {
        return Ok(entities.is_empty());
    }
    if !is_entity_name(name) {
        return Ok(false);
    }
    entities.push(name, "")?;
    Ok(true)
}

/// The entities of a listing, in its order.
pub(crate) fn listed_entities(alloc: Global, text: &str) -> Result<AuthFile, FileFault> {
    let mut entities = EntityList::new(alloc);
    for (index, line) in text.lines().enumerate() {
        if !line.trim().is_empty() && !take_line(alloc, &mut entities, line)? {
            return Err(FileFault::BadLine {
                form: Form::Listing,
                at: Place::of_line(index, line),
            });
        }
    }
    Ok(entities.into_file()?)
}
