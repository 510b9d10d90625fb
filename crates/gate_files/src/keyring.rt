//! Entities as keyrings have them, and as `ceph auth export` and `ceph auth get` print them.

use crate::auth_file::{AuthFile, is_nothing};
use crate::entity_list::EntityList;
use crate::file_fault::{FileFault, Form, Place};
use crate::services::Service;
use common_types::OutOfMemory;
use std::alloc::Global;

/// What a line of a keyring says.
#[derive(Clone, Copy)]
enum Line<'a> {
    /// An entity begins.
    Entity(&'a str),
    /// The entity's text for object stores, as it stands behind the `=`.
    Osd(&'a str),
    /// The entity's text for another service, as it stands behind the `=`.
    Service(Service, &'a str),
    /// Something that is not kept, as a key.
    Other,
}

/// The service of a line `caps SERVICE = ..`, or nothing.
fn service_of(name: &str) -> Option<&str> {
    let service = name.strip_prefix("caps")?;
    let service = service.strip_prefix('_').or(service.strip_prefix(' '))?;
    Some(service.trim())
}

/// A line `NAME = VALUE` of an entity, or nothing.
fn value_line(words: &str) -> Option<Line<'_>> {
    let (name, value) = words.split_once('=')?;
    let name = name.trim();
    if name == "key" || name == "auid" {
        return Some(Line::Other);
    }
    match service_of(name)? {
        "" => None,
        "osd" => Some(Line::Osd(value.trim())),
        name => match Service::of(name) {
            Some(service) => Some(Line::Service(service, value.trim())),
            None => Some(Line::Other),
        },
    }
}

/// What a line says that says something, or nothing where it is no line of a keyring.
fn line_of(words: &str) -> Option<Line<'_>> {
    let Some(behind) = words.strip_prefix('[') else {
        return value_line(words);
    };
    let (name, rest) = behind.split_once(']')?;
    let name = name.trim();
    if name.is_empty() || !is_nothing(rest) {
        return None;
    }
    Some(Line::Entity(name))
}

/// Adds what stands between quotes up to the closing one, where `\"` is a quote and `\\` a backslash; what is behind it, or
/// nothing where it is not closed or a backslash stands before something else.
fn push_quoted<'a>(text: &mut String, quoted: &'a str) -> Result<Option<&'a str>, OutOfMemory> {
    let mut escaped = false;
    for (at, letter) in quoted.char_indices() {
        match letter {
            '"' | '\\' if escaped => {
                text.push(letter)?;
                escaped = false;
            }
            _ if escaped => return Ok(None),
            '\\' => escaped = true,
            '"' => return Ok(quoted.get(at.saturating_add(1)..)),
            _ => text.push(letter)?,
        }
    }
    Ok(None)
}

/// Whether a bare value may not have this: it quotes, escapes or begins a comment.
fn is_special(letter: char) -> bool {
    matches!(letter, '"' | '\\' | '#' | ';')
}

/// The text that a value is: between quotes, or bare where it has none of `"`, `\`, `#` and `;`; or nothing.
fn text_of(alloc: Global, value: &str) -> Result<Option<String>, OutOfMemory> {
    let mut text = String::new(alloc);
    let Some(quoted) = value.strip_prefix('"') else {
        if value.contains(is_special) {
            return Ok(None);
        }
        text.push_str(value)?;
        return Ok(Some(text));
    };
    match push_quoted(&mut text, quoted)? {
        Some(rest) if is_nothing(rest) => Ok(Some(text)),
        _ => Ok(None),
    }
}

/// Takes a line that says something; whether it is a line of a keyring there.
fn take_line(alloc: Global, entities: &mut EntityList, words: &str) -> Result<bool, FileFault> {
    match line_of(words) {
        None => Ok(false),
        Some(Line::Entity(name)) => {
            entities.push(name, "")?;
            Ok(true)
        }
        Some(Line::Osd(value)) => match text_of(alloc, value)? {
            Some(text) => Ok(entities.give_text(text)),
            None => Ok(false),
        },
        Some(Line::Service(service, value)) => match text_of(alloc, value)? {
            Some(text) => Ok(entities.give_service(service, text.as_str())?),
            None => Ok(false),
        },
        Some(Line::Other) => Ok(!entities.is_empty()),
    }
}

/// The entities of a keyring, in its order.
pub(crate) fn keyring_entities(alloc: Global, text: &str) -> Result<AuthFile, FileFault> {
    let mut entities = EntityList::new(alloc);
    for (index, line) in text.lines().enumerate() {
        if !is_nothing(line) && !take_line(alloc, &mut entities, line.trim())? {
            return Err(FileFault::BadLine {
                form: Form::Keyring,
                at: Place::of_line(index, line),
            });
        }
    }
    Ok(entities.into_file()?)
}
