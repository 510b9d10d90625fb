//! Files of entities, in the forms in which Ceph prints them. No key is kept.

use crate::auth_json::json_entities;
use crate::file_fault::{FileFault, Form, Likeness, Place};
use crate::input_files::without_mark;
use crate::keyring::keyring_entities;
use crate::listing::{HEAD, is_entity_name, listed_entities};
use crate::services::ServiceText;
use std::alloc::Global;
use verdict_text::Entity;

/// Whether a line says nothing: it is blank, or a comment as keyrings have them.
pub(crate) fn is_nothing(line: &str) -> bool {
    let words = line.trim();
    words.is_empty() || words.starts_with('#') || words.starts_with(';')
}

/// The form of a text behind a `[`: a keyring's where a name follows.
fn bracket_form(behind: &str) -> Form {
    match behind.trim_start().chars().next() {
        Some('a'..='z' | 'A'..='Z') => Form::Keyring,
        _ => Form::Json,
    }
}

/// What a line looks like that begins none of the forms.
fn likeness_of(words: &str) -> Likeness {
    if words.starts_with('<') {
        Likeness::Xml
    } else if words.starts_with("---") || words.ends_with(':') {
        Likeness::Yaml
    } else if words.starts_with("allow ") || words.starts_with("profile ") {
        Likeness::CapabilityText
    } else if words.starts_with("Error ") {
        Likeness::CephError
    } else {
        Likeness::Nothing
    }
}

/// The form of a text that begins with these words, or nothing where it is in none.
fn form_of_words(words: &str) -> Option<Form> {
    if let Some(behind) = words.strip_prefix('[') {
        return Some(bracket_form(behind));
    }
    if words == HEAD || is_entity_name(words) {
        return Some(Form::Listing);
    }
    match words.chars().next() {
        Some('{' | '"' | '0'..='9') => Some(Form::Json),
        _ => None,
    }
}

/// The form of a text, by its first line that says something.
fn form_of(text: &str) -> Result<Form, FileFault> {
    for (index, line) in text.lines().enumerate() {
        if is_nothing(line) {
            continue;
        }
        let words = line.trim();
        return form_of_words(words).ok_or(FileFault::Looks {
            like: likeness_of(words),
            at: Place::of_line(index, line),
        });
    }
    Err(FileFault::Empty)
}

/// What a file of entities has.
pub struct AuthFile {
    /// The entities, in the file's order.
    pub entities: Vec<Entity>,
    /// Their texts for other services, in the file's order.
    pub services: Vec<ServiceText>,
}

impl Drop for AuthFile {
    fn drop(self) {
        let AuthFile {
            entities: _,
            services: _,
        } = self;
    }
}

impl AuthFile {
    /// The entities, and their texts for other services.
    pub fn into_parts(self) -> (Vec<Entity>, Vec<ServiceText>) {
        let AuthFile { entities, services } = self;
        (entities, services)
    }
}

/// The entities of a text and their texts for other services, in its order and by its form.
pub fn auth_of(alloc: Global, text: &str) -> Result<AuthFile, FileFault> {
    let text = without_mark(text);
    match form_of(text)? {
        Form::Json => json_entities(alloc, text),
        Form::Keyring => keyring_entities(alloc, text),
        Form::Listing => listed_entities(alloc, text),
    }
}
