//! What is printed of the texts of services other than object stores. They are compared as texts: what they allow is not decided.

use common_types::OutOfMemory;
use gate_files::{Service, ServiceChange, ServiceText, can_raise};
use serde_json::{Value, json};
use std::alloc::Global;
use verdict_text::{Format, push_name, push_shown_text};

/// Adds a line of a text that a file has, behind a sign.
fn push_side(text: &mut String, sign: &str, side: Option<&str>) -> Result<(), OutOfMemory> {
    if let Some(side) = side {
        text.push_str(sign)?;
        push_shown_text(text, side)?;
        text.push_str("\n")?;
    }
    Ok(())
}

/// Adds the lines of a change: the entity, the service and what became of its text, and then the texts.
fn push_change(text: &mut String, change: &ServiceChange<'_>) -> Result<(), OutOfMemory> {
    push_name(text, change.entity)?;
    text.push_str(" ")?;
    text.push_str(change.service.name())?;
    text.push_str(" ")?;
    text.push_str(change.word())?;
    text.push_str("\n")?;
    push_side(text, "  - ", change.old)?;
    push_side(text, "  + ", change.new)
}

/// The document of a change.
fn change_value(alloc: Global, change: &ServiceChange<'_>) -> Result<Value, OutOfMemory> {
    let entity = change.entity;
    let service = change.service.name();
    let word = change.word();
    match (change.old, change.new) {
        (Some(old), Some(new)) => {
            json!(in alloc; {"change": word, "entity": entity, "new": new, "old": old, "service": service})
        }
        (Some(old), None) => {
            json!(in alloc; {"change": word, "entity": entity, "old": old, "service": service})
        }
        (None, Some(new)) => {
            json!(in alloc; {"change": word, "entity": entity, "new": new, "service": service})
        }
        (None, None) => json!(in alloc; {"change": word, "entity": entity, "service": service}),
    }
}

/// The documents of changes, with commas between them.
fn change_documents(alloc: Global, changes: &[ServiceChange<'_>]) -> Result<String, OutOfMemory> {
    let mut documents = String::new(alloc);
    for change in changes {
        if !documents.is_empty() {
            documents.push_str(",")?;
        }
        let document = change_value(alloc, change)?.to_string(alloc)?;
        documents.push_str(document.as_str())?;
    }
    Ok(documents)
}

/// Adds the lines of changes.
fn push_changes(text: &mut String, changes: &[ServiceChange<'_>]) -> Result<(), OutOfMemory> {
    for change in changes {
        push_change(text, change)?;
    }
    Ok(())
}

/// A document on a line with a list as its first member.
fn document_with(
    alloc: Global,
    document: &str,
    member: &str,
    list: &str,
) -> Result<String, OutOfMemory> {
    let mut text = format!(in alloc; "{{\"{member}\":[{list}],")?;
    text.push_str(document.strip_prefix('{').unwrap_or(document))?;
    Ok(text)
}

/// Adds changes to what is printed of a comparison: as lines, or as a member of its document.
pub(crate) fn add_changes(
    alloc: Global,
    printed: &mut String,
    changes: &[ServiceChange<'_>],
    format: Format,
) -> Result<(), OutOfMemory> {
    match format {
        Format::Text => push_changes(printed, changes),
        Format::Json => {
            let list = change_documents(alloc, changes)?;
            *printed = document_with(alloc, printed.as_str(), "services", list.as_str())?;
            Ok(())
        }
    }
}

/// The documents of lines, with commas between them.
fn line_documents(alloc: Global, lines: &str) -> Result<String, OutOfMemory> {
    let mut documents = String::new(alloc);
    for line in lines.lines() {
        if !documents.is_empty() {
            documents.push_str(",")?;
        }
        documents.push_str(json!(in alloc; line)?.to_string(alloc)?.as_str())?;
    }
    Ok(documents)
}

/// Adds lines of commands to what is printed of a comparison: as they are, or as a member of its document.
pub(crate) fn add_commands(
    alloc: Global,
    printed: &mut String,
    lines: &str,
    format: Format,
) -> Result<(), OutOfMemory> {
    match format {
        Format::Text => printed.push_str(lines),
        Format::Json => {
            let list = line_documents(alloc, lines)?;
            *printed = document_with(alloc, printed.as_str(), "commands", list.as_str())?;
            Ok(())
        }
    }
}

/// Adds a line for each entity whose monitor text lets it change the capabilities of others or its own.
pub(crate) fn push_raising(text: &mut String, services: &[ServiceText]) -> Result<(), OutOfMemory> {
    for service in services {
        if service.service == Service::Mon && can_raise(service.text.as_str()) {
            push_name(text, service.entity.as_str())?;
            text.push_str(" mon lets it give any capabilities\n")?;
        }
    }
    Ok(())
}
