//! `osdgate who --any`: who is allowed a request at something in a pool.

use crate::any_request::AnyRequest;
use crate::notes::{TagNames, tags_line, with_tag_names};
use crate::who::WhoArguments;
use command_steps::{Answered, RequestWords};
use common_types::OutOfMemory;
use gate_files::{Choice, Chosen};
use serde_json::{Value, json};
use std::alloc::Global;
use verdict_text::{Format, Printed, ReadEntity, entities_by, push_name};

/// Adds the line of an entity and its example.
fn push_line(text: &mut String, name: &str, example: &str) -> Result<(), OutOfMemory> {
    push_name(text, name)?;
    text.push_str(" ")?;
    text.push_str(example)?;
    text.push_str("\n")
}

/// Adds the piece of an entity and its example.
fn push_piece(
    text: &mut String,
    alloc: Global,
    name: &str,
    example: Value,
) -> Result<(), OutOfMemory> {
    let document: Value = json!(in alloc; {"entity": name, "example": example})?;
    text.push_str(",")?;
    text.push_str(document.to_string(alloc)?.as_str())
}

/// Adds an entity that is allowed the request at something.
fn push_allowed(
    text: &mut String,
    alloc: Global,
    asked: &AnyRequest,
    entity: &ReadEntity,
    format: Format,
) -> Result<(), OutOfMemory> {
    let Ok(rights) = entity.osd.read() else {
        return Ok(());
    };
    let Some(allowed) = asked.allowed_by(alloc, rights)? else {
        return Ok(());
    };
    let name = entity.name.as_str();
    match format {
        Format::Text => push_line(text, name, asked.words(alloc, &allowed)?.as_str()),
        Format::Json => push_piece(text, alloc, name, asked.value(alloc, &allowed)?),
    }
}

/// What is printed of the entities that are allowed the request at something.
fn printed(
    alloc: Global,
    asked: &AnyRequest,
    chosen: &Chosen,
    format: Format,
) -> Result<Printed, OutOfMemory> {
    let mut text = String::new(alloc);
    for entity in chosen.entities() {
        push_allowed(&mut text, alloc, asked, entity, format)?;
    }
    Ok(Printed {
        text: entities_by(alloc, text, format)?,
        fails: false,
    })
}

/// Whether an entity is allowed the request only in a pool with other tags. A text without the word has no such grant.
fn depends_on_tags(
    alloc: Global,
    asked: &AnyRequest,
    entity: &ReadEntity,
) -> Result<bool, OutOfMemory> {
    match entity.osd.read() {
        Ok(rights) if entity.osd.text().contains("tag") => {
            Ok(asked.allowed_by(alloc, rights)?.is_none() && asked.depends_on_tags(alloc, rights)?)
        }
        _ => Ok(false),
    }
}

/// The names of the entities whose access depends on the pool's tags.
fn tag_names(
    alloc: Global,
    asked: &AnyRequest,
    chosen: &Chosen,
    choice: Choice<'_>,
) -> Result<TagNames, OutOfMemory> {
    let mut names = String::new(alloc);
    let mut fails = false;
    for entity in chosen.entities() {
        if depends_on_tags(alloc, asked, entity)? {
            names.push_str(if names.is_empty() { "" } else { ", " })?;
            push_name(&mut names, entity.name.as_str())?;
            fails = fails || !choice.accepts(entity.name.as_str());
        }
    }
    Ok(TagNames { names, fails })
}

/// Who is allowed the request at something, with one example each.
pub(crate) fn answer_any(
    alloc: Global,
    arguments: &WhoArguments<'_>,
    request: &RequestWords<'_, '_>,
    asked: &AnyRequest,
    chosen: &Chosen,
) -> Result<Answered, OutOfMemory> {
    let printed = printed(alloc, asked, chosen, arguments.format)?;
    let note = tags_line(alloc, request)?;
    let answered = Answered::noted(alloc, printed, note).about(alloc, chosen)?;
    if request.knows_tags() {
        return Ok(answered);
    }
    let found = tag_names(alloc, asked, chosen, arguments.choice)?;
    with_tag_names(alloc, answered, found, "")
}
