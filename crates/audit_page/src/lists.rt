//! The lists of a page: what could not be checked, and what to look at.

use crate::escaping::push_escaped;
use crate::page::NoteList;
use crate::rows::{Row, push_row_name};
use audit_text::{Reached, is_everywhere, is_unwritten};
use common_types::OutOfMemory;
use share_core::Pool;
use std::alloc::Global;
use std::fmt::Write;
use verdict_text::ReadEntity;

/// Adds a title, and below it the items, or `None.` if there are no items.
fn push_list(text: &mut String, title: &str, items: &str) -> Result<(), OutOfMemory> {
    write!(text, "<section><h2>{title}</h2>\n")?;
    if items.is_empty() {
        return text.push_str("<p>None.</p></section>\n");
    }
    text.push_str("<ul>\n")?;
    text.push_str(items)?;
    text.push_str("</ul></section>\n")
}

/// Adds an item.
fn push_item(items: &mut String, item: &str) -> Result<(), OutOfMemory> {
    items.push_str("<li>")?;
    push_escaped(items, item)?;
    items.push_str("</li>\n")
}

/// Adds the entities whose texts are refused, each with its fault.
fn push_not_checked(
    text: &mut String,
    alloc: Global,
    entities: &[ReadEntity],
) -> Result<(), OutOfMemory> {
    let mut items = String::new(alloc);
    for entity in entities {
        if let Err(fault) = entity.osd.read() {
            items.push_str("<li><b>")?;
            push_escaped(&mut items, entity.name.as_str())?;
            items.push_str("</b> ")?;
            let fault = format!(in alloc; "{fault}")?;
            push_escaped(&mut items, fault.as_str())?;
            items.push_str(" <code>")?;
            push_escaped(&mut items, entity.osd.text())?;
            items.push_str("</code></li>\n")?;
        }
    }
    push_list(
        text,
        "Not checked, so that they may reach more",
        items.as_str(),
    )
}

/// Adds the rows that reach every pool.
fn push_everywhere(
    text: &mut String,
    alloc: Global,
    rows: &[Row<'_, '_>],
) -> Result<(), OutOfMemory> {
    let mut items = String::new(alloc);
    for row in rows {
        if is_everywhere(row.first.cells.as_slice()) {
            items.push_str("<li>")?;
            push_row_name(&mut items, row)?;
            items.push_str("</li>\n")?;
        }
    }
    push_list(text, "Entities that reach every pool", items.as_str())
}

/// Adds the pools in which nobody may write.
fn push_unwritten(
    text: &mut String,
    alloc: Global,
    all: &[Reached<'_>],
    pools: &[Pool],
) -> Result<(), OutOfMemory> {
    let mut items = String::new(alloc);
    for (number, pool) in pools.iter().enumerate() {
        if is_unwritten(all, number) {
            push_item(&mut items, pool.name.as_str())?;
        }
    }
    let title = "Pools where no checked entity may write or call";
    push_list(text, title, items.as_str())
}

/// Adds a list of what was found of grants.
fn push_notes(text: &mut String, alloc: Global, list: &NoteList) -> Result<(), OutOfMemory> {
    let mut items = String::new(alloc);
    for line in list.lines.as_slice() {
        push_item(&mut items, line.as_str())?;
    }
    push_list(text, list.title, items.as_str())
}

/// Adds the lists.
pub(crate) fn push_lists(
    text: &mut String,
    alloc: Global,
    entities: &[ReadEntity],
    pools: &[Pool],
    all: &[Reached<'_>],
    rows: &[Row<'_, '_>],
    notes: &[NoteList],
) -> Result<(), OutOfMemory> {
    push_not_checked(text, alloc, entities)?;
    push_everywhere(text, alloc, rows)?;
    push_unwritten(text, alloc, all, pools)?;
    for list in notes {
        push_notes(text, alloc, list)?;
    }
    Ok(())
}
