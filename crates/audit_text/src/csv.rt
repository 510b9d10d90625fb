//! What entities reach, as comma-separated values.

ghost use Rattle.std.specs.Prelude.{◌≡◌, ◌++◌, IfOk, OnOk, flat_map, string_bytes};
ghost use Rattle.std.specs.List.{list_any};
ghost use Rattle.audit_text.specs.Csv as spec;
ghost use Rattle.audit_text.specs.Csv.{IsTable};

use crate::reached::{Reached, reached_by};
use crate::words::push_cell_word;
use audit_core::Cell;
use common_types::OutOfMemory;
use share_core::Pool;
use std::alloc::Global;
use verdict_text::ReadEntity;

/// Whether a field with this byte stands in quotes.
fn is_special(byte: u8) -> bool
    ensures { result ≡ spec.is_special byte }
{
    byte == b',' || byte == b'"' || byte == b'\n' || byte == b'\r'
}

fn needs_quotes(field: &[u8]) -> bool
    ensures { result ≡ list_any spec.is_special field.now }
{
    field.iter().any(|byte| is_special(*byte))
}

/// Adds a field as it stands in quotes: each quote doubled.
fn push_doubled(text: &mut String, field: &str) -> Result<(), OutOfMemory>
    ensures { OnOk result (string_bytes text.new ≡ string_bytes text.old ++ flat_map spec.doubled field.now) }
{
    let mut rest = field;
    while let Some((front, behind)) = rest.split_once('"') {
        text.push_str(front)?;
        text.push_str("\"\"")?;
        rest = behind;
    }
    text.push_str(rest)
}

/// Adds a field between quotes.
fn push_quoted(text: &mut String, field: &str) -> Result<(), OutOfMemory>
    ensures { OnOk result (string_bytes text.new ≡ string_bytes text.old ++ spec.quoted field.now) }
{
    text.push_str("\"")?;
    push_doubled(text, field)?;
    text.push_str("\"")
}

fn push_field(text: &mut String, field: &str) -> Result<(), OutOfMemory>
    ensures { OnOk result (string_bytes text.new ≡ string_bytes text.old ++ spec.field field.now) }
{
    if needs_quotes(field.as_bytes()) {
        push_quoted(text, field)
    } else {
        text.push_str(field)
    }
}

fn push_pool_fields(text: &mut String, pools: &[Pool]) -> Result<(), OutOfMemory>
    ensures { OnOk result (string_bytes text.new ≡ string_bytes text.old ++ spec.pool_fields pools.now) }
{
    for pool in pools {
        text.push_str(",")?;
        push_field(text, pool.name.as_str())?;
    }
    Ok(())
}

fn push_cell_fields(text: &mut String, alloc: Global, cells: &[Cell]) -> Result<(), OutOfMemory>
    ensures { OnOk result (string_bytes text.new ≡ string_bytes text.old ++ spec.cell_fields cells.now) }
{
    for cell in cells {
        text.push_str(",")?;
        push_cell_word(text, alloc, cell)?;
    }
    Ok(())
}

fn push_unread_fields(text: &mut String, pools: &[Pool]) -> Result<(), OutOfMemory>
    ensures { OnOk result (string_bytes text.new ≡ string_bytes text.old ++ spec.unread_fields pools.now) }
{
    for _pool in pools {
        text.push_str(",?")?;
    }
    Ok(())
}

fn push_head(text: &mut String, pools: &[Pool]) -> Result<(), OutOfMemory>
    ensures { OnOk result (string_bytes text.new ≡ string_bytes text.old ++ spec.head_line pools.now) }
{
    text.push_str("entity")?;
    push_pool_fields(text, pools)?;
    text.push_str("\n")
}

/// Adds the line of an entity whose text has rights.
fn push_reached(text: &mut String, alloc: Global, reached: &Reached<'_>) -> Result<(), OutOfMemory>
    ensures { OnOk result (string_bytes text.new ≡ string_bytes text.old ++ spec.reached_line reached.now) }
{
    push_field(text, reached.entity.name.as_str())?;
    push_cell_fields(text, alloc, reached.cells.as_slice())?;
    text.push_str("\n")
}

fn push_all_reached(
    text: &mut String,
    alloc: Global,
    all: &[Reached<'_>],
) -> Result<(), OutOfMemory>
    ensures { OnOk result (string_bytes text.new ≡ string_bytes text.old ++ flat_map spec.reached_line all.now) }
{
    for reached in all {
        push_reached(text, alloc, reached)?;
    }
    Ok(())
}

/// Adds the line of an entity, if its text is refused.
fn push_unread(text: &mut String, entity: &ReadEntity, pools: &[Pool]) -> Result<(), OutOfMemory>
    ensures { OnOk result (string_bytes text.new ≡ string_bytes text.old ++ spec.unread_line pools.now entity.now) }
{
    if entity.osd.read().is_ok() {
        return Ok(());
    }
    push_field(text, entity.name.as_str())?;
    push_unread_fields(text, pools)?;
    text.push_str("\n")
}

fn push_all_unread(
    text: &mut String,
    entities: &[ReadEntity],
    pools: &[Pool],
) -> Result<(), OutOfMemory>
    ensures { OnOk result (string_bytes text.new ≡ string_bytes text.old ++ flat_map (spec.unread_line pools.now) entities.now) }
{
    for entity in entities {
        push_unread(text, entity, pools)?;
    }
    Ok(())
}

/// The table of some entities that were looked at.
fn table(
    alloc: Global,
    entities: &[ReadEntity],
    pools: &[Pool],
    all: &[Reached<'_>],
) -> Result<String, OutOfMemory>
    ensures { IfOk result (λ text. string_bytes text ≡ spec.table entities.now pools.now all.now) }
{
    let mut text = String::new(alloc);
    push_head(&mut text, pools)?;
    push_all_reached(&mut text, alloc, all)?;
    push_all_unread(&mut text, entities, pools)?;
    Ok(text)
}

/// What entities reach of some pools, as comma-separated values: a line with the names of the pools, a line for each entity
/// whose text has rights, with the word of each pool's cell, and below them a line for each entity whose text is refused, with
/// question marks. A name with a comma, a quote or an end of a line stands in quotes, each quote in it doubled. No rows are
/// folded, so that a table program can look up each entity.
///
/// The only error is out of memory.
pub fn audit_csv(
    alloc: Global,
    entities: &[ReadEntity],
    pools: &[Pool],
) -> Result<String, OutOfMemory>
    ensures { IfOk result (λ text. IsTable entities.now pools.now (string_bytes text)) }
{
    let all = reached_by(alloc, entities, pools)?;
    table(alloc, entities, pools, all.as_slice())
}
