//! The lines of a matrix: entities with one text and the same words are one row.

ghost use Rattle.std.specs.Prelude.{◌≡◌, ◌++◌, ◌∷◌, [], IfOk, OnOk, map, max, length, string_bytes};
ghost use Rattle.audit_text.specs.Matrix as spec;
ghost use Rattle.audit_text.specs.Reached.{label, more};
ghost use Rattle.audit_text.specs.Words.{cell_word};
ghost use Rattle.verdict_text.specs.ShownName as names;

use crate::reached::{Reached, is_first, row_count};
use crate::words::push_cell_word;
use audit_core::Cell;
use common_types::{Items, Name, OutOfMemory};
use share_core::Pool;
use std::alloc::Global;
use std::fmt::Write;
use verdict_text::push_name;

/// A line of the matrix: a label, and a word for each pool.
#[derive(Debug, Drop)]
pub(crate) struct Line {
    pub(crate) label: Name,
    pub(crate) words: Items<Name>,
}

/// A text as it is shown.
fn shown_name(alloc: Global, text: &str) -> Result<Name, OutOfMemory>
    ensures { IfOk result (λ name. name ≡ names.shown_name text.now) }
{
    let mut shown = String::new(alloc);
    push_name(&mut shown, text)?;
    Ok(Name::from_string(shown))
}

fn word_of(alloc: Global, cell: &Cell) -> Result<Name, OutOfMemory>
    ensures { IfOk result (λ word. word ≡ cell_word cell.now) }
{
    let mut word = String::new(alloc);
    push_cell_word(&mut word, alloc, cell)?;
    Ok(Name::from_string(word))
}

/// Adds how many more stand in a row.
fn push_more(text: &mut String, count: usize) -> Result<(), OutOfMemory>
    ensures { OnOk result (string_bytes text.new ≡ string_bytes text.old ++ more count) }
{
    if count <= 1 {
        return Ok(());
    }
    let more = count - 1;
    write!(text, " +{more}")
}

/// Adds the label of a row: a name, and how many more stand there.
pub(crate) fn push_label(text: &mut String, name: &str, count: usize) -> Result<(), OutOfMemory>
    ensures { OnOk result (string_bytes text.new ≡ string_bytes text.old ++ label name.now count) }
{
    push_name(text, name)?;
    push_more(text, count)
}

fn label_of(alloc: Global, name: &str, count: usize) -> Result<Name, OutOfMemory>
    ensures { IfOk result (λ text. text ≡ label name.now count) }
{
    let mut text = String::new(alloc);
    push_label(&mut text, name, count)?;
    Ok(Name::from_string(text))
}

fn words_of(alloc: Global, cells: &[Cell]) -> Result<Items<Name>, OutOfMemory>
    ensures { IfOk result (λ words. words ≡ map cell_word cells.now) }
{
    let mut words = Items::new(alloc);
    for cell in cells {
        words.push(word_of(alloc, cell)?)?;
    }
    Ok(words)
}

fn pool_words(alloc: Global, pools: &[Pool]) -> Result<Items<Name>, OutOfMemory>
    ensures { IfOk result (λ words. words ≡ map spec.pool_word pools.now) }
{
    let mut words = Items::new(alloc);
    for pool in pools {
        words.push(shown_name(alloc, pool.name.as_str())?)?;
    }
    Ok(words)
}

/// The line above the rows.
fn head_line(alloc: Global, pools: &[Pool]) -> Result<Line, OutOfMemory>
    ensures { IfOk result (λ line. line ≡ spec.head_line pools.now) }
{
    let label = Name::new(alloc, "entity")?;
    let words = pool_words(alloc, pools)?;
    Ok(Line { label, words })
}

/// The line of the row in which an entity stands first.
fn row_line(alloc: Global, all: &[Reached<'_>], one: &Reached<'_>) -> Result<Line, OutOfMemory>
    ensures { IfOk result (λ line. line ≡ spec.row_line all.now one.now) }
{
    let label = label_of(alloc, one.entity.name.as_str(), row_count(all, one))?;
    let words = words_of(alloc, one.cells.as_slice())?;
    Ok(Line { label, words })
}

/// The line above the rows, and that of each row.
pub(crate) fn lines_of(
    alloc: Global,
    pools: &[Pool],
    all: &[Reached<'_>],
) -> Result<Vec<Line>, OutOfMemory>
    ensures { IfOk result (λ lines. lines.items ≡ spec.lines pools.now all.now) }
{
    let mut lines = Vec::new(alloc);
    lines.push(head_line(alloc, pools)?)?;
    for one in all {
        if is_first(all, one) {
            lines.push(row_line(alloc, all, one)?)?;
        }
    }
    Ok(lines)
}
