//! What each of some entities may do of what some requests ask for.

ghost use Rattle.std.specs.Prelude.{◌≡◌, ◌++◌, IfOk, OnOk, decimal, length, string_bytes};
ghost use Rattle.who_text.specs.Table as spec;
ghost use Rattle.who_text.specs.Table.{AreAnswers, IsRow, IsRowBy, IsTable};
ghost use Rattle.who_text.specs.Who.{AreInOrder};

use crate::brief::push_cells;
use crate::columns::{HEAD, name_width, push_aligned, push_padded, shown_name};
use common_types::OutOfMemory;
use std::alloc::Global;
use verdict_text::{Answer, Asked, Format, ReadEntity, Reading, answer_of, entities_by, row_piece};

/// The answers of a text that was read to some requests, in order.
fn answers_to(
    alloc: Global,
    read: &Reading,
    requests: &[Asked<'_>],
) -> Result<Vec<Answer>, OutOfMemory>
    ensures { IfOk result (λ answers. AreAnswers read.now requests.now answers.items) }
{
    let mut answers = Vec::new(alloc);
    for asked in requests {
        let answer = answer_of(alloc, read, asked)?;
        answers.push(answer)?;
    }
    Ok(answers)
}

/// The line of an entity and the words of its answers.
fn row_line(
    alloc: Global,
    width: usize,
    name: &str,
    read: &Reading,
    requests: &[Asked<'_>],
) -> Result<String, OutOfMemory>
    ensures { IfOk result (λ text. IsRowBy Format.Text width read.now requests.now name.now (string_bytes text)) }
{
    let name = shown_name(alloc, name)?;
    let mut text = String::new(alloc);
    push_padded(&mut text, width, name.as_str())?;
    push_cells(&mut text, alloc, read, requests)?;
    text.push_str("\n")?;
    Ok(text)
}

/// The document of an entity and its answers, as a piece of a document.
fn row_document(
    alloc: Global,
    name: &str,
    read: &Reading,
    requests: &[Asked<'_>],
) -> Result<String, OutOfMemory>
    ensures { IfOk result (λ text. IsRowBy Format.Json 0 read.now requests.now name.now (string_bytes text)) }
{
    let answers = answers_to(alloc, read, requests)?;
    row_piece(alloc, name, answers.as_slice())
}

/// The row of an entity, as a line or as a piece of a document.
fn row_by(
    alloc: Global,
    width: usize,
    name: &str,
    read: &Reading,
    requests: &[Asked<'_>],
    format: Format,
) -> Result<String, OutOfMemory>
    ensures { IfOk result (λ text. IsRowBy format width read.now requests.now name.now (string_bytes text)) }
{
    match format {
        Format::Text => row_line(alloc, width, name, read, requests),
        Format::Json => row_document(alloc, name, read, requests),
    }
}

/// An entity's row.
fn row_of(
    alloc: Global,
    width: usize,
    entity: &ReadEntity,
    requests: &[Asked<'_>],
    format: Format,
) -> Result<String, OutOfMemory>
    ensures { IfOk result (λ text. IsRow format width requests.now entity.now (string_bytes text)) }
{
    row_by(
        alloc,
        width,
        entity.name.as_str(),
        entity.osd.read(),
        requests,
        format,
    )
}

/// The row of each entity, in order.
fn rows_of(
    alloc: Global,
    width: usize,
    entities: &[ReadEntity],
    requests: &[Asked<'_>],
    format: Format,
) -> Result<String, OutOfMemory>
    ensures { IfOk result (λ text. AreInOrder (IsRow format width requests.now) entities.now (string_bytes text)) }
{
    let mut text = String::new(alloc);
    for entity in entities {
        let row = row_of(alloc, width, entity, requests, format)?;
        text.push_str(row.as_str())?;
    }
    Ok(text)
}

/// Adds a number in its column.
fn push_numbered(text: &mut String, alloc: Global, number: usize) -> Result<(), OutOfMemory>
    ensures { OnOk result (string_bytes text.new ≡ string_bytes text.old ++ spec.aligned (decimal number)) }
{
    let printed = format!(in alloc; "{number}")?;
    push_aligned(text, printed.as_str())
}

/// Adds the numbers from 1 on, each in its column.
fn push_numbers(text: &mut String, alloc: Global, count: usize) -> Result<(), OutOfMemory>
    ensures { OnOk result (string_bytes text.new ≡ string_bytes text.old ++ spec.numbers_to count) }
{
    for before in 0..count {
        push_numbered(text, alloc, before + 1)?;
    }
    Ok(())
}

/// Adds the line that numbers the requests.
fn push_head(
    text: &mut String,
    alloc: Global,
    width: usize,
    count: usize,
) -> Result<(), OutOfMemory>
    ensures { OnOk result (string_bytes text.new ≡ string_bytes text.old ++ spec.head_line width count) }
{
    push_padded(text, width, HEAD)?;
    push_numbers(text, alloc, count)?;
    text.push_str("\n")
}

/// The line that numbers the requests, and below it the rows.
fn with_head(alloc: Global, width: usize, count: usize, rows: &str) -> Result<String, OutOfMemory>
    ensures { IfOk result (λ text. string_bytes text ≡ spec.head_line width count ++ rows.now) }
{
    let mut text = String::new(alloc);
    push_head(&mut text, alloc, width, count)?;
    text.push_str(rows)?;
    Ok(text)
}

/// The table of some rows.
fn table_by(
    alloc: Global,
    width: usize,
    count: usize,
    rows: String,
    format: Format,
) -> Result<String, OutOfMemory>
    ensures { IfOk result (λ text. string_bytes text ≡ spec.table_by format width count (string_bytes rows)) }
{
    match format {
        Format::Text => with_head(alloc, width, count, rows.as_str()),
        Format::Json => entities_by(alloc, rows, format),
    }
}

/// What the program prints of some entities and some requests: a line that numbers the requests from 1 on, and a line for
/// each entity, in order: its name, and for each request `allow`, `deny`, or the number of the fault for which there is no
/// verdict. The columns are aligned: names at the left, all else at the right.
///
/// Names are written by [`verdict_text::push_name`]. As a document it has the member
/// `entities`, of whose items each has `entity` and `answers`, each of which is the document of a verdict.
pub fn who_table(
    alloc: Global,
    entities: &[ReadEntity],
    requests: &[Asked<'_>],
    format: Format,
) -> Result<String, OutOfMemory>
    ensures { IfOk result (λ text. IsTable format entities.now requests.now (string_bytes text)) }
{
    let width = name_width(alloc, entities)?;
    let rows = rows_of(alloc, width, entities, requests, format)?;
    table_by(alloc, width, requests.len(), rows, format)
}
