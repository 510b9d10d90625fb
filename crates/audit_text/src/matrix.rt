//! The matrix as a text, cut to a width.

ghost use Rattle.std.specs.Prelude.{◌≡◌, ◌≤◌, ◌<◌, ◌-◌, ◌++◌, ◌⊎◌, IfOk, OnOk, flat_map, length, map, replicate, string_bytes};
ghost use Rattle.std.specs.List.{slice_range, All};
ghost use Rattle.audit_text.specs.Matrix as spec;
ghost use Rattle.audit_text.specs.Matrix.{AreParts, IsPart, IsMatrix};
ghost use Rattle.verdict_text.specs.ShownName.{shown_name};

use crate::lines::Line;
use common_types::{Name, OutOfMemory};
use share_core::Pool;
use std::alloc::Global;
use verdict_text::push_name;

/// The longest word of a cell: letters and brackets.
const MAX_WORD_LENGTH: usize = 6;

fn push_blanks(text: &mut String, count: usize) -> Result<(), OutOfMemory>
    ensures { OnOk result (string_bytes text.new ≡ string_bytes text.old ++ replicate count 32) }
{
    for _i in 0..count {
        text.push_str(" ")?;
    }
    Ok(())
}

/// How many bytes a column has: its name's as it is shown, and at least those of a word.
fn column_width(alloc: Global, pool: &Pool) -> Result<usize, OutOfMemory>
    ensures { IfOk result (λ width. width ≡ spec.column_width pool.now) }
{
    let mut name = String::new(alloc);
    push_name(&mut name, pool.name.as_str())?;
    Ok(name.len().max(MAX_WORD_LENGTH))
}

fn widths_of(alloc: Global, pools: &[Pool]) -> Result<Vec<usize>, OutOfMemory>
    ensures { IfOk result (λ widths. widths.items ≡ map spec.column_width pools.now) }
{
    let mut widths = Vec::new(alloc);
    for pool in pools {
        widths.push(column_width(alloc, pool)?)?;
    }
    Ok(widths)
}

fn longest_label(lines: &[Line]) -> usize
    ensures { result ≡ spec.label_width lines.now }
{
    let mut longest = 0;
    for line in lines {
        longest = line.label.as_str().len().max(longest);
    }
    longest
}

/// Adds a word behind two blanks, at the right of its column.
fn push_aligned(text: &mut String, width: usize, word: &Name) -> Result<(), OutOfMemory>
    ensures { OnOk result (string_bytes text.new ≡ string_bytes text.old ++ spec.aligned width word.now) }
{
    text.push_str("  ")?;
    push_blanks(text, width.saturating_sub(word.as_str().len()))?;
    text.push_str(word.as_str())
}

/// Adds a label at the left of its column.
fn push_padded(text: &mut String, width: usize, label: &Name) -> Result<(), OutOfMemory>
    ensures { OnOk result (string_bytes text.new ≡ string_bytes text.old ++ spec.padded width label.now) }
{
    text.push_str(label.as_str())?;
    push_blanks(text, width.saturating_sub(label.as_str().len()))
}

/// Adds words in columns.
#[tactic(auto, using(crate::proofs::Columns::words_step, crate::proofs::Columns::no_width, crate::proofs::Columns::no_word))]
fn push_words(text: &mut String, widths: &[usize], words: &[Name]) -> Result<(), OutOfMemory>
    ensures { OnOk result (string_bytes text.new ≡ string_bytes text.old ++ spec.aligned_words widths.now words.now) }
{
    let mut widths = widths;
    let mut words = words;
    while let Some((width, other_widths)) = widths.split_first() {
        let Some((word, other_words)) = words.split_first() else {
            return Ok(());
        };
        push_aligned(text, *width, word)?;
        widths = other_widths;
        words = other_words;
    }
    Ok(())
}

/// The words of a line in some columns.
fn part_of(words: &[Name], from: usize, to: usize) -> &[Name]
    ensures { result.now ≡ slice_range words.now from to }
{
    let last = to.min(words.len());
    let first = from.min(last);
    &words[first..last]
}

/// Adds some columns of a line.
fn push_part(
    text: &mut String,
    label_width: usize,
    widths: &[usize],
    from: usize,
    to: usize,
    line: &Line,
) -> Result<(), OutOfMemory>
    requires rises { from ≤ to }
    requires within { to ≤ length widths.now }
    ensures { OnOk result (string_bytes text.new ≡ string_bytes text.old ++ spec.part_line label_width widths.now from to line.now) }
{
    push_padded(text, label_width, &line.label)?;
    push_words(
        text,
        &widths[from..to],
        part_of(line.words.as_slice(), from, to),
    )?;
    text.push_str("\n")
}

/// Adds some columns of all lines, and an empty line.
fn push_block(
    text: &mut String,
    label_width: usize,
    widths: &[usize],
    lines: &[Line],
    from: usize,
    to: usize,
) -> Result<(), OutOfMemory>
    requires rises { from ≤ to }
    requires within { to ≤ length widths.now }
    ensures { OnOk result (string_bytes text.new ≡ string_bytes text.old ++ spec.block label_width widths.now lines.now from to) }
{
    for line in lines {
        push_part(text, label_width, widths, from, to, line)?;
    }
    text.push_str("\n")
}

/// What is left of a room behind a column, if the column fits.
fn room_behind(room: usize, width: usize) -> Option<usize>
    ensures { spec.IsRoomBehind room width result }
{
    if room >= 2 && width <= room - 2 {
        Some(room - 2 - width)
    } else {
        None
    }
}

/// The end of the columns from one on that fit into a room; at least one is taken.
fn part_end(widths: &[usize], room: usize, from: usize) -> usize
    requires { from < length widths.now }
    ensures { IsPart widths.now room from result }
{
    let mut left = room_behind(room, widths[from]).unwrap_or(0);
    for to in from + 1..widths.len() {
        match room_behind(left, widths[to]) {
            None => return to,
            Some(behind) => left = behind,
        }
    }
    widths.len()
}

/// The ends of the parts into which the columns are cut.
fn part_ends(alloc: Global, widths: &[usize], room: usize) -> Result<Vec<usize>, OutOfMemory>
    ensures { IfOk result (λ ends. AreParts widths.now room 0 ends.items (length widths.now)) }
{
    let mut ends = Vec::new(alloc);
    let mut from = 0;
    while from < widths.len() {
        from = part_end(widths, room, from);
        ends.push(from)?;
    }
    Ok(ends)
}

/// Adds the parts of all lines, up to each of these columns.
fn push_blocks(
    text: &mut String,
    label_width: usize,
    widths: &[usize],
    lines: &[Line],
    room: usize,
    ends: &[usize],
) -> Result<(), OutOfMemory>
    requires { AreParts widths.now room 0 ends.now (length widths.now) }
    ensures { OnOk result (string_bytes text.new ≡ string_bytes text.old ++ spec.blocks label_width widths.now lines.now 0 ends.now) }
{
    let mut from = 0;
    let mut ends = ends;
    while let Some((to, others)) = ends.split_first() {
        push_block(text, label_width, widths, lines, from, *to)?;
        from = *to;
        ends = others;
    }
    Ok(())
}

/// Adds the matrix of some lines: their columns, in blocks that fit into a width, with an empty line behind each block.
pub(crate) fn push_matrix(
    text: &mut String,
    alloc: Global,
    width: usize,
    pools: &[Pool],
    lines: &[Line],
) -> Result<(), OutOfMemory>
    ensures { OnOk result (IsMatrix width pools.now lines.now (string_bytes text.old) (string_bytes text.new)) }
{
    let widths = widths_of(alloc, pools)?;
    let widths = widths.as_slice();
    let label_width = longest_label(lines);
    let room = width.saturating_sub(label_width);
    let ends = part_ends(alloc, widths, room)?;
    push_blocks(text, label_width, widths, lines, room, ends.as_slice())
}
