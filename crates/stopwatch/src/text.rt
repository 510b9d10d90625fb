//! The text of a table.

ghost use Rattle.std.specs.Prelude.{◌≡◌, ◌-◌, ◌++◌, IfOk, OnOk, string_bytes};
ghost use Rattle.stopwatch.specs.Text.{blanks, line_text, name_column, number_column, tenths_text};

use std::alloc::{AllocError as OutOfMemory, Global};
use std::fmt::Write;

/// How many bytes a name takes at least.
const NAME_WIDTH: usize = 48;

/// How many bytes a number takes at least.
const NUMBER_WIDTH: usize = 12;

/// Adds `count` spaces.
fn push_blanks(text: &mut String, count: usize) -> Result<(), OutOfMemory>
    ensures { OnOk result (string_bytes text.new ≡ string_bytes text.old ++ blanks count) }
{
    for _ in 0..count {
        text.push_str(" ")?;
    }
    Ok(())
}

/// Adds a name and the spaces behind it.
pub(crate) fn push_name(text: &mut String, name: &str) -> Result<(), OutOfMemory>
    ensures { OnOk result (string_bytes text.new ≡ string_bytes text.old ++ name_column name.now) }
{
    text.push_str(name)?;
    push_blanks(text, NAME_WIDTH.saturating_sub(name.len()))
}

/// Adds the spaces before a word, and the word.
pub(crate) fn push_number(text: &mut String, number: &str) -> Result<(), OutOfMemory>
    ensures { OnOk result (string_bytes text.new ≡ string_bytes text.old ++ number_column number.now) }
{
    push_blanks(text, NUMBER_WIDTH.saturating_sub(number.len()))?;
    text.push_str(number)
}

/// A number of tenths, with its point.
fn tenths_text(alloc: Global, tenths: u64) -> Result<String, OutOfMemory>
    ensures { IfOk result (λ text. string_bytes text ≡ tenths_text tenths) }
{
    let whole = tenths / 10;
    let part = tenths % 10;
    format!(in alloc; "{whole}.{part}")
}

/// Adds the line of a name and its two times, which are given in tenths of a nanosecond.
pub(crate) fn push_line(
    alloc: Global,
    text: &mut String,
    name: &str,
    least: u64,
    middle: u64,
) -> Result<(), OutOfMemory>
    ensures { OnOk result (string_bytes text.new ≡ string_bytes text.old ++ line_text name.now least middle) }
{
    let least = tenths_text(alloc, least)?;
    let middle = tenths_text(alloc, middle)?;
    push_name(text, name)?;
    push_number(text, least.as_str())?;
    push_number(text, middle.as_str())?;
    text.push_str("\n")
}
