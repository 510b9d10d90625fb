//! Lines of help, wrapped.

use common_types::OutOfMemory;
use std::alloc::Global;

/// The fewest columns that help has beside the option that it is of.
const FEWEST: usize = 24;

/// Whether a line is shown as it is: it is a command to be copied.
fn is_command(line: &str) -> bool {
    line.starts_with("Example: ")
        || line.starts_with("Usage: ")
        || line.trim_start().starts_with("osdgate ")
}

/// Where the text of a line begins: behind an option and some blanks, or behind its blanks.
fn column_of(line: &str) -> usize {
    let words = line.trim_start();
    match words.split_once("  ") {
        Some((_, text)) if words.len() < line.len() => {
            line.len().saturating_sub(text.trim_start().len())
        }
        _ => line.len().saturating_sub(words.len()),
    }
}

/// Where a line is broken: at its last blank behind a column and before the end of a line, or nowhere.
fn break_of(line: &str, column: usize, width: usize) -> Option<usize> {
    let at = line.get(..=width)?.rfind(' ')?;
    if at > column { Some(at) } else { None }
}

fn push_blanks(text: &mut String, count: usize) -> Result<(), OutOfMemory> {
    for _ in 0..count {
        text.push(' ')?;
    }
    Ok(())
}

/// Adds a line, wrapped.
fn push_wrapped(
    text: &mut String,
    alloc: Global,
    line: &str,
    width: usize,
) -> Result<(), OutOfMemory> {
    let column = column_of(line);
    let indent = if column.saturating_add(FEWEST) > width {
        4
    } else {
        column
    };
    let mut rest = String::from_str(alloc, line)?;
    let mut least = column;
    for _ in 0..line.len() {
        let Some(at) = break_of(rest.as_str(), least, width) else {
            break;
        };
        text.push_str(rest.as_str().get(..at).unwrap_or(""))?;
        text.push_str("\n")?;
        let mut next = String::new(alloc);
        push_blanks(&mut next, indent)?;
        next.push_str(rest.as_str().get(at..).unwrap_or("").trim_start())?;
        rest = next;
        least = indent;
    }
    text.push_str(rest.as_str())?;
    text.push_str("\n")
}

/// A text of help with lines of at most `width` columns. The help of an option stays next to it; commands stay whole.
pub fn wrapped(alloc: Global, help: &str, width: usize) -> Result<String, OutOfMemory> {
    let mut text = String::new(alloc);
    for line in help.lines() {
        if line.len() <= width || is_command(line) {
            text.push_str(line)?;
            text.push_str("\n")?;
        } else {
            push_wrapped(&mut text, alloc, line, width)?;
        }
    }
    Ok(text)
}
