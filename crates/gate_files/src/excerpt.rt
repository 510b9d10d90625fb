//! Where the fault of a text is, on one line of a terminal.

use crate::screen::Screen;
use common_types::{OutOfMemory, push_escape};
use std::alloc::Global;
use std::fmt::Write;
use verdict_text::TextFault;

/// What is shown in place of the rest of a line.
const REST: &str = "...";

/// A shown text cut to `width` columns around a column, and below it a caret.
fn cut_text(
    alloc: Global,
    shown: &str,
    column: usize,
    width: usize,
) -> Result<String, OutOfMemory> {
    let room = width.saturating_sub(2 * REST.len());
    let first = column.saturating_sub(room / 2);
    let end = first.saturating_add(room).min(shown.len());
    let before = if first == 0 { "" } else { REST };
    let behind = if end == shown.len() { "" } else { REST };
    let part = shown.get(first..end).unwrap_or("");
    let blanks = column.saturating_sub(first).saturating_add(before.len());
    let mut text = format!(in alloc; "{before}{part}{behind}\n")?;
    for _ in 0..blanks {
        text.push(' ')?;
    }
    write!(text, "^\n")?;
    Ok(text)
}

/// Adds bytes as they are shown: 32 to 126 as they are, any other as `\x` and two hexadecimal digits.
fn push_bytes(text: &mut String, bytes: &[u8]) -> Result<(), OutOfMemory> {
    for byte in bytes {
        if (32..=126).contains(byte) {
            text.push(char::from(*byte))?;
        } else {
            push_escape(text, *byte)?;
        }
    }
    Ok(())
}

/// The columns that a shown line of this length may take.
fn columns_for(length: usize, screen: Screen) -> usize {
    if screen.cuts && length > screen.width {
        screen.width
    } else {
        length.saturating_mul(2).saturating_add(16)
    }
}

/// A line as it is shown, and below it a caret under the byte at a position. On a terminal a longer line is cut around that
/// byte.
pub fn pointed_line(
    alloc: Global,
    line: &[u8],
    position: usize,
    screen: Screen,
) -> Result<String, OutOfMemory> {
    let mut shown = String::new(alloc);
    push_bytes(&mut shown, line.get(..position).unwrap_or(line))?;
    let column = shown.len();
    push_bytes(&mut shown, line.get(position..).unwrap_or(&[]))?;
    let width = columns_for(shown.len(), screen);
    cut_text(alloc, shown.as_str(), column, width)
}

/// Where the fault of a capability text is: the text, and a caret under the byte of the fault. It is empty for a fault
/// without a byte.
pub fn fault_lines(
    alloc: Global,
    text: &str,
    fault: TextFault,
    screen: Screen,
) -> Result<String, OutOfMemory> {
    match fault.byte() {
        Some(at) => pointed_line(alloc, text.as_bytes(), at, screen),
        None => Ok(String::new(alloc)),
    }
}
