//! Where the fault of a capability text is.

ghost use Rattle.std.specs.Prelude.{◌≡◌, ◌++◌, ◌&&◌, IfOk, IsTrue, OnOk, nat_le, replicate, string_bytes, take, ◌<◌};
ghost use Rattle.verdict_text.specs.Caret.{pointed_text, shown, shown_byte};

use crate::reading::ReadText;
use common_types::{OutOfMemory, push_escape};
use std::alloc::Global;
use std::io::Write;

/// Whether a byte is shown as it is.
fn is_plain(byte: u8) -> bool
    ensures plain { result ≡ (nat_le 32 byte && nat_le byte 126) }
    ensures ascii { IsTrue result → byte < 128 }
{
    32 <= byte && byte <= 126
}

/// Adds a byte as it is shown: 32 to 126 as they are, any other as `\x` and two hexadecimal digits.
fn push_shown_byte(text: &mut String, byte: u8) -> Result<(), OutOfMemory>
    ensures { OnOk result (string_bytes text.new ≡ string_bytes text.old ++ shown_byte byte) }
{
    if is_plain(byte) {
        text.push(char::from(byte))
    } else {
        push_escape(text, byte)
    }
}

/// Adds bytes as they are shown.
fn push_shown(text: &mut String, bytes: &[u8]) -> Result<(), OutOfMemory>
    ensures { OnOk result (string_bytes text.new ≡ string_bytes text.old ++ shown bytes.now) }
{
    for byte in bytes {
        push_shown_byte(text, *byte)?;
    }
    Ok(())
}

/// Adds a text to another as it is shown: bytes 32 to 126 as they are, any other as `\x` and two hexadecimal digits
/// (this project's profile). An `Err` leaves a front of it behind the text.
pub fn push_shown_text(text: &mut String, more: &str) -> Result<(), OutOfMemory>
    ensures { OnOk result (string_bytes text.new ≡ string_bytes text.old ++ shown more.now) }
{
    push_shown(text, more.as_bytes())
}

/// Adds `count` blanks.
fn push_blanks(line: &mut Vec<u8>, count: usize) -> Result<(), OutOfMemory>
    ensures { OnOk result (line.new.items ≡ line.old.items ++ replicate count 32) }
{
    let blanks = vec![in *line.allocator(); b' '; count]?;
    line.extend_from_slice(blanks.as_slice())
}

/// A text as it is shown, and below it a caret under the byte at this position, or behind the text where no
/// byte stands there. Both lines end with a line feed.
pub fn pointed_text(alloc: Global, text: &str, position: usize) -> Result<Vec<u8>, OutOfMemory>
    ensures { IfOk result (λ lines. lines.items ≡ pointed_text text.now position) }
{
    let (before, behind) = cut(text.as_bytes(), position);
    let mut shown = String::new(alloc);
    push_shown(&mut shown, before)?;
    let columns = shown.len();
    push_shown(&mut shown, behind)?;
    let mut lines = shown.into_bytes();
    lines.extend_from_slice(b"\n")?;
    push_blanks(&mut lines, columns)?;
    lines.extend_from_slice(b"^\n")?;
    Ok(lines)
}

/// What stands before a position, and the rest.
fn cut(bytes: &[u8], position: usize) -> (&[u8], &[u8])
    ensures before { result.0.now ≡ take position bytes.now }
    ensures whole { bytes.now ≡ result.0.now ++ result.1.now }
{
    bytes.split_at(position.min(bytes.len()))
}

/// Shows on `err` where the fault of a capability text is: the text, and a caret under the fault's byte. Nothing is shown for a
/// text without a fault, for a fault that has no byte, or when out of memory. A failed write is not reported.
pub fn point_at_fault<W: Write>(alloc: Global, text: &ReadText, err: &mut W) {
    let Err(fault) = text.read() else {
        return;
    };
    let Some(at) = fault.byte() else {
        return;
    };
    if let Ok(lines) = pointed_text(alloc, text.text(), at) {
        let _ = err.write_all(lines.as_slice());
    }
}
