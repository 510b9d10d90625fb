//! Names as they are shown in lines.

ghost use Rattle.std.specs.Prelude.{◌≡◌, ◌++◌, IsTrue, OnOk, flat_map, string_bytes, ◌<◌};
ghost use Rattle.std.specs.List.{list_all};
ghost use Rattle.verdict_text.specs.ShownName as spec;

use common_types::{OutOfMemory, push_escape};

/// Whether a byte is shown as it is between quotes.
fn is_quotable(byte: u8) -> bool
    ensures quotable { result ≡ spec.is_quotable byte }
    ensures ascii { IsTrue result → byte < 128 }
{
    32 <= byte && byte <= 126 && byte != b'"' && byte != b'\\'
}

/// Whether a byte is shown as it is without quotes.
fn is_bare_byte(byte: u8) -> bool
    ensures { result ≡ spec.is_bare_byte byte }
{
    is_quotable(byte) && byte != b' ' && byte != b','
}

/// Whether all bytes are shown as they are without quotes.
fn are_bare_bytes(bytes: &[u8]) -> bool
    ensures { result ≡ list_all spec.is_bare_byte bytes.now }
{
    bytes.iter().all(|byte| is_bare_byte(*byte))
}

/// Whether a name is shown without quotes.
fn is_bare(name: &str) -> bool
    ensures { result ≡ spec.is_bare name.now }
{
    !name.is_empty() && are_bare_bytes(name.as_bytes())
}

/// Adds a byte as it is shown between quotes.
fn push_quoted_byte(text: &mut String, byte: u8) -> Result<(), OutOfMemory>
    ensures { OnOk result (string_bytes text.new ≡ string_bytes text.old ++ spec.quoted_name_byte byte) }
{
    if is_quotable(byte) {
        text.push(char::from(byte))
    } else {
        push_escape(text, byte)
    }
}

/// Adds bytes as they are shown between quotes.
fn push_quoted_bytes(text: &mut String, bytes: &[u8]) -> Result<(), OutOfMemory>
    ensures { OnOk result (string_bytes text.new ≡ string_bytes text.old ++ flat_map spec.quoted_name_byte bytes.now) }
{
    for byte in bytes {
        push_quoted_byte(text, *byte)?;
    }
    Ok(())
}

/// Adds a name as it is shown: as it is, or between double quotes if it is empty or has a blank, a comma, a quote, a backslash, or a
/// byte outside of 32 to 126. Between quotes the last three are `\x` and two hexadecimal digits (this project's profile). So a list
/// of names is read one way, and a name cannot move the cursor. An `Err` leaves a front of it behind the text.
pub fn push_name(text: &mut String, name: &str) -> Result<(), OutOfMemory>
    ensures { OnOk result (string_bytes text.new ≡ string_bytes text.old ++ spec.shown_name name.now) }
{
    if is_bare(name) {
        return text.push_str(name);
    }
    text.push_str("\"")?;
    push_quoted_bytes(text, name.as_bytes())?;
    text.push_str("\"")
}
