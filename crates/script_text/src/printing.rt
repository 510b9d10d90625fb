//! Printed texts.

ghost use Rattle.std.specs.Prelude.{◌≡◌, ◌++◌, OnOk, string_bytes, decimal};
ghost use Rattle.script_text.specs.Text as spec;
ghost use Rattle.script_text.specs.Text.{glyph, quoted, item};

use common_types::push_escape;
use std::alloc::AllocError;
use std::fmt::Write;

fn stands_for_itself(byte: u8) -> bool
    ensures { result ≡ spec.stands_for_itself byte }
{
    32 <= byte && byte <= 126 && !(byte == b'"' || byte == b'\\')
}

fn push_glyph(text: &mut String, byte: u8) -> Result<(), AllocError>
    ensures { OnOk result (string_bytes text.new ≡ string_bytes text.old ++ glyph byte) }
{
    if stands_for_itself(byte) {
        return text.push(char::from(byte));
    }
    push_escape(text, byte)
}

/// Adds bytes between double quotes: bytes 32 to 126 other than `"` and `\` as they are, others as `\x` and two lower
/// hexadecimal digits.
///
/// Where memory runs out, a beginning of them may have been added.
pub fn push_quoted(text: &mut String, bytes: &[u8]) -> Result<(), AllocError>
    ensures { OnOk result (string_bytes text.new ≡ string_bytes text.old ++ quoted bytes.now) }
{
    text.push_str("\"")?;
    for byte in bytes {
        push_glyph(text, *byte)?;
    }
    text.push_str("\"")
}

/// Adds a line with `- ` and bytes between double quotes.
///
/// Where memory runs out, a beginning of it may have been added.
pub fn push_item(text: &mut String, bytes: &[u8]) -> Result<(), AllocError>
    ensures { OnOk result (string_bytes text.new ≡ string_bytes text.old ++ item (quoted bytes.now)) }
{
    text.push_str("- ")?;
    push_quoted(text, bytes)?;
    text.push_str("\n")
}

/// Adds a number in decimal digits.
///
/// Where memory runs out, a beginning of it may have been added.
pub fn push_number(text: &mut String, number: u64) -> Result<(), AllocError>
    ensures { OnOk result (string_bytes text.new ≡ string_bytes text.old ++ decimal number) }
{
    write!(text, "{number}")
}
