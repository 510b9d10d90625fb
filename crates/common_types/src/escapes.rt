//! Bytes that are shown by their numbers.

ghost use Rattle.std.specs.Prelude.{◌≡◌, ◌++◌, ◌<◌, OnOk, string_bytes};
ghost use Rattle.common_types.specs.Escapes.{escape};
ghost use Rattle.common_types.specs.Escapes as spec;

use crate::memory::OutOfMemory;

/// A number below 16 as a hexadecimal digit.
fn hex_digit(number: u8) -> char
    requires { number < 16 }
    ensures { result ≡ spec.hex_digit number }
{
    if number < 10 {
        char::from(b'0' + number)
    } else {
        char::from(b'a' + (number - 10))
    }
}

/// Adds a byte by its number: `\x` and two lower hexadecimal digits (this project's profile).
///
/// Where memory runs out, a beginning of them may have been added.
pub fn push_escape(text: &mut String, byte: u8) -> Result<(), OutOfMemory>
    ensures { OnOk result (string_bytes text.new ≡ string_bytes text.old ++ escape byte) }
{
    text.push_str("\\x")?;
    text.push(hex_digit(byte / 16))?;
    text.push(hex_digit(byte % 16))
}
