//! Bytes of a script as text of a picture.

use common_types::push_escape;
use place_core::OutOfMemory;
use std::fmt::Write;

/// Adds a byte to a text of SVG: a letter or a digit as it is, a mark by its number, a byte outside 32 to 126 as `\x` and two
/// hexadecimal digits.
fn push_xml_byte(out: &mut String, byte: u8) -> Result<(), OutOfMemory> {
    match byte {
        b'&' => out.push_str("&amp;"),
        b'<' => out.push_str("&lt;"),
        b'>' => out.push_str("&gt;"),
        b'"' => out.push_str("&quot;"),
        b'\'' => out.push_str("&#39;"),
        32..=126 => out.push(char::from(byte)),
        _ => push_escape(out, byte),
    }
}

/// Adds bytes as text of SVG.
pub(crate) fn push_xml(out: &mut String, bytes: &[u8]) -> Result<(), OutOfMemory> {
    for byte in bytes {
        push_xml_byte(out, *byte)?;
    }
    Ok(())
}

/// Adds a byte to a text of Mermaid: a letter, a digit, a space and a few marks as they are, each other byte of 33 to 126 by its
/// number.
fn push_mermaid_byte(out: &mut String, byte: u8) -> Result<(), OutOfMemory> {
    match byte {
        b'a'..=b'z' | b'A'..=b'Z' | b'0'..=b'9' | b' ' | b'.' | b',' | b'_' | b'-' => {
            out.push(char::from(byte))
        }
        33..=126 => write!(out, "#{byte};"),
        _ => write!(out, "#92;x{byte:02x}"),
    }
}

/// Adds bytes as text of Mermaid.
pub(crate) fn push_mermaid(out: &mut String, bytes: &[u8]) -> Result<(), OutOfMemory> {
    for byte in bytes {
        push_mermaid_byte(out, *byte)?;
    }
    Ok(())
}
