//! Text inside a page.

ghost use Rattle.std.specs.Prelude.{◌≡◌, ◌++◌, ◌&&◌, ◌<◌, ℕ, List, true, IfOk, IsTrue, OnOk, nat_le, string_bytes};
ghost use Rattle.std.specs.List.{list_all};
ghost use Rattle.verdict_text.specs.Caret.{shown_byte};
ghost use Rattle.audit_page.specs.Escape as spec;
ghost use Rattle.audit_page.specs.Escape.{escaped, escaped_text, is_inert};

use common_types::{OutOfMemory, push_escape};

/// Whether a byte is shown as it is.
fn is_plain(byte: u8) -> bool
    ensures plain { result ≡ (nat_le 32 byte && nat_le byte 126) }
    ensures ascii { IsTrue result → byte < 128 }
{
    32 <= byte && byte <= 126
}

/// Adds a byte, or its number.
fn push_shown_byte(text: &mut String, byte: u8) -> Result<(), OutOfMemory>
    ensures { OnOk result (string_bytes text.new ≡ string_bytes text.old ++ shown_byte byte) }
{
    if is_plain(byte) {
        text.push(char::from(byte))
    } else {
        push_escape(text, byte)
    }
}

/// Adds a byte as it stands in a page.
fn push_escaped_byte(text: &mut String, byte: u8) -> Result<(), OutOfMemory>
    ensures { OnOk result (string_bytes text.new ≡ string_bytes text.old ++ escaped byte) }
{
    match byte {
        b'&' => text.push_str("&amp;"),
        b'<' => text.push_str("&lt;"),
        b'>' => text.push_str("&gt;"),
        b'"' => text.push_str("&quot;"),
        b'\'' => text.push_str("&#39;"),
        _ => push_shown_byte(text, byte),
    }
}

/// Adds bytes as they stand in a page.
fn push_escaped_bytes(text: &mut String, bytes: &[u8]) -> Result<(), OutOfMemory>
    ensures { OnOk result (string_bytes text.new ≡ string_bytes text.old ++ escaped_text bytes.now) }
{
    for byte in bytes {
        push_escaped_byte(text, *byte)?;
    }
    Ok(())
}

/// Adds a text as it stands in a page, between tags or in an attribute's quotes: `&`, `<`, `>`, `"` and `'` as character
/// references, and a byte outside 32 to 126 as `\x` and two hexadecimal digits.
///
/// The only error is out of memory, which may leave a beginning of it.
pub fn push_escaped(text: &mut String, more: &str) -> Result<(), OutOfMemory>
    ensures { OnOk result (string_bytes text.new ≡ string_bytes text.old ++ escaped_text more.now) }
{
    push_escaped_bytes(text, more.as_bytes())
}

/// A law: no text as it stands in a page has a `<`, `>`, `"` or `'`, so that it neither begins nor ends a tag or an attribute.
#[tactic(auto, using(crate::proofs::Inert::all_inert))]
pub fn escaped_text_is_inert()
    ensures { (text : List ℕ) → list_all is_inert (escaped_text text) ≡ true }
{}
