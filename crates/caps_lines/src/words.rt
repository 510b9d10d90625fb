//! Words of a POSIX shell.

ghost use Rattle.std.specs.Prelude.{◌≡◌, ◌++◌, OnOk, flat_map, string_bytes};
ghost use Rattle.caps_lines.specs.Shell as spec;

use common_types::{OutOfMemory, are_word_bytes};

/// Whether a word stands for itself: it has a byte, and each is a letter, a digit, `-`, `.`, `/` or `_`.
fn is_plain(text: &str) -> bool
    ensures { result ≡ spec.is_plain text.now }
{
    !text.is_empty() && are_word_bytes(text.as_bytes())
}

/// Adds a text as it stands between single quotes.
fn push_marked(line: &mut String, text: &str) -> Result<(), OutOfMemory>
    ensures { OnOk result (string_bytes line.new ≡ string_bytes line.old ++ flat_map spec.marked text.now) }
{
    let mut rest = text;
    while let Some((front, behind)) = rest.split_once('\'') {
        line.push_str(front)?;
        line.push_str("'\\''")?;
        rest = behind;
    }
    line.push_str(rest)
}

/// Adds a text between single quotes.
fn push_quoted(line: &mut String, text: &str) -> Result<(), OutOfMemory>
    ensures { OnOk result (string_bytes line.new ≡ string_bytes line.old ++ spec.quoted text.now) }
{
    line.push_str("'")?;
    push_marked(line, text)?;
    line.push_str("'")
}

/// Adds a word that a POSIX shell reads as this text ([`words_are_read_back`](crate::words_are_read_back)).
///
/// # Errors
///
/// Out of memory: the line has a beginning of the word.
pub fn push_shell_word(line: &mut String, text: &str) -> Result<(), OutOfMemory>
    ensures { OnOk result (string_bytes line.new ≡ string_bytes line.old ++ spec.shell_word text.now) }
{
    if is_plain(text) {
        line.push_str(text)
    } else {
        push_quoted(line, text)
    }
}
