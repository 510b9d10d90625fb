//! Canonical decimal numbers.

ghost use Rattle.std.specs.Prelude.{◌≡◌};
ghost use Rattle.std.specs.Str.{all_ascii_digits};
ghost use Rattle.object_core.specs.Digits.{is_canonical};
ghost use Rattle.object_core.specs.Number as spec;

use std::str;

/// Whether all bytes are digits.
fn are_digits(text: &[u8]) -> bool
    ensures { result ≡ all_ascii_digits text.now }
{
    for byte in text {
        if !byte.is_ascii_digit() {
            return false;
        }
    }
    true
}

/// Whether a text is a number in its canonical form.
fn is_canonical(text: &[u8]) -> bool
    ensures { result ≡ is_canonical text.now }
{
    if !are_digits(text) || text.is_empty() {
        return false;
    }
    text[0] != b'0' || text.len() == 1
}

/// The number that a text spells, where it is canonical and fits 64 bits. Counters are read by it.
pub fn number_of(text: &[u8]) -> Option<u64>
    ensures { result ≡ spec.number_of text.now }
{
    if !is_canonical(text) {
        return None;
    }
    match str::from_utf8(text) {
        Ok(text) => text.parse::<u64>().ok(),
        Err(_) => None,
    }
}
