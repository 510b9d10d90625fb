//! The letters of a cell.

ghost use Rattle.std.specs.Prelude.{ℕ, ◌≡◌, ◌++◌, ◌∷◌, [], IfOk, OnOk, string_bytes};
ghost use Rattle.audit_text.specs.Words as spec;

use audit_core::{Cell, Extent};
use common_types::OutOfMemory;
use std::alloc::Global;

pub(crate) fn is_whole(extent: Extent) -> bool
    ensures { result ≡ spec.is_whole extent }
{
    match extent {
        Extent::Whole => true,
        Extent::Nothing | Extent::Part => false,
    }
}

pub(crate) fn is_part(extent: Extent) -> bool
    ensures { result ≡ spec.is_part extent }
{
    match extent {
        Extent::Part => true,
        Extent::Nothing | Extent::Whole => false,
    }
}

/// A letter where this holds, or nothing.
fn letter_if(holds: bool, letter: &str) -> &str
    ensures { (byte : ℕ) → letter.now ≡ byte ∷ [] → result.now ≡ spec.letter_if holds byte }
{
    if holds { letter } else { "" }
}

/// The letters of which every request is allowed.
fn whole_letters(alloc: Global, cell: &Cell) -> Result<String, OutOfMemory>
    ensures { IfOk result (λ text. string_bytes text ≡ spec.whole_letters cell.now) }
{
    let mut text = String::new(alloc);
    text.push_str(letter_if(is_whole(cell.read), "r"))?;
    text.push_str(letter_if(is_whole(cell.write), "w"))?;
    text.push_str(letter_if(is_whole(cell.list), "l"))?;
    text.push_str(letter_if(is_whole(cell.call), "x"))?;
    Ok(text)
}

/// The letters of which some requests are allowed, and others are not.
fn part_letters(alloc: Global, cell: &Cell) -> Result<String, OutOfMemory>
    ensures { IfOk result (λ text. string_bytes text ≡ spec.part_letters cell.now) }
{
    let mut text = String::new(alloc);
    text.push_str(letter_if(is_part(cell.read), "r"))?;
    text.push_str(letter_if(is_part(cell.write), "w"))?;
    text.push_str(letter_if(is_part(cell.list), "l"))?;
    text.push_str(letter_if(is_part(cell.call), "x"))?;
    Ok(text)
}

/// Adds letters in brackets, if there are some.
fn push_bracketed(text: &mut String, letters: &str) -> Result<(), OutOfMemory>
    ensures { OnOk result (string_bytes text.new ≡ string_bytes text.old ++ spec.bracketed letters.now) }
{
    if letters.is_empty() {
        return Ok(());
    }
    text.push_str("(")?;
    text.push_str(letters)?;
    text.push_str(")")
}

/// A text, or a dash in place of none.
fn or_dash(text: &str) -> &str
    ensures { result.now ≡ spec.or_dash text.now }
{
    if text.is_empty() { "-" } else { text }
}

/// Adds the word of a cell: `*` where every request is allowed, `-` where none is, and else its letters, in brackets those of
/// which some requests are allowed and others are not. Out of memory may leave a beginning of it.
pub fn push_cell_word(text: &mut String, alloc: Global, cell: &Cell) -> Result<(), OutOfMemory>
    ensures { OnOk result (string_bytes text.new ≡ string_bytes text.old ++ spec.cell_word cell.now) }
{
    if is_whole(cell.any) {
        return text.push_str("*");
    }
    let mut word = whole_letters(alloc, cell)?;
    let parts = part_letters(alloc, cell)?;
    push_bracketed(&mut word, parts.as_str())?;
    text.push_str(or_dash(word.as_str()))
}
