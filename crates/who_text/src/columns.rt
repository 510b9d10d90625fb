//! The columns of a table: names at the left of theirs, all else at the right.

ghost use Rattle.std.specs.Prelude.{◌≡◌, ◌++◌, IfOk, OnOk, replicate, string_bytes};
ghost use Rattle.verdict_text.specs.ShownName as names;
ghost use Rattle.who_text.specs.Table as spec;

use common_types::OutOfMemory;
use std::alloc::Global;
use verdict_text::{ReadEntity, push_name};

/// The head of the names' column.
pub(crate) const HEAD: &str = "entity";

/// The length of the longest word of an answer, `depends`.
const MAX_WORD_LENGTH: usize = 7;

/// Adds `count` blanks.
fn push_blanks(text: &mut String, count: usize) -> Result<(), OutOfMemory>
    ensures { OnOk result (string_bytes text.new ≡ string_bytes text.old ++ replicate count 32) }
{
    for _i in 0..count {
        text.push_str(" ")?;
    }
    Ok(())
}

/// Adds a word behind two blanks, at the right of its column.
pub(crate) fn push_aligned(text: &mut String, word: &str) -> Result<(), OutOfMemory>
    ensures { OnOk result (string_bytes text.new ≡ string_bytes text.old ++ spec.aligned word.now) }
{
    text.push_str("  ")?;
    push_blanks(text, MAX_WORD_LENGTH.saturating_sub(word.len()))?;
    text.push_str(word)
}

/// Adds a text at the left of its column.
pub(crate) fn push_padded(text: &mut String, width: usize, name: &str) -> Result<(), OutOfMemory>
    ensures { OnOk result (string_bytes text.new ≡ string_bytes text.old ++ spec.padded width name.now) }
{
    text.push_str(name)?;
    push_blanks(text, width.saturating_sub(name.len()))
}

/// A name as it is shown.
pub(crate) fn shown_name(alloc: Global, name: &str) -> Result<String, OutOfMemory>
    ensures { IfOk result (λ text. string_bytes text ≡ names.shown_name name.now) }
{
    let mut text = String::new(alloc);
    push_name(&mut text, name)?;
    Ok(text)
}

/// The width of the names' column.
pub(crate) fn name_width(alloc: Global, entities: &[ReadEntity]) -> Result<usize, OutOfMemory>
    ensures { IfOk result (λ width. width ≡ spec.name_width entities.now) }
{
    let mut widest = HEAD.len();
    for entity in entities {
        let name = shown_name(alloc, entity.name.as_str())?;
        widest = name.len().max(widest);
    }
    Ok(widest)
}
