//! What changes between two lists of entities.

ghost use Rattle.std.specs.Prelude.{◌≡◌, ◌++◌, ◌||◌, [], true, false, IfOk, OnOk, string_bytes};
ghost use Rattle.compare_text.specs.Compared.{is_any};
ghost use Rattle.compare_text.specs.Relation.{relation_of, word_of};
ghost use Rattle.compare_text.specs.Entities as spec;
ghost use Rattle.compare_text.specs.Entities.{AreTextsTold, IsChangeTold, IsEntitiesAnswer};
ghost use Rattle.compare_text.specs.Pairs.{ArePairsTold, IsReadPairTold};
ghost use Rattle.verdict_text.specs.EachTold.{AreAllTold};

use crate::compare::{Change, changes};
use crate::compare_json::{change_piece, unjudged_piece};
use crate::comparison::Comparison;
use crate::pairs::{ReadPair, read_pairs};
use crate::relation::{Presence, Relation, fails_check, word_of};
use crate::request::push_indented_lines;
use common_types::OutOfMemory;
use rights_core::Rights;
use std::alloc::Global;
use std::fmt::Write;
use verdict_text::{
    Entity, Format, Printed, Reader, Reading, TextFault, entities_by, push_fault_number, push_name,
};

/// The lines of an entity's change, or nothing where there is no word for it.
fn change_lines(
    alloc: Global,
    pair: &ReadPair<'_>,
    relation: Relation,
    change: &Change,
) -> Result<String, OutOfMemory>
    ensures { IfOk result (λ text. string_bytes text ≡ spec.change_lines pair.now.name.now (word_of pair.now.presence relation) change.now.gained.items change.now.lost.items) }
{
    let mut text = String::new(alloc);
    if let Some(word) = word_of(pair.presence, relation) {
        push_name(&mut text, pair.name)?;
        write!(text, " {word}\n")?;
        push_indented_lines(&mut text, &change.gained, &change.lost)?;
    }
    Ok(text)
}

/// The piece of an entity's change, or nothing where there is no word for it.
fn change_json(
    alloc: Global,
    pair: &ReadPair<'_>,
    relation: Relation,
    change: &Change,
) -> Result<String, OutOfMemory>
    ensures { IfOk result (λ text. string_bytes text ≡ spec.change_piece pair.now.name.now (word_of pair.now.presence relation) change.now.gained.items change.now.lost.items) }
{
    match word_of(pair.presence, relation) {
        Some(word) => change_piece(alloc, pair.name, word, change),
        None => Ok(String::new(alloc)),
    }
}

/// What is printed of an entity's change, as a text or as a piece of a document.
fn change_by(
    alloc: Global,
    pair: &ReadPair<'_>,
    relation: Relation,
    change: &Change,
    format: Format,
) -> Result<String, OutOfMemory>
    ensures { IfOk result (λ text. string_bytes text ≡ spec.change_by format pair.now.name.now (word_of pair.now.presence relation) change.now.gained.items change.now.lost.items) }
{
    match format {
        Format::Text => change_lines(alloc, pair, relation, change),
        Format::Json => change_json(alloc, pair, relation, change),
    }
}

/// What became of the text of an entity that is not checked.
pub(crate) fn became(presence: Presence) -> &'static str
    ensures { result.now ≡ spec.became presence }
{
    match presence {
        Presence::Both => "text changed",
        Presence::New => "new",
        Presence::Gone => "gone",
    }
}

/// The line of an entity one of whose texts is refused.
fn unjudged_line(
    alloc: Global,
    name: &str,
    presence: Presence,
    fault: TextFault,
) -> Result<String, OutOfMemory>
    ensures { IfOk result (λ text. string_bytes text ≡ spec.unjudged_line name.now presence fault) }
{
    let mut text = String::new(alloc);
    push_name(&mut text, name)?;
    text.push_str(" not checked: ")?;
    push_fault_number(&mut text, alloc, fault)?;
    text.push_str(", ")?;
    text.push_str(became(presence))?;
    text.push_str("\n")?;
    Ok(text)
}

/// What is printed of an entity one of whose texts is refused, as a text or as a piece of a document.
fn unjudged_by(
    alloc: Global,
    name: &str,
    presence: Presence,
    fault: TextFault,
    format: Format,
) -> Result<String, OutOfMemory>
    ensures { IfOk result (λ text. string_bytes text ≡ spec.unjudged_by format name.now presence fault) }
{
    match format {
        Format::Text => unjudged_line(alloc, name, presence, fault),
        Format::Json => unjudged_piece(alloc, name, presence, fault),
    }
}

/// What is printed of an entity one of whose texts is refused. It fails.
fn unjudged_pair(
    alloc: Global,
    pair: &ReadPair<'_>,
    fault: TextFault,
    format: Format,
) -> Result<Printed, OutOfMemory>
    ensures { IfOk result (λ printed. (string_bytes printed.text ≡ spec.unjudged_by format pair.now.name.now pair.now.presence fault) × (printed.fails ≡ true)) }
{
    Ok(Printed {
        text: unjudged_by(alloc, pair.name, pair.presence, fault, format)?,
        fails: true,
    })
}

/// What is printed of an entity whose texts grant these rights.
fn changed_pair(
    alloc: Global,
    pair: &ReadPair<'_>,
    old: &Rights,
    new: &Rights,
    how: Comparison,
) -> Result<Printed, OutOfMemory>
    ensures { IfOk result (λ printed. IsChangeTold how pair.now.presence pair.now.name.now old.now.grants new.now.grants (string_bytes printed.text) printed.fails) }
{
    let change = changes(alloc, how.registry, old, new)?;
    let relation = change.relation();
    let text = change_by(alloc, pair, relation, &change, how.format)?;
    let fails = fails_check(how.check, relation);
    Ok(Printed { text, fails })
}

/// What is printed of an entity with old rights and a new text that was read.
fn told_new_text(
    alloc: Global,
    pair: &ReadPair<'_>,
    old: &Rights,
    new: &Reading,
    how: Comparison,
) -> Result<Printed, OutOfMemory>
    ensures { IfOk result (λ printed. spec.IsNewTextTold how pair.now.presence pair.now.name.now old.now.grants new.now (string_bytes printed.text) printed.fails) }
{
    match new {
        Ok(rights) => changed_pair(alloc, pair, old, rights, how),
        Err(fault) => unjudged_pair(alloc, pair, *fault, how.format),
    }
}

/// What is printed of an entity whose texts were read.
fn told_texts(
    alloc: Global,
    pair: &ReadPair<'_>,
    old: &Reading,
    new: &Reading,
    how: Comparison,
) -> Result<Printed, OutOfMemory>
    ensures { IfOk result (λ printed. AreTextsTold how pair.now.presence pair.now.name.now old.now new.now (string_bytes printed.text) printed.fails) }
{
    match old {
        Ok(rights) => told_new_text(alloc, pair, rights, new, how),
        Err(fault) => unjudged_pair(alloc, pair, *fault, how.format),
    }
}

/// What is printed of a pair, and whether that fails: the lines of an entity as [`compare_entities`] prints them, or the piece of its
/// document, with a comma in front of it.
pub fn compare_pair(
    alloc: Global,
    pair: &ReadPair<'_>,
    how: Comparison,
) -> Result<Printed, OutOfMemory>
    ensures { IfOk result (λ printed. IsReadPairTold how pair.now (string_bytes printed.text) printed.fails) }
{
    told_texts(alloc, pair, &pair.old, &pair.new, how)
}

/// What is printed of a pair by what changes of its rights: the lines of an entity as [`compare_entities`] prints them, or the piece of
/// its document, with a comma in front of it. The only error is out of memory.
pub fn print_pair(
    alloc: Global,
    pair: &ReadPair<'_>,
    change: &Change,
    format: Format,
) -> Result<String, OutOfMemory>
    ensures { IfOk result (λ text. string_bytes text ≡ spec.change_by format pair.now.name.now
        (word_of pair.now.presence (relation_of (is_any change.now.gained.items) (is_any change.now.lost.items))) change.now.gained.items change.now.lost.items) }
{
    change_by(alloc, pair, change.relation(), change, format)
}

/// Nothing, which does not fail.
fn nothing(alloc: Global) -> Printed
    ensures text { string_bytes result.text ≡ [] }
    ensures fails { result.fails ≡ false }
{
    Printed {
        text: String::new(alloc),
        fails: false,
    }
}

/// Adds `told` behind `printed`, which fails if one of them does.
fn push_told(printed: &mut Printed, told: &Printed) -> Result<(), OutOfMemory>
    ensures text { OnOk result (string_bytes printed.new.text ≡ string_bytes printed.old.text ++ string_bytes told.now.text) }
    ensures fails { OnOk result (printed.new.fails ≡ (printed.old.fails || told.now.fails)) }
{
    printed.text.push_str(told.text.as_str())?;
    printed.fails = printed.fails || told.fails;
    Ok(())
}

/// What is printed of each pair, in order.
fn told_pairs(
    alloc: Global,
    pairs: &[ReadPair<'_>],
    how: Comparison,
) -> Result<Printed, OutOfMemory>
    ensures { IfOk result (λ printed. AreAllTold (IsReadPairTold how) pairs.now (string_bytes printed.text) printed.fails) }
{
    let mut printed = nothing(alloc);
    for pair in pairs {
        let told = compare_pair(alloc, pair, how)?;
        push_told(&mut printed, &told)?;
    }
    Ok(printed)
}

/// What the program prints of pairs that were read: what [`compare_entities`] prints of two lists of which [`read_pairs`] made them.
/// The only error is out of memory.
pub fn compare_pairs(
    alloc: Global,
    pairs: &[ReadPair<'_>],
    how: Comparison,
) -> Result<Printed, OutOfMemory>
    ensures { IfOk result (λ printed. ArePairsTold how pairs.now (string_bytes printed.text) printed.fails) }
{
    let told = told_pairs(alloc, pairs, how)?;
    Ok(Printed {
        text: entities_by(alloc, told.text, how.format)?,
        fails: told.fails,
    })
}

/// What the program prints of two lists of entities, whose texts `reader` reads: the entities of the old list in its
/// order, and then those of the new list alone. The only error is out of memory.
///
/// Each entity has a line `ENTITY WORD`. Below it, indented by two blanks, are the lines of
/// [`compare_text`](crate::compare_text) for its texts. WORD is `narrower`, `wider` or `different`. It is `new` or
/// `gone` where one list alone has the entity, which has no rights in the other.
///
/// An entity that both lists have with the same rights has no line. If its texts are the same, byte for byte, it has
/// no line either, even if they would be refused: they are not read. Every other text is read
/// once. Where it is refused, the entity's line is `ENTITY not checked: NUMBER, text changed` (or `new` or `gone`), by the number
/// of the first fault. Then the command fails. With a check it also fails where an entity's new text allows something
/// that its old one denies.
///
/// Where a list has a name twice, an entity of the other list is compared with the first of them. Names are
/// written by [`verdict_text::push_name`].
///
/// As a document it has the member `entities`. Each item has `entity`, `change`, which is WORD, `gained` and `lost`.
/// Each item of the latter two has `path` and `example`. Where a text is refused, the entity's item has `entity`,
/// `change`, `fault`, and `byte` where one is at fault.
pub fn compare_entities(
    alloc: Global,
    reader: &Reader,
    old: &[Entity],
    new: &[Entity],
    how: Comparison,
) -> Result<Printed, OutOfMemory>
    ensures { IfOk result (λ printed. IsEntitiesAnswer reader.now how old.now new.now (string_bytes printed.text) printed.fails) }
{
    let pairs = read_pairs(alloc, reader, old, new)?;
    let printed = compare_pairs(alloc, &pairs, how)?;
    Ok(printed)
}
