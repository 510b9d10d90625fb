//! What changes between two capability texts.

ghost use Rattle.std.specs.Prelude.{◌≡◌, true, string_bytes, IfOk};
ghost use Rattle.compare_text.specs.Compared as spec;
ghost use Rattle.compare_text.specs.Compared.{AreCompared, IsChange, IsCompareAnswer};
ghost use Rattle.compare_text.specs.Relation.{relation_of};

use crate::compare_json::{compared_json, side_json};
use crate::comparison::Comparison;
use crate::relation::{Relation, fails_check};
use crate::request::push_example_lines;
use crate::widening::{AddressedExample, widening_from};
use common_types::OutOfMemory;
use compare_core::Registry;
use rights_core::Rights;
use std::alloc::Global;
use verdict_text::{Format, Printed, Reader, Reading, Rules, TextFault};

/// What changes between two rights.
pub struct Change {
    /// An example for each new grant that allows what the old ones deny.
    pub gained: Vec<AddressedExample>,
    /// An example for each old grant that allows what the new ones deny.
    pub lost: Vec<AddressedExample>,
}

impl Drop for Change {
    fn drop(self) {
        let Change { gained: _, lost: _ } = self;
    }
}

impl Change {
    /// How the new rights stand to the old ones.
    pub fn relation(&self) -> Relation
        ensures { result ≡ relation_of (spec.is_any self.now.gained.items) (spec.is_any self.now.lost.items) }
    {
        Relation::of(!self.gained.is_empty(), !self.lost.is_empty())
    }
}

/// What changes from old rights to new ones, both ways.
pub(crate) fn changes(
    alloc: Global,
    registry: Registry,
    old: &Rights,
    new: &Rights,
) -> Result<Change, OutOfMemory>
    ensures { IfOk result (λ change. IsChange registry old.now.grants new.now.grants change) }
{
    Ok(Change {
        gained: widening_from(alloc, registry, old, new)?,
        lost: widening_from(alloc, registry, new, old)?,
    })
}

/// What is printed of a side that is refused.
fn refused_by(
    alloc: Global,
    side: &str,
    fault: TextFault,
    format: Format,
) -> Result<String, OutOfMemory>
    ensures { IfOk result (λ text. string_bytes text ≡ spec.side_by format side.now fault) }
{
    match format {
        Format::Text => format!(in alloc; "refused {side} {fault}\n"),
        Format::Json => side_json(alloc, side, fault),
    }
}

/// What is printed of a side that is refused, which fails.
fn refused(
    alloc: Global,
    side: &str,
    fault: TextFault,
    format: Format,
) -> Result<Printed, OutOfMemory>
    ensures { IfOk result (λ printed. (string_bytes printed.text ≡ spec.side_by format side.now fault) × (printed.fails ≡ true)) }
{
    Ok(Printed {
        text: refused_by(alloc, side, fault, format)?,
        fails: true,
    })
}

/// The relation on a line, and the examples.
fn compared_text(alloc: Global, relation: Relation, change: &Change) -> Result<String, OutOfMemory>
    ensures { IfOk result (λ text. string_bytes text ≡ spec.compared_text relation change.now.gained.items change.now.lost.items) }
{
    let mut text = String::from_str(alloc, relation.word())?;
    text.push_str("\n")?;
    push_example_lines(&mut text, &change.gained, &change.lost)?;
    Ok(text)
}

/// The relation and the examples, as a text or as a document.
fn compared_by(
    alloc: Global,
    relation: Relation,
    change: &Change,
    format: Format,
) -> Result<String, OutOfMemory>
    ensures { IfOk result (λ text. string_bytes text ≡ spec.compared_by format relation change.now.gained.items change.now.lost.items) }
{
    match format {
        Format::Text => compared_text(alloc, relation, change),
        Format::Json => compared_json(alloc, relation, change),
    }
}

/// What is printed of what changes between two texts: the relation and the examples, as [`compare_read`] prints them. The only error is
/// out of memory.
pub fn print_change(alloc: Global, change: &Change, format: Format) -> Result<String, OutOfMemory>
    ensures { IfOk result (λ text. string_bytes text ≡ spec.compared_by format (relation_of (spec.is_any change.now.gained.items) (spec.is_any change.now.lost.items)) change.now.gained.items change.now.lost.items) }
{
    compared_by(alloc, change.relation(), change, format)
}

/// The relation and the examples. It fails where a check was asked for and the new rights are wider.
fn compared(
    alloc: Global,
    old: &Rights,
    new: &Rights,
    how: Comparison,
) -> Result<Printed, OutOfMemory>
    ensures { IfOk result (λ printed. spec.IsCompared how old.now.grants new.now.grants (string_bytes printed.text) printed.fails) }
{
    let change = changes(alloc, how.registry, old, new)?;
    let relation = change.relation();
    let text = compared_by(alloc, relation, &change, how.format)?;
    let fails = fails_check(how.check, relation);
    Ok(Printed { text, fails })
}

/// What is printed of a new text that was read, by the old one's rights.
fn compared_new(
    alloc: Global,
    old: &Rights,
    new: &Reading,
    how: Comparison,
) -> Result<Printed, OutOfMemory>
    ensures { IfOk result (λ printed. spec.IsNewCompared how old.now.grants new.now (string_bytes printed.text) printed.fails) }
{
    match new {
        Ok(rights) => compared(alloc, old, rights, how),
        Err(fault) => refused(alloc, "new", *fault, how.format),
    }
}

/// What the program prints of two capability texts that were read: `same`, `narrower`, `wider` or `different`, by what the
/// new text allows from some address and the old one denies there, and the other way round; then for each grant of the new text
/// that by itself allows what the old text denies a line `+ PATH REQUEST`, and for each such grant of the old text a line
/// `- PATH REQUEST`, where REQUEST is what `osdgate verdict` takes, quoted for a shell. Where some grant of either text has a
/// network, REQUEST ends with ` --from ADDRESS`. A text that grants nothing is refused, the old one first, which fails. With a
/// check it fails too where the new text allows something that the old one denies.
///
/// As a document it has the members `relation`, and `gained` and `lost`, of whose items each has `path` and `example`; or
/// `side` and `fault`, and `byte` where one is at fault. The only error is out of memory.
pub fn compare_read(
    alloc: Global,
    old: &Reading,
    new: &Reading,
    how: Comparison,
) -> Result<Printed, OutOfMemory>
    ensures { IfOk result (λ printed. AreCompared how old.now new.now (string_bytes printed.text) printed.fails) }
{
    match old {
        Ok(rights) => compared_new(alloc, rights, new, how),
        Err(fault) => refused(alloc, "old", *fault, how.format),
    }
}

/// Reads two capability texts by this project's rules, and compares them as [`compare_read`] does.
pub fn compare_text(
    alloc: Global,
    old: &str,
    new: &str,
    how: Comparison,
) -> Result<Printed, OutOfMemory>
    ensures { IfOk result (λ printed. IsCompareAnswer how old.now new.now (string_bytes printed.text) printed.fails) }
{
    let reader = Reader::of(alloc, Rules::Project)?;
    let old = reader.read(alloc, old, None)?;
    let new = reader.read(alloc, new, None)?;
    compare_read(alloc, &old, &new, how)
}
