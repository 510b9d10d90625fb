//! A decision as an OSD writes it.

ghost use Rattle.std.specs.Prelude.{◌≡◌, ◌++◌, true, IfOk, OnOk, flat_map, string_bytes};
ghost use Rattle.verdict_text.specs.Documents as documents;
ghost use Rattle.log_text.specs.Decision as spec;

use crate::decided::Decided;
use crate::object::is_same;
use common_types::{AppTags, Name, OutOfMemory, Tags};
use compare_core::OwnedTarget;
use std::alloc::Global;
use verdict_core::{ClassCall, Needs};

fn bit(set: bool) -> &'static str
    ensures { result.now ≡ spec.bit set }
{
    if set { "1" } else { "0" }
}

/// Pieces without the first comma.
fn without_comma(pieces: &str) -> &str
    ensures { result.now ≡ documents.without_comma pieces.now }
{
    match pieces.strip_prefix(',') {
        Some(rest) => rest,
        None => pieces,
    }
}

fn push_pair(text: &mut String, pair: &(Name, Name)) -> Result<(), OutOfMemory>
    ensures { OnOk result (string_bytes text.new ≡ string_bytes text.old ++ spec.pair_piece pair.now) }
{
    text.push_str(",")?;
    text.push_str(pair.0.as_str())?;
    text.push_str("=")?;
    text.push_str(pair.1.as_str())
}

fn pair_pieces(alloc: Global, pairs: &[(Name, Name)]) -> Result<String, OutOfMemory>
    ensures { IfOk result (λ text. string_bytes text ≡ flat_map spec.pair_piece pairs.now) }
{
    let mut text = String::new(alloc);
    for pair in pairs {
        push_pair(&mut text, pair)?;
    }
    Ok(text)
}

fn push_app(text: &mut String, alloc: Global, app: &AppTags) -> Result<(), OutOfMemory>
    ensures { OnOk result (string_bytes text.new ≡ string_bytes text.old ++ spec.app_piece app.now) }
{
    let pairs = pair_pieces(alloc, app.pairs.as_slice())?;
    text.push_str(",")?;
    text.push_str(app.application.as_str())?;
    text.push_str("={")?;
    text.push_str(without_comma(pairs.as_str()))?;
    text.push_str("}")
}

fn app_pieces(alloc: Global, tags: &[AppTags]) -> Result<String, OutOfMemory>
    ensures { IfOk result (λ text. string_bytes text ≡ flat_map spec.app_piece tags.now) }
{
    let mut text = String::new(alloc);
    for app in tags {
        push_app(&mut text, alloc, app)?;
    }
    Ok(text)
}

/// Adds the tags of a pool.
pub(crate) fn push_tags(
    text: &mut String,
    alloc: Global,
    tags: &[AppTags],
) -> Result<(), OutOfMemory>
    ensures { OnOk result (string_bytes text.new ≡ string_bytes text.old ++ spec.tags_text tags.now) }
{
    let pieces = app_pieces(alloc, tags)?;
    text.push_str("{")?;
    text.push_str(without_comma(pieces.as_str()))?;
    text.push_str("}")
}

fn push_marked(text: &mut String, words: &str, set: bool) -> Result<(), OutOfMemory>
    ensures { OnOk result (string_bytes text.new ≡ string_bytes text.old ++ spec.marked words.now set) }
{
    text.push_str(words)?;
    text.push_str(bit(set))
}

/// Adds what a call's method does, and whether it is listed.
fn push_bits(text: &mut String, call: &ClassCall) -> Result<(), OutOfMemory>
    ensures { OnOk result (string_bytes text.new ≡ string_bytes text.old ++ spec.call_bits call.now) }
{
    push_marked(text, " rd ", call.class_reads)?;
    push_marked(text, " wr ", call.class_writes)?;
    push_marked(text, " allowed ", call.listed)
}

fn push_call(text: &mut String, call: &ClassCall) -> Result<(), OutOfMemory>
    ensures { OnOk result (string_bytes text.new ≡ string_bytes text.old ++ spec.call_piece call.now) }
{
    text.push_str(",class ")?;
    text.push_str(call.class.as_str())?;
    text.push_str(" method ")?;
    text.push_str(call.method.as_str())?;
    push_bits(text, call)
}

fn call_pieces(alloc: Global, calls: &[ClassCall]) -> Result<String, OutOfMemory>
    ensures { IfOk result (λ text. string_bytes text ≡ flat_map spec.call_piece calls.now) }
{
    let mut text = String::new(alloc);
    for call in calls {
        push_call(&mut text, call)?;
    }
    Ok(text)
}

fn push_classes(text: &mut String, alloc: Global, calls: &[ClassCall]) -> Result<(), OutOfMemory>
    ensures { OnOk result (string_bytes text.new ≡ string_bytes text.old ++ spec.classes_text calls.now) }
{
    let pieces = call_pieces(alloc, calls)?;
    text.push_str(" classes=[")?;
    text.push_str(without_comma(pieces.as_str()))?;
    text.push_str("]")
}

fn push_needs(text: &mut String, alloc: Global, needs: &Needs) -> Result<(), OutOfMemory>
    ensures { OnOk result (string_bytes text.new ≡ string_bytes text.old ++ spec.needs_text needs.now) }
{
    push_marked(text, " need_read_cap=", needs.reads)?;
    push_marked(text, " need_write_cap=", needs.writes)?;
    push_classes(text, alloc, needs.calls.as_slice())
}

fn push_number(text: &mut String, number: &str) -> Result<(), OutOfMemory>
    ensures { OnOk result (string_bytes text.new ≡ string_bytes text.old ++ spec.number_text number.now) }
{
    text.push_str("pool=")?;
    text.push_str(number)
}

/// Adds the names of the pool and the namespace.
fn push_names(text: &mut String, target: &OwnedTarget) -> Result<(), OutOfMemory>
    ensures { OnOk result (string_bytes text.new ≡ string_bytes text.old ++ spec.names_text target.now) }
{
    text.push_str(" (")?;
    text.push_str(target.pool.as_str())?;
    text.push_str(" ")?;
    text.push_str(target.namespace.as_str())
}

fn push_tagged(text: &mut String, alloc: Global, tags: &[AppTags]) -> Result<(), OutOfMemory>
    ensures { OnOk result (string_bytes text.new ≡ string_bytes text.old ++ spec.tagged_text tags.now) }
{
    text.push_str(") pool_app_metadata=")?;
    push_tags(text, alloc, tags)
}

fn push_place(
    text: &mut String,
    alloc: Global,
    number: &str,
    target: &OwnedTarget,
) -> Result<(), OutOfMemory>
    ensures { OnOk result (string_bytes text.new ≡ string_bytes text.old ++ spec.place_text number.now target.now) }
{
    push_number(text, number)?;
    push_names(text, target)?;
    push_tagged(text, alloc, target.tags.as_slice())
}

fn word(allowed: bool) -> &'static str
    ensures { result.now ≡ spec.word allowed }
{
    if allowed { "yes" } else { "NO" }
}

fn written(alloc: Global, number: &str, decided: &Decided) -> Result<String, OutOfMemory>
    ensures { IfOk result (λ text. string_bytes text ≡ spec.decision_text number.now decided.now) }
{
    let mut text = String::new(alloc);
    push_place(&mut text, alloc, number, &decided.target)?;
    push_needs(&mut text, alloc, &decided.needs)?;
    text.push_str(" -> ")?;
    text.push_str(word(decided.allowed))?;
    Ok(text)
}

/// Whether an OSD writes a decision as this text, where its pool has this number.
pub(crate) fn is_written_so(
    alloc: Global,
    number: &str,
    decided: &Decided,
    text: &str,
) -> Result<bool, OutOfMemory>
    ensures { IfOk result (λ is. is ≡ true → text.now ≡ spec.decision_text number.now decided.now) }
{
    let written = written(alloc, number, decided)?;
    Ok(is_same(written.as_str(), text))
}

fn tags_text(alloc: Global, tags: &Tags) -> Result<String, OutOfMemory>
    ensures { IfOk result (λ text. string_bytes text ≡ spec.tags_text tags.now) }
{
    let mut text = String::new(alloc);
    push_tags(&mut text, alloc, tags.as_slice())?;
    Ok(text)
}

/// Whether an OSD writes two pools' tags alike. The only error is out of memory.
pub fn has_tags(alloc: Global, tags: &Tags, others: &Tags) -> Result<bool, OutOfMemory>
    ensures { IfOk result (λ alike. alike ≡ true → spec.tags_text tags.now ≡ spec.tags_text others.now) }
{
    let text = tags_text(alloc, tags)?;
    let other = tags_text(alloc, others)?;
    Ok(is_same(other.as_str(), text.as_str()))
}
