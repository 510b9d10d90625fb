//! A logged request as a JSON document.

ghost use Rattle.std.specs.Prelude.{◌≡◌, IfOk, OnOk, false};
ghost use Rattle.serde_json.specs.View.{items_view, view};
ghost use Rattle.serde_json.specs.Written.{has_float, items_have_float};

use crate::decided::Decided;
use crate::reading::LoggedRequest;
use crate::sides::{failed_condition, push_asked, push_held};
use crate::standing::Standing;
use crate::words::push_words;
use common_types::OutOfMemory;
use log_core::Summary;
use rights_core::{Entry, Rights};
use serde_json::{Value, json};
use std::alloc::Global;
use verdict_core::Condition;
use verdict_text::{Reading, piece_of};

/// A grant, the condition that failed, and both sides of it.
fn failure_value(
    alloc: Global,
    entry: &Entry<'_>,
    condition: Condition,
    decided: &Decided,
) -> Result<Value, OutOfMemory>
    ensures { IfOk result (λ value. has_float (view value) ≡ false) }
{
    let path = entry.path;
    let path = format!(in alloc; "{path}")?;
    let mut asks = String::new(alloc);
    push_asked(&mut asks, alloc, condition, decided)?;
    let mut has = String::new(alloc);
    push_held(&mut has, condition, &entry.network, entry.grant)?;
    let condition = format!(in alloc; "{condition}")?;
    json!(in alloc; {"asks": asks, "condition": condition, "has": has, "path": path})
}

/// Adds a grant of which a request fails a condition.
#[tactic(auto, using(crate::proofs::NoFloats::pushed))]
fn push_failed(
    items: &mut Vec<Value>,
    alloc: Global,
    entry: &Entry<'_>,
    decided: &Decided,
) -> Result<(), OutOfMemory>
    ensures { OnOk result (items_have_float (items_view items.old.items) ≡ false → items_have_float (items_view items.new.items) ≡ false) }
{
    if let Some(condition) = failed_condition(entry, decided) {
        items.push(failure_value(alloc, entry, condition, decided)?)?;
    }
    Ok(())
}

/// The failed grants of rights.
fn failures(alloc: Global, rights: &Rights, decided: &Decided) -> Result<Vec<Value>, OutOfMemory>
    ensures { IfOk result (λ items. items_have_float (items_view items.items) ≡ false) }
{
    let mut items = Vec::new(alloc);
    let mut entries = rights.entries();
    while let Some((entry, others)) = entries.split_first() {
        push_failed(&mut items, alloc, &entry, decided)?;
        entries = others;
    }
    Ok(items)
}

/// The failed grants of a text, if it is read.
fn failures_of(
    alloc: Global,
    read: Option<&Reading>,
    decided: &Decided,
) -> Result<Value, OutOfMemory>
    ensures { IfOk result (λ value. has_float (view value) ≡ false) }
{
    match read {
        Some(Ok(rights)) => Ok(Value::from(failures(alloc, rights, decided)?)),
        Some(Err(_)) | None => Ok(Value::from(Vec::new(alloc))),
    }
}

fn words_of(alloc: Global, decided: &Decided) -> Result<String, OutOfMemory> {
    let mut words = String::new(alloc);
    push_words(&mut words, alloc, decided)?;
    Ok(words)
}

/// The document of a request with its failed grants.
fn request_value(
    alloc: Global,
    request: &LoggedRequest,
    summary: &Summary,
    word: &str,
    grants: Value,
) -> Result<Value, OutOfMemory>
    requires { has_float (view grants) ≡ false }
    ensures { IfOk result (λ value. has_float (view value) ≡ false) }
{
    let words = words_of(alloc, &request.decided)?;
    json!(in alloc; {
        "allowed": request.decided.allowed,
        "count": summary.count,
        "entity": request.entity.as_str(),
        "first": summary.first.as_str(),
        "grants": grants,
        "last": summary.last.as_str(),
        "request": words,
        "standing": word
    })
}

/// The document of a logged request, behind a comma: `allowed`, `count`, `entity`, `first`, `grants`, of which each has `asks`,
/// `condition`, `has` and `path`, `last`, `request` and `standing`. The only error is out of memory.
pub fn request_piece(
    alloc: Global,
    request: &LoggedRequest,
    summary: &Summary,
    standing: &Standing,
    read: Option<&Reading>,
) -> Result<String, OutOfMemory> {
    let grants = failures_of(alloc, read, &request.decided)?;
    let document = request_value(alloc, request, summary, standing.word(), grants)?;
    piece_of(alloc, &document)
}
