//! Answers with the grants for which they hold, as JSON documents.

ghost use Rattle.std.specs.Prelude.{◌≡◌, ◌∷◌, ◌++◌, [], None, Some, IfOk, OnOk, flat_map, map, string_bytes};
ghost use Rattle.serde_json.specs.Data.{object};
ghost use Rattle.serde_json.specs.View.{view};
ghost use Rattle.verdict_text.specs.Documents.{json_line};
ghost use Rattle.verdict_text.specs.Reasons as spec;

use crate::document::json_line;
use crate::reading::Rules;
use crate::reasons::{Reason, grant_text_of};
use common_types::OutOfMemory;
use rights_core::Entry;
use serde_json::{Value, json};
use std::alloc::Global;
use verdict_core::Condition;

/// A grant that denies.
fn failed_value(
    alloc: Global,
    rules: Rules,
    entry: &Entry<'_>,
    condition: &Condition,
) -> Result<Value, OutOfMemory>
    ensures { IfOk result (λ value. view value ∷ [] ≡ spec.failed_items rules entry.now (Some condition.now)) }
{
    let path = entry.path;
    let path = format!(in alloc; "{path}")?;
    let condition = format!(in alloc; "{condition}")?;
    let grant = grant_text_of(alloc, rules, entry)?;
    json!(in alloc; {"condition": condition, "grant": grant, "path": path})
}

/// A grant that allows.
fn allowing_value(alloc: Global, rules: Rules, entry: &Entry<'_>) -> Result<Value, OutOfMemory>
    ensures { IfOk result (λ value. view value ≡ object (spec.grant_members rules entry.now)) }
{
    let path = entry.path;
    let path = format!(in alloc; "{path}")?;
    let grant = grant_text_of(alloc, rules, entry)?;
    json!(in alloc; {"grant": grant, "path": path})
}

/// Adds a grant, if it denies.
fn push_denied(
    items: &mut Vec<Value>,
    alloc: Global,
    rules: Rules,
    reason: &Reason<'_>,
) -> Result<(), OutOfMemory>
    ensures { OnOk result (map view items.new.items ≡ map view items.old.items ++ spec.denied_items rules reason.now) }
{
    if let Some(condition) = &reason.condition {
        let value = failed_value(alloc, rules, &reason.grant, condition)?;
        items.push(value)?;
    }
    Ok(())
}

/// Adds a grant, if it allows.
fn push_allowed(
    items: &mut Vec<Value>,
    alloc: Global,
    rules: Rules,
    reason: &Reason<'_>,
) -> Result<(), OutOfMemory>
    ensures { OnOk result (map view items.new.items ≡ map view items.old.items ++ spec.allowed_items rules reason.now) }
{
    if reason.condition.is_none() {
        let value = allowing_value(alloc, rules, &reason.grant)?;
        items.push(value)?;
    }
    Ok(())
}

/// The grants that deny.
fn denied_items(
    alloc: Global,
    rules: Rules,
    reasons: &[Reason<'_>],
) -> Result<Vec<Value>, OutOfMemory>
    ensures { IfOk result (λ items. map view items.items ≡ flat_map (spec.denied_items rules) reasons.now) }
{
    let mut items = Vec::new(alloc);
    for reason in reasons {
        push_denied(&mut items, alloc, rules, reason)?;
    }
    Ok(items)
}

/// The grants that allow.
fn allowed_items(
    alloc: Global,
    rules: Rules,
    reasons: &[Reason<'_>],
) -> Result<Vec<Value>, OutOfMemory>
    ensures { IfOk result (λ items. map view items.items ≡ flat_map (spec.allowed_items rules) reasons.now) }
{
    let mut items = Vec::new(alloc);
    for reason in reasons {
        push_allowed(&mut items, alloc, rules, reason)?;
    }
    Ok(items)
}

/// The document of a denial.
fn denied_value(alloc: Global, rules: Rules, reasons: &[Reason<'_>]) -> Result<Value, OutOfMemory>
    ensures { IfOk result (λ value. view value ≡ spec.denied_document rules reasons.now) }
{
    let report = Value::from(denied_items(alloc, rules, reasons)?);
    json!(in alloc; {"report": report, "verdict": "deny"})
}

/// The document of an answer that allows.
fn allowed_value(alloc: Global, rules: Rules, reasons: &[Reason<'_>]) -> Result<Value, OutOfMemory>
    ensures { IfOk result (λ value. view value ≡ spec.allowed_document rules reasons.now) }
{
    let grants = Value::from(allowed_items(alloc, rules, reasons)?);
    json!(in alloc; {"grants": grants, "verdict": "allow"})
}

/// The document of a denial, on a line.
pub(crate) fn denied_json(
    alloc: Global,
    rules: Rules,
    reasons: &[Reason<'_>],
) -> Result<String, OutOfMemory>
    ensures { IfOk result (λ text. string_bytes text ≡ json_line (spec.denied_document rules reasons.now)) }
{
    let document = denied_value(alloc, rules, reasons)?;
    json_line(alloc, &document)
}

/// The document of an answer that allows, on a line.
pub(crate) fn allowed_json(
    alloc: Global,
    rules: Rules,
    reasons: &[Reason<'_>],
) -> Result<String, OutOfMemory>
    ensures { IfOk result (λ text. string_bytes text ≡ json_line (spec.allowed_document rules reasons.now)) }
{
    let document = allowed_value(alloc, rules, reasons)?;
    json_line(alloc, &document)
}
