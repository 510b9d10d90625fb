//! Requests as JSON objects.

ghost use Rattle.std.specs.Prelude.{◌≡◌, IfOk, map, string_bytes};
ghost use Rattle.serde_json.specs.Data.{array};
ghost use Rattle.serde_json.specs.View.{items_of, view};
ghost use Rattle.compare_text.specs.Request.{addressed_words, target_words};
ghost use Rattle.compare_text.specs.RequestDocument.{addressed_document, call_document, from_document, key_document, needs_document, tag_document, target_document};
ghost use Rattle.compare_text.specs.RequestDocument as spec;

use crate::request::{push_addressed, push_target};
use crate::widening::AddressedExample;
use common_types::{AppTags, Name, OutOfMemory};
use compare_core::OwnedTarget;
use network_core::Address;
use serde_json::{Value, json};
use std::alloc::Global;
use verdict_core::{ClassCall, Needs};

fn key_value(alloc: Global, pair: &(Name, Name)) -> Result<Value, OutOfMemory>
    ensures { IfOk result (λ value. view value ≡ key_document pair.now) }
{
    json!(in alloc; {"key": pair.0.as_str(), "value": pair.1.as_str()})
}

fn pairs_value(alloc: Global, pairs: &[(Name, Name)]) -> Result<Value, OutOfMemory>
    ensures { IfOk result (λ value. view value ≡ array (items_of (map key_document pairs.now))) }
{
    let mut items = Vec::new(alloc);
    for pair in pairs {
        items.push(key_value(alloc, pair)?)?;
    }
    Ok(Value::from(items))
}

fn tag_value(alloc: Global, app: &AppTags) -> Result<Value, OutOfMemory>
    ensures { IfOk result (λ value. view value ≡ tag_document app.now) }
{
    let pairs = pairs_value(alloc, app.pairs.as_slice())?;
    json!(in alloc; {"application": app.application.as_str(), "pairs": pairs})
}

fn tags_value(alloc: Global, tags: &[AppTags]) -> Result<Value, OutOfMemory>
    ensures { IfOk result (λ value. view value ≡ array (items_of (map tag_document tags.now))) }
{
    let mut items = Vec::new(alloc);
    for app in tags {
        items.push(tag_value(alloc, app)?)?;
    }
    Ok(Value::from(items))
}

fn call_value(alloc: Global, call: &ClassCall) -> Result<Value, OutOfMemory>
    ensures { IfOk result (λ value. view value ≡ call_document call.now) }
{
    let class = call.class.as_str();
    let method = call.method.as_str();
    json!(in alloc; {
        "class": class,
        "listed": call.listed,
        "method": method,
        "read": call.class_reads,
        "write": call.class_writes
    })
}

fn calls_value(alloc: Global, calls: &[ClassCall]) -> Result<Value, OutOfMemory>
    ensures { IfOk result (λ value. view value ≡ array (items_of (map call_document calls.now))) }
{
    let mut items = Vec::new(alloc);
    for call in calls {
        items.push(call_value(alloc, call)?)?;
    }
    Ok(Value::from(items))
}

fn target_text(alloc: Global, target: &OwnedTarget) -> Result<String, OutOfMemory>
    ensures { IfOk result (λ text. string_bytes text ≡ target_words target.now) }
{
    let mut text = String::new(alloc);
    push_target(&mut text, target)?;
    Ok(text)
}

fn addressed_text(alloc: Global, found: &AddressedExample) -> Result<String, OutOfMemory>
    ensures { IfOk result (λ text. string_bytes text ≡ addressed_words found.now) }
{
    let mut text = String::new(alloc);
    push_addressed(&mut text, found)?;
    Ok(text)
}

fn target_value(alloc: Global, target: &OwnedTarget) -> Result<Value, OutOfMemory>
    ensures { IfOk result (λ value. view value ≡ target_document target.now) }
{
    let tags = tags_value(alloc, target.tags.as_slice())?;
    let namespace = target.namespace.as_str();
    let object = target.object.as_str();
    let pool = target.pool.as_str();
    json!(in alloc; {"namespace": namespace, "object": object, "pool": pool, "tags": tags})
}

fn needs_value(alloc: Global, needs: &Needs) -> Result<Value, OutOfMemory>
    ensures { IfOk result (λ value. view value ≡ needs_document needs.now) }
{
    let calls = calls_value(alloc, needs.calls.as_slice())?;
    json!(in alloc; {"calls": calls, "read": needs.reads, "write": needs.writes})
}

fn from_value(alloc: Global, from: &Option<Address>) -> Result<Value, OutOfMemory>
    ensures { IfOk result (λ value. view value ≡ from_document from.now) }
{
    match from {
        None => Ok(Value::Null),
        Some(address) => Ok(Value::from(format!(in alloc; "{address}")?)),
    }
}

/// A target as a JSON object: `command`, the arguments of `osdgate verdict` that [`push_target`] writes, and `target`. That has
/// `pool`, `namespace`, `object` and `tags`, of which each has `application` and `pairs` of `key` and `value` (this project's
/// profile). The only error is out of memory.
pub fn target_example(alloc: Global, target: &OwnedTarget) -> Result<Value, OutOfMemory>
    ensures { IfOk result (λ value. view value ≡ spec.target_example target.now) }
{
    let command = target_text(alloc, target)?;
    let target = target_value(alloc, target)?;
    json!(in alloc; {"command": command, "target": target})
}

/// A request as a JSON object: the members of [`target_example`], whose `command` has what is asked for, too; `needs`, which has
/// `read`, `write` and `calls`; and `from`, its address or null. Each call has `class`, `method`, `read`, `write` and `listed`.
/// The only error is out of memory.
pub fn addressed_value(alloc: Global, found: &AddressedExample) -> Result<Value, OutOfMemory>
    ensures { IfOk result (λ value. view value ≡ addressed_document found.now) }
{
    let command = addressed_text(alloc, found)?;
    let from = from_value(alloc, &found.from)?;
    let needs = needs_value(alloc, &found.example.needs)?;
    let target = target_value(alloc, &found.example.target)?;
    json!(in alloc; {"command": command, "from": from, "needs": needs, "target": target})
}
