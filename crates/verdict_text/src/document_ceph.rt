//! Explanations by Ceph's rules as JSON documents.

ghost use Rattle.std.specs.Prelude.{◌≡◌, IfOk, map, string_bytes};
ghost use Rattle.serde_json.specs.Data.{array};
ghost use Rattle.serde_json.specs.View.{items_of, view};
ghost use Rattle.ceph_text.specs.Profiles.{ceph_flat, unknown_from};
ghost use Rattle.verdict_text.specs.Documents.{json_line};
ghost use Rattle.verdict_text.specs.CephExplained.{ceph_document, entry_document, fault_document, number_document};

use crate::ceph_lines::text_of_entry;
use crate::document::{fault_alone, json_line};
use crate::reading::TextFault;
use ceph_text::{CephEntry, CephList, unknown_profiles};
use common_types::OutOfMemory;
use serde_json::{Value, json};
use std::alloc::Global;

/// A grant that a list expands to.
fn entry_value(alloc: Global, entry: &CephEntry) -> Result<Value, OutOfMemory>
    ensures { IfOk result (λ value. view value ≡ entry_document entry.now) }
{
    let path = &entry.path;
    let path = format!(in alloc; "{path}")?;
    let grant = text_of_entry(alloc, entry)?;
    json!(in alloc; {"grant": grant, "path": path})
}

/// The grants that a list expands to.
fn entries_value(alloc: Global, entries: &[CephEntry]) -> Result<Value, OutOfMemory>
    ensures { IfOk result (λ value. view value ≡ array (items_of (map entry_document entries.now))) }
{
    let mut items = Vec::new(alloc);
    for entry in entries {
        items.push(entry_value(alloc, entry)?)?;
    }
    Ok(Value::from(items))
}

/// Numbers of grants.
fn numbers_value(alloc: Global, numbers: &[usize]) -> Result<Value, OutOfMemory>
    ensures { IfOk result (λ value. view value ≡ array (items_of (map number_document numbers.now))) }
{
    let mut items = Vec::new(alloc);
    for number in numbers {
        items.push(Value::from(*number))?;
    }
    Ok(Value::from(items))
}

/// The document of the grants that a list expands to.
fn ceph_value(alloc: Global, list: &CephList, entries: &[CephEntry]) -> Result<Value, OutOfMemory>
    requires { entries.now ≡ ceph_flat list.now }
    ensures { IfOk result (λ value. view value ≡ ceph_document list.now) }
{
    let numbers = unknown_profiles(alloc, list)?;
    let grants = entries_value(alloc, entries)?;
    let unknown = numbers_value(alloc, numbers.as_slice())?;
    json!(in alloc; {"grants": grants, "unknown_profiles": unknown})
}

/// The document of the grants that a list expands to, on a line.
pub(crate) fn ceph_json(
    alloc: Global,
    list: &CephList,
    entries: &[CephEntry],
) -> Result<String, OutOfMemory>
    requires { entries.now ≡ ceph_flat list.now }
    ensures { IfOk result (λ text. string_bytes text ≡ json_line (ceph_document list.now)) }
{
    let document = ceph_value(alloc, list, entries)?;
    json_line(alloc, &document)
}

/// The document of a text that grants nothing.
fn fault_value(alloc: Global, fault: TextFault) -> Result<Value, OutOfMemory>
    ensures { IfOk result (λ value. view value ≡ fault_document fault) }
{
    let text = format!(in alloc; "{fault}")?;
    fault_alone(alloc, text.as_str(), fault.byte())
}

/// The document of a text that grants nothing, on a line.
pub(crate) fn fault_json(alloc: Global, fault: TextFault) -> Result<String, OutOfMemory>
    ensures { IfOk result (λ text. string_bytes text ≡ json_line (fault_document fault)) }
{
    let document = fault_value(alloc, fault)?;
    json_line(alloc, &document)
}
