//! The members that every JSON document has, the entities that were not checked and the notes. The document of a fault.

use common_types::OutOfMemory;
use gate_files::Unchecked;
use serde_json::{Value, json};
use std::alloc::Global;
use verdict_text::{Printed, TextFault, fault_value};

/// How a line on standard error begins that is a note.
const NOTE: &str = "osdgate: ";

/// A fault as a JSON object, as [`verdict_text::fault_value`] makes it. The only error is out of memory.
pub fn text_fault_value(alloc: Global, fault: TextFault) -> Result<Value, OutOfMemory> {
    let printed = format!(in alloc; "{fault}")?;
    fault_value(alloc, printed.as_str(), fault.byte())
}

fn entity_value(alloc: Global, unchecked: &Unchecked) -> Result<Value, OutOfMemory> {
    let fault = text_fault_value(alloc, unchecked.fault)?;
    let name = unchecked.name.as_str();
    json!(in alloc; {"entity": name, "fault": fault})
}

fn unchecked_value(alloc: Global, unchecked: &[Unchecked]) -> Result<Value, OutOfMemory> {
    let mut items = Vec::new(alloc);
    for entity in unchecked {
        items.push(entity_value(alloc, entity)?)?;
    }
    Ok(Value::from(items))
}

/// The notes among the lines for standard error, as a JSON list. The only error is out of memory.
pub fn notes_value(alloc: Global, lines: &str) -> Result<Value, OutOfMemory> {
    let mut items = Vec::new(alloc);
    for line in lines.lines() {
        if let Some(note) = line.strip_prefix(NOTE) {
            let note = String::from_str(alloc, note)?;
            items.push(Value::from(note))?;
        }
    }
    Ok(Value::from(items))
}

/// The document of a text that is refused, on a line: its fault.
pub fn refused_text(alloc: Global, fault: TextFault) -> Result<Printed, OutOfMemory> {
    let fault = text_fault_value(alloc, fault)?;
    let document: Value = json!(in alloc; {"fault": fault})?;
    let mut text = document.to_string(alloc)?;
    text.push_str("\n")?;
    Ok(Printed { text, fails: true })
}

/// Both members, as JSON.
fn members(alloc: Global, unchecked: &[Unchecked], lines: &str) -> Result<String, OutOfMemory> {
    let unchecked = unchecked_value(alloc, unchecked)?;
    let notes = notes_value(alloc, lines)?;
    let both: Value = json!(in alloc; {"not_checked": unchecked, "notes": notes})?;
    both.to_string(alloc)
}

/// A document on a line with two more members behind its own: the entities that were not checked, and the notes among the lines
/// for standard error.
pub(crate) fn with_members(
    alloc: Global,
    document: &str,
    unchecked: &[Unchecked],
    lines: &str,
) -> Result<String, OutOfMemory> {
    let Some(front) = document.strip_suffix("}\n") else {
        return String::from_str(alloc, document);
    };
    let members = members(alloc, unchecked, lines)?;
    let mut text = String::from_str(alloc, front)?;
    text.push_str(",")?;
    text.push_str(members.as_str().strip_prefix('{').unwrap_or("}"))?;
    text.push_str("\n")?;
    Ok(text)
}
