//! The answer of `osdgate audit` in each of its forms.

use crate::arguments::{AuditArguments, AuditFormat};
use crate::findings::{Finding, Mistake};
use crate::inputs::AuditInputs;
use audit_page::{NoteList, audit_page};
use audit_text::{audit_csv, audit_json, audit_text};
use command_steps::notes_value;
use common_types::OutOfMemory;
use serde_json::{Value, json};
use std::alloc::Global;

/// The list of grants that grant nothing now.
const IDLE: &str = "Grants that match no pool or grant nothing";

/// The list of grants without which a text allows the same.
const REDUNDANT: &str = "Redundant grants";

/// The lines of the findings that are on one of the two lists.
fn lines_of(
    alloc: Global,
    findings: &[Finding<'_>],
    idle: bool,
) -> Result<Vec<String>, OutOfMemory> {
    let mut lines = Vec::new(alloc);
    for finding in findings {
        if finding.mistake.is_idle() == idle {
            let mut line = String::new(alloc);
            finding.push_line(&mut line)?;
            lines.push(line)?;
        }
    }
    Ok(lines)
}

/// Both lists.
fn lists_of(alloc: Global, findings: &[Finding<'_>]) -> Result<Vec<NoteList>, OutOfMemory> {
    let mut lists = Vec::new(alloc);
    for (title, idle) in [(IDLE, true), (REDUNDANT, false)] {
        let lines = lines_of(alloc, findings, idle)?;
        lists.push(NoteList { title, lines })?;
    }
    Ok(lists)
}

/// Adds a list below the matrix of a text, as the lists there are.
fn push_list(text: &mut String, list: &NoteList) -> Result<(), OutOfMemory> {
    text.push_str(list.title)?;
    if list.lines.is_empty() {
        return text.push_str(": none\n");
    }
    text.push_str(":\n")?;
    for line in list.lines.as_slice() {
        text.push_str("  ")?;
        text.push_str(line.as_str())?;
        text.push_str("\n")?;
    }
    Ok(())
}

/// The audit as a text, with the lists of grants behind its own.
fn text_of(
    alloc: Global,
    arguments: &AuditArguments<'_>,
    inputs: &AuditInputs,
    width: usize,
    findings: &[Finding<'_>],
) -> Result<String, OutOfMemory> {
    let entities = inputs.chosen.entities();
    let pools = inputs.pools.as_slice();
    let mut text = audit_text(alloc, arguments.rules, width, entities, pools)?;
    for list in lists_of(alloc, findings)?.as_slice() {
        push_list(&mut text, list)?;
    }
    Ok(text)
}

/// The document of a finding.
fn finding_value(alloc: Global, finding: &Finding<'_>) -> Result<Value, OutOfMemory> {
    let mut words = String::new(alloc);
    finding.mistake.push_words(&mut words)?;
    let entity = finding.entity;
    let grant = finding.grant;
    match finding.mistake {
        Mistake::Redundant { by: Some(other) } => {
            json!(in alloc; {"by": other, "entity": entity, "found": "redundant", "grant": grant})
        }
        _ => json!(in alloc; {"entity": entity, "found": words, "grant": grant}),
    }
}

fn findings_value(alloc: Global, findings: &[Finding<'_>]) -> Result<Value, OutOfMemory> {
    let mut items = Vec::new(alloc);
    for finding in findings {
        items.push(finding_value(alloc, finding)?)?;
    }
    Ok(Value::from(items))
}

/// The audit as a document, with the members `grants` and `notes` behind its own.
fn json_of(
    alloc: Global,
    arguments: &AuditArguments<'_>,
    inputs: &AuditInputs,
    findings: &[Finding<'_>],
    note: &str,
) -> Result<String, OutOfMemory> {
    let entities = inputs.chosen.entities();
    let document = audit_json(alloc, arguments.rules, entities, inputs.pools.as_slice())?;
    let grants = findings_value(alloc, findings)?;
    let notes = notes_value(alloc, note)?;
    let members: Value = json!(in alloc; {"grants": grants, "notes": notes})?;
    let members = members.to_string(alloc)?;
    let front = document.as_str().strip_suffix("}\n").unwrap_or("");
    let behind = members.as_str().strip_prefix('{').unwrap_or("");
    format!(in alloc; "{front},{behind}\n")
}

/// The audit as a page.
fn page_of(
    alloc: Global,
    arguments: &AuditArguments<'_>,
    inputs: &AuditInputs,
    findings: &[Finding<'_>],
) -> Result<String, OutOfMemory> {
    let entities = inputs.chosen.entities();
    let pools = inputs.pools.as_slice();
    let lists = lists_of(alloc, findings)?;
    audit_page(alloc, arguments.rules, entities, pools, lists.as_slice())
}

/// The answer in the form of the arguments. `note` is what standard error gets, and a text is at most `width` columns wide, or
/// as wide as one pool needs.
pub(crate) fn rendered(
    alloc: Global,
    arguments: &AuditArguments<'_>,
    inputs: &AuditInputs,
    width: usize,
    findings: &[Finding<'_>],
    note: &str,
) -> Result<String, OutOfMemory> {
    match arguments.format {
        AuditFormat::Text => text_of(alloc, arguments, inputs, width, findings),
        AuditFormat::Json => json_of(alloc, arguments, inputs, findings, note),
        AuditFormat::Csv => audit_csv(alloc, inputs.chosen.entities(), inputs.pools.as_slice()),
        AuditFormat::Html => page_of(alloc, arguments, inputs, findings),
    }
}
