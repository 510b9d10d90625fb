//! Answers as JSON documents.

ghost use Rattle.std.specs.Prelude.{◌≡◌, ◌++◌, Err, IfOk, None, Ok, OnOk, false, map, string_bytes};
ghost use Rattle.serde_json.specs.Data.{array};
ghost use Rattle.serde_json.specs.View.{items_of, view};
ghost use Rattle.serde_json.specs.Written.{has_float};
ghost use Rattle.cap_text.specs.Printed.{printed};
ghost use Rattle.verdict_text.specs.Documents.{answer_document, calls_document, condition_document, entity_document, expansion_document, explained_document, grant_document, json_line, piece, refused_document, row_document, spelling_document};
ghost use Rattle.verdict_text.specs.Documents as spec;
ghost use Rattle.verdict_text.specs.declared.format.Format.TheVariants.{Json};
ghost use Rattle.verdict_text.specs.declared.verdict.Verdict.TheVariants.{Denied, Depends};
ghost use Rattle.verdict_text.specs.Reading.{fault_byte, fault_text};
ghost use Rattle.object_core.specs.Faults as vectors;

use crate::format::Format;
use crate::reading::{TextFault, first_word};
use crate::verdict::{Answer, Verdict, VerdictFault};
use cap_text::{AllowGrant, CapFault, CapList, print, push_allow};
use common_types::OutOfMemory;
use grant_core::{ExpandFault, Path};
use network_core::Address;
use object_core::NeedsFault;
use serde_json::{Value, json};
use std::alloc::Global;
use verdict_core::Condition;

/// A document on a line, as JSON without blanks. A line feed ends it. The document has no floats. The only error is out
/// of memory.
pub fn json_line(alloc: Global, document: &Value) -> Result<String, OutOfMemory>
    requires { has_float (view document.now) ≡ false }
    ensures { IfOk result (λ text. string_bytes text ≡ json_line (view document.now)) }
{
    let mut text = document.to_string(alloc)?;
    text.push_str("\n")?;
    Ok(text)
}

/// A document as a piece of the list that [`list_by`] makes: a comma, and the document as JSON without blanks. The
/// document has no floats. The only error is out of memory.
pub fn piece_of(alloc: Global, document: &Value) -> Result<String, OutOfMemory>
    requires { has_float (view document.now) ≡ false }
    ensures { IfOk result (λ text. string_bytes text ≡ piece (view document.now)) }
{
    let mut text = String::from_str(alloc, ",")?;
    let document = document.to_string(alloc)?;
    text.push_str(document.as_str())?;
    Ok(text)
}

/// Pieces without the first comma.
fn without_comma(pieces: &str) -> &str
    ensures { result.now ≡ spec.without_comma pieces.now }
{
    match pieces.strip_prefix(',') {
        Some(rest) => rest,
        None => pieces,
    }
}

/// The document of a list under a name, from the pieces of its items. Each piece begins with a comma. As a text, it is
/// the pieces alone. The name is written as it is, so it has no quotes and no backslash. The only error is out of
/// memory.
pub fn list_by(
    alloc: Global,
    name: &str,
    pieces: String,
    format: Format,
) -> Result<String, OutOfMemory>
    ensures { IfOk result (λ text. string_bytes text ≡ spec.list_by name.now format (string_bytes pieces)) }
{
    match format {
        Format::Text => Ok(pieces),
        Format::Json => list_json(alloc, name, pieces.as_str()),
    }
}

/// Adds the document of a list under a name, from the pieces of its items, on a line.
fn push_list(text: &mut String, name: &str, pieces: &str) -> Result<(), OutOfMemory>
    ensures { OnOk result (string_bytes text.new ≡ string_bytes text.old ++ spec.list_by name.now Json pieces.now) }
{
    text.push_str("{\"")?;
    text.push_str(name)?;
    text.push_str("\":[")?;
    text.push_str(without_comma(pieces))?;
    text.push_str("]}\n")
}

/// The document of a list under a name, on a line.
fn list_json(alloc: Global, name: &str, pieces: &str) -> Result<String, OutOfMemory>
    ensures { IfOk result (λ text. string_bytes text ≡ spec.list_by name.now Json pieces.now) }
{
    let mut text = String::new(alloc);
    push_list(&mut text, name, pieces)?;
    Ok(text)
}

/// The document of some entities, from their pieces: [`list_by`] under the name `entities`. Each piece begins with a
/// comma. As a text, it is the pieces alone. The only error is out of memory.
pub fn entities_by(alloc: Global, pieces: String, format: Format) -> Result<String, OutOfMemory>
    ensures { IfOk result (λ text. string_bytes text ≡ spec.entities_by format (string_bytes pieces)) }
{
    list_by(alloc, "entities", pieces, format)
}

/// A line of a report.
fn condition_value(alloc: Global, line: &(Path, Condition)) -> Result<Value, OutOfMemory>
    ensures { IfOk result (λ value. view value ≡ condition_document line.now) }
{
    let path = &line.0;
    let path = format!(in alloc; "{path}")?;
    let condition = &line.1;
    let condition = format!(in alloc; "{condition}")?;
    json!(in alloc; {"condition": condition, "path": path})
}

/// The lines of a report.
fn report_value(alloc: Global, lines: &[(Path, Condition)]) -> Result<Value, OutOfMemory>
    ensures { IfOk result (λ value. view value ≡ array (items_of (map condition_document lines.now))) }
{
    let mut items = Vec::new(alloc);
    for line in lines {
        items.push(condition_value(alloc, line)?)?;
    }
    Ok(Value::from(items))
}

/// The document of an answer that denies.
fn denied_value(alloc: Global, lines: &[(Path, Condition)]) -> Result<Value, OutOfMemory>
    ensures { IfOk result (λ value. view value ≡ answer_document (Ok (Denied lines.now))) }
{
    let report = report_value(alloc, lines)?;
    json!(in alloc; {"report": report, "verdict": "deny"})
}

/// The document of an answer that depends on the address.
fn depends_value(alloc: Global, allowed: &Address, denied: &Address) -> Result<Value, OutOfMemory>
    ensures { IfOk result (λ value. view value ≡ answer_document (Ok (Depends allowed.now denied.now))) }
{
    let allowed = format!(in alloc; "{allowed}")?;
    let denied = format!(in alloc; "{denied}")?;
    json!(in alloc; {"allowed_from": allowed, "denied_from": denied, "verdict": "depends"})
}

/// What is behind the first blank of a text.
fn behind_blank(text: &str) -> &str
    ensures { result.now ≡ spec.behind_blank text.now }
{
    match text.split_once(' ') {
        Some((_, rest)) => rest,
        None => "",
    }
}

/// A fault as a JSON object, by its printed form, which begins with its number and its name: the members `byte` if a byte is at
/// fault, `name`, `number`, and `text`, the printed form (this project's profile). The only error is out of memory.
pub fn fault_value(alloc: Global, printed: &str, byte: Option<usize>) -> Result<Value, OutOfMemory>
    ensures { IfOk result (λ value. view value ≡ spec.fault_value printed.now byte) }
{
    let number = first_word(printed);
    let name = first_word(behind_blank(printed));
    match byte {
        Some(byte) => {
            json!(in alloc; {"byte": byte, "name": name, "number": number, "text": printed})
        }
        None => json!(in alloc; {"name": name, "number": number, "text": printed}),
    }
}

/// The document of a fault alone.
pub(crate) fn fault_alone(
    alloc: Global,
    printed: &str,
    byte: Option<usize>,
) -> Result<Value, OutOfMemory>
    ensures { IfOk result (λ value. view value ≡ spec.fault_alone printed.now byte) }
{
    let fault = fault_value(alloc, printed, byte)?;
    json!(in alloc; {"fault": fault})
}

/// The document of an answer that is refused for this reason.
fn refused_value(alloc: Global, printed: &str, byte: Option<usize>) -> Result<Value, OutOfMemory>
    ensures { IfOk result (λ value. view value ≡ refused_document printed.now byte) }
{
    let fault = fault_value(alloc, printed, byte)?;
    json!(in alloc; {"fault": fault, "verdict": "refused"})
}

/// The document of an answer to a text that grants nothing.
fn refused_text_value(alloc: Global, fault: TextFault) -> Result<Value, OutOfMemory>
    ensures { IfOk result (λ value. view value ≡ refused_document (fault_text fault) (fault_byte fault)) }
{
    let printed = format!(in alloc; "{fault}")?;
    refused_value(alloc, printed.as_str(), fault.byte())
}

/// The document of an answer to calls that are refused.
fn refused_calls_value(alloc: Global, fault: NeedsFault) -> Result<Value, OutOfMemory>
    ensures { IfOk result (λ value. view value ≡ refused_document (vectors.text_of fault) None) }
{
    let printed = format!(in alloc; "{fault}")?;
    refused_value(alloc, printed.as_str(), None)
}

/// The document of an answer.
pub(crate) fn answer_value(alloc: Global, answer: &Answer) -> Result<Value, OutOfMemory>
    ensures { IfOk result (λ value. view value ≡ answer_document answer.now) }
{
    match answer {
        Ok(Verdict::Allowed) => json!(in alloc; {"verdict": "allow"}),
        Ok(Verdict::Denied(report)) => denied_value(alloc, report.lines()),
        Ok(Verdict::Depends { allowed, denied }) => depends_value(alloc, allowed, denied),
        Err(VerdictFault::Text(fault)) => refused_text_value(alloc, *fault),
        Err(VerdictFault::Calls(fault)) => refused_calls_value(alloc, *fault),
    }
}

/// The document of an answer, on a line.
pub(crate) fn answer_json(alloc: Global, answer: &Answer) -> Result<String, OutOfMemory>
    ensures { IfOk result (λ text. string_bytes text ≡ json_line (answer_document answer.now)) }
{
    let document = answer_value(alloc, answer)?;
    json_line(alloc, &document)
}

/// An entity's name and its answer.
fn entity_value(alloc: Global, name: &str, answer: &Answer) -> Result<Value, OutOfMemory>
    ensures { IfOk result (λ value. view value ≡ entity_document name.now answer.now) }
{
    let answer = answer_value(alloc, answer)?;
    json!(in alloc; {"answer": answer, "entity": name})
}

/// The piece of an entity: its name and its answer, the members `answer` and `entity`. The only error is out of memory.
pub fn entity_piece(alloc: Global, name: &str, answer: &Answer) -> Result<String, OutOfMemory>
    ensures { IfOk result (λ text. string_bytes text ≡ piece (entity_document name.now answer.now)) }
{
    let document = entity_value(alloc, name, answer)?;
    piece_of(alloc, &document)
}

/// The answers of an entity.
fn answers_value(alloc: Global, answers: &[Answer]) -> Result<Value, OutOfMemory>
    ensures { IfOk result (λ value. view value ≡ array (items_of (map answer_document answers.now))) }
{
    let mut items = Vec::new(alloc);
    for answer in answers {
        let value = answer_value(alloc, answer)?;
        items.push(value)?;
    }
    Ok(Value::from(items))
}

/// An entity's name and its answers.
fn row_value(alloc: Global, name: &str, answers: &[Answer]) -> Result<Value, OutOfMemory>
    ensures { IfOk result (λ value. view value ≡ row_document name.now answers.now) }
{
    let answers = answers_value(alloc, answers)?;
    json!(in alloc; {"answers": answers, "entity": name})
}

/// The piece of an entity: its name and its answers to some requests, in order, the members `answers` and `entity`. The
/// only error is out of memory.
pub fn row_piece(alloc: Global, name: &str, answers: &[Answer]) -> Result<String, OutOfMemory>
    ensures { IfOk result (λ text. string_bytes text ≡ piece (row_document name.now answers.now)) }
{
    let document = row_value(alloc, name, answers)?;
    piece_of(alloc, &document)
}

/// Why calls are refused.
fn calls_value(alloc: Global, fault: NeedsFault) -> Result<Value, OutOfMemory>
    ensures { IfOk result (λ value. view value ≡ calls_document fault) }
{
    let text = format!(in alloc; "{fault}")?;
    fault_alone(alloc, text.as_str(), None)
}

/// The document of calls that are refused, on a line: the member `fault`. The only error is out of memory.
pub fn calls_json(alloc: Global, fault: NeedsFault) -> Result<String, OutOfMemory>
    ensures { IfOk result (λ text. string_bytes text ≡ json_line (calls_document fault)) }
{
    let document = calls_value(alloc, fault)?;
    json_line(alloc, &document)
}

/// A grant that a list expands to.
fn grant_value(alloc: Global, entry: &(Path, AllowGrant)) -> Result<Value, OutOfMemory>
    ensures { IfOk result (λ value. view value ≡ grant_document entry.now) }
{
    let path = &entry.0;
    let path = format!(in alloc; "{path}")?;
    let mut grant = String::new(alloc);
    push_allow(&mut grant, &entry.1)?;
    json!(in alloc; {"grant": grant, "path": path})
}

/// The grants that a list expands to.
fn grants_value(alloc: Global, grants: &[(Path, AllowGrant)]) -> Result<Value, OutOfMemory>
    ensures { IfOk result (λ value. view value ≡ array (items_of (map grant_document grants.now))) }
{
    let mut items = Vec::new(alloc);
    for entry in grants {
        items.push(grant_value(alloc, entry)?)?;
    }
    Ok(Value::from(items))
}

/// The document of a list and the grants that it expands to.
fn explained_value(
    alloc: Global,
    list: &CapList,
    grants: &[(Path, AllowGrant)],
) -> Result<Value, OutOfMemory>
    ensures { IfOk result (λ value. view value ≡ explained_document list.now grants.now) }
{
    let canonical = print(alloc, list)?;
    let grants = grants_value(alloc, grants)?;
    json!(in alloc; {"canonical": canonical, "grants": grants})
}

/// The document of a list and the grants that it expands to, on a line.
pub(crate) fn explained_json(
    alloc: Global,
    list: &CapList,
    grants: &[(Path, AllowGrant)],
) -> Result<String, OutOfMemory>
    ensures { IfOk result (λ text. string_bytes text ≡ json_line (explained_document list.now grants.now)) }
{
    let document = explained_value(alloc, list, grants)?;
    json_line(alloc, &document)
}

/// Why a list is not expanded.
fn expansion_value(alloc: Global, fault: ExpandFault) -> Result<Value, OutOfMemory>
    ensures { IfOk result (λ value. view value ≡ expansion_document fault) }
{
    let text = format!(in alloc; "{fault}")?;
    fault_alone(alloc, text.as_str(), None)
}

/// The document of a list that is not expanded, on a line.
pub(crate) fn expansion_json(alloc: Global, fault: ExpandFault) -> Result<String, OutOfMemory>
    ensures { IfOk result (λ text. string_bytes text ≡ json_line (expansion_document fault)) }
{
    let document = expansion_value(alloc, fault)?;
    json_line(alloc, &document)
}

/// Why a text spells no list.
fn spelling_value(alloc: Global, fault: CapFault) -> Result<Value, OutOfMemory>
    ensures { IfOk result (λ value. view value ≡ spelling_document fault) }
{
    let text = format!(in alloc; "{fault}")?;
    fault_alone(alloc, text.as_str(), Some(fault.at))
}

/// The document of a text that spells no list, on a line.
pub(crate) fn spelling_json(alloc: Global, fault: CapFault) -> Result<String, OutOfMemory>
    ensures { IfOk result (λ text. string_bytes text ≡ json_line (spelling_document fault)) }
{
    let document = spelling_value(alloc, fault)?;
    json_line(alloc, &document)
}
