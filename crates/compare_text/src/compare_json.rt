//! Comparisons as JSON documents.

ghost use Rattle.std.specs.Prelude.{◌≡◌, IfOk, string_bytes};
ghost use Rattle.serde_json.specs.View.{view};
ghost use Rattle.compare_text.specs.Compared.{compared_document, example_document, examples_document, side_document};
ghost use Rattle.verdict_text.specs.Documents.{json_line, piece};
ghost use Rattle.compare_text.specs.Entities.{change_document, unjudged_document};

use crate::compare::Change;
use crate::compare_auth::became;
use crate::relation::{Presence, Relation};
use crate::request_json::addressed_value;
use crate::widening::AddressedExample;
use common_types::OutOfMemory;
use serde_json::{Value, json};
use std::alloc::Global;
use verdict_text::{TextFault, fault_value, json_line, piece_of};

/// An example, and the path of its grant.
fn example_value(alloc: Global, found: &AddressedExample) -> Result<Value, OutOfMemory>
    ensures { IfOk result (λ value. view value ≡ example_document found.now) }
{
    let path = &found.example.path;
    let path = format!(in alloc; "{path}")?;
    let request = addressed_value(alloc, found)?;
    json!(in alloc; {"example": request, "path": path})
}

fn examples_value(alloc: Global, examples: &[AddressedExample]) -> Result<Value, OutOfMemory>
    ensures { IfOk result (λ value. view value ≡ examples_document examples.now) }
{
    let mut items = Vec::new(alloc);
    for example in examples {
        let value = example_value(alloc, example)?;
        items.push(value)?;
    }
    Ok(Value::from(items))
}

fn compared_value(alloc: Global, relation: Relation, change: &Change) -> Result<Value, OutOfMemory>
    ensures { IfOk result (λ value. view value ≡ compared_document relation change.now.gained.items change.now.lost.items) }
{
    let gained = examples_value(alloc, &change.gained)?;
    let lost = examples_value(alloc, &change.lost)?;
    json!(in alloc; {"gained": gained, "lost": lost, "relation": relation.word()})
}

/// The document of two texts, on a line.
pub(crate) fn compared_json(
    alloc: Global,
    relation: Relation,
    change: &Change,
) -> Result<String, OutOfMemory>
    ensures { IfOk result (λ text. string_bytes text ≡ json_line (compared_document relation change.now.gained.items change.now.lost.items)) }
{
    let document = compared_value(alloc, relation, change)?;
    json_line(alloc, &document)
}

fn side_value(alloc: Global, side: &str, fault: TextFault) -> Result<Value, OutOfMemory>
    ensures { IfOk result (λ value. view value ≡ side_document side.now fault) }
{
    let text = format!(in alloc; "{fault}")?;
    let fault = fault_value(alloc, text.as_str(), fault.byte())?;
    json!(in alloc; {"fault": fault, "side": side})
}

/// The document of a side that is refused, on a line.
pub(crate) fn side_json(alloc: Global, side: &str, fault: TextFault) -> Result<String, OutOfMemory>
    ensures { IfOk result (λ text. string_bytes text ≡ json_line (side_document side.now fault)) }
{
    let document = side_value(alloc, side, fault)?;
    json_line(alloc, &document)
}

fn change_value(
    alloc: Global,
    name: &str,
    word: &str,
    change: &Change,
) -> Result<Value, OutOfMemory>
    ensures { IfOk result (λ value. view value ≡ change_document name.now word.now change.now.gained.items change.now.lost.items) }
{
    let gained = examples_value(alloc, &change.gained)?;
    let lost = examples_value(alloc, &change.lost)?;
    json!(in alloc; {"change": word, "entity": name, "gained": gained, "lost": lost})
}

/// The piece of an entity whose rights change.
pub(crate) fn change_piece(
    alloc: Global,
    name: &str,
    word: &str,
    change: &Change,
) -> Result<String, OutOfMemory>
    ensures { IfOk result (λ text. string_bytes text ≡ piece (change_document name.now word.now change.now.gained.items change.now.lost.items)) }
{
    let document = change_value(alloc, name, word, change)?;
    piece_of(alloc, &document)
}

fn unjudged_value(
    alloc: Global,
    name: &str,
    presence: Presence,
    fault: TextFault,
) -> Result<Value, OutOfMemory>
    ensures { IfOk result (λ value. view value ≡ unjudged_document name.now presence fault) }
{
    let text = format!(in alloc; "{fault}")?;
    let fault = fault_value(alloc, text.as_str(), fault.byte())?;
    let change = became(presence);
    json!(in alloc; {"change": change, "entity": name, "fault": fault})
}

/// The piece of an entity one of whose texts is refused.
pub(crate) fn unjudged_piece(
    alloc: Global,
    name: &str,
    presence: Presence,
    fault: TextFault,
) -> Result<String, OutOfMemory>
    ensures { IfOk result (λ text. string_bytes text ≡ piece (unjudged_document name.now presence fault)) }
{
    let document = unjudged_value(alloc, name, presence, fault)?;
    piece_of(alloc, &document)
}
