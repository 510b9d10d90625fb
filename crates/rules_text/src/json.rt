//! Checked rules as a JSON document.

ghost use Rattle.std.specs.Prelude.{◌≡◌, IfOk, flat_map, map, string_bytes};
ghost use Rattle.serde_json.specs.Data.{array};
ghost use Rattle.serde_json.specs.View.{items_of, view};
ghost use Rattle.rules_text.specs.Json as spec;
ghost use Rattle.rules_text.specs.Report.{fault_of};

use crate::checked::CheckedRule;
use crate::report::{name_at, outcome_word, push_fault_of};
use common_types::OutOfMemory;
use compare_text::{AddressedExample, addressed_value};
use rules_core::{Crossing, Finding, Found, Outcome};
use serde_json::{Value, json};
use std::alloc::Global;
use verdict_text::{Format, ReadEntity, fault_value, list_by, piece_of};

fn fault_text(alloc: Global, entities: &[ReadEntity], place: usize) -> Result<String, OutOfMemory>
    ensures { IfOk result (λ text. string_bytes text ≡ fault_of entities.now place) }
{
    let mut text = String::new(alloc);
    push_fault_of(&mut text, entities, place)?;
    Ok(text)
}

/// The byte of the fault for which the entity at an index is not checked, if the fault has one.
fn byte_of(entities: &[ReadEntity], place: usize) -> Option<usize>
    ensures { result ≡ spec.byte_of entities.now place }
{
    let entity = entities.get(place)?;
    match entity.osd.read() {
        Ok(_) => None,
        Err(fault) => fault.byte(),
    }
}

fn unread_value(
    alloc: Global,
    entities: &[ReadEntity],
    place: usize,
    name: &str,
) -> Result<Value, OutOfMemory>
    ensures { IfOk result (λ value. view value ≡ spec.unread_document name.now (fault_of entities.now place) (spec.byte_of entities.now place)) }
{
    let fault = fault_text(alloc, entities, place)?;
    let fault = fault_value(alloc, fault.as_str(), byte_of(entities, place))?;
    json!(in alloc; {"entity": name, "fault": fault})
}

fn request_value(alloc: Global, name: &str, found: &AddressedExample) -> Result<Value, OutOfMemory>
    ensures { IfOk result (λ value. view value ≡ spec.request_document name.now found.now) }
{
    let path = &found.example.path;
    let grant = format!(in alloc; "{path}")?;
    let request = addressed_value(alloc, found)?;
    json!(in alloc; {"entity": name, "grant": grant, "request": request})
}

fn crossed_value(
    alloc: Global,
    name: &str,
    other: &str,
    crossing: &Crossing,
) -> Result<Value, OutOfMemory>
    ensures { IfOk result (λ value. view value ≡ spec.crossed_document name.now other.now crossing.now) }
{
    let path = &crossing.one.example.path;
    let grant = format!(in alloc; "{path}")?;
    let other = request_value(alloc, other, &crossing.other)?;
    let request = addressed_value(alloc, &crossing.one)?;
    json!(in alloc; {"entity": name, "grant": grant, "other": other, "request": request})
}

/// The document of what is found of the entity at an index.
fn finding_value(
    alloc: Global,
    entities: &[ReadEntity],
    place: usize,
    finding: &Finding,
) -> Result<Value, OutOfMemory>
    ensures { IfOk result (λ value. view value ≡ spec.finding_document entities.now place finding.now) }
{
    let name = name_at(entities, place);
    match finding {
        Finding::Unread => unread_value(alloc, entities, place, name),
        Finding::Breach(found) => request_value(alloc, name, found),
        Finding::Crossed(other, crossing) => {
            crossed_value(alloc, name, name_at(entities, *other), crossing)
        }
    }
}

fn founds_value(
    alloc: Global,
    entities: &[ReadEntity],
    founds: &[Found],
) -> Result<Value, OutOfMemory>
    ensures { IfOk result (λ value. view value ≡ array (items_of (map (spec.found_document entities.now) founds.now))) }
{
    let mut items = Vec::new(alloc);
    for found in founds {
        items.push(finding_value(alloc, entities, found.place, &found.finding)?)?;
    }
    Ok(Value::from(items))
}

fn founds_of(outcome: &Outcome) -> &[Found]
    ensures { result.now ≡ spec.founds_of outcome.now }
{
    match outcome {
        Outcome::Nobody => &[],
        Outcome::Kept => &[],
        Outcome::Broken(founds) => founds.as_slice(),
    }
}

fn rule_value(
    alloc: Global,
    entities: &[ReadEntity],
    one: &CheckedRule<'_>,
) -> Result<Value, OutOfMemory>
    ensures { IfOk result (λ value. view value ≡ spec.rule_document entities.now one.now) }
{
    let findings = founds_value(alloc, entities, founds_of(&one.outcome))?;
    let line = one.line.line;
    let rule = one.line.text.as_str();
    let outcome = outcome_word(&one.outcome);
    json!(in alloc; {"findings": findings, "line": line, "outcome": outcome, "rule": rule})
}

fn rule_piece(
    alloc: Global,
    entities: &[ReadEntity],
    one: &CheckedRule<'_>,
) -> Result<String, OutOfMemory>
    ensures { IfOk result (λ text. string_bytes text ≡ spec.rule_piece entities.now one.now) }
{
    let document = rule_value(alloc, entities, one)?;
    piece_of(alloc, &document)
}

fn rule_pieces(
    alloc: Global,
    entities: &[ReadEntity],
    all: &[CheckedRule<'_>],
) -> Result<String, OutOfMemory>
    ensures { IfOk result (λ text. string_bytes text ≡ flat_map (spec.rule_piece entities.now) all.now) }
{
    let mut text = String::new(alloc);
    for one in all {
        text.push_str(rule_piece(alloc, entities, one)?.as_str())?;
    }
    Ok(text)
}

/// Checked rules as a JSON document on a line, with the member `checks`. Each has `findings`, `line`, `outcome` (`holds`, `fails`
/// or `nobody`) and `rule`, the text of the line. A finding has `entity` and either `fault`, for which the entity is not checked,
/// or `grant` and `request`, an object as [`addressed_value`] makes it; and `other`, with the same three, where entities are not
/// apart.
///
/// The only error is out of memory.
pub fn check_json(
    alloc: Global,
    entities: &[ReadEntity],
    all: &[CheckedRule<'_>],
) -> Result<String, OutOfMemory>
    ensures { IfOk result (λ text. string_bytes text ≡ spec.document entities.now all.now) }
{
    let pieces = rule_pieces(alloc, entities, all)?;
    list_by(alloc, "checks", pieces, Format::Json)
}
