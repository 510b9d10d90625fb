//! What entities reach, as a JSON document.

ghost use Rattle.std.specs.Prelude.{◌≡◌, ◌++◌, IfOk, OnOk, map, string_bytes};
ghost use Rattle.serde_json.specs.Data.{array};
ghost use Rattle.serde_json.specs.View.{items_of, view};
ghost use Rattle.verdict_text.specs.Documents as documents;
ghost use Rattle.verdict_text.specs.Documents.{piece};
ghost use Rattle.audit_text.specs.Json as spec;
ghost use Rattle.audit_text.specs.Json.{IsJson, cell_document, fault_document, pool_document, reached_document, unread_document};

use crate::reached::{Reached, reached_by};
use crate::words::push_cell_word;
use audit_core::Cell;
use common_types::OutOfMemory;
use serde_json::{Value, json};
use share_core::Pool;
use std::alloc::Global;
use verdict_text::{ReadEntity, Rules, TextFault, fault_value, piece_of};

fn cell_value(alloc: Global, cell: &Cell) -> Result<Value, OutOfMemory>
    ensures { IfOk result (λ value. view value ≡ cell_document cell.now) }
{
    let mut word = String::new(alloc);
    push_cell_word(&mut word, alloc, cell)?;
    Ok(Value::from(word))
}

fn cells_value(alloc: Global, cells: &[Cell]) -> Result<Value, OutOfMemory>
    ensures { IfOk result (λ value. view value ≡ array (items_of (map cell_document cells.now))) }
{
    let mut items = Vec::new(alloc);
    for cell in cells {
        items.push(cell_value(alloc, cell)?)?;
    }
    Ok(Value::from(items))
}

/// The document of an entity whose text has rights.
fn reached_value(alloc: Global, one: &Reached<'_>) -> Result<Value, OutOfMemory>
    ensures { IfOk result (λ value. view value ≡ reached_document one.now) }
{
    let cells = cells_value(alloc, one.cells.as_slice())?;
    json!(in alloc; {"cells": cells, "entity": one.entity.name.as_str()})
}

fn reached_piece(alloc: Global, one: &Reached<'_>) -> Result<String, OutOfMemory>
    ensures { IfOk result (λ text. string_bytes text ≡ piece (reached_document one.now)) }
{
    let document = reached_value(alloc, one)?;
    piece_of(alloc, &document)
}

fn reached_pieces(alloc: Global, all: &[Reached<'_>]) -> Result<String, OutOfMemory>
    ensures { IfOk result (λ text. string_bytes text ≡ spec.reached_pieces all.now) }
{
    let mut text = String::new(alloc);
    for one in all {
        text.push_str(reached_piece(alloc, one)?.as_str())?;
    }
    Ok(text)
}

fn value_of_fault(alloc: Global, fault: TextFault) -> Result<Value, OutOfMemory>
    ensures { IfOk result (λ value. view value ≡ fault_document fault) }
{
    let printed = format!(in alloc; "{fault}")?;
    fault_value(alloc, printed.as_str(), fault.byte())
}

fn unread_value(alloc: Global, name: &str, fault: TextFault) -> Result<Value, OutOfMemory>
    ensures { IfOk result (λ value. view value ≡ unread_document name.now fault) }
{
    let fault = value_of_fault(alloc, fault)?;
    json!(in alloc; {"entity": name, "fault": fault})
}

/// The piece of an entity whose text is refused.
fn fault_piece(alloc: Global, name: &str, fault: TextFault) -> Result<String, OutOfMemory>
    ensures { IfOk result (λ text. string_bytes text ≡ piece (unread_document name.now fault)) }
{
    let document = unread_value(alloc, name, fault)?;
    piece_of(alloc, &document)
}

/// The piece of an entity, if its text is refused.
fn unread_piece(alloc: Global, entity: &ReadEntity) -> Result<String, OutOfMemory>
    ensures { IfOk result (λ text. string_bytes text ≡ spec.unread_piece entity.now entity.now.osd.read) }
{
    match entity.osd.read() {
        Ok(_) => Ok(String::new(alloc)),
        Err(fault) => fault_piece(alloc, entity.name.as_str(), *fault),
    }
}

fn unread_pieces(alloc: Global, entities: &[ReadEntity]) -> Result<String, OutOfMemory>
    ensures { IfOk result (λ text. string_bytes text ≡ spec.unread_pieces entities.now) }
{
    let mut text = String::new(alloc);
    for entity in entities {
        text.push_str(unread_piece(alloc, entity)?.as_str())?;
    }
    Ok(text)
}

fn pool_value(alloc: Global, pool: &Pool) -> Result<Value, OutOfMemory>
    ensures { IfOk result (λ value. view value ≡ pool_document pool.now) }
{
    json!(in alloc; {"pool": pool.name.as_str()})
}

fn pool_piece(alloc: Global, pool: &Pool) -> Result<String, OutOfMemory>
    ensures { IfOk result (λ text. string_bytes text ≡ piece (pool_document pool.now)) }
{
    let document = pool_value(alloc, pool)?;
    piece_of(alloc, &document)
}

fn pool_pieces(alloc: Global, pools: &[Pool]) -> Result<String, OutOfMemory>
    ensures { IfOk result (λ text. string_bytes text ≡ spec.pool_pieces pools.now) }
{
    let mut text = String::new(alloc);
    for pool in pools {
        text.push_str(pool_piece(alloc, pool)?.as_str())?;
    }
    Ok(text)
}

/// Pieces without the first comma.
fn without_comma(pieces: &str) -> &str
    ensures { result.now ≡ documents.without_comma pieces.now }
{
    match pieces.strip_prefix(',') {
        Some(rest) => rest,
        None => pieces,
    }
}

/// Adds a member whose value is a list, from the pieces of its items.
fn push_list(text: &mut String, name: &str, pieces: &str) -> Result<(), OutOfMemory>
    ensures { OnOk result (string_bytes text.new ≡ string_bytes text.old ++ spec.list_member name.now pieces.now) }
{
    text.push_str("\"")?;
    text.push_str(name)?;
    text.push_str("\":[")?;
    text.push_str(without_comma(pieces))?;
    text.push_str("],")
}

fn rules_word(rules: Rules) -> &'static str
    ensures { result.now ≡ spec.rules_word rules }
{
    match rules {
        Rules::Ceph => "ceph",
        Rules::Project => "project",
    }
}

fn push_entities(text: &mut String, alloc: Global, all: &[Reached<'_>]) -> Result<(), OutOfMemory>
    ensures { OnOk result (string_bytes text.new ≡ string_bytes text.old ++ spec.entities_member all.now) }
{
    let pieces = reached_pieces(alloc, all)?;
    push_list(text, "entities", pieces.as_str())
}

fn push_not_checked(
    text: &mut String,
    alloc: Global,
    entities: &[ReadEntity],
) -> Result<(), OutOfMemory>
    ensures { OnOk result (string_bytes text.new ≡ string_bytes text.old ++ spec.unread_member entities.now) }
{
    let pieces = unread_pieces(alloc, entities)?;
    push_list(text, "not_checked", pieces.as_str())
}

fn push_pools(text: &mut String, alloc: Global, pools: &[Pool]) -> Result<(), OutOfMemory>
    ensures { OnOk result (string_bytes text.new ≡ string_bytes text.old ++ spec.pools_member pools.now) }
{
    let pieces = pool_pieces(alloc, pools)?;
    push_list(text, "pools", pieces.as_str())
}

/// Adds the members that are lists.
fn push_lists(
    text: &mut String,
    alloc: Global,
    entities: &[ReadEntity],
    pools: &[Pool],
    all: &[Reached<'_>],
) -> Result<(), OutOfMemory>
    ensures { OnOk result (string_bytes text.new ≡ string_bytes text.old ++ spec.lists entities.now pools.now all.now) }
{
    push_entities(text, alloc, all)?;
    push_not_checked(text, alloc, entities)?;
    push_pools(text, alloc, pools)
}

/// Adds the rules.
fn push_rules(text: &mut String, rules: Rules) -> Result<(), OutOfMemory>
    ensures { OnOk result (string_bytes text.new ≡ string_bytes text.old ++ spec.rules_member rules) }
{
    text.push_str("\"rules\":\"")?;
    text.push_str(rules_word(rules))?;
    text.push_str("\"")
}

/// The document of some entities that were looked at.
fn document(
    alloc: Global,
    rules: Rules,
    entities: &[ReadEntity],
    pools: &[Pool],
    all: &[Reached<'_>],
) -> Result<String, OutOfMemory>
    ensures { IfOk result (λ text. string_bytes text ≡ spec.document rules entities.now pools.now all.now) }
{
    let mut text = String::from_str(alloc, "{")?;
    push_lists(&mut text, alloc, entities, pools, all)?;
    push_rules(&mut text, rules)?;
    text.push_str("}\n")?;
    Ok(text)
}

/// What entities reach of some pools, as a JSON document on a line: `entities`, each with `entity` and `cells`, the word of each
/// pool's cell; `not_checked`, each with `entity` and `fault`, which has `name` and `number`, and `byte` where the fault has one; `pools`, each with `pool`; and `rules`, `ceph` or `project`. The
/// cells are in the order of the pools. The only error is out of memory.
pub fn audit_json(
    alloc: Global,
    rules: Rules,
    entities: &[ReadEntity],
    pools: &[Pool],
) -> Result<String, OutOfMemory>
    ensures { IfOk result (λ text. IsJson rules entities.now pools.now (string_bytes text)) }
{
    let all = reached_by(alloc, entities, pools)?;
    document(alloc, rules, entities, pools, all.as_slice())
}
