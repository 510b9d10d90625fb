//! What two texts share, and where data may flow, as JSON documents: of the same values as the lines.

use crate::detail::Detail;
use crate::flows::steps_of;
use crate::holder::Holder;
use crate::kind::Kind;
use crate::live::{live_ticket, ticket_in};
use crate::tenants::{Tenant, lives_of, tenants_of};
use crate::texts::{Examples, all_examples, fails_check};
use common_types::OutOfMemory;
use compare_text::target_example;
use flow_core::{Found, chains_from};
use rights_core::Rights;
use serde_json::{Value, json};
use share_core::{Pool, Shared};
use std::alloc::Global;
use verdict_text::Printed;

/// A document on a line, which has a list of these items under a name.
fn list_line(alloc: Global, name: &str, items: Vec<Value>) -> Result<String, OutOfMemory> {
    let list = Value::from(items).to_string(alloc)?;
    let list = list.as_str();
    format!(in alloc; "{{\"{name}\":{list}}}\n")
}

/// The document of an example.
fn shared_value(alloc: Global, kind: Kind, shared: &Shared) -> Result<Value, OutOfMemory> {
    let path = &shared.path;
    let first = format!(in alloc; "{path}")?;
    let path = &shared.other_path;
    let second = format!(in alloc; "{path}")?;
    let example = target_example(alloc, &shared.target)?;
    json!(in alloc; {"example": example, "first": first, "kind": kind.words(), "second": second})
}

/// Adds the documents of the examples of a kind.
fn push_shared(
    items: &mut Vec<Value>,
    alloc: Global,
    kind: Kind,
    examples: &[Shared],
) -> Result<(), OutOfMemory> {
    for shared in examples {
        items.push(shared_value(alloc, kind, shared)?)?;
    }
    Ok(())
}

/// The documents of all examples, kind by kind.
fn shared_values(alloc: Global, all: &Examples) -> Result<Vec<Value>, OutOfMemory> {
    let mut items = Vec::new(alloc);
    push_shared(
        &mut items,
        alloc,
        Kind::WritesWrites,
        all.writes_writes.as_slice(),
    )?;
    push_shared(
        &mut items,
        alloc,
        Kind::WritesReads,
        all.writes_reads.as_slice(),
    )?;
    push_shared(
        &mut items,
        alloc,
        Kind::ReadsWrites,
        all.reads_writes.as_slice(),
    )?;
    push_shared(
        &mut items,
        alloc,
        Kind::ReadsReads,
        all.reads_reads.as_slice(),
    )?;
    Ok(items)
}

/// What the program prints of what the rights of two texts share, as a JSON document on a line.
///
/// Its member `shared` has an item for each line of [`crate::share_read`]: `kind`, `first` and `second`, the paths of
/// the two grants, and `example`, the target. With a check it fails where one writes what the other reads or writes.
/// The only error is `OutOfMemory`, which leaves nothing. The members are this project's profile.
pub fn share_document(
    alloc: Global,
    ones: &Rights,
    others: &Rights,
    check: bool,
) -> Result<Printed, OutOfMemory> {
    let live_ones = live_ticket(alloc, ones)?;
    let live_others = live_ticket(alloc, others)?;
    let ones = ticket_in(ones, &live_ones);
    let others = ticket_in(others, &live_others);
    let all = all_examples(alloc, ones, others)?;
    let items = shared_values(alloc, &all)?;
    Ok(Printed {
        text: list_line(alloc, "shared", items)?,
        fails: fails_check(check, &all),
    })
}

/// The name of the tenant at a place.
fn name_at<'a>(tenants: &[Tenant<'a>], place: usize) -> &'a str {
    match tenants.get(place) {
        None => "",
        Some(tenant) => tenant.name,
    }
}

/// The names of those between, which are all of a chain except its end.
fn between_value(
    alloc: Global,
    tenants: &[Tenant<'_>],
    chain: &[usize],
) -> Result<Value, OutOfMemory> {
    let mut names = Vec::new(alloc);
    let Some((_, between)) = chain.split_last() else {
        return Ok(Value::from(names));
    };
    for place in between {
        let name = String::from_str(alloc, name_at(tenants, *place))?;
        names.push(Value::from(name))?;
    }
    Ok(Value::from(names))
}

/// The document of a writer and a reader, with the first step and the number of steps, and in whole with those between.
fn flow_value(
    alloc: Global,
    tenants: &[Tenant<'_>],
    writer: usize,
    found: &Found,
    detail: Detail,
) -> Result<Value, OutOfMemory> {
    let chain = found.chain.as_slice();
    let first = name_at(tenants, chain.first().copied().unwrap_or(found.end));
    let reader = name_at(tenants, found.end);
    let steps = chain.len();
    let writer = name_at(tenants, writer);
    match detail {
        Detail::Brief => {
            json!(in alloc; {"first": first, "reader": reader, "steps": steps, "writer": writer})
        }
        Detail::Whole => {
            let through = between_value(alloc, tenants, chain)?;
            json!(in alloc; {"first": first, "reader": reader, "steps": steps, "through": through, "writer": writer})
        }
    }
}

/// Adds the documents of a writer with each other tenant to which a chain was found.
fn push_flows(
    items: &mut Vec<Value>,
    alloc: Global,
    tenants: &[Tenant<'_>],
    writer: usize,
    chains: &[Found],
    detail: Detail,
) -> Result<(), OutOfMemory> {
    for found in chains {
        if found.end != writer && !found.chain.is_empty() {
            items.push(flow_value(alloc, tenants, writer, found, detail)?)?;
        }
    }
    Ok(())
}

/// The documents of all writers, by the chains that the steps give.
fn flow_values(
    alloc: Global,
    tenants: &[Tenant<'_>],
    steps: &[Vec<usize>],
    detail: Detail,
) -> Result<Vec<Value>, OutOfMemory> {
    let mut items = Vec::new(alloc);
    for writer in 0..steps.len() {
        let chains = chains_from(alloc, steps, writer)?;
        push_flows(
            &mut items,
            alloc,
            tenants,
            writer,
            chains.as_slice(),
            detail,
        )?;
    }
    Ok(items)
}

/// What the program prints of where the data that an entity writes may flow, as a JSON document on a line.
///
/// Its member `flows` has an item for each line of [`crate::flow_entities`]: `writer`, `reader`, `first`, which is the first one
/// behind the writer, and `steps`, the length of the chain. In whole it has `through`, too, a list of the entities between them.
/// Names are as they are. With a check it fails where there is an item. The only error is `OutOfMemory`, which leaves nothing.
/// The members are this project's profile.
pub fn flow_document(
    alloc: Global,
    entities: &[Holder<'_>],
    pools: Option<&[Pool]>,
    detail: Detail,
    check: bool,
) -> Result<Printed, OutOfMemory> {
    let lives = lives_of(alloc, entities)?;
    let tenants = tenants_of(alloc, lives.as_slice())?;
    let steps = steps_of(alloc, tenants.as_slice(), pools)?;
    let items = flow_values(alloc, tenants.as_slice(), steps.as_slice(), detail)?;
    let fails = check && !items.is_empty();
    Ok(Printed {
        text: list_line(alloc, "flows", items)?,
        fails,
    })
}
