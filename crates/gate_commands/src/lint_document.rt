//! What `osdgate lint --format json` prints: what is found of grants, as pieces of a list.

use crate::known_changes::has_class;
use crate::known_lint::{KnownLint, ceph_grants, is_mistake, known_lints};
use crate::lint::{LintArguments, Linted, nothing, push_printed};
use command_steps::{Methods, known_calls};
use common_types::OutOfMemory;
use gate_files::{Service, ServiceText, can_raise};
use lint_core::{GrantLint, Reach, Standing};
use lint_text::found_read_grants;
use serde_json::{Value, json};
use std::alloc::Global;
use verdict_text::{Printed, ReadEntity, ReadText, Reader, Rules, TextFault};

/// What is found of a grant: words, and the number of the grant that covers it if there is one.
type Found = (&'static str, Option<usize>);

/// How a grant is redundant, if it is.
fn redundant(standing: Standing) -> Option<Found> {
    match standing {
        Standing::Needed => None,
        Standing::CoveredTogether => Some(("redundant", None)),
        Standing::Covered(other) => Some(("redundant", Some(other))),
    }
}

/// That a grant reaches every pool, if it does.
fn everywhere(reach: Reach) -> Option<Found> {
    match reach {
        Reach::Bounded => None,
        Reach::EveryPoolByPrefix => Some(("every pool, by prefix", None)),
        Reach::EveryPool => Some(("every pool", None)),
    }
}

/// What is found of a grant, in the order of its lines. One that grants nothing has no other finding.
fn founds(lint: &GrantLint) -> [Option<Found>; 3] {
    if lint.nothing {
        return [Some(("unknown profile, grants nothing", None)), None, None];
    }
    if lint.dead {
        return [Some(("network matches no address", None)), None, None];
    }
    let without = if lint.without_pool {
        Some(("matches no pool", None))
    } else {
        None
    };
    [redundant(lint.standing), everywhere(lint.reach), without]
}

/// The document of a finding on a grant of a text, or of an entity.
fn found_value(
    alloc: Global,
    entity: Option<&str>,
    grant: usize,
    (found, by): Found,
) -> Result<Value, OutOfMemory> {
    match (entity, by) {
        (Some(entity), Some(by)) => {
            json!(in alloc; {"by": by, "entity": entity, "found": found, "grant": grant})
        }
        (Some(entity), None) => {
            json!(in alloc; {"entity": entity, "found": found, "grant": grant})
        }
        (None, Some(by)) => json!(in alloc; {"by": by, "found": found, "grant": grant}),
        (None, None) => json!(in alloc; {"found": found, "grant": grant}),
    }
}

/// Adds the piece of a document: a comma, and the document.
fn push_piece(
    pieces: &mut String,
    alloc: Global,
    document: Result<Value, OutOfMemory>,
) -> Result<(), OutOfMemory> {
    let document = document?.to_string(alloc)?;
    pieces.push_str(",")?;
    pieces.push_str(document.as_str())
}

/// Adds what is found of a grant.
fn push_grant(
    pieces: &mut String,
    alloc: Global,
    entity: Option<&str>,
    grant: usize,
    lint: &GrantLint,
) -> Result<(), OutOfMemory> {
    for found in &founds(lint) {
        if let Some(found) = found {
            push_piece(pieces, alloc, found_value(alloc, entity, grant, *found))?;
        }
    }
    Ok(())
}

/// What is found of each grant of a text, or of an entity.
fn pieces_of(
    alloc: Global,
    entity: Option<&str>,
    lints: &[GrantLint],
    check: bool,
) -> Result<Printed, OutOfMemory> {
    let mut text = String::new(alloc);
    for (place, lint) in lints.iter().enumerate() {
        push_grant(&mut text, alloc, entity, place + 1, lint)?;
    }
    let fails = check && lints.iter().any(|lint| is_mistake(lint));
    Ok(Printed { text, fails })
}

/// The answer over the methods of Ceph's class table, if these matter.
fn known_pieces(
    alloc: Global,
    entity: Option<&str>,
    text: &ReadText,
    arguments: LintArguments<'_>,
) -> Result<Option<Printed>, OutOfMemory> {
    let Some((rights, count)) = ceph_grants(text) else {
        return Ok(None);
    };
    if arguments.methods == Methods::Every && !has_class(rights) {
        return Ok(None);
    }
    let calls = known_calls(alloc)?;
    let how = KnownLint {
        methods: arguments.methods,
        calls: calls.as_slice(),
        pools: arguments.pools,
        check: arguments.check,
    };
    let lints = known_lints(alloc, how, rights, count)?;
    Ok(Some(pieces_of(alloc, entity, lints.as_slice(), arguments.check)?))
}

/// What is found of the grants of a text, or why it is refused.
pub(crate) fn text_pieces(
    alloc: Global,
    reader: &Reader,
    text: &ReadText,
    arguments: LintArguments<'_>,
) -> Result<Result<Linted, TextFault>, OutOfMemory> {
    match found_read_grants(alloc, reader, text, arguments.pools)? {
        Err(fault) => Ok(Err(fault)),
        Ok(lints) => Ok(Ok(Linted {
            every: pieces_of(alloc, None, lints.as_slice(), arguments.check)?,
            known: known_pieces(alloc, None, text, arguments)?,
        })),
    }
}

/// Adds what is found of the grants of an entity, over every class registry and over the methods of Ceph's class table.
/// One whose text is refused has nothing.
fn push_entity(
    every: &mut Printed,
    known: &mut Printed,
    alloc: Global,
    reader: &Reader,
    entity: &ReadEntity,
    arguments: LintArguments<'_>,
) -> Result<(), OutOfMemory> {
    let name = Some(entity.name.as_str());
    if let Ok(lints) = found_read_grants(alloc, reader, &entity.osd, arguments.pools)? {
        let own = pieces_of(alloc, name, lints.as_slice(), arguments.check)?;
        let limited = known_pieces(alloc, name, &entity.osd, arguments)?;
        push_printed(every, &own)?;
        push_printed(known, limited.as_ref().unwrap_or(&own))?;
    }
    Ok(())
}

/// What is found of the grants of entities.
pub(crate) fn entity_pieces(
    alloc: Global,
    reader: &Reader,
    entities: &[ReadEntity],
    arguments: LintArguments<'_>,
) -> Result<Linted, OutOfMemory> {
    let mut every = nothing(alloc);
    let mut known = nothing(alloc);
    for entity in entities {
        push_entity(&mut every, &mut known, alloc, reader, entity, arguments)?;
    }
    let known = match reader.rules() {
        Rules::Ceph => Some(known),
        Rules::Project => None,
    };
    Ok(Linted { every, known })
}

/// Pieces without the first comma.
fn without_comma(pieces: &str) -> &str {
    pieces.strip_prefix(',').unwrap_or(pieces)
}

/// The document of pieces of findings on a text, on a line.
pub(crate) fn text_document(alloc: Global, pieces: &str) -> Result<String, OutOfMemory> {
    let grants = without_comma(pieces);
    format!(in alloc; "{{\"grants\":[{grants}]}}\n")
}

/// The pieces of the monitor texts that let their entities change the capabilities of others or their own.
fn service_pieces(alloc: Global, services: &[ServiceText]) -> Result<String, OutOfMemory> {
    let mut pieces = String::new(alloc);
    for service in services {
        if service.service == Service::Mon && can_raise(service.text.as_str()) {
            let entity = service.entity.as_str();
            let document =
                json!(in alloc; {"entity": entity, "found": "lets it give any capabilities", "service": "mon"});
            push_piece(&mut pieces, alloc, document)?;
        }
    }
    Ok(pieces)
}

/// The document of pieces of findings on entities, and of what their monitor texts give, on a line.
pub(crate) fn entities_document(
    alloc: Global,
    pieces: &str,
    services: &[ServiceText],
) -> Result<String, OutOfMemory> {
    let grants = without_comma(pieces);
    let services = service_pieces(alloc, services)?;
    let services = without_comma(services.as_str());
    format!(in alloc; "{{\"grants\":[{grants}],\"services\":[{services}]}}\n")
}
