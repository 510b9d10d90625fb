//! What entities are given where requests call the methods of Ceph's class table alone.

use crate::known_changes::has_class;
use command_steps::{gives_more, known_calls, limited_rights};
use common_types::OutOfMemory;
use std::alloc::Global;
use verdict_core::ClassCall;
use verdict_text::{ReadEntity, Reading, Rules};

/// A reading whose grants give what they do where requests call these methods alone.
pub(crate) fn limited_reading(
    alloc: Global,
    reading: &Reading,
    calls: &[ClassCall],
) -> Result<Reading, OutOfMemory> {
    match reading {
        Ok(rights) => Ok(Ok(limited_rights(alloc, rights, calls)?)),
        Err(fault) => Ok(Err(*fault)),
    }
}

/// Whether an entity has a grant for a class. Flags cover methods of the table that read and methods that write, as of every
/// registry.
fn is_for_class(entity: &ReadEntity) -> bool {
    match entity.osd.read() {
        Ok(rights) => has_class(rights),
        Err(_) => false,
    }
}

/// Whether an entity is given more over every class registry than over these methods.
fn is_given_more(entity: &ReadEntity, calls: &[ClassCall]) -> bool {
    match entity.osd.read() {
        Ok(rights) => gives_more(rights, calls),
        Err(_) => false,
    }
}

/// The readings of entities where requests call the methods of Ceph's class table alone; or nothing where they are given as much over
/// every class registry, or are read by this project's rules.
pub(crate) fn limited_readings(
    alloc: Global,
    rules: Rules,
    entities: &[ReadEntity],
) -> Result<Option<Vec<Reading>>, OutOfMemory> {
    if rules == Rules::Project || !entities.iter().any(|entity| is_for_class(entity)) {
        return Ok(None);
    }
    let calls = known_calls(alloc)?;
    let calls = calls.as_slice();
    if !entities.iter().any(|entity| is_given_more(entity, calls)) {
        return Ok(None);
    }
    let mut readings = Vec::with_capacity(alloc, entities.len())?;
    for entity in entities {
        readings.push(limited_reading(alloc, entity.osd.read(), calls)?)?;
    }
    Ok(Some(readings))
}
