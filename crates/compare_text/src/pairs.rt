//! The entities of two lists whose texts differ, each text read once.

ghost use Rattle.std.specs.Prelude.{◌≡◌, ◌++◌, Ok, IfOk, None, OnOk};
ghost use Rattle.std.specs.Option.{option_to_list};
ghost use Rattle.std.specs.Str.{bytes_eq};
ghost use Rattle.compare_text.specs.Entities as spec;
ghost use Rattle.compare_text.specs.Pairs.{AreFoundOf, ArePairs, IsBothPair, IsNewPair, IsNewPairBy, IsOldPair, IsOldPairBy};

use crate::relation::Presence;
use common_types::OutOfMemory;
use rights_core::Rights;
use std::alloc::Global;
use verdict_core::Ticket;
use verdict_text::{Entity, NamedEntities, Reader, Reading};

/// An entity of two lists, and what its texts were read as. A list that lacks the entity gives it no rights.
pub struct ReadPair<'a> {
    pub name: &'a str,
    pub presence: Presence,
    pub old: Reading,
    pub new: Reading,
}

impl Drop for ReadPair<'_> {
    fn drop(self) {
        let ReadPair {
            name: _,
            presence: _,
            old: _,
            new: _,
        } = self;
    }
}

/// The rights of an entity that a list does not have.
fn no_rights(alloc: Global) -> Reading
    ensures { result ≡ Ok spec.nothing }
{
    Ok(Rights::from_ticket(alloc, Ticket::empty(alloc, None)))
}

/// The pair of an entity that both lists have. It has none where its texts are the same, byte for byte: every reader gives them the
/// same rights.
fn both_pair<'a>(
    alloc: Global,
    reader: &Reader,
    name: &'a str,
    old: &str,
    new: &str,
) -> Result<Option<ReadPair<'a>>, OutOfMemory>
    ensures { IfOk result (λ found. IsBothPair (bytes_eq old.now new.now) reader.now name.now old.now new.now found) }
{
    if old == new {
        return Ok(None);
    }
    Ok(Some(ReadPair {
        name,
        presence: Presence::Both,
        old: reader.read(alloc, old, None)?,
        new: reader.read(alloc, new, None)?,
    }))
}

/// The pair of an entity that the old list alone has.
fn gone_pair<'a>(
    alloc: Global,
    reader: &Reader,
    entity: &'a Entity,
) -> Result<Option<ReadPair<'a>>, OutOfMemory>
    ensures { IfOk result (λ found. IsOldPairBy reader.now None entity.now found) }
{
    Ok(Some(ReadPair {
        name: entity.name.as_str(),
        presence: Presence::Gone,
        old: reader.read(alloc, entity.osd.as_str(), None)?,
        new: no_rights(alloc),
    }))
}

/// The pair of an entity that the new list alone has.
fn added_pair<'a>(
    alloc: Global,
    reader: &Reader,
    entity: &'a Entity,
) -> Result<Option<ReadPair<'a>>, OutOfMemory>
    ensures { IfOk result (λ found. IsNewPairBy reader.now None entity.now found) }
{
    Ok(Some(ReadPair {
        name: entity.name.as_str(),
        presence: Presence::New,
        old: no_rights(alloc),
        new: reader.read(alloc, entity.osd.as_str(), None)?,
    }))
}

/// The pair of an entity of the old list.
fn old_pair<'a>(
    alloc: Global,
    reader: &Reader,
    entity: &'a Entity,
    new: &NamedEntities<'_>,
) -> Result<Option<ReadPair<'a>>, OutOfMemory>
    ensures { IfOk result (λ found. IsOldPair reader.now new.now entity.now found) }
{
    let name = entity.name.as_str();
    match new.find(name) {
        None => gone_pair(alloc, reader, entity),
        Some(other) => both_pair(alloc, reader, name, entity.osd.as_str(), other.osd.as_str()),
    }
}

/// The pair of an entity of the new list. It has none where the old list has the entity.
fn new_pair<'a>(
    alloc: Global,
    reader: &Reader,
    entity: &'a Entity,
    old: &NamedEntities<'_>,
) -> Result<Option<ReadPair<'a>>, OutOfMemory>
    ensures { IfOk result (λ found. IsNewPair reader.now old.now entity.now found) }
{
    match old.find(entity.name.as_str()) {
        None => added_pair(alloc, reader, entity),
        Some(_) => Ok(None),
    }
}

/// Adds a pair, if there is one.
fn push_found<'a>(
    pairs: &mut Vec<ReadPair<'a>>,
    found: Option<ReadPair<'a>>,
) -> Result<(), OutOfMemory>
    ensures { OnOk result (pairs.new.items ≡ pairs.old.items ++ option_to_list found.entry) }
{
    if let Some(pair) = found {
        pairs.push(pair)?;
    }
    Ok(())
}

/// The pairs of the entities of the old list, in its order.
fn old_pairs<'a>(
    alloc: Global,
    reader: &Reader,
    old: &'a [Entity],
    new: &NamedEntities<'_>,
) -> Result<Vec<ReadPair<'a>>, OutOfMemory>
    ensures { IfOk result (λ pairs. AreFoundOf (IsOldPair reader.now new.now) old.now pairs.items) }
{
    let mut pairs = Vec::new(alloc);
    for entity in old {
        let found = old_pair(alloc, reader, entity, new)?;
        push_found(&mut pairs, found)?;
    }
    Ok(pairs)
}

/// The pairs of the entities of the new list, in its order.
fn new_pairs<'a>(
    alloc: Global,
    reader: &Reader,
    old: &NamedEntities<'_>,
    new: &'a [Entity],
) -> Result<Vec<ReadPair<'a>>, OutOfMemory>
    ensures { IfOk result (λ pairs. AreFoundOf (IsNewPair reader.now old.now) new.now pairs.items) }
{
    let mut pairs = Vec::new(alloc);
    for entity in new {
        let found = new_pair(alloc, reader, entity, old)?;
        push_found(&mut pairs, found)?;
    }
    Ok(pairs)
}

/// The pairs of two lists, whose texts `reader` reads: those of the entities of the old list in its order, and then those of the new
/// list alone. An entity has none where both lists have it with the same text, byte for byte: such a text is not read, and each
/// other one is read once. Where a list has a name twice, an entity of the other list is paired with the first of them. The only
/// error is out of memory.
pub fn read_pairs<'a>(
    alloc: Global,
    reader: &Reader,
    old: &'a [Entity],
    new: &'a [Entity],
) -> Result<Vec<ReadPair<'a>>, OutOfMemory>
    ensures { IfOk result (λ pairs. ArePairs reader.now old.now new.now pairs.items) }
{
    let by_new = NamedEntities::of(alloc, new)?;
    let mut pairs = old_pairs(alloc, reader, old, &by_new)?;
    let by_old = NamedEntities::of(alloc, old)?;
    let mut of_new = new_pairs(alloc, reader, &by_old, new)?;
    pairs.append(&mut of_new)?;
    Ok(pairs)
}
