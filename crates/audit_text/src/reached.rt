//! What the entities of a cluster reach.

ghost use Rattle.std.specs.Prelude.{◌≡◌, ◌++◌, ◌≤◌, ◌<◌, Ok, IfOk, OnOk, count_by, length, option_copied, string_bytes};
ghost use Rattle.std.specs.List.{find};
ghost use Rattle.std.specs.Option.{option_to_list};
ghost use Rattle.audit_text.specs.Reached.{AreReached, IsFound, IsReached};
ghost use Rattle.audit_text.specs.Reached as spec;

use crate::words::push_cell_word;
use audit_core::{Cell, cells};
use common_types::{Name, OutOfMemory};
use rights_core::Rights;
use share_core::Pool;
use std::alloc::Global;
use verdict_text::ReadEntity;

/// An entity whose text has rights, and what these reach of each pool, in the order of the pools.
#[derive(Debug, Drop)]
pub struct Reached<'a> {
    pub entity: &'a ReadEntity,
    pub cells: Vec<Cell>,
    /// The words of the cells, each before a blank.
    pub words: Name,
}

/// The words of some cells, each before a blank.
fn words_of(alloc: Global, cells: &[Cell]) -> Result<Name, OutOfMemory>
    ensures { IfOk result (λ words. words ≡ spec.words_of cells.now) }
{
    let mut text = String::new(alloc);
    for cell in cells {
        push_cell_word(&mut text, alloc, cell)?;
        text.push_str(" ")?;
    }
    Ok(Name::from_string(text))
}

/// What an entity with these rights reaches of each pool.
fn reached_of<'a>(
    alloc: Global,
    entity: &'a ReadEntity,
    rights: &Rights,
    pools: &[Pool],
) -> Result<Reached<'a>, OutOfMemory>
    requires { entity.now.osd.read ≡ Ok rights.now }
    ensures { IfOk result (λ reached. IsReached pools.now entity.now reached) }
{
    let cells = cells(alloc, rights, 0, pools)?;
    let words = words_of(alloc, cells.as_slice())?;
    Ok(Reached {
        entity,
        cells,
        words,
    })
}

/// What an entity reaches of each pool, if its text has rights.
fn found_of<'a>(
    alloc: Global,
    entity: &'a ReadEntity,
    pools: &[Pool],
) -> Result<Option<Reached<'a>>, OutOfMemory>
    ensures { IfOk result (λ found. IsFound pools.now entity.now found) }
{
    match entity.osd.read() {
        Ok(rights) => Ok(Some(reached_of(alloc, entity, rights, pools)?)),
        Err(_) => Ok(None),
    }
}

/// Adds what was found, if it was.
fn push_found<'a>(all: &mut Vec<Reached<'a>>, found: Option<Reached<'a>>) -> Result<(), OutOfMemory>
    ensures { OnOk result (all.new.items ≡ all.old.items ++ option_to_list found.entry) }
{
    match found {
        None => Ok(()),
        Some(reached) => Ok(all.push(reached)?),
    }
}

/// What each entity reaches of each pool, in order. An entity whose text is refused has no rights, and is left out: the caller
/// tells of it. The only error is out of memory.
pub fn reached_by<'a>(
    alloc: Global,
    entities: &'a [ReadEntity],
    pools: &[Pool],
) -> Result<Vec<Reached<'a>>, OutOfMemory>
    ensures { IfOk result (λ all. AreReached entities.now pools.now all.items) }
{
    let mut all = Vec::new(alloc);
    for entity in entities {
        let found = found_of(alloc, entity, pools)?;
        push_found(&mut all, found)?;
    }
    Ok(all)
}

/// Whether two entities have one text, and the same words.
pub fn is_alike(one: &Reached<'_>, other: &Reached<'_>) -> bool
    ensures { result ≡ spec.is_alike one.now other.now }
{
    one.entity.osd.text() == other.entity.osd.text() && one.words.equals(&other.words)
}

/// The first entity in the row of one.
fn first_alike<'m, 'a>(all: &'m [Reached<'a>], one: &Reached<'_>) -> Option<&'m Reached<'a>>
    ensures { option_copied result ≡ find (spec.is_alike one.now) all.now }
{
    all.iter().find(|other| is_alike(one, other))
}

/// Whether an entity stands first in its row.
pub fn is_first(all: &[Reached<'_>], one: &Reached<'_>) -> bool
    ensures { result ≡ spec.is_first all.now one.now }
{
    match first_alike(all, one) {
        None => false,
        Some(first) => first.entity.name.as_str() == one.entity.name.as_str(),
    }
}

/// How many entities stand in the row of one.
pub(crate) fn row_count(all: &[Reached<'_>], one: &Reached<'_>) -> usize
    ensures { result ≡ length (spec.members all.now one.now) }
{
    all.iter().filter(|other| is_alike(one, other)).count()
}
