//! The entities of files that a command is about.

use crate::unchecked::{Unchecked, all_unchecked, unchecked_line};
use common_types::OutOfMemory;
use name_patterns::{matches, matches_any};
use std::alloc::Global;
use std::mem;
use verdict_text::{Entity, ReadEntity, ReadText, Reader, push_name};

/// Which entities of a file a command is about.
#[derive(Clone, Copy)]
pub struct Choice<'m> {
    /// Patterns, one of which a name matches, if there are any.
    pub only: &'m [&'m str],
    /// Patterns, none of which a name matches.
    pub without: &'m [&'m str],
    /// Patterns of names: an entity that could not be checked and matches one is left out, and does not make the command fail.
    pub known: &'m [&'m str],
}

impl Choice<'_> {
    /// Whether a name is chosen.
    pub(crate) fn has(&self, name: &str) -> bool {
        (self.only.is_empty() || matches_any(self.only, name)) && !matches_any(self.without, name)
    }

    /// Whether it is accepted that an entity of this name is not checked.
    pub fn accepts(&self, name: &str) -> bool {
        matches_any(self.known, name)
    }
}

/// Whether a pattern matches an entity of some files.
fn matches_one(files: &[&[Entity]], pattern: &str) -> bool {
    files.iter().any(|entities| entities.iter().any(|it| matches(pattern, it.name.as_str())))
}

/// The first of some patterns that matches no entity of some files.
fn unmatched<'m>(files: &[&[Entity]], patterns: &[&'m str]) -> Option<&'m str> {
    for pattern in patterns {
        if !matches_one(files, pattern) {
            return Some(*pattern);
        }
    }
    None
}

/// That a pattern of an option matches no entity.
fn unmatched_by(alloc: Global, option: &str, pattern: &str) -> Result<String, OutOfMemory> {
    let mut line = format!(in alloc; "`--{option}` matches no entity of the file: ")?;
    push_name(&mut line, pattern)?;
    Ok(line)
}

/// That a pattern of the choice matches no entity of some files, if one does not. A typo in it cannot silently keep a tenant
/// in the answer.
pub fn unmatched_line(
    alloc: Global,
    choice: Choice<'_>,
    files: &[&[Entity]],
) -> Result<Option<String>, OutOfMemory> {
    if let Some(pattern) = unmatched(files, choice.only) {
        return Ok(Some(unmatched_by(alloc, "only", pattern)?));
    }
    match unmatched(files, choice.without) {
        Some(pattern) => Ok(Some(unmatched_by(alloc, "without", pattern)?)),
        None => Ok(None),
    }
}

/// Keeps the entities that are chosen by their names.
pub fn keep_chosen(choice: Choice<'_>, entities: &mut Vec<Entity>) {
    entities.retain(|entity| choice.has(entity.name.as_str()));
}

/// Reads the text of each entity. The only error is out of memory.
pub fn read_all(
    alloc: Global,
    reader: &Reader,
    entities: Vec<Entity>,
) -> Result<Vec<ReadEntity>, OutOfMemory> {
    let mut all = Vec::with_capacity(alloc, entities.len())?;
    for mut entity in entities {
        let name = mem::replace(&mut entity.name, String::new(alloc));
        let text = mem::replace(&mut entity.osd, String::new(alloc));
        let osd = ReadText::of(alloc, reader, text, None)?;
        all.push(ReadEntity { name, osd })?;
    }
    Ok(all)
}

/// The entities that a command is about, each read once.
pub struct Chosen {
    entities: Vec<ReadEntity>,
    /// Those that could not be checked, also if they are left out of the entities.
    unchecked: Vec<Unchecked>,
    fails: bool,
}

impl Drop for Chosen {
    fn drop(self) {
        let Chosen {
            entities: _,
            unchecked: _,
            fails: _,
        } = self;
    }
}

impl Chosen {
    /// Reads the texts of chosen entities. Those that could not be checked are left out if the choice accepts that, and else
    /// make the command fail. The only error is out of memory.
    pub fn of(
        alloc: Global,
        reader: &Reader,
        choice: Choice<'_>,
        entities: Vec<Entity>,
    ) -> Result<Chosen, OutOfMemory> {
        let mut entities = read_all(alloc, reader, entities)?;
        let unchecked = all_unchecked(alloc, entities.as_slice())?;
        let fails = unchecked.iter().any(|it| !choice.accepts(it.name.as_str()));
        entities.retain(|it| it.osd.read().is_ok() || !choice.accepts(it.name.as_str()));
        Ok(Chosen {
            entities,
            unchecked,
            fails,
        })
    }

    /// The entities, in their order.
    pub fn entities(&self) -> &[ReadEntity] {
        self.entities.as_slice()
    }

    /// The entities with their texts, which are read again.
    pub fn unread(&self, alloc: Global) -> Result<Vec<Entity>, OutOfMemory> {
        let mut entities = Vec::with_capacity(alloc, self.entities.len())?;
        for entity in &self.entities {
            entities.push(Entity {
                name: entity.name.clone()?,
                osd: String::from_str(alloc, entity.osd.text())?,
            })?;
        }
        Ok(entities)
    }

    /// The entities that could not be checked, also those that are left out.
    pub fn unchecked(&self) -> &[Unchecked] {
        self.unchecked.as_slice()
    }

    /// Whether an entity could not be checked, and that makes the command fail.
    pub fn fails(&self) -> bool {
        self.fails
    }

    /// The line on entities that could not be checked.
    pub fn notes(&self, alloc: Global) -> Result<String, OutOfMemory> {
        unchecked_line(alloc, self.unchecked())
    }
}
