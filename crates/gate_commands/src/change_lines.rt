//! The lines of `ceph` that turn the entities of one file into those of another.

use caps_lines::{Verb, push_line};
use common_types::OutOfMemory;
use gate_files::{AuthFile, ServiceChange, ServiceText};
use indexmap::{IndexMap, IndexSet};
use std::alloc::Global;
use verdict_text::{Entity, NamedEntities};

/// The texts for other services of one file, by their entities. A file has those of an entity side by side.
struct ByEntity<'a> {
    texts: &'a [ServiceText],
    /// Where the texts of an entity begin.
    places: IndexMap<String, usize>,
}

impl Drop for ByEntity<'_> {
    fn drop(self) {
        let ByEntity {
            texts: _,
            places: _,
        } = self;
    }
}

impl<'a> ByEntity<'a> {
    fn of(alloc: Global, texts: &'a [ServiceText]) -> Result<ByEntity<'a>, OutOfMemory> {
        let mut places = IndexMap::new(alloc);
        for (place, text) in texts.iter().enumerate() {
            if !places.contains_key(text.entity.as_str()) {
                places.insert(text.entity.clone()?, place)?;
            }
        }
        Ok(ByEntity { texts, places })
    }

    /// The texts from the first of an entity on.
    fn from_first(&self, entity: &str) -> &'a [ServiceText] {
        match self.places.get(entity) {
            Some(place) => self.texts.get(*place..).unwrap_or(&[]),
            None => &[],
        }
    }

    /// The texts of an entity.
    fn find(&self, alloc: Global, entity: &str) -> Result<Vec<&'a ServiceText>, OutOfMemory> {
        let mut found = Vec::new(alloc);
        for text in self.from_first(entity) {
            if text.entity.as_str() != entity {
                break;
            }
            found.push(text)?;
        }
        Ok(found)
    }
}

/// The entities whose texts for other services are not the same in both files.
fn changed_services(
    alloc: Global,
    changes: &[ServiceChange<'_>],
) -> Result<IndexSet<String>, OutOfMemory> {
    let mut names = IndexSet::new(alloc);
    for change in changes {
        names.insert(String::from_str(alloc, change.entity)?)?;
    }
    Ok(names)
}

/// What is to be done with an entity of the new file, if anything is.
fn verb_of(old: Option<&Entity>, new: &Entity, is_changed: bool) -> Option<Verb> {
    match old {
        None => Some(Verb::Add),
        Some(old) if is_changed || old.osd.as_str() != new.osd.as_str() => Some(Verb::Replace),
        Some(_) => None,
    }
}

/// Adds the lines for the entities of the new file that are not left out.
fn push_kept(
    alloc: Global,
    lines: &mut String,
    old: &AuthFile,
    new: &AuthFile,
    changes: &[ServiceChange<'_>],
    left_out: &IndexSet<String>,
) -> Result<(), OutOfMemory> {
    let before = NamedEntities::of(alloc, old.entities.as_slice())?;
    let services = ByEntity::of(alloc, new.services.as_slice())?;
    let changed = changed_services(alloc, changes)?;
    for entity in &new.entities {
        let name = entity.name.as_str();
        if left_out.contains(name) {
            continue;
        }
        if let Some(verb) = verb_of(before.find(name), entity, changed.contains(name)) {
            let texts = services.find(alloc, name)?;
            push_line(lines, verb, name, texts.as_slice(), entity.osd.as_str())?;
        }
    }
    Ok(())
}

/// The lines of `ceph` that turn the entities of the old file into those of the new one: first those of the new file in its
/// order, then the removal of those that it has not. Entities that are left out have no lines.
pub(crate) fn change_lines(
    alloc: Global,
    old: &AuthFile,
    new: &AuthFile,
    changes: &[ServiceChange<'_>],
    left_out: &IndexSet<String>,
) -> Result<String, OutOfMemory> {
    let mut lines = String::new(alloc);
    push_kept(alloc, &mut lines, old, new, changes, left_out)?;
    let after = NamedEntities::of(alloc, new.entities.as_slice())?;
    for entity in &old.entities {
        let name = entity.name.as_str();
        if after.find(name).is_none() && !left_out.contains(name) {
            push_line(&mut lines, Verb::Remove, name, &[], "")?;
        }
    }
    Ok(lines)
}
