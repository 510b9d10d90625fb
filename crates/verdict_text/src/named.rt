//! Entities that are found by their names' hash.

ghost use Rattle.std.specs.Prelude.{◌≡◌, ℕ, List, Some, None, IfOk, OnOk, option_copied, slice_get, if◌then◌else◌};
ghost use Rattle.std.specs.Option.{option_or};
ghost use Rattle.std.specs.Str.{bytes_eq};
ghost use Rattle.verdict_text.specs.Named.{entity_in};
ghost use Rattle.verdict_text.specs.FirstPlaces.{AreFirstPlaces, place_of};

use crate::entity::Entity;
use common_types::OutOfMemory;
use indexmap::IndexMap;
use std::alloc::Global;
use std::marker::Model;

/// Entities, and where each name stands first among them. Contracts see the entities.
pub struct NamedEntities<'a> {
    entities: &'a [Entity],
    places: IndexMap<String, usize>,
}

impl Drop for NamedEntities<'_> {
    fn drop(self) {
        let NamedEntities {
            entities: _,
            places: _,
        } = self;
    }
}

impl<'a> Model for NamedEntities<'a> {
    ghost use Rattle.std.specs.Prelude.{List};
    ghost use Rattle.verdict_text.specs.declared.entity.Entity.{Entity};
    ghost use Rattle.verdict_text.specs.FirstPlaces.{AreFirstPlaces};

    ghost Value = { List Entity };

    ghost view = { λ named. named.entities.now };

    ghost invariant = { λ named. AreFirstPlaces named.places.entries named.entities.now };
}

/// Adds a name with its place, if the name is not there.
fn add(places: &mut IndexMap<String, usize>, name: &str, place: usize) -> Result<(), OutOfMemory>
    ensures { OnOk result ((wanted : List ℕ) → place_of places.new.entries wanted
        ≡ option_or (place_of places.old.entries wanted) (if bytes_eq wanted name.now then Some place else None)) }
{
    if !places.contains_key(name) {
        let key = String::from_str(*places.allocator(), name)?;
        places.insert(key, place)?;
    }
    Ok(())
}

/// Where each name stands first.
fn first_places(alloc: Global, entities: &[Entity]) -> Result<IndexMap<String, usize>, OutOfMemory>
    ensures { IfOk result (λ places. AreFirstPlaces places.entries entities.now) }
{
    let mut places = IndexMap::new(alloc);
    for place in 0..entities.len() {
        add(&mut places, entities[place].name.as_str(), place)?;
    }
    Ok(places)
}

/// The entity at a place.
fn at(entities: &[Entity], place: usize) -> Option<&Entity>
    ensures { option_copied result ≡ slice_get entities.now place }
{
    entities.get(place)
}

impl<'a> NamedEntities<'a> {
    /// Entities by their names, of which it holds copies.
    pub fn of(alloc: Global, entities: &'a [Entity]) -> Result<NamedEntities<'a>, OutOfMemory>
        ensures { IfOk result (λ named. named ≡ entities.now) }
    {
        Ok(NamedEntities {
            entities,
            places: first_places(alloc, entities)?,
        })
    }

    /// The entity of this name, the first where there are more. It takes one look-up, and no memory.
    pub fn find(&self, name: &str) -> Option<&'a Entity>
        ensures { option_copied result ≡ entity_in self.now name.now }
    {
        match self.places.get(name) {
            Some(place) => at(self.entities, *place),
            None => None,
        }
    }
}
