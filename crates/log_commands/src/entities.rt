//! The entities of a file, found by their names.

use common_types::OutOfMemory;
use gate_files::{ServiceText, matches_any};
use indexmap::IndexMap;
use std::alloc::Global;
use verdict_text::ReadEntity;

/// The entities of a file with their texts, and those patterns of names that the arguments choose by.
pub(crate) struct Entities<'m> {
    entities: Vec<ReadEntity>,
    services: Vec<ServiceText>,
    places: IndexMap<String, usize>,
    only: &'m [&'m str],
}

impl Drop for Entities<'_> {
    fn drop(self) {
        let Entities {
            entities: _,
            services: _,
            places: _,
            only: _,
        } = self;
    }
}

/// Where each name is first.
fn places_of(
    alloc: Global,
    entities: &[ReadEntity],
) -> Result<IndexMap<String, usize>, OutOfMemory> {
    let mut places = IndexMap::new(alloc);
    for (place, entity) in entities.iter().enumerate() {
        if !places.contains_key(entity.name.as_str()) {
            places.insert(entity.name.clone()?, place)?;
        }
    }
    Ok(places)
}

impl<'m> Entities<'m> {
    pub(crate) fn of(
        alloc: Global,
        entities: Vec<ReadEntity>,
        services: Vec<ServiceText>,
        only: &'m [&'m str],
    ) -> Result<Entities<'m>, OutOfMemory> {
        let places = places_of(alloc, entities.as_slice())?;
        Ok(Entities {
            entities,
            services,
            places,
            only,
        })
    }

    /// Whether an entity of this name is chosen.
    pub(crate) fn chooses(&self, name: &str) -> bool {
        self.only.is_empty() || matches_any(self.only, name)
    }

    /// The entity of a name, if the file has it.
    pub(crate) fn find(&self, name: &str) -> Option<&ReadEntity> {
        let place = self.places.get(name)?;
        self.entities.get(*place)
    }

    /// The texts of entities for other services.
    pub(crate) fn services(&self) -> &[ServiceText] {
        self.services.as_slice()
    }
}
