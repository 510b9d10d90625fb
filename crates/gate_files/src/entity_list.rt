//! The entities of a file, one after another.

use crate::auth_file::AuthFile;
use crate::file_fault::FileFault;
use crate::services::{Service, ServiceText};
use common_types::OutOfMemory;
use indexmap::IndexMap;
use std::alloc::Global;
use verdict_text::Entity;

/// Entities in the order of a file, found by their names, so that one that stands twice is found at once.
pub(crate) struct EntityList {
    alloc: Global,
    /// The text for object stores of each name.
    texts: IndexMap<String, String>,
    /// Their texts for other services.
    services: Vec<ServiceText>,
}

impl Drop for EntityList {
    fn drop(self) {
        let EntityList {
            alloc: _,
            texts: _,
            services: _,
        } = self;
    }
}

impl EntityList {
    pub(crate) fn new(alloc: Global) -> EntityList {
        EntityList {
            alloc,
            texts: IndexMap::new(alloc),
            services: Vec::new(alloc),
        }
    }

    pub(crate) fn is_empty(&self) -> bool {
        self.texts.is_empty()
    }

    /// The number of the next entity, from 1.
    pub(crate) fn next_number(&self) -> usize {
        self.texts.len().saturating_add(1)
    }

    /// Adds an entity to those before it, none of which may have its name.
    pub(crate) fn push(&mut self, name: &str, osd: &str) -> Result<(), FileFault> {
        let name = String::from_str(self.alloc, name)?;
        let osd = String::from_str(self.alloc, osd)?;
        match self.texts.insert(name, osd)? {
            None => Ok(()),
            Some(_) => Err(FileFault::Doubled(self.next_number())),
        }
    }

    /// Gives the last entity its text; whether there is one, which had none before.
    pub(crate) fn give_text(&mut self, text: String) -> bool {
        match self.texts.last_mut() {
            Some(osd) if osd.is_empty() => {
                *osd = text;
                true
            }
            _ => false,
        }
    }

    /// Gives the last entity its text for a service; whether there is one, which had none before.
    pub(crate) fn give_service(
        &mut self,
        service: Service,
        text: &str,
    ) -> Result<bool, OutOfMemory> {
        let Some((name, _)) = self.texts.last() else {
            return Ok(false);
        };
        let name = name.as_str();
        // The texts of the last entity are the last ones.
        let is_doubled = self
            .services
            .iter()
            .rev()
            .take(3)
            .any(|it| it.service == service && it.entity.as_str() == name);
        if is_doubled {
            return Ok(false);
        }
        self.services.push(ServiceText {
            entity: String::from_str(self.alloc, name)?,
            service,
            text: String::from_str(self.alloc, text)?,
        })?;
        Ok(true)
    }

    /// The entities and their texts for other services, in their order.
    pub(crate) fn into_file(self) -> Result<AuthFile, OutOfMemory> {
        let EntityList {
            alloc,
            texts,
            services,
        } = self;
        let mut entities = Vec::with_capacity(alloc, texts.len())?;
        for (name, osd) in texts {
            entities.push(Entity { name, osd })?;
        }
        Ok(AuthFile { entities, services })
    }
}
