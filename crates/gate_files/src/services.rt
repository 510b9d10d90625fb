//! What entities may do at services other than object stores. Their texts are kept as they are: nothing here decides by them.

ghost use Rattle.std.specs.Prelude.{◌≡◌};
ghost use Rattle.gate_files.specs.Services as spec;

use crate::chosen::Choice;
use common_types::OutOfMemory;
use indexmap::IndexMap;
use std::alloc::Global;

/// A service of Ceph other than object stores.
#[derive(Clone, Copy, Debug, PartialEq, Eq)]
pub enum Service {
    Mon,
    Mgr,
    Mds,
}

impl Service {
    /// The service of this name, if it is one of these.
    pub(crate) fn of(name: &str) -> Option<Service> {
        match name {
            "mon" => Some(Service::Mon),
            "mgr" => Some(Service::Mgr),
            "mds" => Some(Service::Mds),
            _ => None,
        }
    }

    /// Its name.
    pub fn name(self) -> &'static str
        ensures { result.now ≡ spec.service_name self }
    {
        match self {
            Service::Mon => "mon",
            Service::Mgr => "mgr",
            Service::Mds => "mds",
        }
    }
}

/// The text of an entity for a service.
#[derive(Drop)]
pub struct ServiceText {
    pub entity: String,
    pub service: Service,
    pub text: String,
}

/// A text that is not the same in two files. A text that a file does not have is nothing.
#[derive(Clone, Copy)]
pub struct ServiceChange<'a> {
    pub entity: &'a str,
    pub service: Service,
    pub old: Option<&'a str>,
    pub new: Option<&'a str>,
}

impl ServiceChange<'_> {
    /// What became of the text.
    pub fn word(&self) -> &'static str {
        match (self.old, self.new) {
            (None, _) => "new",
            (_, None) => "gone",
            _ => "changed",
        }
    }
}

/// Keeps the texts of the entities that are chosen by their names.
pub fn keep_chosen_services(choice: Choice<'_>, texts: &mut Vec<ServiceText>) {
    texts.retain(|text| choice.has(text.entity.as_str()));
}

/// What a text is found by: no name has a blank behind a service's.
fn key_of(alloc: Global, text: &ServiceText) -> Result<String, OutOfMemory> {
    let service = text.service.name();
    let entity = text.entity.as_str();
    format!(in alloc; "{service} {entity}")
}

/// The texts by what they are found by.
fn by_key(alloc: Global, texts: &[ServiceText]) -> Result<IndexMap<String, usize>, OutOfMemory> {
    let mut places = IndexMap::new(alloc);
    for (place, text) in texts.iter().enumerate() {
        places.insert(key_of(alloc, text)?, place)?;
    }
    Ok(places)
}

/// The text among others that is of the same entity and service.
fn same_of<'a>(
    alloc: Global,
    places: &IndexMap<String, usize>,
    texts: &'a [ServiceText],
    text: &ServiceText,
) -> Result<Option<&'a ServiceText>, OutOfMemory> {
    let key = key_of(alloc, text)?;
    match places.get(key.as_str()) {
        Some(place) => Ok(texts.get(*place)),
        None => Ok(None),
    }
}

/// Each text that is not the same in two files: the new file's in its order, and then those that it has not. The time is linear.
pub fn service_changes<'a>(
    alloc: Global,
    old: &'a [ServiceText],
    new: &'a [ServiceText],
) -> Result<Vec<ServiceChange<'a>>, OutOfMemory> {
    let old_places = by_key(alloc, old)?;
    let new_places = by_key(alloc, new)?;
    let mut changes = Vec::new(alloc);
    for text in new {
        let before = same_of(alloc, &old_places, old, text)?;
        let before = before.map(|it| it.text.as_str());
        if before != Some(text.text.as_str()) {
            changes.push(ServiceChange {
                entity: text.entity.as_str(),
                service: text.service,
                old: before,
                new: Some(text.text.as_str()),
            })?;
        }
    }
    for text in old {
        if same_of(alloc, &new_places, new, text)?.is_none() {
            changes.push(ServiceChange {
                entity: text.entity.as_str(),
                service: text.service,
                old: Some(text.text.as_str()),
                new: None,
            })?;
        }
    }
    Ok(changes)
}
