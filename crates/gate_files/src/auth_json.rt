//! Entities as `ceph auth ls --format json` and `ceph auth get NAME --format json` print them.

use crate::auth_file::AuthFile;
use crate::doubled_keys::refuse_doubled_keys;
use crate::entity_list::EntityList;
use crate::file_fault::FileFault;
use crate::json_text::{next_key, next_text, refuse_other_text, scratch_for, skip, skip_rest};
use crate::services::Service;
use common_types::OutOfMemory;
use json::{Reader, Token};
use std::alloc::Global;

/// What the text under `osd` in an entry's `caps` is.
#[derive(Clone, Copy)]
enum OsdText<'t> {
    Missing,
    Text(&'t str),
    /// It is another value.
    Other,
}

/// What is read of an entry.
#[derive(Clone, Copy)]
struct Entry<'t> {
    /// The text under `entity`, if it is one.
    name: Option<&'t str>,
    /// Something is under `entity`.
    has_entity: bool,
    /// An object is under `caps`.
    has_caps: bool,
    osd: OsdText<'t>,
    /// The texts under `mon`, `mgr` and `mds` in `caps`, if they are texts.
    mon: Option<&'t str>,
    mgr: Option<&'t str>,
    mds: Option<&'t str>,
}

impl<'t> Entry<'t> {
    fn new() -> Entry<'t> {
        Entry {
            name: None,
            has_entity: false,
            has_caps: false,
            osd: OsdText::Missing,
            mon: None,
            mgr: None,
            mds: None,
        }
    }

    /// Gives the entry its text for a service.
    fn give_service(&mut self, service: Service, text: Option<&'t str>) {
        match service {
            Service::Mon => self.mon = text,
            Service::Mgr => self.mgr = text,
            Service::Mds => self.mds = text,
        }
    }

    /// Gives the last entity the entry's texts for other services.
    fn push_services_to(&self, entities: &mut EntityList) -> Result<(), OutOfMemory> {
        let texts = [
            (Service::Mon, self.mon),
            (Service::Mgr, self.mgr),
            (Service::Mds, self.mds),
        ];
        for (service, text) in &texts {
            if let Some(text) = text {
                let _ = entities.give_service(*service, text)?;
            }
        }
        Ok(())
    }

    /// Adds the entry to the entities before it.
    fn push_to(&self, entities: &mut EntityList) -> Result<(), FileFault> {
        let number = entities.next_number();
        let name = self.name.ok_or(FileFault::NoEntity(number))?;
        if !self.has_caps {
            return Err(FileFault::NoCaps(number));
        }
        match self.osd {
            OsdText::Missing => entities.push(name, "")?,
            OsdText::Text(osd) => entities.push(name, osd)?,
            OsdText::Other => return Err(FileFault::NoText(number)),
        }
        Ok(self.push_services_to(entities)?)
    }
}

/// Reads an entry's `caps`. At most `most` tokens follow.
fn read_caps<'t>(reader: &mut Reader<'t>, entry: &mut Entry<'t>, most: usize) {
    match reader.next() {
        Some(Token::BeginObject) => entry.has_caps = true,
        Some(token) => return skip_rest(reader, token, most),
        None => return,
    }
    for _ in 0..most {
        match next_key(reader) {
            None => return,
            Some("osd") => {
                entry.osd = match next_text(reader, most) {
                    Some(text) => OsdText::Text(text),
                    None => OsdText::Other,
                };
            }
            Some(key) => match Service::of(key) {
                Some(service) => entry.give_service(service, next_text(reader, most)),
                None => skip(reader),
            },
        }
    }
}

/// Reads the member of an entry that has this key.
fn read_member<'t>(reader: &mut Reader<'t>, entry: &mut Entry<'t>, key: &str, most: usize) {
    match key {
        "entity" => {
            entry.has_entity = true;
            entry.name = next_text(reader, most);
        }
        "caps" => read_caps(reader, entry, most),
        _ => skip(reader),
    }
}

/// Reads an entry that begins with this token.
fn read_entry<'t>(reader: &mut Reader<'t>, token: Token<'t>, most: usize) -> Entry<'t> {
    let mut entry = Entry::new();
    if !matches!(token, Token::BeginObject) {
        skip_rest(reader, token, most);
        return entry;
    }
    for _ in 0..most {
        let Some(key) = next_key(reader) else {
            break;
        };
        read_member(reader, &mut entry, key, most);
    }
    entry
}

/// Reads a list of entries behind its bracket.
fn read_list(alloc: Global, reader: &mut Reader<'_>, most: usize) -> Result<AuthFile, FileFault> {
    let mut entities = EntityList::new(alloc);
    for _ in 0..most {
        match reader.next() {
            None | Some(Token::EndArray) => break,
            Some(token) => read_entry(reader, token, most).push_to(&mut entities)?,
        }
    }
    Ok(entities.into_file()?)
}

/// Reads what an object has under `auth_dump`, which must be a list.
fn read_dump(alloc: Global, reader: &mut Reader<'_>, most: usize) -> Result<AuthFile, FileFault> {
    match reader.next() {
        Some(Token::BeginArray) => read_list(alloc, reader, most),
        _ => Err(FileFault::NoEntries),
    }
}

/// The one entity of an entry.
fn one_entity(alloc: Global, entry: &Entry<'_>) -> Result<AuthFile, FileFault> {
    if !entry.has_entity {
        return Err(FileFault::NoEntries);
    }
    let mut entities = EntityList::new(alloc);
    entry.push_to(&mut entities)?;
    Ok(entities.into_file()?)
}

/// Reads an object behind its brace: the list under `auth_dump`, or else the one entry that it is.
fn read_object(alloc: Global, reader: &mut Reader<'_>, most: usize) -> Result<AuthFile, FileFault> {
    let mut entry = Entry::new();
    for _ in 0..most {
        match next_key(reader) {
            None => break,
            Some("auth_dump") => return read_dump(alloc, reader, most),
            Some(key) => read_member(reader, &mut entry, key, most),
        }
    }
    one_entity(alloc, &entry)
}

/// The entities of a JSON text: of an object with a list under `auth_dump`, of a list, or of one entry. Members that are not
/// needed are passed over.
pub(crate) fn json_entities(alloc: Global, text: &str) -> Result<AuthFile, FileFault> {
    let mut scratch = scratch_for(alloc);
    refuse_other_text(text, &mut scratch)?;
    refuse_doubled_keys(alloc, text, &mut scratch)?;
    let most = text.len().saturating_add(1);
    let mut reader = Reader::new(text, &mut scratch)?;
    match reader.next() {
        Some(Token::BeginArray) => read_list(alloc, &mut reader, most),
        Some(Token::BeginObject) => read_object(alloc, &mut reader, most),
        _ => Err(FileFault::NoEntries),
    }
}
