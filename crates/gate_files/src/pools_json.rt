//! Pools as `ceph osd dump --format json` and `ceph osd pool ls detail --format json` print them.

use crate::doubled_keys::refuse_doubled_keys;
use crate::file_fault::FileFault;
use crate::input_files::without_mark;
use crate::json_text::{next_key, next_text, refuse_other_text, scratch_for, skip, skip_rest};
use common_types::{AppTags, Name, OutOfMemory, Pairs, Tags};
use indexmap::IndexSet;
use json::{Reader, Token};
use share_core::Pool;
use std::alloc::Global;

/// What is read of an entry.
struct Entry<'t> {
    /// The text under `pool_name`, if it is one.
    name: Option<&'t str>,
    /// The applications, if an object of objects of texts is under `application_metadata`.
    tags: Option<Tags>,
}

impl Drop for Entry<'_> {
    fn drop(self) {
        let Entry { name: _, tags: _ } = self;
    }
}

impl<'t> Entry<'t> {
    fn into_parts(self) -> (Option<&'t str>, Option<Tags>) {
        let Entry { name, tags } = self;
        (name, tags)
    }
}

/// The pools of a file, and their names, so that a doubled one is found at once.
struct PoolList {
    pools: Vec<Pool>,
    names: IndexSet<String>,
}

impl Drop for PoolList {
    fn drop(self) {
        let PoolList { pools: _, names: _ } = self;
    }
}

impl PoolList {
    fn new(alloc: Global) -> PoolList {
        PoolList {
            pools: Vec::new(alloc),
            names: IndexSet::new(alloc),
        }
    }

    /// Adds the pool of an entry.
    fn push(&mut self, alloc: Global, entry: Entry<'_>) -> Result<(), FileFault> {
        let number = self.pools.len().saturating_add(1);
        let (name, tags) = entry.into_parts();
        let name = name.ok_or(FileFault::NoPoolName(number))?;
        if !self.names.insert(String::from_str(alloc, name)?)? {
            return Err(FileFault::DoubledPool(number));
        }
        let Some(tags) = tags else {
            return Err(FileFault::NoApplications(number));
        };
        let name = Name::new(alloc, name)?;
        Ok(self.pools.push(Pool { name, tags })?)
    }

    fn into_vec(self) -> Vec<Pool> {
        let PoolList { pools, names: _ } = self;
        pools
    }
}

/// Reads the pairs of an application, or nothing where it is no object of texts.
fn read_pairs(
    alloc: Global,
    reader: &mut Reader<'_>,
    most: usize,
) -> Result<Option<Pairs>, OutOfMemory> {
    match reader.next() {
        Some(Token::BeginObject) => {}
        Some(token) => {
            skip_rest(reader, token, most);
            return Ok(None);
        }
        None => return Ok(None),
    }
    let mut pairs = Vec::new(alloc);
    let mut are_texts = true;
    for _ in 0..most {
        let Some(key) = next_key(reader) else {
            break;
        };
        match next_text(reader, most) {
            Some(value) => pairs.push((Name::new(alloc, key)?, Name::new(alloc, value)?))?,
            None => are_texts = false,
        }
    }
    if are_texts {
        Ok(Some(Pairs::from_vec(pairs)))
    } else {
        Ok(None)
    }
}

/// Reads applications behind their brace, or nothing where one is no object of texts.
fn read_applications(
    alloc: Global,
    reader: &mut Reader<'_>,
    most: usize,
) -> Result<Option<Tags>, OutOfMemory> {
    let mut tags = Vec::new(alloc);
    let mut are_pairs = true;
    for _ in 0..most {
        let Some(key) = next_key(reader) else {
            break;
        };
        let application = Name::new(alloc, key)?;
        match read_pairs(alloc, reader, most)? {
            Some(pairs) => tags.push(AppTags { application, pairs })?,
            None => are_pairs = false,
        }
    }
    if are_pairs {
        Ok(Some(Tags::from_vec(tags)))
    } else {
        Ok(None)
    }
}

/// Reads what is under `application_metadata`.
fn read_tags(
    alloc: Global,
    reader: &mut Reader<'_>,
    most: usize,
) -> Result<Option<Tags>, OutOfMemory> {
    match reader.next() {
        Some(Token::BeginObject) => read_applications(alloc, reader, most),
        Some(token) => {
            skip_rest(reader, token, most);
            Ok(None)
        }
        None => Ok(None),
    }
}

/// Reads an entry that begins with this token.
fn read_entry<'t>(
    alloc: Global,
    reader: &mut Reader<'t>,
    token: Token<'t>,
    most: usize,
) -> Result<Entry<'t>, OutOfMemory> {
    let mut name = None;
    let mut tags = None;
    if !matches!(token, Token::BeginObject) {
        skip_rest(reader, token, most);
        return Ok(Entry { name, tags });
    }
    for _ in 0..most {
        match next_key(reader) {
            None => break,
            Some("pool_name") => name = next_text(reader, most),
            Some("application_metadata") => tags = read_tags(alloc, reader, most)?,
            Some(_) => skip(reader),
        }
    }
    Ok(Entry { name, tags })
}

/// Reads a list of pools behind its bracket.
fn read_list(alloc: Global, reader: &mut Reader<'_>, most: usize) -> Result<Vec<Pool>, FileFault> {
    let mut pools = PoolList::new(alloc);
    for _ in 0..most {
        match reader.next() {
            None | Some(Token::EndArray) => break,
            Some(token) => pools.push(alloc, read_entry(alloc, reader, token, most)?)?,
        }
    }
    Ok(pools.into_vec())
}

/// Reads an object behind its brace, which has a list under `pools`.
fn read_object(
    alloc: Global,
    reader: &mut Reader<'_>,
    most: usize,
) -> Result<Vec<Pool>, FileFault> {
    for _ in 0..most {
        match next_key(reader) {
            None => break,
            Some("pools") => {
                return match reader.next() {
                    Some(Token::BeginArray) => read_list(alloc, reader, most),
                    _ => Err(FileFault::NoPools),
                };
            }
            Some(_) => skip(reader),
        }
    }
    Err(FileFault::NoPools)
}

/// The pools of a JSON text, in its order: of an object with a list under `pools`, as `ceph osd dump` prints it, or of a list,
/// as `ceph osd pool ls detail` prints it. Members that are not needed are passed over.
pub fn pools_of(alloc: Global, text: &str) -> Result<Vec<Pool>, FileFault> {
    let text = without_mark(text);
    if text.trim().is_empty() {
        return Err(FileFault::Empty);
    }
    let mut scratch = scratch_for(alloc);
    refuse_other_text(text, &mut scratch)?;
    refuse_doubled_keys(alloc, text, &mut scratch)?;
    let most = text.len().saturating_add(1);
    let mut reader = Reader::new(text, &mut scratch)?;
    match reader.next() {
        Some(Token::BeginArray) => read_list(alloc, &mut reader, most),
        Some(Token::BeginObject) => read_object(alloc, &mut reader, most),
        _ => Err(FileFault::NoPools),
    }
}
