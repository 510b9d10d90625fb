//! By which of its parts a grant is found.

ghost use Rattle.std.specs.Prelude.{◌≡◌, ◌<◌, ◌≤◌, [], option_copied};
ghost use Rattle.std.specs.Option.{unwrap_or, option_map, ForSome};
ghost use Rattle.verdict_core.specs.Hash as hashes;
ghost use Rattle.verdict_core.specs.Kinds as spec;

use crate::hashing::{folded, hash, mix};
use cap_text::{Access, AllowGrant, Part, Tag};
use common_types::{Name, OutOfMemory, Tags};
use grant_core::Path;
use std::alloc::Global;

/// How many kinds a ticket has, beside those without fronts.
const MANY: usize = 8;

/// The chain of the grants that are of no kind.
pub const NO_KIND: usize = 256;

/// What a grant of a kind names.
#[derive(Clone, Copy, Debug, PartialEq, Eq)]
pub enum IndexBy {
    Nothing,
    ThePool,
    /// The application, the key and the value of its tag.
    TheTag,
    TheClass,
}

/// Grants that are found alike: by what they name, and by the first `front` bytes of their prefixes.
#[derive(Clone, Copy, Debug, PartialEq, Eq)]
pub struct IndexKey {
    pub named: IndexBy,
    pub front: usize,
}

/// The number of an application with a pair.
#[tactic(auto, unfolding(crate::specs::Kinds::pair_hash))]
#[inline(always)]
pub fn pair_hash(application: &Name, key: &Name, value: &Name) -> u64
    ensures { result ≡ spec.pair_hash application.now key.now value.now }
{
    let application = hash(application.as_str().as_bytes());
    let key = hash(key.as_str().as_bytes());
    let value = hash(value.as_str().as_bytes());
    mix(application.wrapping_add(key), value)
}

/// The number of the only application with its only pair, as a pool of CephFS has them, if there is but one.
pub fn only_number(tags: &Tags) -> Option<u64>
    ensures { result ≡ spec.only_number tags.now }
{
    let [app] = tags.as_slice() else {
        return None;
    };
    let [pair] = app.pairs.as_slice() else {
        return None;
    };
    Some(pair_hash(&app.application, &pair.0, &pair.1))
}

/// The number of a tag that names its key and its value.
fn tag_hash(tag: &Option<Tag>) -> Option<u64>
    ensures { result ≡ spec.tag_hash tag.now }
{
    match tag {
        Some(
            Tag {
                application,
                key: Part::Is(key),
                value: Part::Is(value),
            },
        ) => Some(pair_hash(application, key, value)),
        _ => None,
    }
}

/// The number of a class.
fn class_hash(access: &Access) -> Option<u64>
    ensures { result ≡ spec.class_hash access.now }
{
    match access {
        Access::All => None,
        Access::Flags(_) => None,
        Access::Class { class, .. } => Some(hash(class.as_str().as_bytes())),
    }
}

/// The number of a pool.
fn pool_hash(pool: &Option<Name>) -> Option<u64>
    ensures { result ≡ option_map hashes.hash pool.now }
{
    match pool {
        None => None,
        Some(pool) => Some(hash(pool.as_str().as_bytes())),
    }
}

/// The number of what a grant names, if it names it.
fn named_hash(named: IndexBy, grant: &AllowGrant) -> Option<u64>
    ensures { result ≡ spec.named_hash named grant.now }
{
    match named {
        IndexBy::Nothing => Some(0),
        IndexBy::ThePool => pool_hash(&grant.pool),
        IndexBy::TheTag => tag_hash(&grant.tag),
        IndexBy::TheClass => class_hash(&grant.access),
    }
}

/// The hash of the first `front` bytes of a text, or `None` if the text is shorter.
#[inline(always)]
pub fn front_hash(text: &[u8], front: usize) -> Option<u64>
    ensures { result ≡ spec.front_hash text.now front }
{
    if front <= text.len() {
        Some(hash(&text[..front]))
    } else {
        None
    }
}

/// The bytes of a prefix, empty if there is no prefix.
fn bytes_of(prefix: &Option<Name>) -> &[u8]
    ensures { result.now ≡ unwrap_or prefix.now [] }
{
    match prefix {
        None => &[],
        Some(prefix) => prefix.as_str().as_bytes(),
    }
}

/// The chain of a grant among those of a kind, if it has the parts.
#[tactic(auto, unfolding(crate::specs::Kinds::chain_in))]
fn chain_in(kind: IndexKey, grant: &AllowGrant) -> Option<usize>
    ensures value { result ≡ spec.chain_in kind grant.now }
    ensures small { ForSome result (λ chain. chain < 257) }
{
    let named = named_hash(kind.named, grant)?;
    let front = front_hash(bytes_of(&grant.prefix), kind.front)?;
    Some(folded(named, front))
}

/// The chain that a grant is in.
pub fn chain_of(kinds: &[IndexKey], grant: &AllowGrant) -> usize
    ensures value { result ≡ spec.chain_of kinds.now grant.now }
    ensures small { result < 257 }
{
    for kind in kinds {
        if let Some(chain) = chain_in(*kind, grant) {
            return chain;
        }
    }
    NO_KIND
}

/// The kind of a grant by all of its parts, if it is to be found by some.
fn kind_of(grant: &AllowGrant) -> Option<IndexKey> {
    let front = bytes_of(&grant.prefix).len();
    match grant {
        AllowGrant {
            access: Access::Class { .. },
            ..
        } => Some(IndexKey {
            named: IndexBy::TheClass,
            front: 0,
        }),
        AllowGrant {
            tag: Some(
                Tag {
                    key: Part::Is(_),
                    value: Part::Is(_),
                    ..
                },
            ),
            ..
        } => Some(IndexKey {
            named: IndexBy::TheTag,
            front,
        }),
        AllowGrant { pool: Some(_), .. } => Some(IndexKey {
            named: IndexBy::ThePool,
            front,
        }),
        _ if front > 0 => Some(IndexKey {
            named: IndexBy::Nothing,
            front,
        }),
        _ => None,
    }
}

/// Whether a kind is among these.
fn has(kinds: &[IndexKey], kind: IndexKey) -> bool {
    kinds.iter().any(|other| *other == kind)
}

/// Adds a kind where it is not there yet, before those with shorter fronts. Where there are many, it is that without a front.
fn add(kinds: &mut Vec<IndexKey>, kind: IndexKey) -> Result<(), OutOfMemory> {
    let whole = kinds.len() < MANY || has(kinds, kind);
    let front = if whole { kind.front } else { 0 };
    let kind = IndexKey { front, ..kind };
    if has(kinds, kind) {
        return Ok(());
    }
    match kinds.iter().position(|other| other.front < front) {
        None => kinds.push(kind)?,
        Some(place) => kinds.insert(place, kind)?,
    }
    Ok(())
}

/// The kinds of these grants, those with longer fronts first. No verdict depends on which they are. It fails where no memory
/// is left for the list.
pub fn kinds_of(
    alloc: Global,
    grants: &[(Path, AllowGrant)],
) -> Result<Vec<IndexKey>, OutOfMemory> {
    let mut kinds = Vec::new(alloc);
    for entry in grants {
        if let Some(kind) = kind_of(&entry.1) {
            add(&mut kinds, kind)?;
        }
    }
    Ok(kinds)
}
