//! Regions of targets.

ghost use Rattle.std.specs.Prelude.{◌≡◌, ◌&&◌, not, None, IfOk, option_map, string_bytes};
ghost use Rattle.cap_grants.specs.declared.grant.NsMatch.TheVariants.{Exact};
ghost use Rattle.std.specs.List.{list_all, list_any};
ghost use Rattle.std.specs.Str.{bytes_eq};
ghost use Rattle.verdict_core.specs.Verdict.{matches_prefix, matches_tag};
ghost use Rattle.suggest_core.specs.Region as spec;

use crate::grain::{Division, Grain};
use crate::seen::Seen;
use cap_text::{Access, AllowGrant, NsMatch, Tag};
use common_types::{Name, OutOfMemory};
use compare_core::OwnedTarget;
use std::alloc::Global;
use verdict_core::{matches_tag, names};

/// Where a grant of a suggestion applies. A part that is `None` asks for nothing.
#[derive(Debug)]
pub(crate) struct Region {
    pub(crate) pool: Option<Name>,
    pub(crate) tag: Option<Tag>,
    pub(crate) namespace: Option<Name>,
    pub(crate) prefix: Option<Name>,
}

impl Drop for Region {
    fn drop(self) {
        let Region {
            pool: _,
            tag: _,
            namespace: _,
            prefix: _,
        } = self;
    }
}

/// No prefix, or one of an object's name, which is not empty.
fn has_prefix(prefix: &Option<Name>, object: &Name) -> bool
    ensures { result ≡ matches_prefix prefix.now object.now }
{
    match prefix {
        None => true,
        Some(prefix) => !object.is_empty() && object.starts_with(prefix),
    }
}

/// Whether the pools of all requests seen have a tag.
fn is_shared(tag: &Option<Tag>, seen: &[Seen]) -> bool
    ensures { result ≡ list_all (λ request. matches_tag tag.now request.target.tags) seen.now }
{
    seen.iter()
        .all(|request| matches_tag(tag, &request.target.tags))
}

/// The first tag that the pools of all requests seen have.
fn shared_tag(tags: &[Tag], seen: &[Seen]) -> Result<Option<Tag>, OutOfMemory>
    ensures { IfOk result (λ tag. tag ≡ spec.shared_tag tags.now seen.now) }
{
    for tag in tags {
        let copy = tag.copy()?;
        let wanted = Some(copy);
        if is_shared(&wanted, seen) {
            return Ok(wanted);
        }
    }
    Ok(None)
}

/// The tag in place of the names of pools, if there is one.
fn tag_of(grain: &Grain, seen: &[Seen]) -> Result<Option<Tag>, OutOfMemory>
    ensures { IfOk result (λ tag. tag ≡ spec.tag_of grain.now.by grain.now.tags.items seen.now) }
{
    match grain.by {
        Division::Pool | Division::Namespace => shared_tag(grain.tags.as_slice(), seen),
        Division::Prefix => Ok(None),
    }
}

fn pool_of(tag: &Option<Tag>, target: &OwnedTarget) -> Result<Option<Name>, OutOfMemory>
    ensures { IfOk result (λ pool. pool ≡ spec.pool_of tag.now target.now) }
{
    match tag {
        None => Ok(Some(target.pool.copy()?)),
        Some(_) => Ok(None),
    }
}

fn namespace_of(by: Division, target: &OwnedTarget) -> Result<Option<Name>, OutOfMemory>
    ensures { IfOk result (λ namespace. namespace ≡ spec.namespace_of by target.now) }
{
    match by {
        Division::Pool => Ok(None),
        Division::Namespace | Division::Prefix => Ok(Some(target.namespace.copy()?)),
    }
}

/// The longest beginning of ASCII bytes that two names have in common.
fn common(alloc: Global, name: &[u8], other: &[u8]) -> Result<String, OutOfMemory>
    ensures { IfOk result (λ front. string_bytes front ≡ spec.common name.now other.now) }
{
    let mut front = String::new(alloc);
    let mut rest = other;
    for byte in name {
        let Some((first, others)) = rest.split_first() else {
            return Ok(front);
        };
        let agree = *byte == *first && *byte <= 127;
        if !agree {
            return Ok(front);
        }
        front.push(char::from(*byte))?;
        rest = others;
    }
    Ok(front)
}

/// What a beginning, if there is one, and a name have in common.
fn with_name(alloc: Global, front: &Option<Name>, name: &Name) -> Result<Name, OutOfMemory>
    ensures { IfOk result (λ begun. begun ≡ spec.with_name front.now name.now) }
{
    let name = name.as_str().as_bytes();
    let text = match front {
        None => common(alloc, name, name)?,
        Some(front) => common(alloc, front.as_str().as_bytes(), name)?,
    };
    Ok(Name::from_string(text))
}

/// What all names that were seen in a place have in common.
fn common_in(alloc: Global, place: &Region, seen: &[Seen]) -> Result<Option<Name>, OutOfMemory>
    ensures { IfOk result (λ front. front ≡ spec.common_in (spec.is_in place.now) None seen.now) }
{
    let mut front = None;
    for request in seen {
        if place.is_in(&request.target) {
            front = Some(with_name(alloc, &front, &request.target.object)?);
        }
    }
    Ok(front)
}

/// Whether some name that was seen in a place is not just this one.
fn goes_on(place: &Region, seen: &[Seen], front: &Name) -> bool
    ensures { result ≡ list_any (λ request. spec.is_in place.now request.target && not (bytes_eq front.now request.target.object)) seen.now }
{
    seen.iter().any(|request| place.is_in(&request.target) && !front.equals(&request.target.object))
}

/// A beginning that is not empty, behind which some name seen in the place goes on.
fn useful(place: &Region, seen: &[Seen], front: Option<Name>) -> Option<Name>
    ensures { result ≡ spec.useful (spec.is_in place.now) seen.now front }
{
    let Some(front) = front else {
        return None;
    };
    if !front.is_empty() && goes_on(place, seen, &front) {
        Some(front)
    } else {
        None
    }
}

/// The prefix of the names that were seen in a place.
fn prefix_of(
    alloc: Global,
    by: Division,
    place: &Region,
    seen: &[Seen],
) -> Result<Option<Name>, OutOfMemory>
    ensures { IfOk result (λ prefix. prefix ≡ spec.prefix_of by (spec.is_in place.now) seen.now) }
{
    match by {
        Division::Pool | Division::Namespace => Ok(None),
        Division::Prefix => Ok(useful(place, seen, common_in(alloc, place, seen)?)),
    }
}

/// A namespace as a grant has it.
fn exact(namespace: Option<Name>) -> Option<NsMatch>
    ensures { result ≡ option_map (λ name. Exact name) namespace }
{
    match namespace {
        None => None,
        Some(name) => Some(NsMatch::Exact(name)),
    }
}

impl Region {
    /// The region of a target without its prefix.
    fn place_of(grain: &Grain, seen: &[Seen], target: &OwnedTarget) -> Result<Region, OutOfMemory>
        ensures { IfOk result (λ place. place ≡ spec.place_of grain.now seen.now target.now) }
    {
        let tag = tag_of(grain, seen)?;
        Ok(Region {
            pool: pool_of(&tag, target)?,
            tag,
            namespace: namespace_of(grain.by, target)?,
            prefix: None,
        })
    }

    /// The region of a target, by all requests seen.
    pub(crate) fn of(
        alloc: Global,
        grain: &Grain,
        seen: &[Seen],
        target: &OwnedTarget,
    ) -> Result<Region, OutOfMemory>
        ensures { IfOk result (λ region. region ≡ spec.region_of grain.now seen.now target.now) }
    {
        let place = Region::place_of(grain, seen, target)?;
        let prefix = prefix_of(alloc, grain.by, &place, seen)?;
        Ok(place.with_prefix(prefix))
    }

    /// With this prefix.
    fn with_prefix(self, prefix: Option<Name>) -> Region
        ensures { result ≡ record { pool = self.pool; tag = self.tag; namespace = self.namespace; prefix = prefix } }
    {
        let Region {
            pool,
            tag,
            namespace,
            prefix: _,
        } = self;
        Region {
            pool,
            tag,
            namespace,
            prefix,
        }
    }

    /// Whether a target is in the region.
    pub(crate) fn is_in(&self, target: &OwnedTarget) -> bool
        ensures { result ≡ spec.is_in self.now target.now }
    {
        names(&self.pool, target.pool.as_str().as_bytes())
            && names(&self.namespace, target.namespace.as_str().as_bytes())
            && matches_tag(&self.tag, &target.tags)
            && has_prefix(&self.prefix, &target.object)
    }

    /// The grant of an access, for the region.
    pub(crate) fn into_grant(self, access: Access) -> AllowGrant
        ensures { result ≡ spec.grant_for self access }
    {
        let Region {
            pool,
            tag,
            namespace,
            prefix,
        } = self;
        AllowGrant {
            access,
            pool,
            namespace: exact(namespace),
            prefix,
            tag,
        }
    }
}
