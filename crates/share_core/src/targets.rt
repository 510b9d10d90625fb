//! A target that two grants which meet both match.

ghost use Rattle.std.specs.Prelude.{◌≡◌, ◌++◌, IfOk, OnOk};
ghost use Rattle.compare_core.specs.Fresh.{both_any};
ghost use Rattle.share_core.specs.Meeting as spec;

use crate::meetings::same_key;
use cap_text::{AllowGrant, NsMatch, Part, Tag};
use common_types::{AppTags, Name, OutOfMemory, Pairs, Tags};
use compare_core::{ANY_POOL, OwnedTarget};
use std::alloc::Global;

fn common_pool(
    alloc: Global,
    mine: &Option<Name>,
    theirs: &Option<Name>,
) -> Result<Name, OutOfMemory>
    ensures { IfOk result (λ pool. pool ≡ spec.common_pool mine.now theirs.now) }
{
    match (mine, theirs) {
        (Some(pool), _) => pool.copy(),
        (None, Some(pool)) => pool.copy(),
        (None, None) => Name::new(alloc, ANY_POOL),
    }
}

/// Of two names of which one begins with the other, the longer one.
fn longer<'a>(mine: &'a Name, theirs: &'a Name) -> &'a Name
    ensures { result.now ≡ spec.longer mine.now theirs.now }
{
    if mine.starts_with(theirs) {
        mine
    } else {
        theirs
    }
}

pub(crate) fn common_namespace(
    alloc: Global,
    mine: &Option<NsMatch>,
    theirs: &Option<NsMatch>,
) -> Result<Name, OutOfMemory>
    ensures { IfOk result (λ namespace. namespace ≡ spec.common_namespace mine.now theirs.now) }
{
    match (mine, theirs) {
        (Some(NsMatch::Exact(name)), _) => name.copy(),
        (Some(NsMatch::Prefix(mine)), Some(NsMatch::Prefix(theirs))) => longer(mine, theirs).copy(),
        (Some(NsMatch::Prefix(_)), Some(NsMatch::Exact(name))) => name.copy(),
        (Some(NsMatch::Prefix(name)), None) => name.copy(),
        (None, Some(NsMatch::Exact(name))) => name.copy(),
        (None, Some(NsMatch::Prefix(name))) => name.copy(),
        (None, None) => Name::new(alloc, ""),
    }
}

/// The name, or an object's name in place of the empty one, which is a listing.
fn or_a(alloc: Global, name: &Name) -> Result<Name, OutOfMemory>
    ensures { IfOk result (λ object. object ≡ spec.or_a name.now) }
{
    if name.is_empty() {
        Name::new(alloc, "a")
    } else {
        name.copy()
    }
}

pub(crate) fn common_object(
    alloc: Global,
    mine: &Option<Name>,
    theirs: &Option<Name>,
) -> Result<Name, OutOfMemory>
    ensures { IfOk result (λ object. object ≡ spec.common_object mine.now theirs.now) }
{
    match (mine, theirs) {
        (Some(mine), Some(theirs)) => or_a(alloc, longer(mine, theirs)),
        (Some(mine), None) => or_a(alloc, mine),
        (None, Some(theirs)) => or_a(alloc, theirs),
        (None, None) => Name::new(alloc, "a"),
    }
}

/// The name of a part, or another one.
fn or_name(alloc: Global, part: &Part, other: &str) -> Result<Name, OutOfMemory>
    ensures { IfOk result (λ name. name ≡ spec.or_name part.now other.now) }
{
    match part {
        Part::Any => Name::new(alloc, other),
        Part::Is(name) => name.copy(),
    }
}

/// A name other than this one.
fn other_than(name: &Name) -> &'static str
    ensures { result.now ≡ spec.other_than name.now }
{
    if name.as_str() == "a" { "b" } else { "a" }
}

/// Whether a tag asks for its application alone.
fn asks_no_pair(tag: &Tag) -> bool
    ensures { result ≡ both_any tag.now.key tag.now.value }
{
    matches!((&tag.key, &tag.value), (Part::Any, Part::Any))
}

/// Adds the pair of a tag, if it asks for one.
fn push_asked(
    pairs: &mut Vec<(Name, Name)>,
    tag: &Tag,
    key: Name,
    value: Name,
) -> Result<(), OutOfMemory>
    ensures { OnOk result (pairs.new.items ≡ pairs.old.items ++ spec.asked tag.now key value) }
{
    if !asks_no_pair(tag) {
        pairs.push((key, value))?;
    }
    Ok(())
}

/// The application of a tag, with the pair that it asks for.
fn own_tags(alloc: Global, tag: &Tag) -> Result<AppTags, OutOfMemory>
    ensures { IfOk result (λ tags. tags ≡ spec.own_tags tag.now) }
{
    let mut pairs = Vec::new(alloc);
    let key = or_name(alloc, &tag.key, "a")?;
    let value = or_name(alloc, &tag.value, "a")?;
    push_asked(&mut pairs, tag, key, value)?;
    let application = tag.application.copy()?;
    Ok(AppTags {
        application,
        pairs: Pairs::from_vec(pairs),
    })
}

/// The key of the first of two tags of one application: its own, or one that is not the other's.
fn key_of(alloc: Global, mine: &Tag, theirs: &Tag) -> Result<Name, OutOfMemory>
    ensures { IfOk result (λ key. key ≡ spec.key_of mine.now theirs.now) }
{
    let taken = or_name(alloc, &theirs.key, "b")?;
    or_name(alloc, &mine.key, other_than(&taken))
}

/// The pairs of one application for two tags that do not clash.
fn common_pairs(alloc: Global, mine: &Tag, theirs: &Tag) -> Result<Pairs, OutOfMemory>
    ensures { IfOk result (λ pairs. pairs ≡ spec.common_pairs mine.now theirs.now) }
{
    let mut pairs = Vec::new(alloc);
    let key = key_of(alloc, mine, theirs)?;
    let their_value = or_name(alloc, &theirs.value, "a")?;
    if same_key(&mine.key, &theirs.key) {
        let value = or_name(alloc, &mine.value, their_value.as_str())?;
        pairs.push((key, value))?;
    } else {
        let value = or_name(alloc, &mine.value, "a")?;
        let their_key = or_name(alloc, &theirs.key, other_than(&key))?;
        push_asked(&mut pairs, mine, key, value)?;
        push_asked(&mut pairs, theirs, their_key, their_value)?;
    }
    Ok(Pairs::from_vec(pairs))
}

/// One application for two tags of it that do not clash.
fn common_app(alloc: Global, mine: &Tag, theirs: &Tag) -> Result<AppTags, OutOfMemory>
    ensures { IfOk result (λ tags. tags ≡ spec.common_app mine.now theirs.now) }
{
    let application = mine.application.copy()?;
    let pairs = common_pairs(alloc, mine, theirs)?;
    Ok(AppTags { application, pairs })
}

fn common_tags(alloc: Global, mine: &Option<Tag>, theirs: &Option<Tag>) -> Result<Tags, OutOfMemory>
    ensures { IfOk result (λ tags. tags ≡ spec.common_tags mine.now theirs.now) }
{
    let mut applications = Vec::new(alloc);
    match (mine, theirs) {
        (None, None) => {}
        (Some(tag), None) => applications.push(own_tags(alloc, tag)?)?,
        (None, Some(tag)) => applications.push(own_tags(alloc, tag)?)?,
        (Some(mine), Some(theirs)) => {
            if mine.application.equals(&theirs.application) {
                applications.push(common_app(alloc, mine, theirs)?)?;
            } else {
                applications.push(own_tags(alloc, mine)?)?;
                applications.push(own_tags(alloc, theirs)?)?;
            }
        }
    }
    Ok(Tags::from_vec(applications))
}

/// A target that both grants match, if they meet.
pub(crate) fn common(
    alloc: Global,
    g: &AllowGrant,
    h: &AllowGrant,
) -> Result<OwnedTarget, OutOfMemory>
    ensures { IfOk result (λ target. target ≡ spec.common g.now h.now) }
{
    Ok(OwnedTarget {
        pool: common_pool(alloc, &g.pool, &h.pool)?,
        tags: common_tags(alloc, &g.tag, &h.tag)?,
        namespace: common_namespace(alloc, &g.namespace, &h.namespace)?,
        object: common_object(alloc, &g.prefix, &h.prefix)?,
    })
}
