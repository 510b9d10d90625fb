//! One grant against one request.

ghost use Rattle.std.specs.Prelude.{◌≡◌, ◌&&◌, ◌||◌, [], ◌∷◌, not};
ghost use Rattle.std.specs.List.{list_any};
ghost use Rattle.std.specs.Option.{ForSome};
ghost use Rattle.std.specs.Str.{bytes_eq};
ghost use Rattle.verdict_core.specs.Verdict as spec;

use crate::texts::{begins_with, is_text, quick_begins_with, quick_is_name, quick_is_text};
use cap_text::{Access, AllowGrant, NsMatch, Part, Tag};
use common_types::{AppTags, Name, Pairs, Tags};
use request_types::{ClassCall, Condition, Needs, Target};

/// No name, or this one.
#[inline(always)]
pub fn names(wanted: &Option<Name>, name: &[u8]) -> bool
    ensures { result ≡ spec.names wanted.now name.now }
{
    match wanted {
        None => true,
        Some(wanted) => is_text(wanted, name),
    }
}

#[inline(always)]
fn matches_namespace(wanted: &Option<NsMatch>, namespace: &[u8]) -> bool
    ensures { result ≡ spec.matches_namespace wanted.now namespace.now }
{
    match wanted {
        None => true,
        Some(NsMatch::Exact(name)) => is_text(name, namespace),
        Some(NsMatch::Prefix(prefix)) => { namespace.starts_with(prefix.as_str().as_bytes()) }
    }
}

fn matches_part(part: &Part, text: &Name) -> bool
    ensures { result ≡ spec.matches_part part.now text.now }
{
    match part {
        Part::Any => true,
        Part::Is(name) => is_text(name, text.as_str().as_bytes()),
    }
}

/// Whether some pair has this value.
fn has_value(value: &Name, pairs: &Pairs) -> bool
    ensures { result ≡ list_any (λ pair. bytes_eq value.now pair.1) pairs.now }
{
    pairs
        .as_slice()
        .iter()
        .any(|pair| is_text(value, pair.1.as_str().as_bytes()))
}

/// Whether some pair has this key, and a value that agrees. Values are looked at first, since they differ more often.
fn has_pair(key: &Name, value: &Part, pairs: &Pairs) -> bool
    ensures { result ≡ list_any (λ pair. bytes_eq key.now pair.0 && spec.matches_part value.now pair.1) pairs.now }
{
    pairs.as_slice().iter().any(|pair| matches_part(value, &pair.1)
        && is_text(key, pair.0.as_str().as_bytes()))
}

fn matches_pairs(key: &Part, value: &Part, pairs: &Pairs) -> bool
    ensures { result ≡ spec.matches_pairs key.now value.now pairs.now }
{
    match (key, value) {
        (Part::Any, Part::Any) => true,
        (Part::Any, Part::Is(value)) => has_value(value, pairs),
        (Part::Is(key), value) => has_pair(key, value, pairs),
    }
}

/// Whether an application agrees with a tag. Its pairs are looked at first, since a pool has few, and they differ more
/// often than applications do.
fn matches_application(tag: &Tag, app: &AppTags) -> bool
    ensures { result ≡ spec.matches_application tag.now app.now }
{
    matches_pairs(&tag.key, &tag.value, &app.pairs)
        && is_text(&tag.application, app.application.as_str().as_bytes())
}

/// Whether some application of the pool agrees with a tag. It is a call of its own, so that a walk over grants without
/// tags stays small.
#[inline(never)]
fn has_application(tag: &Tag, tags: &Tags) -> bool
    ensures { result ≡ list_any (spec.matches_application tag.now) tags.now }
{
    tags.as_slice()
        .iter()
        .any(|app| matches_application(tag, app))
}

/// No tag, or some application of the pool agrees with it.
pub fn matches_tag(wanted: &Option<Tag>, tags: &Tags) -> bool
    ensures { result ≡ spec.matches_tag wanted.now tags.now }
{
    match wanted {
        None => true,
        Some(tag) => has_application(tag, tags),
    }
}

#[inline(always)]
fn matches_prefix(wanted: &Option<Name>, object: &[u8]) -> bool
    ensures { result ≡ spec.matches_prefix wanted.now object.now }
{
    match wanted {
        None => true,
        Some(prefix) => !object.is_empty() && begins_with(object, prefix),
    }
}

/// Whether an access reads.
pub fn can_read(access: &Access) -> bool
    ensures { result ≡ spec.can_read access.now }
{
    match access {
        Access::All => true,
        Access::Flags(flags) => flags.read,
        Access::Class { .. } => false,
    }
}

/// Whether an access writes.
pub fn can_write(access: &Access) -> bool
    ensures { result ≡ spec.can_write access.now }
{
    match access {
        Access::All => true,
        Access::Flags(flags) => flags.write,
        Access::Class { .. } => false,
    }
}

/// Whether an access reads and writes as far as the request does.
#[inline(always)]
fn serves(access: &Access, needs: &Needs) -> bool
    ensures { result ≡ ((not needs.now.reads || spec.can_read access.now) && (not needs.now.writes || spec.can_write access.now)) }
{
    match access {
        Access::All => true,
        Access::Flags(flags) => (!needs.reads | flags.read) & (!needs.writes | flags.write),
        Access::Class { .. } => !needs.reads && !needs.writes,
    }
}

/// Whether a grant speaks of the target. The order of its parts says nothing here, and the object's name, in which
/// requests differ most, is looked at first.
#[inline(always)]
pub(crate) fn matches(grant: &AllowGrant, target: &Target<'_>) -> bool
    ensures { result ≡ spec.matches grant.now target.now }
{
    matches_prefix(&grant.prefix, target.object)
        && names(&grant.pool, target.pool)
        && matches_namespace(&grant.namespace, target.namespace)
        && matches_tag(&grant.tag, target.tags)
}

/// Whether a grant speaks of the target, and reads and writes as far as the request does. It is inlined into the walks
/// over grants, most of which one test rules out.
#[inline(always)]
pub(crate) fn is_usable(grant: &AllowGrant, target: &Target<'_>, needs: &Needs) -> bool
    ensures { result ≡ spec.is_usable grant.now target.now needs.now }
{
    matches(grant, target) && serves(&grant.access, needs)
}

/// Whether a grant is usable, in a call of its own, for walks on which few grants get this far. Most grants of a
/// class are for all targets.
#[inline(never)]
pub(crate) fn full_is_usable(grant: &AllowGrant, target: &Target<'_>, needs: &Needs) -> bool
    ensures { result ≡ spec.is_usable grant.now target.now needs.now }
{
    let is_here = match grant {
        AllowGrant {
            pool: None,
            namespace: None,
            prefix: None,
            tag: None,
            ..
        } => true,
        _ => matches(grant, target),
    };
    is_here && serves(&grant.access, needs)
}

/// The grants that a question by a few words is asked of. Each kind has a copy of the question, so that each is inlined where
/// it is asked. Of these, the first grant of a ticket.
pub(crate) const FIRST: u8 = 0;

/// The grants of a walk: of these the last byte of the pool is asked for first, in which most names differ.
pub(crate) const OTHERS: u8 = 1;

/// The grants of a chain, most of which agree in what was hashed.
pub(crate) const CHAINED: u8 = 2;

/// `names`, if two comparisons of words tell, or before them the last byte, where it is asked for.
#[inline(always)]
fn quick_names<const GRANTS: u8>(wanted: &Option<Name>, name: &[u8]) -> Option<bool>
    ensures { ForSome result (λ holds. holds ≡ spec.names wanted.now name.now) }
{
    let Some(wanted) = wanted else {
        return Some(true);
    };
    if GRANTS == OTHERS {
        quick_is_name(wanted, name)
    } else {
        quick_is_text(wanted, name)
    }
}

/// `matches_namespace`, if two comparisons of words tell.
#[inline(always)]
fn quick_matches_namespace(wanted: &Option<NsMatch>, namespace: &[u8]) -> Option<bool>
    ensures { ForSome result (λ holds. holds ≡ spec.matches_namespace wanted.now namespace.now) }
{
    match wanted {
        None => Some(true),
        Some(NsMatch::Exact(name)) => quick_is_text(name, namespace),
        Some(NsMatch::Prefix(prefix)) => quick_begins_with(namespace, prefix),
    }
}

/// `matches_prefix`, if two comparisons of words tell.
#[inline(always)]
fn quick_matches_prefix(wanted: &Option<Name>, object: &[u8]) -> Option<bool>
    ensures { ForSome result (λ holds. holds ≡ spec.matches_prefix wanted.now object.now) }
{
    match wanted {
        None => Some(true),
        Some(prefix) => {
            if object.is_empty() {
                Some(false)
            } else {
                quick_begins_with(object, prefix)
            }
        }
    }
}

/// `matches_part`, if two comparisons of words tell.
#[inline(always)]
fn quick_matches_part(part: &Part, text: &Name) -> Option<bool>
    ensures { ForSome result (λ holds. holds ≡ spec.matches_part part.now text.now) }
{
    match part {
        Part::Any => Some(true),
        Part::Is(name) => quick_is_text(name, text.as_str().as_bytes()),
    }
}

/// Whether an application with this one pair agrees with a tag, if comparisons of words tell.
#[inline(always)]
fn quick_matches_pair<const GRANTS: u8>(
    tag: &Tag,
    application: &Name,
    pair: &(Name, Name),
) -> Option<bool>
    ensures { ForSome result (λ holds. holds ≡ (bytes_eq tag.now.application application.now && spec.matches_pairs tag.now.key tag.now.value (pair.now ∷ []))) }
{
    let Some(value) = quick_matches_part(&tag.value, &pair.1) else {
        return None;
    };
    if !value {
        return Some(false);
    }
    let Some(key) = quick_matches_part(&tag.key, &pair.0) else {
        return None;
    };
    if !key {
        return Some(false);
    }
    quick_is_text(&tag.application, application.as_str().as_bytes())
}

/// `matches_tag`, if comparisons of words tell: of a tag they do where the pool has one application with one pair, as
/// a pool of CephFS has.
#[inline(always)]
fn quick_matches_tag<const GRANTS: u8>(wanted: &Option<Tag>, tags: &Tags) -> Option<bool>
    ensures { ForSome result (λ holds. holds ≡ spec.matches_tag wanted.now tags.now) }
{
    let Some(tag) = wanted else {
        return Some(true);
    };
    let [app] = tags.as_slice() else {
        return None;
    };
    let [pair] = app.pairs.as_slice() else {
        return None;
    };
    quick_matches_pair::<GRANTS>(tag, &app.application, pair)
}

/// Whether a grant agrees with the names of a target, if a few comparisons of words tell: they do where each name that is
/// compared has 2 to 16 bytes.
#[inline(always)]
fn quick_matches_names<const GRANTS: u8>(grant: &AllowGrant, target: &Target<'_>) -> Option<bool>
    ensures { ForSome result (λ holds. holds ≡ (spec.names grant.now.pool target.now.pool && spec.matches_namespace grant.now.namespace target.now.namespace && spec.matches_prefix grant.now.prefix target.now.object)) }
{
    let Some(prefix) = quick_matches_prefix(&grant.prefix, target.object) else {
        return None;
    };
    if !prefix {
        return Some(false);
    }
    let Some(pool) = quick_names::<GRANTS>(&grant.pool, target.pool) else {
        return None;
    };
    if !pool {
        return Some(false);
    }
    quick_matches_namespace(&grant.namespace, target.namespace)
}

/// Whether a grant without a tag is usable, if a few comparisons of words tell. It calls nothing, so that a walk by it
/// saves few registers.
#[inline(always)]
pub(crate) fn is_usable_by_names<const GRANTS: u8>(
    grant: &AllowGrant,
    target: &Target<'_>,
    needs: &Needs,
) -> Option<bool>
    ensures { ForSome result (λ usable. usable ≡ spec.is_usable grant.now target.now needs.now) }
{
    if grant.tag.is_some() {
        return None;
    }
    let Some(names) = quick_matches_names::<GRANTS>(grant, target) else {
        return None;
    };
    if !names {
        return Some(false);
    }
    Some(serves(&grant.access, needs))
}

/// Whether a grant is usable, if a few comparisons of words tell: they do of a tag, too, where the pool has one
/// application with one pair.
#[inline(always)]
pub(crate) fn quick_is_usable<const GRANTS: u8>(
    grant: &AllowGrant,
    target: &Target<'_>,
    needs: &Needs,
) -> Option<bool>
    ensures { ForSome result (λ usable. usable ≡ spec.is_usable grant.now target.now needs.now) }
{
    let Some(tag) = quick_matches_tag::<GRANTS>(&grant.tag, target.tags) else {
        return None;
    };
    if !tag {
        return Some(false);
    }
    let Some(names) = quick_matches_names::<GRANTS>(grant, target) else {
        return None;
    };
    if !names {
        return Some(false);
    }
    Some(serves(&grant.access, needs))
}

/// Whether an access covers a call.
#[inline(always)]
pub fn covers(access: &Access, call: &ClassCall) -> bool
    ensures { result ≡ spec.covers access.now call.now }
{
    match access {
        Access::All => true,
        Access::Class { class, method } => {
            is_text(class, call.class.as_str().as_bytes())
                && names(method, call.method.as_str().as_bytes())
        }
        Access::Flags(flags) => {
            call.listed
                && (!call.class_reads || flags.class_read)
                && (!call.class_writes || flags.class_write)
        }
    }
}

/// Whether a usable grant covers a call. What it covers is looked at first, since few grants cover a call.
#[inline(always)]
pub(crate) fn allows(
    grant: &AllowGrant,
    target: &Target<'_>,
    needs: &Needs,
    call: &ClassCall,
) -> bool
    ensures { result ≡ (spec.is_usable grant.now target.now needs.now && spec.covers grant.now.access call.now) }
{
    covers(&grant.access, call) && full_is_usable(grant, target, needs)
}

/// The first call that an access does not cover, by its number.
fn uncovered(access: &Access, calls: &[ClassCall]) -> Option<Condition>
    ensures { result ≡ spec.uncovered_from 1 access.now calls.now }
{
    for (i, call) in calls.iter().enumerate() {
        if !covers(access, call) {
            return Some(Condition::Call(i + 1));
        }
    }
    None
}

/// The first condition of a grant that a request fails.
fn grant_failure(grant: &AllowGrant, target: &Target<'_>, needs: &Needs) -> Option<Condition>
    ensures { result ≡ spec.grant_failure grant.now target.now needs.now }
{
    if !names(&grant.pool, target.pool) {
        return Some(Condition::Pool);
    }
    if !matches_namespace(&grant.namespace, target.namespace) {
        return Some(Condition::Namespace);
    }
    if !matches_tag(&grant.tag, target.tags) {
        return Some(Condition::Tag);
    }
    if !matches_prefix(&grant.prefix, target.object) {
        return Some(Condition::Prefix);
    }
    if needs.reads && !can_read(&grant.access) {
        return Some(Condition::Read);
    }
    if needs.writes && !can_write(&grant.access) {
        return Some(Condition::Write);
    }
    uncovered(&grant.access, needs.calls.as_slice())
}

/// The first condition of a grant that a request fails, in the order of [`Condition`], or none. A grant of an expired ticket
/// fails by that. It takes no memory.
pub fn first_failure(
    expired: bool,
    grant: &AllowGrant,
    target: &Target<'_>,
    needs: &Needs,
) -> Option<Condition>
    ensures { result ≡ spec.first_failure expired grant.now target.now needs.now }
{
    if expired {
        return Some(Condition::Expired);
    }
    grant_failure(grant, target, needs)
}
