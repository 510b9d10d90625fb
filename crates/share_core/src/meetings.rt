//! Whether two grants meet: some target is matched by both. It takes no memory.

ghost use Rattle.std.specs.Prelude.{◌≡◌};
ghost use Rattle.share_core.specs.Meeting as spec;

use cap_text::{AllowGrant, NsMatch, Part, Tag};
use common_types::Name;

pub(crate) fn pools_meet(mine: &Option<Name>, theirs: &Option<Name>) -> bool
    ensures { result ≡ spec.pools_meet mine.now theirs.now }
{
    match (mine, theirs) {
        (Some(mine), Some(theirs)) => mine.equals(theirs),
        _ => true,
    }
}

/// Whether one name begins with the other.
fn are_alike(mine: &Name, theirs: &Name) -> bool
    ensures { result ≡ spec.are_alike mine.now theirs.now }
{
    mine.starts_with(theirs) || theirs.starts_with(mine)
}

pub(crate) fn namespaces_meet(mine: &Option<NsMatch>, theirs: &Option<NsMatch>) -> bool
    ensures { result ≡ spec.namespaces_meet mine.now theirs.now }
{
    match (mine, theirs) {
        (Some(NsMatch::Exact(mine)), Some(NsMatch::Exact(theirs))) => mine.equals(theirs),
        (Some(NsMatch::Exact(mine)), Some(NsMatch::Prefix(theirs))) => mine.starts_with(theirs),
        (Some(NsMatch::Prefix(mine)), Some(NsMatch::Exact(theirs))) => theirs.starts_with(mine),
        (Some(NsMatch::Prefix(mine)), Some(NsMatch::Prefix(theirs))) => are_alike(mine, theirs),
        _ => true,
    }
}

pub(crate) fn prefixes_meet(mine: &Option<Name>, theirs: &Option<Name>) -> bool
    ensures { result ≡ spec.prefixes_meet mine.now theirs.now }
{
    match (mine, theirs) {
        (Some(mine), Some(theirs)) => are_alike(mine, theirs),
        _ => true,
    }
}

/// Whether both parts are the same name.
pub(crate) fn same_key(mine: &Part, theirs: &Part) -> bool
    ensures { result ≡ spec.same_key mine.now theirs.now }
{
    match (mine, theirs) {
        (Part::Is(mine), Part::Is(theirs)) => mine.equals(theirs),
        _ => false,
    }
}

/// Whether both parts are names, and not the same.
fn differ(mine: &Part, theirs: &Part) -> bool
    ensures { result ≡ spec.differ mine.now theirs.now }
{
    match (mine, theirs) {
        (Part::Is(mine), Part::Is(theirs)) => !mine.equals(theirs),
        _ => false,
    }
}

/// Whether two tags ask for two values of one key, of which a pool has one.
fn clash(mine: &Tag, theirs: &Tag) -> bool
    ensures { result ≡ spec.clash mine.now theirs.now }
{
    mine.application.equals(&theirs.application)
        && same_key(&mine.key, &theirs.key)
        && differ(&mine.value, &theirs.value)
}

fn tags_meet(mine: &Option<Tag>, theirs: &Option<Tag>) -> bool
    ensures { result ≡ spec.tags_meet mine.now theirs.now }
{
    match (mine, theirs) {
        (Some(mine), Some(theirs)) => !clash(mine, theirs),
        _ => true,
    }
}

/// Whether some target is matched by both grants.
pub(crate) fn meet(g: &AllowGrant, h: &AllowGrant) -> bool
    ensures { result ≡ spec.meet g.now h.now }
{
    pools_meet(&g.pool, &h.pool)
        && namespaces_meet(&g.namespace, &h.namespace)
        && prefixes_meet(&g.prefix, &h.prefix)
        && tags_meet(&g.tag, &h.tag)
}
