//! Whether the grammar can spell grants. Nothing here takes memory.

ghost use Rattle.std.specs.Prelude.{◌≡◌, ◌&&◌};
ghost use Rattle.std.specs.List.{list_all};
ghost use Rattle.cap_grants.specs.Bytes as bytes_spec;
ghost use Rattle.cap_grants.specs.Spellable as spec;

use crate::grant::{Access, AllowGrant, Grant, NsMatch, Part, Tag};
use common_types::Name;

/// Whether a byte may stand between two of these quotes.
pub fn is_quotable(quote: u8, byte: u8) -> bool
    ensures { result ≡ bytes_spec.is_quotable quote byte }
{
    32 <= byte && byte <= 126 && byte != quote
}

// Whether bytes may all stand between two of these quotes.
fn are_quotable(quote: u8, bytes: &[u8]) -> bool
    ensures { result ≡ list_all (bytes_spec.is_quotable quote) bytes.now }
{
    bytes.iter().all(|byte| is_quotable(quote, *byte))
}

// Whether bytes may stand between two quotes of one kind.
fn can_be_quoted(bytes: &[u8]) -> bool
    ensures { result ≡ spec.can_be_quoted bytes.now }
{
    are_quotable(b'"', bytes) || are_quotable(b'\'', bytes)
}

// Whether a name can be the name of a pool, a profile, a class, a method, an application or a prefix.
#[tactic(auto, using(crate::proofs::LastBytes::empty_by_length))]
fn is_value(name: &Name) -> bool
    ensures { result ≡ spec.is_value name.now }
{
    !name.is_empty() && can_be_quoted(name.as_str().as_bytes())
}

// Whether there is no name, or one that can be a value.
fn none_or_value(name: &Option<Name>) -> bool
    ensures { result ≡ spec.none_or spec.is_value name.now }
{
    match name {
        None => true,
        Some(name) => is_value(name),
    }
}

// Whether the last byte is a star.
#[tactic(auto, using(crate::proofs::LastBytes::star_by_last, crate::proofs::LastBytes::no_star_of_none))]
fn ends_in_star(bytes: &[u8]) -> bool
    ensures { result ≡ spec.ends_in_star bytes.now }
{
    !bytes.is_empty() && bytes[bytes.len() - 1] == b'*'
}

fn is_access(access: &Access) -> bool
    ensures { result ≡ spec.is_access access.now }
{
    match access {
        Access::All => true,
        Access::Flags(flags) => {
            flags.read || flags.write || flags.class_read || flags.class_write
        }
        Access::Class { class, method } => is_value(class) && none_or_value(method),
    }
}

fn is_namespace(namespace: &NsMatch) -> bool
    ensures { result ≡ spec.is_namespace namespace.now }
{
    match namespace {
        NsMatch::Exact(name) => {
            let bytes = name.as_str().as_bytes();
            can_be_quoted(bytes) && !ends_in_star(bytes)
        }
        NsMatch::Prefix(front) => can_be_quoted(front.as_str().as_bytes()),
    }
}

fn is_part(part: &Part) -> bool
    ensures { result ≡ spec.is_part part.now }
{
    match part {
        Part::Any => true,
        Part::Is(name) => is_value(name) && name.as_str() != "*",
    }
}

fn is_tag(tag: &Tag) -> bool
    ensures { result ≡ spec.is_tag tag.now }
{
    is_value(&tag.application) && is_part(&tag.key) && is_part(&tag.value)
}

fn is_scope(pool: &Option<Name>, namespace: &Option<NsMatch>) -> bool
    ensures { result ≡ spec.is_scope pool.now namespace.now }
{
    none_or_value(pool)
        && match namespace {
            None => true,
            Some(namespace) => is_namespace(namespace),
        }
}

// Whether the tag of a grant is one, and stands beside no pool and no prefix.
fn has_own_tag(grant: &AllowGrant) -> bool
    ensures { result ≡ (spec.none_or spec.is_tag grant.now.tag && spec.is_alone grant.now grant.now.tag) }
{
    match &grant.tag {
        None => true,
        Some(tag) => is_tag(tag) && grant.pool.is_none() && grant.prefix.is_none(),
    }
}

fn is_allow(grant: &AllowGrant) -> bool
    ensures { result ≡ spec.is_allow grant.now }
{
    is_access(&grant.access)
        && is_scope(&grant.pool, &grant.namespace)
        && none_or_value(&grant.prefix)
        && has_own_tag(grant)
}

/// Whether the grammar can spell a grant. It takes no memory.
pub fn is_spellable(grant: &Grant) -> bool
    ensures { result ≡ spec.is_spellable grant.now }
{
    match grant {
        Grant::Allow(allow) => is_allow(allow),
        Grant::Profile(used) => is_value(&used.name) && is_scope(&used.pool, &used.namespace),
    }
}

/// Whether the grammar can spell each of these grants. It takes no memory.
pub fn are_spellable(grants: &[Grant]) -> bool
    ensures { result ≡ list_all spec.is_spellable grants.now }
{
    grants.iter().all(|grant| is_spellable(grant))
}
