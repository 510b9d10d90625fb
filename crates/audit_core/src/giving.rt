//! What a grant gives of a pool by itself.

ghost use Rattle.std.specs.Prelude.{◌≡◌};
ghost use Rattle.audit_core.specs.Giving as spec;

use crate::cell::Letter;
use cap_text::{Access, AllowGrant, NsMatch};
use common_types::Name;
use share_core::{Pool, is_for};
use verdict_core::{can_read, can_write};

fn takes_every_namespace(namespace: &Option<NsMatch>) -> bool
    ensures { result ≡ spec.takes_every_namespace namespace.now }
{
    match namespace {
        None => true,
        Some(NsMatch::Exact(_)) => false,
        Some(NsMatch::Prefix(prefix)) => prefix.is_empty(),
    }
}

fn takes_every_object(prefix: &Option<Name>) -> bool
    ensures { result ≡ spec.takes_every_object prefix.now }
{
    match prefix {
        None => true,
        Some(prefix) => prefix.is_empty(),
    }
}

/// Whether an access covers some call of a listed class that reads, writes or both.
fn covers_some(access: &Access) -> bool
    ensures { result ≡ spec.covers_some access.now }
{
    match access {
        Access::All | Access::Class { .. } => true,
        Access::Flags(flags) => flags.class_read || flags.class_write,
    }
}

/// Whether an access covers every such call.
fn covers_every(access: &Access) -> bool
    ensures { result ≡ spec.covers_every access.now }
{
    match access {
        Access::All => true,
        Access::Flags(flags) => flags.class_read && flags.class_write,
        Access::Class { .. } => false,
    }
}

/// Whether an access gives some request of a letter.
fn gives_some(letter: Letter, access: &Access) -> bool
    ensures { result ≡ spec.gives_some letter access.now }
{
    match letter {
        Letter::Read | Letter::Listing => can_read(access),
        Letter::Write => can_write(access),
        Letter::Call => covers_some(access),
        Letter::Any => can_read(access) || can_write(access) || covers_some(access),
    }
}

/// Whether an access gives every request of a letter.
fn gives_every(letter: Letter, access: &Access) -> bool
    ensures { result ≡ spec.gives_every letter access.now }
{
    match letter {
        Letter::Read | Letter::Listing => can_read(access),
        Letter::Write => can_write(access),
        Letter::Call => covers_every(access),
        Letter::Any => matches!(access, Access::All),
    }
}

/// Whether a prefix takes some target of a letter: a listing is taken by none.
fn takes_some(letter: Letter, prefix: &Option<Name>) -> bool
    ensures { result ≡ spec.takes_some letter prefix.now }
{
    match letter {
        Letter::Listing => prefix.is_none(),
        Letter::Read | Letter::Write | Letter::Call | Letter::Any => true,
    }
}

/// Whether a prefix takes every target of a letter: all listings, or all objects.
fn takes_every(letter: Letter, prefix: &Option<Name>) -> bool
    ensures { result ≡ spec.takes_every letter prefix.now }
{
    match letter {
        Letter::Listing => prefix.is_none(),
        Letter::Read | Letter::Write | Letter::Call | Letter::Any => takes_every_object(prefix),
    }
}

/// Whether a grant allows some request of a letter in a pool.
pub(crate) fn reaches_some(letter: Letter, pool: &Pool, grant: &AllowGrant) -> bool
    ensures { result ≡ spec.reaches_some letter pool.now grant.now }
{
    is_for(grant, pool) && gives_some(letter, &grant.access) && takes_some(letter, &grant.prefix)
}

/// Whether a grant allows every request of a letter in a pool; of all requests those of objects.
pub(crate) fn reaches_every(letter: Letter, pool: &Pool, grant: &AllowGrant) -> bool
    ensures { result ≡ spec.reaches_every letter pool.now grant.now }
{
    is_for(grant, pool)
        && gives_every(letter, &grant.access)
        && takes_every_namespace(&grant.namespace)
        && takes_every(letter, &grant.prefix)
}
