//! The parts of an expanded text that belong to a grant of the text.

ghost use Rattle.std.specs.Prelude.{◌≡◌, IfOk, not};
ghost use Rattle.std.specs.List.{list_any};
ghost use Rattle.lint_core.specs.RightsLint as spec;
ghost use Rattle.lint_core.specs.RightsLint.{begins_with, is_part, some_of};
ghost use Rattle.lint_core.specs.Sought as spec_sought;
ghost use Rattle.rights_core.specs.Rights.{is_live};
ghost use Rattle.share_core.specs.Pools.{is_for};

use cap_text::AllowGrant;
use common_types::OutOfMemory;
use grant_core::Path;
use rights_core::{Entry, Rights};
use share_core::{Pool, is_for};
use std::alloc::Global;
use verdict_core::Ticket;

/// Whether a path begins with this number.
fn begins_with(number: usize, path: &Path) -> bool
    ensures { result ≡ begins_with number path.now }
{
    match path.as_slice().first() {
        Some(first) => *first == number,
        None => false,
    }
}

/// Whether the grant of a number expands to this one, if `own`; else whether it does not.
fn is_part(own: bool, number: usize, entry: &(Path, AllowGrant)) -> bool
    ensures { result ≡ is_part own number entry.now }
{
    let is_under = begins_with(number, &entry.0);
    if own { is_under } else { !is_under }
}

/// The ticket of what the grant of a number expands to, if `own`; else of everything else.
pub(crate) fn part(
    alloc: Global,
    own: bool,
    number: usize,
    ticket: &Ticket,
) -> Result<Ticket, OutOfMemory>
    ensures { IfOk result (λ part. part.grants ≡ spec.part own number ticket.now.grants) }
{
    let grants = ticket.grants();
    let mut part = Vec::new(alloc);
    for entry in grants {
        if is_part(own, number, entry) {
            part.push((entry.0.copy()?, entry.1.copy()?))?;
        }
    }
    Ok(Ticket::from_grants(part, None))
}

/// What is looked for among the grants that a grant expands to.
#[derive(Clone, Copy)]
pub(crate) enum Sought<'a> {
    /// Any grant.
    Any,
    /// One whose network matches no address.
    Dead,
    /// One that names neither a pool nor a tag.
    Unbounded,
    /// One that names neither a pool nor a tag nor a prefix of objects.
    UnboundedWithoutPrefix,
    /// One that matches some pool.
    OfPool(&'a [Pool]),
}

fn is_dead(entry: &Entry<'_>) -> bool
    ensures { result ≡ not (is_live entry.now.network) }
{
    match &entry.network {
        Some(network) => network.is_never(),
        None => false,
    }
}

fn is_unbounded(grant: &AllowGrant) -> bool
    ensures { result ≡ spec.is_unbounded grant.now }
{
    grant.pool.is_none() && grant.tag.is_none()
}

fn is_for_some(grant: &AllowGrant, pools: &[Pool]) -> bool
    ensures { result ≡ list_any (is_for grant.now) pools.now }
{
    pools.iter().any(|pool| is_for(grant, pool))
}

/// Whether a grant is one that is looked for.
fn is_sought(sought: Sought<'_>, entry: &Entry<'_>) -> bool
    ensures { result ≡ spec_sought.is_sought sought.entry entry.now }
{
    match sought {
        Sought::Any => true,
        Sought::Dead => is_dead(entry),
        Sought::Unbounded => is_unbounded(entry.grant),
        Sought::UnboundedWithoutPrefix => {
            is_unbounded(entry.grant) && !entry.grant.prefix.is_some()
        }
        Sought::OfPool(pools) => is_for_some(entry.grant, pools),
    }
}

/// Whether the grant of a number expands to some grant that is looked for.
pub(crate) fn has_sought(rights: &Rights, number: usize, sought: Sought<'_>) -> bool
    ensures { result ≡ some_of (spec_sought.is_sought sought.entry) number rights.now.grants }
{
    let mut rest = rights.entries();
    while let Some((entry, others)) = rest.split_first() {
        if begins_with(number, entry.path) && is_sought(sought, &entry) {
            return true;
        }
        rest = others;
    }
    false
}
