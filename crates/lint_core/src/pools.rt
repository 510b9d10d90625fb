//! Which grants of a list match no pool of a cluster.

ghost use Rattle.std.specs.Prelude.{◌≡◌, ◌<◌, ◌∷◌, [], length, not, IfOk};
ghost use Rattle.std.specs.List.{list_any};
ghost use Rattle.common_types.specs.Refused.{RefusedFirst};
ghost use Rattle.grant_core.specs.Flat.{flat};
ghost use Rattle.grant_core.specs.Refusal.{expand_refusal};
ghost use Rattle.lint_core.specs.Lint.{alone};
ghost use Rattle.lint_core.specs.Parts.{CanExpand};
ghost use Rattle.lint_core.specs.Pools.{without_pools};
ghost use Rattle.share_core.specs.Pools.{is_for};

use crate::tickets::{part_ticket, whole_ticket};
use cap_text::{AllowGrant, CapList, Grant};
use common_types::OutOfMemory;
use grant_core::{ExpandFault, Path, ProfileTable};
use share_core::{Pool, is_for};
use std::alloc::Global;

/// Whether a grant matches some pool.
fn is_for_some(grant: &AllowGrant, pools: &[Pool]) -> bool
    ensures { result ≡ list_any (is_for grant.now) pools.now }
{
    pools.iter().any(|pool| is_for(grant, pool))
}

/// Whether some grant matches some pool.
fn some_are_for(grants: &[(Path, AllowGrant)], pools: &[Pool]) -> bool
    ensures { result ≡ list_any (λ entry. list_any (is_for entry.1) pools.now) grants.now }
{
    grants.iter().any(|entry| is_for_some(&entry.1, pools))
}

/// Whether the grant at a place matches no pool.
fn is_without(
    alloc: Global,
    table: &ProfileTable,
    grants: &[Grant],
    place: usize,
    pools: &[Pool],
) -> Result<bool, OutOfMemory>
    requires expands { CanExpand table.now grants.now }
    requires within { place < length grants.now }
    ensures { IfOk result (λ without. without ≡ not (list_any (λ entry. list_any (is_for entry.1) pools.now) (flat table.now (alone grants.now place)))) }
{
    let ticket = part_ticket(alloc, table, &[], &grants[place..place + 1])?;
    Ok(!some_are_for(ticket.grants(), pools))
}

/// Whether each grant matches no pool.
fn all_without(
    alloc: Global,
    table: &ProfileTable,
    grants: &[Grant],
    pools: &[Pool],
) -> Result<Vec<bool>, OutOfMemory>
    requires { CanExpand table.now grants.now }
    ensures { IfOk result (λ without. without.items ≡ without_pools table.now pools.now grants.now) }
{
    let mut without = Vec::new(alloc);
    for place in 0..grants.len() {
        without.push(is_without(alloc, table, grants, place, pools)?)?;
    }
    Ok(without)
}

/// For each grant of a list, in order, whether it matches none of some pools: none of the grants that it expands to
/// matches the name and the tags of a pool. A use of a profile is one grant. Namespaces and prefixes of objects are
/// ignored, since a pool can have any (this project's profile).
///
/// The error is the first fault of a list that cannot be expanded, or out of memory. Both leave all as it is.
pub fn without_pool(
    alloc: Global,
    table: &ProfileTable,
    list: &CapList,
    pools: &[Pool],
) -> Result<Vec<bool>, ExpandFault>
    ensures exact { IfOk result (λ without. without.items ≡ without_pools table.now pools.now list.now) }
    ensures refused { RefusedFirst (expand_refusal table.now list.now) ExpandFault.OutOfMemory result }
{
    let _whole = whole_ticket(alloc, table, list)?;
    Ok(all_without(alloc, table, list.grants(), pools)?)
}
