//! Requests that a region allows and an entity lacks.

ghost use Rattle.std.specs.Prelude.{◌≡◌, ◌∷◌, [], Some, None, IfOk, option_copied};
ghost use Rattle.rules_core.specs.Breaking.{IsBrokenBy};
ghost use Rattle.rules_core.specs.Narrowed as spec;

use crate::demand::Demand;
use cap_grants::copy_namespace;
use cap_text::AllowGrant;
use common_types::{OutOfMemory, TryClone, copy_name};
use compare_core::{Example, OwnedTarget, Registry, example_of};
use grant_core::Path;
use share_core::{Pool, is_for};
use std::alloc::Global;
use verdict_core::{Needs, Ticket};

/// A grant as it is in a pool that it is for.
fn narrow_grant(grant: &AllowGrant, pool: &Pool) -> Result<AllowGrant, OutOfMemory>
    ensures { IfOk result (λ narrow. narrow ≡ spec.narrow pool.now grant.now) }
{
    Ok(AllowGrant {
        pool: Some(pool.name.copy()?),
        tag: None,
        access: grant.access.copy()?,
        namespace: copy_namespace(&grant.namespace)?,
        prefix: copy_name(&grant.prefix)?,
    })
}

/// The grants that are for a pool, as they are in it.

fn narrow_grants(
    alloc: Global,
    grants: &[(Path, AllowGrant)],
    pool: &Pool,
) -> Result<Vec<(Path, AllowGrant)>, OutOfMemory>
    ensures { IfOk result (λ kept. kept.items ≡ spec.narrowed pool.now grants.now) }
{
    let mut kept = Vec::new(alloc);
    let mut rest = grants;
    while let Some((entry, others)) = rest.split_first() {
        if is_for(&entry.1, pool) {
            kept.push((entry.0.copy()?, narrow_grant(&entry.1, pool)?))?;
        }
        rest = others;
    }
    Ok(kept)
}

/// A ticket as it is in a pool.
fn narrow_ticket(alloc: Global, ticket: &Ticket, pool: &Pool) -> Result<Ticket, OutOfMemory>
    ensures { IfOk result (λ narrow. narrow.grants ≡ spec.narrowed pool.now ticket.now.grants) }
{
    let kept = narrow_grants(alloc, ticket.grants(), pool)?;
    Ok(Ticket::from_grants(kept, None))
}

/// Equal needs.
fn copy_needs(needs: &Needs) -> Result<Needs, OutOfMemory>
    ensures { IfOk result (λ copy. copy ≡ needs.now) }
{
    Ok(Needs {
        reads: needs.reads,
        writes: needs.writes,
        calls: needs.calls.copy()?,
    })
}

/// An example's request as one of a pool, with exactly its tags.
fn placed(example: &Example, pool: &Pool) -> Result<Example, OutOfMemory>
    ensures { IfOk result (λ placed. placed ≡ spec.placed pool.now example.now) }
{
    Ok(Example {
        path: example.path.copy()?,
        target: OwnedTarget {
            pool: pool.name.copy()?,
            tags: pool.tags.copy()?,
            namespace: example.target.namespace.copy()?,
            object: example.target.object.copy()?,
        },
        needs: copy_needs(&example.needs)?,
    })
}

/// A request of any pool that some grant of a region allows and an entity lacks.
fn lacking_anywhere(
    alloc: Global,
    region: &[(Path, AllowGrant)],
    entity: &Ticket,
) -> Result<Option<Example>, OutOfMemory>
    ensures { IfOk result (IsBrokenBy Demand.Always None region.now entity.now.grants) }
{
    for entry in region {
        let found = example_of(alloc, Registry::Every, entity, &entry.0, &entry.1)?;
        if found.is_some() {
            return Ok(found);
        }
    }
    Ok(None)
}

/// A request of one pool that some grant of a region allows and an entity lacks.
fn lacking_in(
    alloc: Global,
    pool: &Pool,
    region: &Ticket,
    entity: &Ticket,
) -> Result<Option<Example>, OutOfMemory>
    ensures { IfOk result (IsBrokenBy Demand.Always (Some (pool.now ∷ [])) region.now.grants entity.now.grants) }
{
    let narrow_region = narrow_grants(alloc, region.grants(), pool)?;
    if narrow_region.is_empty() {
        return Ok(None);
    }
    let narrow_entity = narrow_ticket(alloc, entity, pool)?;
    let found = lacking_anywhere(alloc, narrow_region.as_slice(), &narrow_entity)?;
    match &found {
        None => Ok(None),
        Some(example) => Ok(Some(placed(example, pool)?)),
    }
}

/// A request of some of the pools that some grant of a region allows and an entity lacks.
fn lacking_in_some(
    alloc: Global,
    pools: &[Pool],
    region: &Ticket,
    entity: &Ticket,
) -> Result<Option<Example>, OutOfMemory>
    ensures { IfOk result (IsBrokenBy Demand.Always (Some pools.now) region.now.grants entity.now.grants) }
{
    for pool in pools {
        let found = lacking_in(alloc, pool, region, entity)?;
        if found.is_some() {
            return Ok(found);
        }
    }
    Ok(None)
}

/// A request that some grant of a region allows and an entity lacks, in some of the pools where they are given, with the path of
/// the region's grant.
pub(crate) fn lacking_request(
    alloc: Global,
    pools: Option<&[Pool]>,
    region: &Ticket,
    entity: &Ticket,
) -> Result<Option<Example>, OutOfMemory>
    ensures { IfOk result (IsBrokenBy Demand.Always (option_copied pools.entry) region.now.grants entity.now.grants) }
{
    match pools {
        None => lacking_anywhere(alloc, region.grants(), entity),
        Some(pools) => lacking_in_some(alloc, pools, region, entity),
    }
}
