//! Whether two tickets reach a common object in pools that are given.

ghost use Rattle.std.specs.Prelude.{◌≡◌, ◌≢◌, ◌↔◌, [], Option, Some, None, IfOk, IsTrue, option_copied};
ghost use Rattle.std.specs.List.{list_any, find};
ghost use Rattle.share_core.specs.Meeting as spec;
ghost use Rattle.share_core.specs.Pools as rule;
ghost use Rattle.share_core.specs.Sharing.{IsExampleAt, IsExampleIn, ShareIn};

use crate::giving::gives;
use crate::meetings::{namespaces_meet, pools_meet, prefixes_meet};
use crate::targets::{common_namespace, common_object};
use crate::touches::Touch;
use cap_text::AllowGrant;
use common_types::{Name, OutOfMemory, Tags, TryClone};
use compare_core::OwnedTarget;
use grant_core::Path;
use std::alloc::Global;
use verdict_core::{Ticket, matches_tag, names};

/// A pool of a cluster, and the applications that it is tagged with.
#[derive(Debug)]
pub struct Pool {
    pub name: Name,
    pub tags: Tags,
}

impl Drop for Pool {
    fn drop(self) {
        let Pool { name: _, tags: _ } = self;
    }
}

/// Whether a grant is for a pool, by its name and its tags. Namespaces and prefixes of objects are not looked at, since a pool
/// can have any (this project's profile). It takes no memory.
pub fn is_for(g: &AllowGrant, pool: &Pool) -> bool
    ensures { result ≡ rule.is_for g.now pool.now }
{
    names(&g.pool, pool.name.as_str().as_bytes()) && matches_tag(&g.tag, &pool.tags)
}

fn both_for(g: &AllowGrant, h: &AllowGrant, pool: &Pool) -> bool
    ensures { result ≡ spec.both_for g.now h.now pool.now }
{
    is_for(g, pool) && is_for(h, pool)
}

/// Whether two grants give the touches, and meet wherever both are for the pool.
fn can_reach(g: &AllowGrant, one: &Touch, h: &AllowGrant, other: &Touch) -> bool
    ensures { result ≡ spec.can_reach one.now other.now g.now h.now }
{
    gives(&g.access, one)
        && gives(&h.access, other)
        && namespaces_meet(&g.namespace, &h.namespace)
        && prefixes_meet(&g.prefix, &h.prefix)
}

/// Whether two grants give the touches at a common target of a pool.
fn reaches_at(g: &AllowGrant, one: &Touch, h: &AllowGrant, other: &Touch, pool: &Pool) -> bool
    ensures { result ≡ spec.reach_at pool.now one.now other.now g.now h.now }
{
    can_reach(g, one, h, other) && both_for(g, h, pool)
}

/// Whether both grants are for some of the pools.
fn both_for_some(g: &AllowGrant, h: &AllowGrant, pools: &[Pool]) -> bool
    ensures { result ≡ list_any (spec.both_for g.now h.now) pools.now }
{
    pools.iter().any(|pool| both_for(g, h, pool))
}

/// Whether two grants give the touches at a common target of some of the pools. Grants for two pools have none, so the pools
/// are not looked at then.
fn reaches_in(g: &AllowGrant, one: &Touch, h: &AllowGrant, other: &Touch, pools: &[Pool]) -> bool
    ensures { result ≡ spec.reach_in pools.now one.now other.now g.now h.now }
{
    can_reach(g, one, h, other) && pools_meet(&g.pool, &h.pool) && both_for_some(g, h, pools)
}

/// Whether a grant and some grant of a ticket do so.
fn meets_some_in(
    g: &AllowGrant,
    one: &Touch,
    others: &Ticket,
    other: &Touch,
    pools: &[Pool],
) -> bool
    ensures { result ≡ list_any (λ theirs. spec.reach_in pools.now one.now other.now g.now theirs.1) others.now.grants }
{
    others
        .grants()
        .iter()
        .any(|theirs| reaches_in(g, one, &theirs.1, other, pools))
}

/// Whether some grant of each ticket does so.
fn some_reach_in(ones: &Ticket, one: &Touch, others: &Ticket, other: &Touch, pools: &[Pool]) -> bool
    ensures { result ≡ list_any (λ mine. list_any (λ theirs. spec.reach_in pools.now one.now other.now mine.1 theirs.1) others.now.grants) ones.now.grants }
{
    ones.grants()
        .iter()
        .any(|mine| meets_some_in(&mine.1, one, others, other, pools))
}

/// Whether there is a target in some of the pools at which the one ticket allows a touch and the other another one. It takes
/// no memory, and some comparisons of names for each pair of grants; only where they meet are the pools looked at.
///
/// The targets are those of all namespaces and of all objects of the pools, each pool with exactly its tags, and the
/// listings; names are any bytes. When a ticket ends is not looked at (this project's profile).
pub fn share_in(ones: &Ticket, one: &Touch, others: &Ticket, other: &Touch, pools: &[Pool]) -> bool
    ensures { IsTrue result ↔ ShareIn pools.now ones.now.grants one.now others.now.grants other.now }
{
    some_reach_in(ones, one, others, other, pools)
}

/// The first grant of a ticket with which the other grant gives the touches at a common target of a pool.
fn partner_at<'a>(
    g: &AllowGrant,
    one: &Touch,
    others: &'a [(Path, AllowGrant)],
    other: &Touch,
    pool: &Pool,
) -> Option<&'a (Path, AllowGrant)>
    ensures { option_copied result ≡ find (λ theirs. spec.reach_at pool.now one.now other.now g.now theirs.1) others.now }
{
    others
        .iter()
        .find(|theirs| reaches_at(g, one, &theirs.1, other, pool))
}

/// A target of a pool that both grants match, if they meet there.
fn common_in(
    alloc: Global,
    pool: &Pool,
    g: &AllowGrant,
    h: &AllowGrant,
) -> Result<OwnedTarget, OutOfMemory>
    ensures { IfOk result (λ target. target ≡ spec.common_in pool.now g.now h.now) }
{
    Ok(OwnedTarget {
        pool: pool.name.copy()?,
        tags: pool.tags.copy()?,
        namespace: common_namespace(alloc, &g.namespace, &h.namespace)?,
        object: common_object(alloc, &g.prefix, &h.prefix)?,
    })
}

/// A target of a pool at which the tickets allow the touches, if there is one.
fn example_at(
    alloc: Global,
    ones: &[(Path, AllowGrant)],
    one: &Touch,
    others: &[(Path, AllowGrant)],
    other: &Touch,
    pool: &Pool,
) -> Result<Option<OwnedTarget>, OutOfMemory>
    ensures { IfOk result (λ found. IsExampleAt pool.now ones.now one.now others.now other.now found) }
{
    for mine in ones {
        if let Some(theirs) = partner_at(&mine.1, one, others, other, pool) {
            return Ok(Some(common_in(alloc, pool, &mine.1, &theirs.1)?));
        }
    }
    Ok(None)
}

/// A target of the first of the pools in which the one ticket allows a touch and the other another one, if there is
/// such a pool. It is an object, and no listing. The only error is out of memory, which leaves all as it is. The time
/// depends on the pairs of grants for each pool up to that one.
pub fn example_in(
    alloc: Global,
    ones: &Ticket,
    one: &Touch,
    others: &Ticket,
    other: &Touch,
    pools: &[Pool],
) -> Result<Option<OwnedTarget>, OutOfMemory>
    ensures { IfOk result (λ found. IsExampleIn pools.now ones.now.grants one.now others.now.grants other.now found) }
{
    for pool in pools {
        let found = example_at(alloc, ones.grants(), one, others.grants(), other, pool)?;
        if found.is_some() {
            return Ok(found);
        }
    }
    Ok(None)
}
