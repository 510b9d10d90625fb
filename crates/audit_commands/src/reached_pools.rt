//! What rights reach of some pools, and the grants that give it.

use audit_core::{Cell, cells};
use cap_text::AllowGrant;
use common_types::{Name, OutOfMemory, Tags, TryClone};
use grant_core::Path;
use network_core::Network;
use rights_core::Rights;
use share_core::{Pool, is_for};
use std::alloc::Global;

/// How a pool is called that no grant names.
const ANY: &str = "<any>";

/// The tick of each question.
const FIRST_TICK: u64 = 0;

/// A grant that is for a pool.
#[derive(Clone, Copy)]
pub(crate) struct Giving<'a> {
    pub(crate) path: &'a Path,
    pub(crate) network: Option<Network>,
    pub(crate) grant: &'a AllowGrant,
}

/// What rights reach of a pool.
#[derive(Drop)]
pub(crate) struct ReachedPool<'a> {
    pub(crate) pool: &'a str,
    pub(crate) cell: Cell,
    /// The grants that are for the pool.
    pub(crate) grants: Vec<Giving<'a>>,
}

/// The grants of some rights that are for a pool.
fn grants_for<'a>(
    alloc: Global,
    rights: &'a Rights,
    pool: &Pool,
) -> Result<Vec<Giving<'a>>, OutOfMemory> {
    let mut grants = Vec::new(alloc);
    for index in 0..rights.len() {
        if let Some((path, network, grant)) = rights.entry(index) {
            if is_for(grant, pool) {
                grants.push(Giving {
                    path,
                    network,
                    grant,
                })?;
            }
        }
    }
    Ok(grants)
}

/// What rights reach of each of some pools.
pub(crate) fn reached_pools<'a>(
    alloc: Global,
    rights: &'a Rights,
    pools: &'a [Pool],
) -> Result<Vec<ReachedPool<'a>>, OutOfMemory> {
    let cells = cells(alloc, rights, FIRST_TICK, pools)?;
    let mut reached = Vec::with_capacity(alloc, pools.len())?;
    for (pool, cell) in pools.iter().zip(cells.iter()) {
        reached.push(ReachedPool {
            pool: pool.name.as_str(),
            cell: *cell,
            grants: grants_for(alloc, rights, pool)?,
        })?;
    }
    Ok(reached)
}

/// The names of the pools that grants name, sorted. One may be there more than once.
fn pool_names(alloc: Global, rights: &Rights) -> Result<Vec<&str>, OutOfMemory> {
    let mut names = Vec::new(alloc);
    for index in 0..rights.len() {
        if let Some((_, _, grant)) = rights.entry(index) {
            if let Some(name) = &grant.pool {
                names.push(name.as_str())?;
            }
        }
    }
    names.sort()?;
    Ok(names)
}

/// Whether a name is among these.
fn is_among(names: &[&str], name: &str) -> bool {
    for one in names {
        if *one == name {
            return true;
        }
    }
    false
}

/// A name that none of these is: `<any>`, or with more behind it.
fn other_name(alloc: Global, names: &[&str]) -> Result<String, OutOfMemory> {
    let mut name = String::from_str(alloc, ANY)?;
    for _ in 0..names.len() {
        if !is_among(names, name.as_str()) {
            break;
        }
        name.push_str(">")?;
    }
    Ok(name)
}

/// A pool without tags.
fn untagged(alloc: Global, name: &str) -> Result<Pool, OutOfMemory> {
    Ok(Pool {
        name: Name::new(alloc, name)?,
        tags: Tags::new(alloc),
    })
}

/// The pools that grants name, sorted by their names, and one that no grant names. None has tags.
pub(crate) fn named_pools(alloc: Global, rights: &Rights) -> Result<Vec<Pool>, OutOfMemory> {
    let names = pool_names(alloc, rights)?;
    let mut pools = Vec::new(alloc);
    let mut last = None;
    for name in &names {
        if last != Some(*name) {
            pools.push(untagged(alloc, name)?)?;
        }
        last = Some(*name);
    }
    let other = other_name(alloc, names.as_slice())?;
    pools.push(untagged(alloc, other.as_str())?)?;
    Ok(pools)
}

/// Whether some grant is for pools with a tag.
pub(crate) fn needs_tags(rights: &Rights) -> bool {
    for index in 0..rights.len() {
        if let Some((_, _, grant)) = rights.entry(index) {
            if grant.tag.is_some() {
                return true;
            }
        }
    }
    false
}

/// Copies of pools, sorted by their names.
pub(crate) fn sorted_pools(alloc: Global, pools: &[Pool]) -> Result<Vec<Pool>, OutOfMemory> {
    let mut order = Vec::with_capacity(alloc, pools.len())?;
    for (index, pool) in pools.iter().enumerate() {
        order.push((pool.name.as_str(), index))?;
    }
    order.sort()?;
    let mut sorted = Vec::with_capacity(alloc, pools.len())?;
    for (_, index) in &order {
        if let Some(pool) = pools.get(*index) {
            let name = pool.name.copy()?;
            let tags = pool.tags.copy()?;
            sorted.push(Pool { name, tags })?;
        }
    }
    Ok(sorted)
}
