//! Pools, as they are and as they were.

ghost use Rattle.std.specs.Prelude.{◌≡◌, IfOk, option_copied};
ghost use Rattle.map_core.specs.Map as map;

use common_types::{Name, OutOfMemory, Tags, TryClone};
use std::alloc::Global;

/// The number of a state of the map, from 1 on, at most 65,535.
pub type Epoch = u32;

/// A pool: its name, how many groups it has, and how large their acting sets are.
#[derive(Debug)]
pub struct Pool {
    pub name: Name,
    /// Its groups are numbered from 0.
    pub pg_num: u32,
    /// How many daemons an acting set has, if at least `size` daemons are up.
    pub size: u32,
    /// How many daemons of an acting set are needed to decide a request.
    pub min_size: u32,
    /// The applications that it is tagged with.
    pub tags: Tags,
}

impl Drop for Pool {
    fn drop(self) {
        let Pool {
            name: _,
            pg_num: _,
            size: _,
            min_size: _,
            tags: _,
        } = self;
    }
}

/// A pool as it was at an epoch.
#[derive(Debug)]
pub struct PoolView {
    pub epoch: Epoch,
    /// The pool's name.
    pub pool: Name,
    pub pg_num: u32,
    pub size: u32,
    pub min_size: u32,
    pub tags: Tags,
}

impl Drop for PoolView {
    fn drop(self) {
        let PoolView {
            epoch: _,
            pool: _,
            pg_num: _,
            size: _,
            min_size: _,
            tags: _,
        } = self;
    }
}

impl PoolView {
    /// An equal view.
    pub fn copy(&self) -> Result<PoolView, OutOfMemory>
        ensures { IfOk result (λ view. view ≡ self.now) }
    {
        Ok(PoolView {
            epoch: self.epoch,
            pool: self.pool.copy()?,
            pg_num: self.pg_num,
            size: self.size,
            min_size: self.min_size,
            tags: self.tags.copy()?,
        })
    }
}

impl Pool {
    ghost use Rattle.map_core.specs.Map.{view_of};

    // An equal pool.
    pub(crate) fn copy(&self) -> Result<Pool, OutOfMemory>
        ensures { IfOk result (λ pool. pool ≡ self.now) }
    {
        Ok(Pool {
            name: self.name.copy()?,
            pg_num: self.pg_num,
            size: self.size,
            min_size: self.min_size,
            tags: self.tags.copy()?,
        })
    }

    // The view of this pool.
    pub(crate) fn into_view(self, epoch: Epoch) -> PoolView
        ensures { result ≡ view_of epoch self }
    {
        let Pool {
            name,
            pg_num,
            size,
            min_size,
            tags,
        } = self;
        PoolView {
            epoch,
            pool: name,
            pg_num,
            size,
            min_size,
            tags,
        }
    }

    // A view of an equal pool.
    pub(crate) fn to_view(&self, epoch: Epoch) -> Result<PoolView, OutOfMemory>
        ensures { IfOk result (λ view. view ≡ view_of epoch self.now) }
    {
        Ok(PoolView {
            epoch,
            pool: self.name.copy()?,
            pg_num: self.pg_num,
            size: self.size,
            min_size: self.min_size,
            tags: self.tags.copy()?,
        })
    }
}

/// The pool of this name, or `None` where there is no such pool. It takes no memory.
#[tactic(auto, unfolding(crate::specs::Map::pool_in))]
pub fn find_pool<'a>(pools: &'a [Pool], name: &Name) -> Option<&'a Pool>
    ensures { option_copied result ≡ map.pool_in pools.now name.now }
{
    pools.iter().find(|pool| pool.name.equals(name))
}

/// Equal pools, for a copy of a map. An error is a growth that was refused.
pub fn copy_pools(alloc: Global, pools: &[Pool]) -> Result<Vec<Pool>, OutOfMemory>
    ensures { IfOk result (λ copy. copy.items ≡ pools.now) }
{
    let mut all = Vec::with_capacity(alloc, pools.len())?;
    for pool in pools {
        all.push(pool.copy()?)?;
    }
    Ok(all)
}
