//! Where the groups of pools stand, in order of creation.

ghost use Rattle.std.specs.Prelude.{◌≡◌, ◌≤◌, ◌+◌, ℕ, All, length};
ghost use Rattle.entry_core.specs.Locality.{group_for};
ghost use Rattle.map_core.specs.PoolLimits.{IsPool};
ghost use Rattle.map_core.specs.Refusal.{groups_in};
ghost use Rattle.world_front.specs.Groups as spec;

use common_types::Name;
use entry_core::Sealed;
use map_core::Pool;

/// How many groups the pools before the one of a name have, and how many it has itself: none where there is no such pool.
#[tactic(auto, unfolding(map_core::specs::Refusal::groups_in, map_core::specs::Map::pool_in))]
pub fn groups_before(pools: &[Pool], name: &Name) -> (usize, u32)
    requires limits { All IsPool pools.now }
    requires few { length pools.now ≤ 32 }
    ensures before { (number : ℕ) → spec.place_in pools.now (record { pool = name.now; number = number }) ≡ result.0 + number }
    ensures own { result.1 ≡ groups_in pools.now name.now }
    ensures few { result.0 ≤ 2048 }
{
    let mut before: usize = 0;
    for pool in pools {
        if pool.name.equals(name) {
            return (before, pool.pg_num);
        }
        before += pool.pg_num as usize;
    }
    (before, 0)
}

/// How many groups the pools before a request's have, and its group's number. It takes no memory.
pub fn place_for(pools: &[Pool], request: &Sealed) -> usize
    requires limits { All IsPool pools.now }
    requires few { length pools.now ≤ 32 }
    ensures { result ≡ spec.place_in pools.now (group_for request.now) }
{
    let (before, _) = groups_before(pools, &request.view().pool);
    before + request.group_number() as usize
}
