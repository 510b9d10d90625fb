//! Where a group stands among the groups of the world.

ghost use Rattle.std.specs.Prelude.{◌≡◌, List, IfOk};
ghost use Rattle.std.specs.Option.{option_map};
ghost use Rattle.entry_core.specs.Locality.{group_for};
ghost use Rattle.group_model.specs.Group.{Group};
ghost use Rattle.map_core.specs.Refusal.{acting_refusal};
ghost use Rattle.world_events.specs.declared.fault.WorldFault.TheVariants.{Map as OfMap};
ghost use Rattle.world_front.specs.ControlPlane.{error_of};
ghost use Rattle.world_core.specs.Moves.{AreGroupsOf, IsAt};
ghost use Rattle.world_core.specs.Sound.{IsSealedFor};

use entry_core::{GroupId, Sealed};
use map_core::ClusterMap;
use world_front::{WorldFault, groups_before, place_for};

/// The index of a group among the groups of a map's pools: the number of groups of the earlier pools, plus its
/// number. It allocates nothing. It takes a step for each pool up to the group's own, at most 32.
///
/// M9: the pool's name is not valid. M2: there is no such pool. M10: the pool has no group of this number.
pub fn place_of(map: &ClusterMap, group: &GroupId) -> Result<usize, WorldFault>
    ensures refused { error_of result ≡ option_map OfMap (acting_refusal map.now group.now.pool group.now.number) }
    ensures place { IfOk result (λ place. (groups : List Group) → AreGroupsOf map.now groups → IsAt groups group.now place) }
{
    let _epoch = map.epoch();
    let (before, count) = groups_before(map.pools(), &group.pool);
    if group.number < count {
        return Ok(before + group.number as usize);
    }
    match map.acting_refusal(&group.pool, group.number) {
        Some(fault) => Err(WorldFault::Map(fault)),
        None => unreachable!(),
    }
}

/// The place of the group that a request is for, whose pool the map has. It takes no memory, and a step for each pool, of which
/// there are at most 32.
pub(crate) fn place_of_request(map: &ClusterMap, request: &Sealed) -> usize
    requires { IsSealedFor map.now request.now }
    ensures { (groups : List Group) → AreGroupsOf map.now groups → IsAt groups (group_for request.now) result }
{
    let _epoch = map.epoch();
    let pools = map.pools();
    place_for(pools, request)
}
