//! What the map says of a group after a command.

ghost use Rattle.std.specs.Prelude.{◌≡◌, None};
ghost use Rattle.map_core.specs.Map.{map_of, epoch_of, after};
ghost use Rattle.map_core.specs.Refusal.{refusal};
ghost use Rattle.world_core.specs.World.{members_of};

use entry_core::GroupId;
use map_core::{ClusterMap, MapCommand};
use place_core::ActingSet;

/// The acting set of a group after a command that nothing refuses, of nobody where the pool is not there. It takes no memory.
pub(crate) fn members_after(map: &ClusterMap, command: &MapCommand, group: &GroupId) -> ActingSet
    requires { refusal (map_of map.now) (epoch_of map.now) command.now ≡ None }
    ensures { result ≡ members_of (after (map_of map.now) command.now) group.now }
{
    match map.acting_set_after(command, &group.pool, group.number) {
        Some(set) => set,
        None => ActingSet::new(),
    }
}
