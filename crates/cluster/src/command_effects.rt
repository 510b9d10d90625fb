//! What a command on the map does to one group.

ghost use Rattle.std.specs.Prelude.{◌≡◌, None};
ghost use Rattle.std.specs.Option.{option_map};
ghost use Rattle.map_core.specs.Map.{map_of, epoch_of};
ghost use Rattle.map_core.specs.Refusal.{refusal};
ghost use Rattle.group_core.specs.Moves.{event_of};
ghost use Rattle.world_core.specs.World.{members_of};
ghost use Rattle.cluster.specs.MapCommands.{move_in, begins_interval, is_creation};

use entry_core::GroupId;
use group_messages::GroupMove;
use map_core::{ClusterMap, MapCommand};
use place_core::ActingSet;

// The acting set of a group, of nobody where its pool is not there.
fn members(map: &ClusterMap, group: &GroupId) -> ActingSet
    ensures { result ≡ members_of (map_of map.now) group.now }
{
    match map.acting_set(&group.pool, group.number) {
        Some(set) => set,
        None => ActingSet::new(),
    }
}

// What a command that the map has accepted is to a group, if it is anything.
pub(crate) fn move_for(map: &ClusterMap, command: &MapCommand, group: &GroupId) -> Option<GroupMove>
    ensures { option_map event_of result ≡ move_in (map_of map.now) command.now group.now }
{
    match command {
        MapCommand::OsdUp(_) | MapCommand::OsdDown(_) => Some(GroupMove::NewInterval {
            acting: members(map, group),
            up: map.up(),
        }),
        MapCommand::OsdRestart(daemon) => Some(GroupMove::Restart(*daemon)),
        _ => None,
    }
}

// Whether a command that nothing refuses begins an interval of a group, by the map before it.
pub(crate) fn begins(map: &ClusterMap, command: &MapCommand, group: &GroupId) -> bool
    requires { refusal (map_of map.now) (epoch_of map.now) command.now ≡ None }
    ensures { result ≡ begins_interval map.now command.now group.now }
{
    map.interval_after(command, &group.pool, group.number)
        .is_some()
}

// Whether a command creates a pool.
pub(crate) fn creates(command: &MapCommand) -> bool
    ensures { result ≡ is_creation command.now }
{
    matches!(command, MapCommand::PoolCreate { .. })
}
