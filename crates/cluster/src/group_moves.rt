//! Moving groups under their locks, one after another, and looking at them before.

ghost use Rattle.std.specs.Prelude.{◌≡◌, ◌<◌, ◌≤◌, None, length, IfErr, OnOk};
ghost use Rattle.std.specs.Bool.{MatchBool};
ghost use Rattle.std.specs.Option.{option_map};
ghost use Rattle.map_core.specs.Map.{map_of, epoch_of};
ghost use Rattle.map_core.specs.Refusal.{refusal};
ghost use Rattle.group_model.specs.Group.{has_all_intervals};
ghost use Rattle.group_core.specs.Moves.{event_of};
ghost use Rattle.cluster.specs.Passes.{AreMonitorOf, group_count};
ghost use Rattle.cluster.specs.MapCommands.{move_in, begins_interval};
ghost use Rattle.cluster.specs.GroupMoves.{OneMoved, HaveMoved, HaveLooked, Found, FullAt, SomeFull, NoneFull, event_at};

use crate::cluster::{Cluster, Seats};
use crate::command_effects::{begins, move_for};
use cluster_locks::{IsFull, Move};
use entry_core::GroupId;
use group_messages::GroupMove;
use map_core::{ClusterMap, MapCommand};
use std::sync::Wait;

// Moves the group k, and says whether it did.
fn move_one<R: Wait>(
    rt: &R,
    cluster: &Cluster,
    seats: &mut Seats,
    k: usize,
    change: Option<GroupMove>,
) -> bool
    requires own { AreMonitorOf cluster.now seats.old }
    requires inside { k < group_count cluster.now }
    ensures own { AreMonitorOf cluster.now seats.new }
    ensures moved { MatchBool result (OneMoved (option_map event_of change) k seats.old seats.new) (OneMoved None k seats.old seats.new) }
{
    match change {
        None => true,
        Some(change) => match cluster.turn(rt, seats, k, Move(change)) {
            Ok(()) => true,
            Err(_) => false,
        },
    }
}

// Moves the groups from one on, in order, by a command that the map has. At `Err` those before that one have moved, and no others.
pub(crate) fn move_groups<R: Wait>(
    rt: &R,
    cluster: &Cluster,
    seats: &mut Seats,
    map: &ClusterMap,
    command: &MapCommand,
    places: &[GroupId],
    from: usize,
) -> Result<(), usize>
    requires own { AreMonitorOf cluster.now seats.old }
    requires places { length places.now ≡ group_count cluster.now }
    requires inside { from ≤ group_count cluster.now }
    ensures own { AreMonitorOf cluster.now seats.new }
    ensures ok { OnOk result (HaveMoved (event_at (move_in (map_of map.now) command.now) places.now) from (group_count cluster.now) seats.old seats.new) }
    ensures err { IfErr result (λ k. (from ≤ k) × (k < group_count cluster.now) × HaveMoved (event_at (move_in (map_of map.now) command.now) places.now) from k seats.old seats.new) }
{
    for k in from..places.len() {
        let change = move_for(map, command, &places[k]);
        if !move_one(rt, cluster, seats, k, change) {
            return Err(k);
        }
    }
    Ok(())
}

// Whether the group k has all its intervals.
fn look_one<R: Wait>(rt: &R, cluster: &Cluster, seats: &mut Seats, k: usize) -> bool
    requires own { AreMonitorOf cluster.now seats.old }
    requires inside { k < group_count cluster.now }
    ensures own { AreMonitorOf cluster.now seats.new }
    ensures looked { HaveLooked seats.old seats.new }
    ensures found { Found cluster.now k (λ g. has_all_intervals g ≡ result) seats.old seats.new }
{
    cluster.turn(rt, seats, k, IsFull)
}

// Whether the command begins an interval of the group k, at this place, and the group has them all. It looks only where one begins.
fn full_at<R: Wait>(
    rt: &R,
    cluster: &Cluster,
    seats: &mut Seats,
    map: &ClusterMap,
    command: &MapCommand,
    place: &GroupId,
    k: usize,
) -> bool
    requires own { AreMonitorOf cluster.now seats.old }
    requires inside { k < group_count cluster.now }
    requires free { refusal (map_of map.now) (epoch_of map.now) command.now ≡ None }
    ensures own { AreMonitorOf cluster.now seats.new }
    ensures looked { HaveLooked seats.old seats.new }
    ensures found { FullAt cluster.now k (begins_interval map.now command.now place.now) result seats.old seats.new }
{
    if !begins(map, command, place) {
        return false;
    }
    look_one(rt, cluster, seats, k)
}

// Whether a group of which the command begins an interval has all its intervals. It looks at those groups in order, up to that one.
pub(crate) fn any_full<R: Wait>(
    rt: &R,
    cluster: &Cluster,
    seats: &mut Seats,
    map: &ClusterMap,
    command: &MapCommand,
    places: &[GroupId],
) -> bool
    requires own { AreMonitorOf cluster.now seats.old }
    requires places { length places.now ≡ group_count cluster.now }
    requires free { refusal (map_of map.now) (epoch_of map.now) command.now ≡ None }
    ensures own { AreMonitorOf cluster.now seats.new }
    ensures looked { HaveLooked seats.old seats.new }
    ensures found { MatchBool result (SomeFull cluster.now map.now command.now places.now seats.old seats.new)
        (NoneFull cluster.now map.now command.now places.now (group_count cluster.now) seats.old seats.new) }
{
    for k in 0..places.len() {
        if full_at(rt, cluster, seats, map, command, &places[k], k) {
            return true;
        }
    }
    false
}
