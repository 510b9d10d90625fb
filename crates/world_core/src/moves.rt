//! What a command on the map does to all groups: all of them move, or none.
//!
//! A move is refused by the map, then by a group whose intervals are all used. Then each group is made ready, which takes all
//! the memory, the map is changed, and the rest cannot be refused. Where memory is refused, each group is given up as it was.

ghost use Rattle.std.specs.Prelude.{◌≡◌, ◌≤◌, ◌<◌, ◌+◌, ◌++◌, [], ◌∷◌, Bool, true, length, map, reverse, OnOk, OnErr, IfOk, IfErr, None, Some, if◌then◌else◌, vec_len, vec_capacity};
ghost use Rattle.std.specs.Option.{option_map, option_or};
ghost use Rattle.map_core.specs.Intervals.{set_of};
ghost use Rattle.map_core.specs.Map.{map_of, epoch_of};
ghost use Rattle.map_core.specs.Refusal as map_tests;
ghost use Rattle.group_model_whole.specs.Each.{Each};
ghost use Rattle.group_model.specs.Group.{last_set, refusal_of};
ghost use Rattle.group_core.specs.Moves.{event_of};
ghost use Rattle.group_messages.specs.declared.fault.GroupFault.TheVariants as group_fault;
ghost use Rattle.world_events.specs.declared.event.Event.TheVariants.{Map};
ghost use Rattle.world_events.specs.declared.fault.WorldFault.TheVariants.{Group as OfGroup, OutOfMemory};
ghost use Rattle.world_front.specs.ControlPlane.{front_step, front_refusal, told_of};
ghost use Rattle.world_core.specs.Moves.{AreGroupsOf, stepped, moves_groups, move_of, all_moved, first_refusal, prepared, all_prepared, given_up, committed};
ghost use Rattle.world_core.specs.Moves as spec;
ghost use Rattle.world_front.specs.Refusing.{RefusedOrMemory};
ghost use Rattle.world_core.specs.World.{parts_of, parts_refusal, created_by};

use crate::after_command::members_after;
use crate::creating::change_pools;
use common_types::OutOfMemory;
use entry_core::GroupId;
use group_core::{Group, PreparedGroup};
use group_messages::{GroupFault, GroupMove};
use map_core::{ClusterMap, MapCommand};
use std::alloc::AllocError;
use world_front::{ControlPlane, Told, WorldFault};

/// Carries out a command on the map. All groups move with it, or none.
///
/// It is refused as the map refuses it, then by P3 where a group that would begin an interval has 1,024, then for want of
/// memory. A refused command leaves map and groups as they were. A command on a daemon costs a step for each group.
pub(crate) fn apply_map(
    front: &mut ControlPlane,
    groups: &mut Vec<Group>,
    command: MapCommand,
) -> Result<Told, WorldFault>
    requires { AreGroupsOf front.old.history groups.old.items }
    ensures front { OnOk result (front.new ≡ front_step front.old (Map command)) }
    ensures groups { OnOk result (groups.new.items ≡ stepped (parts_of front.old (Map command)) groups.old.items ++ created_by front.old (Map command)) }
    ensures kept { AreGroupsOf front.new.history groups.new.items }
    ensures tells { IfOk result (λ told. told ≡ told_of front.old (Map command)) }
    ensures refused { RefusedOrMemory (option_or (front_refusal front.old (Map command)) (option_map OfGroup (parts_refusal groups.old.items (parts_of front.old (Map command))))) result }
    ensures unchanged { OnErr result ((front.new ≡ front.old) × (groups.new.items ≡ groups.old.items)) }
{
    let _epoch = front.map().epoch();
    if let Some(fault) = front.map().refusal(&command) {
        return Err(WorldFault::Map(fault));
    }
    if moves_groups(&command) {
        move_all(front, groups, command)
    } else {
        change_pools(front, groups, command)
    }
}

/// Whether a command is one on a daemon, of which every group hears.
fn moves_groups(command: &MapCommand) -> bool
    ensures { result ≡ spec.moves_groups command.now }
{
    matches!(
        command,
        MapCommand::OsdUp(_) | MapCommand::OsdDown(_) | MapCommand::OsdRestart(_)
    )
}

/// Carries out a command on a daemon that the map does not refuse.
fn move_all(
    front: &mut ControlPlane,
    groups: &mut Vec<Group>,
    command: MapCommand,
) -> Result<Told, WorldFault>
    requires moves { spec.moves_groups command ≡ true }
    requires free { map_tests.refusal (map_of front.old.history) (epoch_of front.old.history) command ≡ None }
    requires present { Each (λ g. set_of (map_of front.old.history) g.group.pool g.group.number ≡ Some (last_set g.sets)) groups.old.items }
    ensures front { OnOk result (front.new ≡ front_step front.old (Map command)) }
    ensures groups { OnOk result (groups.new.items ≡ all_moved (move_of (map_of front.old.history) command) groups.old.items) }
    ensures tells { IfOk result (λ told. told ≡ told_of front.old (Map command)) }
    ensures refused { RefusedOrMemory (option_map OfGroup (first_refusal (move_of (map_of front.old.history) command) groups.old.items)) result }
    ensures unchanged { OnErr result ((front.new ≡ front.old) × (groups.new.items ≡ groups.old.items)) }
{
    if any_full(front.map(), &command, groups.as_slice()) {
        return Err(WorldFault::Group(GroupFault::Full));
    }
    let prepared = prepare_all(front.map(), &command, groups)?;
    match front.change_map(command) {
        Ok(told) => {
            commit_all(groups, prepared);
            Ok(told)
        }
        Err(fault) => {
            give_up_all(groups, prepared);
            Err(fault)
        }
    }
}

/// Whether a group that has all its intervals would begin one more. It takes no memory.
fn any_full(map: &ClusterMap, command: &MapCommand, groups: &[Group]) -> bool
    requires moves { spec.moves_groups command.now ≡ true }
    requires free { map_tests.refusal (map_of map.now) (epoch_of map.now) command.now ≡ None }
    requires present { Each (λ g. set_of (map_of map.now) g.group.pool g.group.number ≡ Some (last_set g.sets)) groups.now }
    ensures { first_refusal (move_of (map_of map.now) command.now) groups.now ≡ (if result then Some group_fault.Full else None) }
{
    for group in groups {
        if is_full(map, command, group) {
            return true;
        }
    }
    false
}

/// Whether a group has all its intervals, and the command begins one of it.
fn is_full(map: &ClusterMap, command: &MapCommand, group: &Group) -> bool
    requires moves { spec.moves_groups command.now ≡ true }
    requires free { map_tests.refusal (map_of map.now) (epoch_of map.now) command.now ≡ None }
    requires present { set_of (map_of map.now) group.now.group.pool group.now.group.number ≡ Some (last_set group.now.sets) }
    ensures { refusal_of group.now (move_of (map_of map.now) command.now group.now.group) ≡ (if result then Some group_fault.Full else None) }
{
    let id = group.group();
    match map.interval_after(command, &id.pool, id.number) {
        Some(_) => group.is_full_of_intervals(),
        None => false,
    }
}

/// Makes each group ready for a command on a daemon, the last first, and leaves none behind. Where one is refused, for memory
/// once no group is full, the groups are as they were.
fn prepare_all(
    map: &ClusterMap,
    command: &MapCommand,
    groups: &mut Vec<Group>,
) -> Result<Vec<PreparedGroup>, OutOfMemory>
    requires { map_tests.refusal (map_of map.now) (epoch_of map.now) command.now ≡ None }
    ensures ready { IfOk result (λ ready. reverse ready.items ≡ all_prepared (move_of (map_of map.now) command.now) groups.old.items) }
    ensures taken { OnOk result (groups.new.items ≡ []) }
    ensures room { IfOk result (λ ready. vec_len ready ≤ vec_capacity groups.new) }
    ensures unchanged { OnErr result (groups.new.items ≡ groups.old.items) }
{
    let alloc = *groups.allocator();
    let mut ready = Vec::with_capacity(alloc, groups.len())?;
    while let Some(group) = groups.pop() {
        match prepare_one(map, command, group) {
            Ok(prepared) => put(&mut ready, prepared),
            Err(group) => {
                put(groups, group);
                give_up_all(groups, ready);
                return Err(AllocError);
            }
        }
    }
    Ok(ready)
}

/// A group, ready for a command on a daemon, or the group as it was where it is refused.
fn prepare_one(map: &ClusterMap, command: &MapCommand, group: Group) -> Result<PreparedGroup, Group>
    requires { map_tests.refusal (map_of map.now) (epoch_of map.now) command.now ≡ None }
    ensures ready { IfOk result (λ ready. ready ≡ prepared (move_of (map_of map.now) command.now) group) }
    ensures unchanged { IfErr result (λ same. same ≡ group) }
{
    let change = move_for(map, command, group.group());
    match group.prepare(change) {
        Ok(ready) => Ok(ready),
        Err((group, _)) => Err(group),
    }
}

/// What a command on a daemon is to a group.
fn move_for(map: &ClusterMap, command: &MapCommand, group: &GroupId) -> GroupMove
    requires { map_tests.refusal (map_of map.now) (epoch_of map.now) command.now ≡ None }
    ensures { event_of result ≡ move_of (map_of map.now) command.now group.now }
{
    if let MapCommand::OsdRestart(daemon) = command {
        return GroupMove::Restart(*daemon);
    }
    GroupMove::NewInterval {
        acting: members_after(map, command, group),
        up: map.up_after(command),
    }
}

/// Moves each group, and puts it back. It takes no memory.
fn commit_all(groups: &mut Vec<Group>, mut ready: Vec<PreparedGroup>)
    requires { vec_len groups.old + vec_len ready ≤ vec_capacity groups.old }
    ensures { groups.new.items ≡ groups.old.items ++ map committed (reverse ready.items) }
{
    while let Some(prepared) = ready.pop() {
        put(groups, prepared.commit());
    }
}

/// Puts back each group as it was. It takes no memory.
fn give_up_all(groups: &mut Vec<Group>, mut ready: Vec<PreparedGroup>)
    requires { vec_len groups.old + vec_len ready ≤ vec_capacity groups.old }
    ensures { groups.new.items ≡ groups.old.items ++ map given_up (reverse ready.items) }
{
    while let Some(prepared) = ready.pop() {
        put(groups, prepared.give_up());
    }
}

/// Adds an element where there is room for it.
fn put<T: Drop>(all: &mut Vec<T>, element: T)
    requires { vec_len all.old < vec_capacity all.old }
    ensures items { all.new.items ≡ all.old.items ++ element ∷ [] }
    ensures capacity { vec_capacity all.old ≤ vec_capacity all.new }
{
    match all.push(element) {
        Ok(()) => {}
        Err(_) => unreachable!(),
    }
}
