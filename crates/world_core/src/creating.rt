//! The groups of a new pool.

ghost use Rattle.std.specs.Prelude.{◌≡◌, ◌≤◌, ◌++◌, None, IfOk, IfErr, OnOk, OnErr};
ghost use Rattle.map_core.specs.Map.{map_of, epoch_of, after};
ghost use Rattle.map_core.specs.Refusal.{refusal};
ghost use Rattle.world_events.specs.declared.event.Event.TheVariants.{Map};
ghost use Rattle.world_events.specs.declared.fault.WorldFault.TheVariants.{OutOfMemory};
ghost use Rattle.world_front.specs.ControlPlane.{front_step, told_of};
ghost use Rattle.world_core.specs.Moves.{made_by};
ghost use Rattle.world_core.specs.World.{begun_group};

use crate::after_command::members_after;
use common_types::OutOfMemory;
use entry_core::GroupId;
use group_core::Group;
use map_core::{ClusterMap, MapCommand};
use std::alloc::Global;
use world_front::{ControlPlane, Told, WorldFault};

/// Carries out a command on pools that the map does not refuse. The groups of a new pool are made first, then the map is
/// changed, and then the groups are added. Where memory is refused, nothing changes.
pub(crate) fn change_pools(
    front: &mut ControlPlane,
    groups: &mut Vec<Group>,
    command: MapCommand,
) -> Result<Told, WorldFault>
    requires { refusal (map_of front.old.history) (epoch_of front.old.history) command ≡ None }
    ensures front { OnOk result (front.new ≡ front_step front.old (Map command)) }
    ensures groups { OnOk result (groups.new.items ≡ groups.old.items ++ made_by (map_of front.old.history) command) }
    ensures tells { IfOk result (λ told. told ≡ told_of front.old (Map command)) }
    ensures memory { IfErr result (λ fault. fault ≡ OutOfMemory) }
    ensures unchanged { OnErr result ((front.new ≡ front.old) × (groups.new.items ≡ groups.old.items)) }
{
    let alloc = *groups.allocator();
    let mut made = new_groups(alloc, front.map(), &command)?;
    groups.reserve(made.len())?;
    let told = front.change_map(command)?;
    match groups.append(&mut made) {
        Ok(()) => Ok(told),
        Err(_) => unreachable!(),
    }
}

/// The groups that a command creates, which nothing refuses: those of a new pool, each in its first interval.
fn new_groups(
    alloc: Global,
    map: &ClusterMap,
    command: &MapCommand,
) -> Result<Vec<Group>, OutOfMemory>
    requires { refusal (map_of map.now) (epoch_of map.now) command.now ≡ None }
    ensures { IfOk result (λ made. made.items ≡ made_by (map_of map.now) command.now) }
{
    let mut made = Vec::new(alloc);
    let MapCommand::PoolCreate {
        name,
        pg_num,
        min_size,
        ..
    } = command
    else {
        return Ok(made);
    };
    for number in 0..*pg_num {
        let group = GroupId {
            pool: name.copy()?,
            number,
        };
        made.push(new_group(alloc, map, command, *min_size, group)?)?;
    }
    Ok(made)
}

/// A group in its first interval, as the map has it after a command that nothing refuses.
fn new_group(
    alloc: Global,
    map: &ClusterMap,
    command: &MapCommand,
    min_size: u32,
    group: GroupId,
) -> Result<Group, OutOfMemory>
    requires free { refusal (map_of map.now) (epoch_of map.now) command.now ≡ None }
    requires least { 1 ≤ min_size }
    ensures { IfOk result (λ made. made ≡ begun_group (after (map_of map.now) command.now) min_size group) }
{
    let acting = members_after(map, command, &group);
    let up = map.up_after(command);
    Group::new(alloc, group, min_size as usize, map.daemons(), acting, up)
}
