//! Events on every group of a world.

ghost use Rattle.std.specs.Prelude.{◌≡◌, ◌+◌, ◌++◌, ◌<◌, All, IfOk, OnOk, None, true, fold, map, if◌then◌else◌};
ghost use Rattle.std.specs.List.{flat_map};
ghost use Rattle.map_core.specs.Map.{map_of};
ghost use Rattle.world_events.specs.declared.event.Event.TheVariants.{Kick};
ghost use Rattle.world_front.specs.ControlPlane.{group_refusal};
ghost use Rattle.world_core.specs.World.{group_at, world_step, refusal_of};
ghost use Rattle.world_front.specs.Groups.{groups_of};
ghost use Rattle.world_script.specs.Script as spec;
ghost use Rattle.world_script.specs.Script.{emptied, has_messages, budget_in, kick_events, unrefused, one_if_none};
ghost use Rattle.world_script.specs.Sweeping.{event_at, sweep_events, IsThere};

use common_types::{OutOfMemory, TryClone};
use entry_core::GroupId;
use map_core::{ClusterMap, Pool};
use script_text::Count;
use std::alloc::{AllocError, Global};
use world_core::{Event, World, WorldFault};

/// What is done to a message.
#[derive(Clone, Copy, Debug)]
pub(crate) enum Sweep {
    Deliver,
    Lose,
}

/// Adds the groups of a pool, by their numbers.
fn push_groups(groups: &mut Vec<GroupId>, pool: &Pool) -> Result<(), OutOfMemory>
    ensures { OnOk result (groups.new.items ≡ groups.old.items ++ groups_of pool.now) }
{
    for number in 0..pool.pg_num {
        let pool = pool.name.copy()?;
        groups.push(GroupId { pool, number })?;
    }
    Ok(())
}

/// The groups of a map, pool after pool. The map refuses none of them.
fn places(alloc: Global, map: &ClusterMap) -> Result<Vec<GroupId>, OutOfMemory>
    ensures groups { IfOk result (λ groups. groups.items ≡ flat_map groups_of (map_of map.now).pools) }
    ensures there { IfOk result (λ groups. All (IsThere map.now) groups.items) }
{
    let _epoch = map.epoch();
    let mut groups = Vec::new(alloc);
    for pool in map.pools() {
        push_groups(&mut groups, pool)?;
    }
    Ok(groups)
}

/// The event on message 0 of a group.
fn event_at(sweep: Sweep, group: &GroupId) -> Result<Event, OutOfMemory>
    ensures { IfOk result (λ event. event ≡ event_at sweep group.now 0) }
{
    let group = group.copy()?;
    Ok(match sweep {
        Sweep::Deliver => Event::Deliver { group, place: 0 },
        Sweep::Lose => Event::Lose { group, place: 0 },
    })
}

/// Whether messages of a group are on their way.
fn has_messages(world: &World, group: &GroupId) -> bool
    requires { group_refusal world.now.front group.now ≡ None }
    ensures { result ≡ has_messages (group_at group.now world.now.groups) }
{
    match world.wire(group) {
        Ok(sent) => !sent.is_empty(),
        Err(_) => unreachable!(),
    }
}

/// Delivers or loses message 0 of a group, and says whether nothing refused it: a delivery to a daemon that is down drops its message.
fn sweep_one(world: &mut World, sweep: Sweep, group: &GroupId) -> Result<bool, OutOfMemory>
    requires there { group_refusal world.old.front group.now ≡ None }
    requires some { has_messages (group_at group.now world.old.groups) ≡ true }
    ensures after { OnOk result (world.new ≡ world_step world.old (event_at sweep group.now 0)) }
    ensures reached { IfOk result (λ reached. one_if_none (refusal_of world.old (event_at sweep group.now 0)) ≡ if reached then 1 else 0) }
    ensures lower { OnOk result (budget_in (group_at group.now world.new.groups) < budget_in (group_at group.now world.old.groups)) }
{
    world.keeps_promises();
    let event = event_at(sweep, group)?;
    match world.apply(event) {
        Ok(_) => Ok(true),
        Err(fault) => match fault {
            WorldFault::OutOfMemory => Err(AllocError),
            _ => Ok(false),
        },
    }
}

/// Delivers or loses message 0 of a group of the map until none is left, and counts those that nothing refused.
fn sweep_group(
    world: &mut World,
    sweep: Sweep,
    group: &GroupId,
    count: &mut Count,
) -> Result<(), OutOfMemory>
    requires { group_refusal world.old.front group.now ≡ None }
    ensures after { OnOk result (world.new ≡ fold world_step world.old (emptied (event_at sweep) group.now world.old)) }
    ensures count { OnOk result (count.new ≡ count.old + unrefused world.old (emptied (event_at sweep) group.now world.old)) }
{
    while has_messages(world, group) {
        if sweep_one(world, sweep, group)? {
            count.add_one()?;
        }
    }
    Ok(())
}

/// Delivers or loses the messages of each group in turn until none is left, and counts those that nothing refused.
pub(crate) fn sweep_groups(
    alloc: Global,
    world: &mut World,
    sweep: Sweep,
) -> Result<Count, OutOfMemory>
    ensures after { OnOk result (world.new ≡ fold world_step world.old (sweep_events sweep world.old)) }
    ensures count { IfOk result (λ count. count ≡ unrefused world.old (sweep_events sweep world.old)) }
{
    let groups = places(alloc, world.map())?;
    let mut count = Count::new(alloc);
    for group in &groups {
        sweep_group(world, sweep, group, &mut count)?;
    }
    Ok(count)
}

/// Kicks a group of the map. The only error is out of memory.
fn kick_group(world: &mut World, group: &GroupId) -> Result<(), OutOfMemory>
    requires { group_refusal world.old.front group.now ≡ None }
    ensures { OnOk result (world.new ≡ world_step world.old (Kick group.now)) }
{
    let group = group.copy()?;
    match world.apply(Event::Kick { group }) {
        Ok(_) => Ok(()),
        Err(fault) => match fault {
            WorldFault::OutOfMemory => Err(AllocError),
            _ => unreachable!(),
        },
    }
}

/// Kicks each group in turn.
pub(crate) fn kick_groups(alloc: Global, world: &mut World) -> Result<(), OutOfMemory>
    ensures { OnOk result (world.new ≡ fold world_step world.old (kick_events world.old)) }
{
    let groups = places(alloc, world.map())?;
    for group in &groups {
        kick_group(world, group)?;
    }
    Ok(())
}
