//! Settling the groups of a world.

use crate::asking::POOL;
use common_types::Name;
use entry_core::GroupId;
use group_messages::GroupFault;
use std::alloc::Global;
use world_core::{Event, World, WorldFault};

// A group of the pool.
fn group(alloc: Global, number: u32) -> Result<GroupId, WorldFault> {
    Ok(GroupId {
        pool: Name::new(alloc, POOL)?,
        number,
    })
}

// Delivers the group's messages until none is left. Those to daemons that are down are dropped.
fn settle_group(alloc: Global, world: &mut World, number: u32) -> Result<(), WorldFault> {
    for _message in 0..u64::MAX {
        let group = group(alloc, number)?;
        if world.wire(&group)?.is_empty() {
            return Ok(());
        }
        match world.apply(Event::Deliver { group, place: 0 }) {
            Ok(_) | Err(WorldFault::Group(GroupFault::Unreachable)) => {}
            Err(fault) => return Err(fault),
        }
    }
    Ok(())
}

// Settles the first `groups` groups, one after another.
pub(crate) fn settle(alloc: Global, world: &mut World, groups: u32) -> Result<(), WorldFault> {
    for number in 0..groups {
        settle_group(alloc, world, number)?;
    }
    Ok(())
}

// Has each group send again what is unanswered.
pub(crate) fn kick(alloc: Global, world: &mut World, groups: u32) -> Result<(), WorldFault> {
    for number in 0..groups {
        let group = group(alloc, number)?;
        world.apply(Event::Kick { group })?;
    }
    Ok(())
}
