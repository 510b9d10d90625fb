//! Which group a picture shows where none is named: the one with most messages.

use common_types::{Name, OutOfMemory, TryClone};
use entry_core::{GroupId, Id};
use place_core::group_of;
use std::alloc::Global;
use world_core::{Event, Told, World, place_of};

/// Where an event submits a request: to a group, or for a list to that one and the next ones.
#[derive(Drop)]
pub(crate) struct AskedGroup {
    pool: Name,
    first: u32,
}

/// Where an event submits a request. Nothing for an event that submits none, or in a pool that is not there.
pub(crate) fn asked_group(world: &World, event: &Event) -> Result<Option<AskedGroup>, OutOfMemory> {
    match event {
        Event::Submit { ask, object, .. } => {
            let Some(pool) = world.map().pool(&ask.pool) else {
                return Ok(None);
            };
            if pool.pg_num == 0 {
                return Ok(None);
            }
            let first = group_of(ask.namespace.as_str(), object.as_str(), pool.pg_num);
            let pool = ask.pool.copy()?;
            Ok(Some(AskedGroup { pool, first }))
        }
        Event::List(ask) => Ok(Some(AskedGroup {
            pool: ask.pool.copy()?,
            first: 0,
        })),
        _ => Ok(None),
    }
}

impl AskedGroup {
    /// The group of a request, if it is among those that were submitted here.
    pub(crate) fn group_of(&self, id: Id, told: Told) -> Result<Option<GroupId>, OutOfMemory> {
        let (first, count) = match told {
            Told::Request(first) => (first, 1),
            Told::List { first, count } => (first, count),
            _ => return Ok(None),
        };
        let behind = id.number().wrapping_sub(first.number());
        if id.session() != first.session() || behind >= count {
            return Ok(None);
        }
        Ok(Some(GroupId {
            pool: self.pool.copy()?,
            number: self.first.saturating_add(behind),
        }))
    }
}

/// How many messages of each group were delivered, dropped or lost, in the order of the groups' creation.
#[derive(Drop)]
pub(crate) struct Tally {
    counts: Vec<u64>,
}

/// The place of the group of which an event takes a message, among all groups.
pub(crate) fn group_taken_from(world: &World, event: &Event) -> Option<usize> {
    let (group, place) = match event {
        Event::Deliver { group, place } => (group, *place),
        Event::Lose { group, place } => (group, *place),
        _ => return None,
    };
    match world.wire(group) {
        Ok(wire) if place < wire.len() => place_of(world.map(), group).ok(),
        _ => None,
    }
}

impl Tally {
    pub(crate) fn new(alloc: Global) -> Tally {
        Tally {
            counts: Vec::new(alloc),
        }
    }

    /// Counts a message of the group at a place.
    pub(crate) fn add(&mut self, group: Option<usize>) -> Result<(), OutOfMemory> {
        let Some(group) = group else {
            return Ok(());
        };
        let missing = group.saturating_add(1).saturating_sub(self.counts.len());
        for _ in 0..missing {
            self.counts.push(0)?;
        }
        if let Some(count) = self.counts.get_mut(group) {
            *count = count.saturating_add(1);
        }
        Ok(())
    }

    /// The group with most messages, those on their way too; of several the first. Nothing where there is no group.
    pub(crate) fn busiest(
        &self,
        world: &World,
        groups: &[GroupId],
    ) -> Result<Option<GroupId>, OutOfMemory> {
        let mut best: Option<&GroupId> = None;
        let mut most = 0;
        for (place, group) in groups.iter().enumerate() {
            let taken = self.counts.get(place).copied().unwrap_or(0);
            let waiting = match world.wire(group) {
                Ok(wire) => wire.len() as u64,
                Err(_) => 0,
            };
            let count = taken.saturating_add(waiting);
            if best.is_none() || count > most {
                best = Some(group);
                most = count;
            }
        }
        match best {
            None => Ok(None),
            Some(group) => Ok(Some(group.copy()?)),
        }
    }
}
