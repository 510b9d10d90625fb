//! What an event does to the messages of a group.

ghost use Rattle.std.specs.Prelude.{◌≡◌, ℕ, true, false, IfOk};
ghost use Rattle.world_front.specs.Groups.{is_same_group};
ghost use Rattle.world_front.specs.ControlPlane.{told_of};
ghost use Rattle.world_front.specs.Refusing.{RefusedOrMemory};
ghost use Rattle.common_types.specs.Refused.{RefusedExactly};
ghost use Rattle.world_events.specs.declared.event.Event.TheVariants as happens;
ghost use Rattle.store_core.specs.declared.sealed.GroupId.{GroupId};
ghost use Rattle.group_story.specs.Story.{wire_in, place_in, TellsEvent};
ghost use Rattle.world_core.specs.World.{counts, refusal_of, world_step};

use crate::wire::{WireStep, hold_wire, tell_step};
use common_types::OutOfMemory;
use entry_core::GroupId;
use peer_core::Sent;
use std::alloc::Global;
use world_core::{Event, Told, World, WorldFault};

/// The result of an event.
pub struct GroupStep {
    /// What the world told, or why it refused the event.
    pub done: Result<Told, WorldFault>,
    /// The message that the event took from the group, and those that it sent, if the event happened. A refused event
    /// has done nothing, whatever is here.
    pub wire: WireStep,
}

impl Drop for GroupStep {
    fn drop(self) {
        let GroupStep { done: _, wire: _ } = self;
    }
}

/// Whether an event of this group is one of that.
fn is_same(one: &GroupId, other: &GroupId) -> bool
    ensures { result ≡ is_same_group one.now other.now }
{
    one.pool.equals(&other.pool) && one.number == other.number
}

/// The place of the message that an event takes from a group.
fn place_taken(group: &GroupId, event: &Event) -> Option<usize>
    ensures { result ≡ place_in group.now event.now }
{
    match event {
        Event::Deliver { group: at, place } | Event::Lose { group: at, place }
            if is_same(group, at) => { Some(*place) }
        _ => None,
    }
}

/// The messages of a group on their way; none where there is no such group.
fn wire_of<'a>(world: &'a World, group: &GroupId) -> &'a [Sent]
    ensures { result.now ≡ wire_in world.now group.now }
{
    match world.wire(group) {
        Ok(wire) => wire,
        Err(_) => &[],
    }
}

/// Carries out an event in a world, as `World::apply` does, and lists for one group which message the event took from those on their
/// way, and which it sent.
///
/// `done` is what `World::apply` answers: what the event tells, or the first reason to refuse it. An event that takes memory may be
/// refused as out of memory instead; a loss never is. `OutOfMemory`: an allocation for the listed messages failed, and the event may
/// have happened.
pub fn step_and_tell(
    alloc: Global,
    world: &mut World,
    group: &GroupId,
    event: Event,
) -> Result<GroupStep, OutOfMemory>
    ensures done { IfOk result (λ told. IfOk told.done (λ done. done ≡ told_of world.old.front event)) }
    ensures refused { IfOk result (λ told. RefusedOrMemory (refusal_of world.old event) told.done) }
    ensures lost { IfOk result (λ told. (at : GroupId) (place : ℕ) → event ≡ happens.Lose at place → RefusedExactly (refusal_of world.old event) told.done) }
    ensures steps { IfOk result (λ told. counts event told.done ≡ true → world.new ≡ world_step world.old event) }
    ensures unchanged { IfOk result (λ told. counts event told.done ≡ false → world.new ≡ world.old) }
    ensures tells { IfOk result (λ told. counts event told.done ≡ true → TellsEvent group.now world.old event world.new told.wire.taken told.wire.sent.items) }
{
    let held = hold_wire(wire_of(world, group), place_taken(group, &event))?;
    let done = world.apply(event);
    let wire = tell_step(alloc, held, wire_of(world, group))?;
    Ok(GroupStep { done, wire })
}
