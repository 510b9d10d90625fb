//! Whole lists of events.

ghost use Rattle.std.specs.Prelude.{◌≡◌, ◌≤◌, ◌⊎◌, IfOk, IfErr};
ghost use Rattle.world_core.specs.Holds.{AreAccepted, Holds};
ghost use Rattle.world_front.specs.ControlPlane.{first_front};
ghost use Rattle.world_core.specs.Service.{Reaches, begun};
ghost use Rattle.world_core.specs.Serving.{service_of, submitted_through};
ghost use Rattle.world_core.specs.Calls.{AreUnrefused, IsFirstRefused};

use crate::world::World;
use grant_core::ProfileTable;
use std::alloc::Global;
use world_front::{Event, WorldFault, at_place};

/// The world that these events make, one after another, of 1 to 16 daemons.
///
/// It stops at the first that is refused, also at a delivery to a daemon that is down (P2), and answers its place, counted from 0, and why.
pub fn run(
    alloc: Global,
    table: ProfileTable,
    daemons: u8,
    events: &[Event],
) -> Result<World, (usize, WorldFault)>
    requires some { 1 ≤ daemons }
    requires few { daemons ≤ 16 }
    ensures holds { IfOk result (λ world. Holds table daemons events.now world) }
    ensures accepted { IfOk result (λ world. AreAccepted table daemons events.now) }
    ensures unrefused { IfOk result (λ world. AreUnrefused table daemons events.now) }
    ensures serves { IfOk result (λ world. Reaches (submitted_through (first_front table daemons) events.now) begun (service_of world)) }
    ensures refused { IfErr result (λ stop. IsFirstRefused table daemons events.now stop.0 stop.1) }
{
    let mut world = match World::new(alloc, table, daemons) {
        Ok(world) => world,
        Err(_) => unreachable!(),
    };
    for (place, event) in events.iter().enumerate() {
        let copy = match event.copy() {
            Ok(copy) => copy,
            Err(_) => return Err((place, WorldFault::OutOfMemory)),
        };
        match at_place(place, world.apply(copy)) {
            Ok(()) => {}
            Err(stop) => return Err(stop),
        }
    }
    Ok(world)
}
