//! Where a list of events stops.

ghost use Rattle.std.specs.Prelude.{◌≡◌, Err, IfErr, IsOk, OnOk};

use world_events::{Told, WorldFault};

/// The result of the event at index `place` of a list. A refusal is returned with the index.
pub fn at_place(place: usize, done: Result<Told, WorldFault>) -> Result<(), (usize, WorldFault)>
    ensures goes { OnOk result (IsOk done) }
    ensures stops { IfErr result (λ stop. (stop.0 ≡ place) × (done ≡ Err stop.1)) }
{
    match done {
        Ok(_) => Ok(()),
        Err(fault) => Err((place, fault)),
    }
}
