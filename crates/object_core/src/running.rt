//! Vectors of operations.

ghost use Rattle.std.specs.Prelude.{◌≡◌, true, IfOk, option_copied};
ghost use Rattle.std.specs.List.{list_all};
ghost use Rattle.object_core.specs.Effect.{effect, effect_of};
ghost use Rattle.object_core.specs.Needs.{only_looks};
ghost use Rattle.object_core.specs.ToldSteps.{KeepsObject, StaysAs, told_step};
ghost use Rattle.object_core.specs.ToldEffects.{after, told};

use crate::calling::{Step, call, changes, looks};
use crate::object::Object;
use crate::op::Op;
use crate::outcome::{Change, Outcome, Outputs};
use crate::{changing, looking};
use common_types::OutOfMemory;
use std::alloc::Global;

/// One operation on what became of the given object so far.
fn step(alloc: Global, given: Option<&Object>, change: Change, op: &Op) -> Step
    ensures effect { IfOk result (λ r. told_step (option_copied given.entry) r
        ≡ effect_of (after (option_copied given.entry) change) op.now) }
    ensures stays { only_looks op.now ≡ true → IfOk result (StaysAs change) }
{
    match op {
        Op::Read { offset, length } => {
            let answer = looking::read(alloc, change.look(given), *offset, *length)?;
            Ok(looks(answer, change))
        }
        Op::Stat => {
            let answer = looking::stat(alloc, change.look(given))?;
            Ok(looks(answer, change))
        }
        Op::GetAttribute(name) => {
            let answer = looking::get_attribute(change.look(given), name)?;
            Ok(looks(answer, change))
        }
        Op::Write { offset, bytes } => {
            let change = changing::write(alloc, given, change, *offset, bytes)?;
            Ok(changes(alloc, change))
        }
        Op::WriteFull(bytes) => {
            let change = changing::write_full(alloc, given, change, bytes)?;
            Ok(changes(alloc, change))
        }
        Op::Append(bytes) => {
            let change = changing::append(alloc, given, change, bytes)?;
            Ok(changes(alloc, change))
        }
        Op::Truncate(size) => {
            let change = changing::truncate(alloc, given, change, *size)?;
            Ok(changes(alloc, change))
        }
        Op::Remove => Ok(changes(alloc, changing::remove(given, change))),
        Op::Create { exclusive } => {
            let change = changing::create(alloc, given, change, *exclusive);
            Ok(changes(alloc, change))
        }
        Op::SetAttribute { name, value } => {
            let change = changing::set_attribute(alloc, given, change, name, value)?;
            Ok(changes(alloc, change))
        }
        Op::RemoveAttribute(name) => {
            let change = changing::remove_attribute(alloc, given, change, name)?;
            Ok(changes(alloc, change))
        }
        Op::Call {
            class,
            method,
            input,
        } => call(alloc, given, change, class, method, input),
    }
}

/// Runs operations from left to right, each on what the ones before it left, up to the first that fails; then
/// nothing has changed. The given object is copied once at most, and not where the operations only look.
///
/// A vector that `needs_of` refuses runs too: an empty one does nothing, and an unknown method fails at its
/// place.
pub fn run_vector(
    alloc: Global,
    object: Option<&Object>,
    ops: &[Op],
) -> Result<Outcome, OutOfMemory>
    ensures effect { IfOk result (λ outcome.
        told (option_copied object.entry) outcome ≡ effect (option_copied object.entry) ops.now) }

    // What only looks copies no object.
    ensures kept { list_all only_looks ops.now ≡ true → IfOk result KeepsObject }
{
    let mut change = Change::Kept;
    let mut outputs = Vec::with_capacity(alloc, ops.len())?;
    for (i, op) in ops.iter().enumerate() {
        match step(alloc, object, change, op)? {
            Err(number) => {
                return Ok(Outcome::Failed {
                    place: i + 1,
                    number,
                });
            }
            Ok((output, next)) => {
                outputs.push(output)?;
                change = next;
            }
        }
    }
    Ok(Outcome::Done {
        outputs: Outputs::from_vec(outputs),
        object: change,
    })
}
