//! Calls of the methods of object classes.

ghost use Rattle.std.specs.Prelude.{◌≡◌, true, IfOk, option_copied};
ghost use Rattle.object_core.specs.Effect.{added, effect_of_method};
ghost use Rattle.object_core.specs.Effect as spec;
ghost use Rattle.object_core.specs.Needs as registry;
ghost use Rattle.object_core.specs.Number as numbers;
ghost use Rattle.object_core.specs.ToldSteps.{StaysAs, kept_step, changed_step, told_step};
ghost use Rattle.object_core.specs.ToldEffects.{after};

use crate::bytes::Bytes;
use crate::class::{Method, method_of};
use crate::errors::{EINVAL, EOPNOTSUPP, ERANGE};
use crate::looking::{counter_get, decimal, vault_peek};
use crate::number::number_of;
use crate::object::Object;
use crate::outcome::Change;
use common_types::{Name, OutOfMemory, TryClone};
use std::alloc::Global;

/// An output and what became of the object, or the number of an error.
pub(crate) type Step = Result<Result<(Bytes, Change), u32>, OutOfMemory>;

/// The number that a counter shows; a missing one counts as 0.
fn count_of(object: Option<&Object>) -> Option<u64>
    ensures { result ≡ spec.count_of (option_copied object.entry) }
{
    match object {
        None => Some(0),
        Some(object) => number_of(object.bytes().as_slice()),
    }
}

/// The method `add` of the class `counter`: adds the input to the number.
fn counter_add(alloc: Global, given: Option<&Object>, change: Change, input: &Bytes) -> Step
    ensures { IfOk result (λ r. let object = after (option_copied given.entry) change in
        told_step (option_copied given.entry) r ≡ added object (spec.count_of object) (numbers.number_of input.now)) }
{
    let (Some(count), Some(more)) = (count_of(change.look(given)), number_of(input.as_slice()))
    else {
        return Ok(Err(EINVAL));
    };
    let Some(sum) = count.checked_add(more) else {
        return Ok(Err(ERANGE));
    };
    let output = decimal(alloc, sum)?;
    let bytes = output.copy()?;
    let attributes = change.into_attributes(alloc, given)?;
    let object = Object::new(bytes, attributes);
    Ok(Ok((output, Change::Became(Some(object)))))
}

/// What only looks leaves the object as it is.
pub(crate) fn looks(answer: Result<Bytes, u32>, change: Change) -> Result<(Bytes, Change), u32>
    ensures step { result ≡ kept_step change answer }
    ensures stays { StaysAs change result }
{
    match answer {
        Ok(output) => Ok((output, change)),
        Err(number) => Err(number),
    }
}

/// What only changes has the empty output.
pub(crate) fn changes(alloc: Global, change: Result<Change, u32>) -> Result<(Bytes, Change), u32>
    ensures { result ≡ changed_step change }
{
    match change {
        Ok(change) => Ok((Bytes::new(alloc), change)),
        Err(number) => Err(number),
    }
}

/// Calls a method with an input.
pub(crate) fn call(
    alloc: Global,
    given: Option<&Object>,
    change: Change,
    class: &Name,
    method: &Name,
    input: &Bytes,
) -> Step
    ensures effect { IfOk result (λ r. told_step (option_copied given.entry) r
        ≡ effect_of_method (registry.method_of class.now method.now) (after (option_copied given.entry) change) input.now) }
    ensures stays { registry.is_look (registry.method_of class.now method.now) ≡ true → IfOk result (StaysAs change) }
{
    match method_of(class, method) {
        None => Ok(Err(EOPNOTSUPP)),
        Some(Method::CounterGet) => {
            let answer = counter_get(change.look(given))?;
            Ok(looks(answer, change))
        }
        Some(Method::CounterAdd) => counter_add(alloc, given, change, input),
        Some(Method::VaultPeek) => {
            let answer = vault_peek(alloc, change.look(given))?;
            Ok(looks(answer, change))
        }
    }
}
