//! Operations that only look at an object.

ghost use Rattle.std.specs.Prelude.{◌≡◌, ◌≤◌, Ok, IfOk, length, option_copied, codes};
ghost use Rattle.std.specs.Fmt.{decimal as decimal_text};
ghost use Rattle.object_core.specs.Bytes.{part_of};
ghost use Rattle.object_core.specs.Content.{value_of};
ghost use Rattle.object_core.specs.Operations.{found, or_no_data, or_invalid};
ghost use Rattle.object_core.specs.Number.{number_of};

use crate::bytes::Bytes;
use crate::errors::{EINVAL, ENODATA, ENOENT};
use crate::number::number_of;
use crate::object::Object;
use common_types::{Name, OutOfMemory, TryClone};
use std::alloc::Global;

/// An output, or the number of an error; or a growth was refused.
pub type Answer = Result<Result<Bytes, u32>, OutOfMemory>;

/// A number in decimal, as sizes and counters are printed. Its error is that an allocation failed.
#[tactic(auto, using(crate::proofs::Lengths::short_decimal))]
pub fn decimal(alloc: Global, number: u64) -> Result<Bytes, OutOfMemory>
    ensures text { IfOk result (λ text. text ≡ decimal_text number) }
    ensures short { IfOk result (λ text. length text ≤ 20) }
{
    let text = number.to_string(alloc)?;
    Ok(Bytes::from_vec(text.into_bytes()))
}

/// The bytes from `offset` on, at most `count`, or all of them where `count` is 0; ENOENT where the object is missing.
pub fn read(alloc: Global, object: Option<&Object>, offset: u32, count: u32) -> Answer
    ensures { IfOk result (λ answer. answer ≡ found (option_copied object.entry) (λ o. Ok (part_of o.bytes offset count))) }
{
    match object {
        None => Ok(Err(ENOENT)),
        Some(object) => {
            let part = object.bytes().part(alloc, offset as usize, count as usize)?;
            Ok(Ok(part))
        }
    }
}

/// The size in decimal. It is ENOENT where the object is missing.
pub fn stat(alloc: Global, object: Option<&Object>) -> Answer
    ensures { IfOk result (λ answer. answer ≡ found (option_copied object.entry) (λ o. Ok (decimal_text (length o.bytes)))) }
{
    match object {
        None => Ok(Err(ENOENT)),
        Some(object) => {
            let size = object.bytes().len() as u64;
            Ok(Ok(decimal(alloc, size)?))
        }
    }
}

/// The value of an attribute. It is ENOENT where the object is missing, and ENODATA where it has no such attribute.
pub fn get_attribute(object: Option<&Object>, name: &Name) -> Answer
    ensures { IfOk result (λ answer. answer ≡ found (option_copied object.entry) (λ o. or_no_data (value_of name.now o.attributes))) }
{
    match object {
        None => Ok(Err(ENOENT)),
        Some(object) => match object.attributes().get(name) {
            None => Ok(Err(ENODATA)),
            Some(value) => Ok(Ok(value.copy()?)),
        },
    }
}

/// The method `get` of the class `counter`: its bytes, if they are a number. It is ENOENT where the object
/// is missing, and EINVAL where they are no number.
pub fn counter_get(object: Option<&Object>) -> Answer
    ensures { IfOk result (λ answer. answer ≡ found (option_copied object.entry) (λ o. or_invalid o.bytes (number_of o.bytes))) }
{
    match object {
        None => Ok(Err(ENOENT)),
        Some(object) => match number_of(object.bytes().as_slice()) {
            None => Ok(Err(EINVAL)),
            Some(_) => Ok(Ok(object.bytes().copy()?)),
        },
    }
}

/// The method `peek` of the class `vault`: the attribute `secret`. It is ENOENT where the object is missing, and
/// ENODATA where it has no such attribute.
pub fn vault_peek(alloc: Global, object: Option<&Object>) -> Answer
    ensures { IfOk result (λ answer. answer ≡ found (option_copied object.entry) (λ o. or_no_data (value_of (codes "secret") o.attributes))) }
{
    get_attribute(object, &Name::new(alloc, "secret")?)
}
