//! Operations that change an object and give nothing.
//!
//! Each takes the object that the vector was given and what became of it so far. It looks for its faults first,
//! so that what fails copies nothing, and it copies the given object only where nothing has changed it before.
//! What it fails with is the number of its fault; beside that, a growth may be refused.

ghost use Rattle.std.specs.Prelude.{◌≡◌, ◌≤◌, ◌++◌, Ok, None, Some, IfOk, length, option_copied};
ghost use Rattle.object_core.specs.Bytes.{resized, overwritten};
ghost use Rattle.object_core.specs.Content.{bytes_of, attributes_of};
ghost use Rattle.object_core.specs.Content as spec;
ghost use Rattle.object_core.specs.Operations.{found, put, created, attribute_set, attribute_removed};
ghost use Rattle.object_core.specs.ToldEffects.{after, told_change};
ghost use Rattle.object_core.specs.declared.outcome.Change.TheVariants.{Became};

use crate::attributes::Attributes;
use crate::bytes::Bytes;
use crate::errors::{EEXIST, EFBIG, EINVAL, ENODATA, ENOENT, ERANGE};
use crate::object::{MAX_BYTES, Object};
use crate::outcome::Change;
use common_types::{Name, OutOfMemory, TryClone};
use std::alloc::Global;

/// What became of the object, or the number of an error; or a growth was refused.
pub type Changing = Result<Result<Change, u32>, OutOfMemory>;

/// How long an attribute's name is at most.
const MAX_NAME_BYTES: usize = 64;

/// How long an attribute's value is at most.
const MAX_VALUE_BYTES: usize = 1024;

/// How many bytes the object has; a missing one has none.
fn size_of(object: Option<&Object>) -> usize
    ensures value { result ≡ length (bytes_of (option_copied object.entry)) }
    ensures limit { result ≤ 65536 }
{
    match object {
        None => 0,
        Some(object) => object.bytes().len(),
    }
}

/// The change to an object of these bytes and attributes.
fn became(bytes: Bytes, attributes: Attributes) -> Change
    requires { length bytes ≤ 65536 }
    ensures { result ≡ Became (Some (record { bytes = bytes; attributes = attributes })) }
{
    Change::Became(Some(Object::new(bytes, attributes)))
}

/// Lays bytes over the old ones from a place on, and fills a gap before them by zeros. It is EFBIG where the object would have
/// more than 65,536 bytes.
pub fn write(
    alloc: Global,
    given: Option<&Object>,
    change: Change,
    offset: u32,
    more: &Bytes,
) -> Changing
    ensures { IfOk result (λ r. let object = after (option_copied given.entry) change in
        told_change (option_copied given.entry) r ≡ put object (overwritten (bytes_of object) offset more.now)) }
{
    let offset = offset as usize;
    if offset > MAX_BYTES || more.len() > MAX_BYTES - offset {
        return Ok(Err(EFBIG));
    }
    let (mut bytes, attributes) = change.into_parts(alloc, given)?;
    bytes.overwrite(offset, more)?;
    Ok(Ok(became(bytes, attributes)))
}

/// Replaces the bytes and keeps the attributes. It is EFBIG where they are more than 65,536.
pub fn write_full(alloc: Global, given: Option<&Object>, change: Change, bytes: &Bytes) -> Changing
    ensures { IfOk result (λ r.
        told_change (option_copied given.entry) r ≡ put (after (option_copied given.entry) change) bytes.now) }
{
    if bytes.len() > MAX_BYTES {
        return Ok(Err(EFBIG));
    }
    let bytes = bytes.copy()?;
    let attributes = change.into_attributes(alloc, given)?;
    Ok(Ok(became(bytes, attributes)))
}

/// Adds bytes at the end. It is EFBIG where the object would have more than 65,536 bytes.
pub fn append(alloc: Global, given: Option<&Object>, change: Change, more: &Bytes) -> Changing
    ensures { IfOk result (λ r. let object = after (option_copied given.entry) change in
        told_change (option_copied given.entry) r ≡ put object (bytes_of object ++ more.now)) }
{
    let size = size_of(change.look(given));
    if more.len() > MAX_BYTES - size {
        return Ok(Err(EFBIG));
    }
    let (mut bytes, attributes) = change.into_parts(alloc, given)?;
    bytes.append(more)?;
    Ok(Ok(became(bytes, attributes)))
}

/// Cuts the bytes to a size, or extends them by zeros. It is ENOENT where the object is missing, and EFBIG where the size is
/// over 65,536.
pub fn truncate(alloc: Global, given: Option<&Object>, change: Change, size: u32) -> Changing
    ensures { IfOk result (λ r. let object = after (option_copied given.entry) change in
        told_change (option_copied given.entry) r ≡ found object (λ o. put object (resized size o.bytes))) }
{
    if change.look(given).is_none() {
        return Ok(Err(ENOENT));
    }
    let size = size as usize;
    if size > MAX_BYTES {
        return Ok(Err(EFBIG));
    }
    let (mut bytes, attributes) = change.into_parts(alloc, given)?;
    bytes.resize(size)?;
    Ok(Ok(became(bytes, attributes)))
}

/// Removes the object. It is ENOENT where it is missing.
pub fn remove(given: Option<&Object>, change: Change) -> Result<Change, u32>
    ensures { told_change (option_copied given.entry) result
        ≡ found (after (option_copied given.entry) change) (λ o. Ok None) }
{
    match change.look(given) {
        None => Err(ENOENT),
        Some(_) => Ok(Change::Became(None)),
    }
}

/// Makes the object where it is missing. It is EEXIST where it is there and exclusive was asked.
pub fn create(
    alloc: Global,
    given: Option<&Object>,
    change: Change,
    exclusive: bool,
) -> Result<Change, u32>
    ensures { told_change (option_copied given.entry) result
        ≡ created (after (option_copied given.entry) change) exclusive }
{
    if change.look(given).is_none() {
        return Ok(Change::Became(Some(Object::empty(alloc))));
    }
    if exclusive { Err(EEXIST) } else { Ok(change) }
}

/// Whether one more setting of a name stays within the number of attributes.
fn has_room(object: Option<&Object>, name: &Name) -> bool
    ensures { result ≡ spec.has_room name.now (attributes_of (option_copied object.entry)) }
{
    match object {
        None => true,
        Some(object) => object.attributes().has_room(name),
    }
}

/// Sets an attribute. It is EINVAL for the empty name, and ERANGE for a name of more than 64 bytes, a value of more than 1,024,
/// and one attribute too many.
pub fn set_attribute(
    alloc: Global,
    given: Option<&Object>,
    change: Change,
    name: &Name,
    value: &Bytes,
) -> Changing
    ensures { IfOk result (λ r.
        told_change (option_copied given.entry) r
        ≡ attribute_set (after (option_copied given.entry) change) name.now value.now) }
{
    let name_len = name.as_str().len();
    if name_len == 0 {
        return Ok(Err(EINVAL));
    }
    if name_len > MAX_NAME_BYTES
        || value.len() > MAX_VALUE_BYTES
        || !has_room(change.look(given), name)
    {
        return Ok(Err(ERANGE));
    }
    let (bytes, mut attributes) = change.into_parts(alloc, given)?;
    attributes.set(name.copy()?, value.copy()?)?;
    Ok(Ok(became(bytes, attributes)))
}

/// Removes an attribute. It is ENOENT where the object is missing, and ENODATA where it has no such attribute.
pub fn remove_attribute(
    alloc: Global,
    given: Option<&Object>,
    change: Change,
    name: &Name,
) -> Changing
    ensures { IfOk result (λ r. let object = after (option_copied given.entry) change in
        told_change (option_copied given.entry) r ≡ found object (λ o. attribute_removed o name.now)) }
{
    match change.look(given) {
        None => return Ok(Err(ENOENT)),
        Some(object) => {
            if !object.attributes().has(name) {
                return Ok(Err(ENODATA));
            }
        }
    }
    let (bytes, mut attributes) = change.into_parts(alloc, given)?;
    attributes.remove(name);
    Ok(Ok(became(bytes, attributes)))
}
