//! What new rights allow that old ones deny, where requests call only the methods of a list.
//!
//! One call shows each difference, so the calls of the list are asked about one by one. To ask about one call, each access becomes
//! flags: they read and write as it does, and cover a listed call that reads just where it covers the call. Over every registry such
//! rights then differ just where the rights themselves differ over this one call. Calls that the same grants cover are asked about
//! once.

ghost use Rattle.std.specs.Prelude.{◌≡◌, true, false};
ghost use Rattle.request_types.specs.declared.request.ClassCall.{ClassCall};
ghost use Rattle.verdict_core.specs.Verdict as spec;

use crate::known_methods::{rights_of, with_access};
use cap_text::{Access, Flags};
use common_types::{OutOfMemory, TryClone};
use compare_core::Registry;
use compare_text::{AddressedExample, widening_from};
use grant_core::Path;
use rights_core::Rights;
use std::alloc::Global;
use verdict_core::{Calls, ClassCall, can_read, can_write, covers};

/// The flags that stand for an access where a request has this call or none.
fn by_call(access: &Access, call: &ClassCall) -> Access
    ensures reads { spec.can_read result ≡ spec.can_read access.now }
    ensures writes { spec.can_write result ≡ spec.can_write access.now }
    ensures calls { (x : ClassCall) → x.listed ≡ true → x.class_reads ≡ true → x.class_writes ≡ false → spec.covers result x ≡ spec.covers access.now call.now }
    ensures others { (x : ClassCall) → x.listed ≡ false → spec.covers result x ≡ false }
{
    Access::Flags(Flags {
        read: can_read(access),
        write: can_write(access),
        class_read: covers(access, call),
        class_write: false,
    })
}

/// Whether the grant at a place is among those that are taken: all of them, or the one at this place.
fn is_taken(index: usize, only: Option<usize>) -> bool {
    match only {
        None => true,
        Some(place) => index == place,
    }
}

/// The rights that stand for these where a request has this call or none; of one grant alone if its place is given.
fn rights_by_call(
    alloc: Global,
    rights: &Rights,
    call: &ClassCall,
    only: Option<usize>,
) -> Result<Rights, OutOfMemory> {
    let mut grants = Vec::new(alloc);
    let mut networks = Vec::new(alloc);
    for index in 0..rights.len() {
        if let Some((path, network, grant)) = rights.entry(index) {
            if is_taken(index, only) {
                let grant = with_access(grant, by_call(&grant.access, call))?;
                grants.push((path.copy()?, grant))?;
                networks.push(network)?;
            }
        }
    }
    rights_of(grants, networks)
}

/// Whether some grant covers one of two calls and not the other.
fn are_told_apart(rights: &Rights, one: &ClassCall, other: &ClassCall) -> bool {
    for index in 0..rights.len() {
        if let Some((_, _, grant)) = rights.entry(index) {
            if covers(&grant.access, one) != covers(&grant.access, other) {
                return true;
            }
        }
    }
    false
}

/// Whether one of some calls is covered by the same grants as a call.
fn has_alike(old: &Rights, new: &Rights, calls: &[ClassCall], call: &ClassCall) -> bool {
    calls.iter().any(|other| !are_told_apart(old, other, call) && !are_told_apart(new, other, call))
}

/// The first of each of these calls that the same grants cover.
fn kinds_of(
    alloc: Global,
    old: &Rights,
    new: &Rights,
    calls: &[ClassCall],
) -> Result<Vec<ClassCall>, OutOfMemory> {
    let mut kinds = Vec::new(alloc);
    for call in calls {
        if !has_alike(old, new, kinds.as_slice(), call) {
            kinds.push(call.copy()?)?;
        }
    }
    Ok(kinds)
}

/// An example with this call in the place of the one that stands for it, if it has one.
fn with_call(
    alloc: Global,
    found: AddressedExample,
    call: &ClassCall,
) -> Result<AddressedExample, OutOfMemory> {
    let mut found = found;
    if !found.example.needs.calls.as_slice().is_empty() {
        let mut calls = Vec::new(alloc);
        calls.push(call.copy()?)?;
        found.example.needs.calls = Calls::from_vec(calls);
    }
    Ok(found)
}

/// An example of what the grant at a place of new rights allows by itself and old rights deny.
fn known_example(
    alloc: Global,
    kinds: &[ClassCall],
    old: &[Rights],
    new: &Rights,
    place: usize,
) -> Result<Option<AddressedExample>, OutOfMemory> {
    for (call, old) in kinds.iter().zip(old.iter()) {
        let alone = rights_by_call(alloc, new, call, Some(place))?;
        let mut found = widening_from(alloc, Registry::Every, old, &alone)?;
        if let Some(example) = found.pop() {
            return Ok(Some(with_call(alloc, example, call)?));
        }
    }
    Ok(None)
}

/// For each grant of new rights, in order, that by itself allows some request from some address which old rights deny there, one such
/// request and the address. Requests call only these methods. The only error is out of memory.
pub fn known_widening(
    alloc: Global,
    calls: &[ClassCall],
    old: &Rights,
    new: &Rights,
) -> Result<Vec<AddressedExample>, OutOfMemory> {
    let kinds = kinds_of(alloc, old, new, calls)?;
    let mut by_kind = Vec::new(alloc);
    for call in kinds.as_slice() {
        by_kind.push(rights_by_call(alloc, old, call, None)?)?;
    }
    let mut examples = Vec::new(alloc);
    for place in 0..new.len() {
        let found = known_example(alloc, kinds.as_slice(), by_kind.as_slice(), new, place)?;
        if let Some(example) = found {
            examples.push(example)?;
        }
    }
    Ok(examples)
}

/// The number of the text's grant that a path begins with, counted from 1.
fn number_of(path: &Path) -> usize {
    match path.as_slice().first() {
        Some(number) => *number,
        None => 0,
    }
}

/// What the grant with a number expands to, with paths and networks. Where `is_own` is false, it is what all other
/// grants of the text expand to.
pub fn rights_part(
    alloc: Global,
    rights: &Rights,
    number: usize,
    is_own: bool,
) -> Result<Rights, OutOfMemory> {
    let mut grants = Vec::new(alloc);
    let mut networks = Vec::new(alloc);
    for index in 0..rights.len() {
        if let Some((path, network, grant)) = rights.entry(index) {
            if (number_of(path) == number) == is_own {
                grants.push((path.copy()?, grant.copy()?))?;
                networks.push(network)?;
            }
        }
    }
    rights_of(grants, networks)
}
