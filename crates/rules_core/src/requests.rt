//! Requests that grants allow at a target.

ghost use Rattle.std.specs.Prelude.{◌≡◌, ◌∷◌, [], IfOk, Some, None, MatchOption, option_copied};
ghost use Rattle.std.specs.List.{find};
ghost use Rattle.rules_core.specs.Demands.{allow};
ghost use Rattle.rules_core.specs.Requests as spec;

use crate::targets::copy_target;
use crate::touches::{call_needs, class_call, plain_needs, some_call};
use cap_text::{Access, AllowGrant, Flags};
use common_types::OutOfMemory;
use compare_core::{Example, OwnedTarget};
use grant_core::Path;
use std::alloc::Global;
use std::slice::from_ref;
use verdict_core::{Needs, can_read, can_write, grants_allow};

/// Whether a grant allows a request by itself.
fn allows_alone(entry: &(Path, AllowGrant), target: &OwnedTarget, needs: &Needs) -> bool
    ensures { result ≡ allow (entry.now ∷ []) target.now needs.now }
{
    grants_allow(from_ref(entry), &target.as_target(), needs)
}

/// The first grant that allows a request by itself.
pub(crate) fn giver<'a>(
    grants: &'a [(Path, AllowGrant)],
    target: &OwnedTarget,
    needs: &Needs,
) -> Option<&'a (Path, AllowGrant)>
    ensures { option_copied result ≡ find (λ entry. allow (entry ∷ []) target.now needs.now) grants.now }
{
    grants
        .iter()
        .find(|entry| allows_alone(entry, target, needs))
}

/// Whether flags cover calls on the default list that write, or else that read.
fn has_calls(flags: &Flags, writes: bool) -> bool
    ensures { result ≡ spec.has_calls flags.now writes }
{
    if writes {
        flags.class_write
    } else {
        flags.class_read
    }
}

/// Whether an access gives writes, or else reads.
fn has_plain(access: &Access, writes: bool) -> bool
    ensures { result ≡ spec.has_plain access.now writes }
{
    if writes {
        can_write(access)
    } else {
        can_read(access)
    }
}

/// A request with a call that writes, or else reads, which an access gives, if it gives any.
fn call_by(alloc: Global, access: &Access, writes: bool) -> Result<Option<Needs>, OutOfMemory>
    ensures { IfOk result (λ needs. needs ≡ spec.call_by access.now writes) }
{
    match access {
        Access::All => Ok(None),
        Access::Flags(flags) => {
            if !has_calls(flags, writes) {
                return Ok(None);
            }
            let needs = call_needs(alloc, some_call(alloc, writes)?)?;
            Ok(Some(needs))
        }
        Access::Class { class, method } => {
            let needs = call_needs(alloc, class_call(alloc, writes, class, method)?)?;
            Ok(Some(needs))
        }
    }
}

/// A request that writes, or else reads, and that an access gives, if it gives any: the plainest.
fn request_by(alloc: Global, access: &Access, writes: bool) -> Result<Option<Needs>, OutOfMemory>
    ensures { IfOk result (λ needs. needs ≡ spec.request_by access.now writes) }
{
    if has_plain(access, writes) {
        return Ok(Some(plain_needs(alloc, writes)));
    }
    let needs = call_by(alloc, access, writes)?;
    Ok(needs)
}

/// A request that writes, or else reads, and that a grant allows at a target by itself, if it allows any there.
fn request_with(
    alloc: Global,
    entry: &(Path, AllowGrant),
    target: &OwnedTarget,
    writes: bool,
) -> Result<Option<Example>, OutOfMemory>
    ensures { IfOk result (λ found. found ≡ spec.request_with entry.now target.now writes) }
{
    let Some(needs) = request_by(alloc, &entry.1.access, writes)? else {
        return Ok(None);
    };
    if !allows_alone(entry, target, &needs) {
        return Ok(None);
    }
    Ok(Some(Example {
        path: entry.0.copy()?,
        target: copy_target(target)?,
        needs,
    }))
}

/// That of the first grant that allows one.
pub(crate) fn request_at(
    alloc: Global,
    grants: &[(Path, AllowGrant)],
    target: &OwnedTarget,
    writes: bool,
) -> Result<Option<Example>, OutOfMemory>
    ensures { IfOk result (λ found. spec.IsRequestAt grants.now target.now writes found) }
{
    for entry in grants {
        let found = request_with(alloc, entry, target, writes)?;
        if found.is_some() {
            return Ok(found);
        }
    }
    Ok(None)
}
