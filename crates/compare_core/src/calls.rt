//! The calls that are tried for a grant.

ghost use Rattle.std.specs.Prelude.{◌≡◌, ◌≤◌, IfOk, length};
ghost use Rattle.compare_core.specs.Calls as spec;
ghost use Rattle.compare_core.specs.Calls.{AreCallsFor, IsNameOfCall};

use crate::field::{Field, name_of};
use crate::fresh::fresh_name;
use crate::registry::Registry;
use cap_text::{Access, AllowGrant};
use common_types::{Name, OutOfMemory};
use std::alloc::Global;
use verdict_core::{Calls, ClassCall, Ticket};

/// The name that the grant has in a field, and else one that no grant of the old ticket has there.
fn name_of_call(
    alloc: Global,
    field: Field,
    grant: &AllowGrant,
    old: &Ticket,
) -> Result<Name, OutOfMemory>
    requires { length old.now.grants ≤ 16384 }
    ensures { IfOk result (λ name. IsNameOfCall field grant.now old.now.grants name) }
{
    match name_of(field, grant) {
        Some(name) => name.copy(),
        None => fresh_name(alloc, field, old, ""),
    }
}

/// Whether an access covers some call.
fn covers_some(access: &Access) -> bool
    ensures { result ≡ spec.covers_some access.now }
{
    match access {
        Access::All => true,
        Access::Flags(flags) => flags.class_read || flags.class_write,
        Access::Class { .. } => true,
    }
}

/// A call by these names that an access covers, and as few others as can be: one that is not on the default list, where
/// the access covers such a call, and else one that does all that the flags allow.
fn hardest(access: &Access, class: Name, method: Name) -> ClassCall
    ensures { result ≡ spec.hardest access.now class method }
{
    match access {
        Access::Flags(flags) => ClassCall {
            class,
            method,
            class_reads: flags.class_read,
            class_writes: flags.class_write,
            listed: true,
        },
        Access::All | Access::Class { .. } => ClassCall {
            class,
            method,
            class_reads: true,
            class_writes: false,
            listed: false,
        },
    }
}

/// The call of a grant that no other beats, or none where the grant covers none: each grant of the old ticket that
/// covers it covers all that the grant does.
fn best_calls(alloc: Global, grant: &AllowGrant, old: &Ticket) -> Result<Calls, OutOfMemory>
    requires { length old.now.grants ≤ 16384 }
    ensures { IfOk result (λ calls. AreCallsFor Registry.Every grant.now old.now.grants calls) }
{
    let mut calls = Vec::new(alloc);
    if !covers_some(&grant.access) {
        return Ok(Calls::from_vec(calls));
    }
    let class = name_of_call(alloc, Field::Class, grant, old)?;
    let method = name_of_call(alloc, Field::Method, grant, old)?;
    calls.push(hardest(&grant.access, class, method))?;
    Ok(Calls::from_vec(calls))
}

/// Calls of a registry that may be asked, among which one stands for each that the grant covers.
pub(crate) fn calls_for(
    alloc: Global,
    of: Registry,
    grant: &AllowGrant,
    old: &Ticket,
) -> Result<Calls, OutOfMemory>
    requires { length old.now.grants ≤ 16384 }
    ensures { IfOk result (λ calls. AreCallsFor of grant.now old.now.grants calls) }
{
    match of {
        Registry::Every => best_calls(alloc, grant, old),
        Registry::Own => object_core::registry(alloc),
    }
}
