//! Touches that decide whether two tickets allow a common request.

ghost use Rattle.std.specs.Prelude.{◌≡◌, ◌++◌, [], ◌∷◌, Some, None, IfOk, OnOk, codes};
ghost use Rattle.share_core.specs.Sharing as sharing;
ghost use Rattle.rules_core.specs.Touches as spec;

use cap_text::{Access, AllowGrant};
use common_types::{Name, OutOfMemory, TryClone};
use grant_core::Path;
use share_core::Touch;
use std::alloc::Global;
use verdict_core::{Calls, ClassCall, Needs, Ticket};

/// A call of a class on the default list, which writes or else reads.
pub(crate) fn call_that(writes: bool, class: Name, method: Name) -> ClassCall
    ensures { result ≡ spec.call_that writes class method }
{
    ClassCall {
        class,
        method,
        class_reads: !writes,
        class_writes: writes,
        listed: true,
    }
}

/// A call by some names.
pub(crate) fn some_call(alloc: Global, writes: bool) -> Result<ClassCall, OutOfMemory>
    ensures { IfOk result (λ call. call ≡ spec.call_that writes (codes "a") (codes "a")) }
{
    Ok(call_that(writes, Name::new(alloc, "a")?, Name::new(alloc, "a")?))
}

/// A method's name, or some name.
fn or_a(alloc: Global, method: &Option<Name>) -> Result<Name, OutOfMemory>
    ensures { IfOk result (λ name. name ≡ spec.or_a method.now) }
{
    match method {
        None => Name::new(alloc, "a"),
        Some(name) => name.copy(),
    }
}

/// A call of a class, by the method or by some name.
pub(crate) fn class_call(
    alloc: Global,
    writes: bool,
    class: &Name,
    method: &Option<Name>,
) -> Result<ClassCall, OutOfMemory>
    ensures { IfOk result (λ call. call ≡ spec.call_that writes class.now (spec.or_a method.now)) }
{
    Ok(call_that(writes, class.copy()?, or_a(alloc, method)?))
}

/// Adds the calls by the names of an access.
fn push_class_touches(
    touches: &mut Vec<Touch>,
    alloc: Global,
    access: &Access,
) -> Result<(), OutOfMemory>
    ensures { OnOk result (touches.new.items ≡ touches.old.items ++ spec.class_touches access.now) }
{
    if let Access::Class { class, method } = access {
        touches.push(Touch::Call(class_call(alloc, false, class, method)?))?;
        touches.push(Touch::Call(class_call(alloc, true, class, method)?))?;
    }
    Ok(())
}

/// Adds those of each grant.
fn push_touches_of(
    touches: &mut Vec<Touch>,
    alloc: Global,
    grants: &[(Path, AllowGrant)],
) -> Result<(), OutOfMemory>
    ensures { OnOk result (touches.new.items ≡ touches.old.items ++ spec.touches_of grants.now) }
{
    for entry in grants {
        push_class_touches(touches, alloc, &entry.1.access)?;
    }
    Ok(())
}

/// The touches by which it is decided whether two tickets allow a common request: the plainest first.
pub(crate) fn touches(
    alloc: Global,
    ones: &Ticket,
    others: &Ticket,
) -> Result<Vec<Touch>, OutOfMemory>
    ensures { IfOk result (λ touches. touches.items ≡ spec.touches ones.now.grants others.now.grants) }
{
    let mut touches = Vec::new(alloc);
    touches.push(Touch::Read)?;
    touches.push(Touch::Write)?;
    touches.push(Touch::Call(some_call(alloc, false)?))?;
    touches.push(Touch::Call(some_call(alloc, true)?))?;
    push_touches_of(&mut touches, alloc, ones.grants())?;
    push_touches_of(&mut touches, alloc, others.grants())?;
    Ok(touches)
}

/// Needs that read or write, with no calls.
pub(crate) fn plain_needs(alloc: Global, writes: bool) -> Needs
    ensures { result ≡ spec.plain_needs writes }
{
    Needs {
        reads: !writes,
        writes,
        calls: Calls::new(alloc),
    }
}

/// Needs with one call and no more.
pub(crate) fn call_needs(alloc: Global, call: ClassCall) -> Result<Needs, OutOfMemory>
    ensures { IfOk result (λ needs. needs ≡ sharing.a_call call) }
{
    let mut calls = Vec::with_capacity(alloc, 1)?;
    calls.push(call)?;
    Ok(Needs {
        reads: false,
        writes: false,
        calls: Calls::from_vec(calls),
    })
}

/// The request that is a touch and no more.
pub(crate) fn needs_of(alloc: Global, touch: &Touch) -> Result<Needs, OutOfMemory>
    ensures { IfOk result (λ needs. needs ≡ spec.needs_of touch.now) }
{
    match touch {
        Touch::Read | Touch::AnyRead => Ok(plain_needs(alloc, false)),
        Touch::Write | Touch::AnyWrite => Ok(plain_needs(alloc, true)),
        Touch::Call(call) => call_needs(alloc, call.copy()?),
    }
}
