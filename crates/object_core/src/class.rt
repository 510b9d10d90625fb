//! The registry of object classes.

ghost use Rattle.std.specs.Prelude.{◌≡◌, IfOk};
ghost use Rattle.std.specs.List.{All, Contains};
ghost use Rattle.object_core.specs.Needs as spec;
ghost use Rattle.object_core.specs.Needs.{IsRegistered};
ghost use Rattle.request_types.specs.declared.request.ClassCall.{ClassCall};

use common_types::{Name, OutOfMemory};
use std::alloc::Global;
use verdict_core::{Calls, ClassCall};

/// A method that the registry has.
#[derive(Clone, Copy, Debug)]
pub(crate) enum Method {
    CounterGet,
    CounterAdd,
    VaultPeek,
}

/// The method of a class, where the registry has it.
pub(crate) fn method_of(class: &Name, method: &Name) -> Option<Method>
    ensures { result ≡ spec.method_of class.now method.now }
{
    if class.as_str() == "counter" && method.as_str() == "get" {
        Some(Method::CounterGet)
    } else if class.as_str() == "counter" && method.as_str() == "add" {
        Some(Method::CounterAdd)
    } else if class.as_str() == "vault" && method.as_str() == "peek" {
        Some(Method::VaultPeek)
    } else {
        None
    }
}

/// The call of a method with what the registry says of it.
pub(crate) fn registered(
    class: &Name,
    method: &Name,
    found: Method,
) -> Result<ClassCall, OutOfMemory>
    ensures { IfOk result (λ call. call ≡ spec.registered class.now method.now found) }
{
    let class = class.copy()?;
    let method = method.copy()?;
    match found {
        Method::CounterGet => Ok(ClassCall {
            class,
            method,
            class_reads: true,
            class_writes: false,
            listed: true,
        }),
        Method::CounterAdd => Ok(ClassCall {
            class,
            method,
            class_reads: true,
            class_writes: true,
            listed: true,
        }),
        Method::VaultPeek => Ok(ClassCall {
            class,
            method,
            class_reads: true,
            class_writes: false,
            listed: false,
        }),
    }
}

/// The call of a method by its names.
fn known(alloc: Global, class: &str, method: &str, found: Method) -> Result<ClassCall, OutOfMemory>
    ensures { IfOk result (λ call. call ≡ spec.registered class.now method.now found) }
{
    registered(&Name::new(alloc, class)?, &Name::new(alloc, method)?, found)
}

/// The calls of all methods, in the registry's order.
fn registered_calls(alloc: Global) -> Result<Vec<ClassCall>, OutOfMemory>
    ensures { IfOk result (λ calls. calls.items ≡ spec.registry) }
{
    let mut calls = Vec::with_capacity(alloc, 3)?;
    calls.push(known(alloc, "counter", "get", Method::CounterGet)?)?;
    calls.push(known(alloc, "counter", "add", Method::CounterAdd)?)?;
    calls.push(known(alloc, "vault", "peek", Method::VaultPeek)?)?;
    Ok(calls)
}

/// The calls of all methods of the class registry, each with what the registry says of it: they are those
/// whose needs are answered, and no others. Source: this project's profile.
pub fn registry(alloc: Global) -> Result<Calls, OutOfMemory>
    ensures known { IfOk result (λ calls. All IsRegistered calls) }
    ensures whole { IfOk result (λ calls. (call : ClassCall) → IsRegistered call → Contains calls call) }
{
    Ok(Calls::from_vec(registered_calls(alloc)?))
}
