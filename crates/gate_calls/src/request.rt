//! Requests as C passes them.

ghost use Rattle.std.specs.Prelude.{◌≡◌, map, IfOk};
ghost use Rattle.gate_calls.specs.Border as spec;

use common_types::{AppTags, Items, Name, Pairs, Tags};
use std::alloc::{AllocError, AllocFailed, Global};
use std::str;
use verdict_core::{Calls, ClassCall, Needs};

/// May this object of a namespace in a pool be read or written at a tick? C's `sig_request`.
///
/// It borrows its names for a call. A listing has the empty object name.
#[repr(C)]
pub struct SigRequest<'a> {
    pub pool: &'a [u8],
    pub namespace: &'a [u8],
    pub object: &'a [u8],
    /// The text of the client's address; an empty one asks about all addresses. Only grants with a network look at it.
    pub from: &'a [u8],
    pub tick: u64,
    pub reads: bool,
    pub writes: bool,
}

/// A call of a class's method, with what the class registry says of the method: C's `sig_call`.
#[repr(C)]
pub struct SigCall<'a> {
    pub class: &'a [u8],
    pub method: &'a [u8],
    pub reads: bool,
    pub writes: bool,
    /// Whether flags alone may cover the class: it is on the default list.
    pub listed: bool,
}

/// A key of an application with its value: C's `sig_pair`.
#[repr(C)]
pub struct SigPair<'a> {
    pub key: &'a [u8],
    pub value: &'a [u8],
}

/// An application tag of a pool, with its pairs: C's `sig_application`.
#[repr(C)]
pub struct SigApplication<'a> {
    pub name: &'a [u8],
    pub pairs: &'a [SigPair<'a>],
}

/// Why a request has no verdict.
#[derive(Clone, Copy)]
pub(crate) enum Trouble {
    NotUtf8,
    OutOfMemory,
}

impl From<AllocError> for Trouble {
    fn from(_error: AllocError) -> Trouble {
        Trouble::OutOfMemory
    }
}

impl<T: Drop> From<AllocFailed<T>> for Trouble {
    fn from(_error: AllocFailed<T>) -> Trouble {
        Trouble::OutOfMemory
    }
}

fn name_of(alloc: Global, bytes: &[u8]) -> Result<Name, Trouble>
    ensures { IfOk result (λ name. name ≡ bytes.now) }
{
    match str::from_utf8(bytes) {
        Ok(text) => Ok(Name::new(alloc, text)?),
        Err(_) => Err(Trouble::NotUtf8),
    }
}

fn call_of(alloc: Global, call: &SigCall<'_>) -> Result<ClassCall, Trouble>
    ensures { IfOk result (λ made. made ≡ spec.call_of call.now) }
{
    Ok(ClassCall {
        class: name_of(alloc, call.class)?,
        method: name_of(alloc, call.method)?,
        class_reads: call.reads,
        class_writes: call.writes,
        listed: call.listed,
    })
}

fn calls_of(alloc: Global, calls: &[SigCall<'_>]) -> Result<Calls, Trouble>
    ensures { IfOk result (λ made. made ≡ map spec.call_of calls.now) }
{
    let mut made = Vec::new(alloc);
    for call in calls {
        made.push(call_of(alloc, call)?)?;
    }
    Ok(Items::from_vec(made))
}

fn pairs_of(alloc: Global, pairs: &[SigPair<'_>]) -> Result<Pairs, Trouble>
    ensures { IfOk result (λ made. made ≡ map spec.pair_of pairs.now) }
{
    let mut made = Vec::new(alloc);
    for pair in pairs {
        made.push((name_of(alloc, pair.key)?, name_of(alloc, pair.value)?))?;
    }
    Ok(Items::from_vec(made))
}

fn application_of(alloc: Global, application: &SigApplication<'_>) -> Result<AppTags, Trouble>
    ensures { IfOk result (λ made. made ≡ spec.tags_of application.now) }
{
    Ok(AppTags {
        application: name_of(alloc, application.name)?,
        pairs: pairs_of(alloc, application.pairs)?,
    })
}

/// The tags of a pool.
pub(crate) fn tags_of(alloc: Global, applications: &[SigApplication<'_>]) -> Result<Tags, Trouble>
    ensures { IfOk result (λ made. made ≡ map spec.tags_of applications.now) }
{
    let mut made = Vec::new(alloc);
    for application in applications {
        made.push(application_of(alloc, application)?)?;
    }
    Ok(Items::from_vec(made))
}

/// The names of a request's pool, namespace and object.
#[inline(always)]
pub(crate) fn names_of<'a>(request: &SigRequest<'a>) -> (&'a [u8], &'a [u8], &'a [u8])
    ensures pool { result.0.now ≡ request.now.pool.now }
    ensures namespace { result.1.now ≡ request.now.namespace.now }
    ensures object { result.2.now ≡ request.now.object.now }
{
    (request.pool, request.namespace, request.object)
}

/// What a request asks for, its calls included.
pub(crate) fn needs_of(
    alloc: Global,
    request: &SigRequest<'_>,
    calls: &[SigCall<'_>],
) -> Result<Needs, Trouble>
    ensures { IfOk result (λ needs. needs ≡ spec.needs_of request.now calls.now) }
{
    Ok(Needs {
        reads: request.reads,
        writes: request.writes,
        calls: calls_of(alloc, calls)?,
    })
}
