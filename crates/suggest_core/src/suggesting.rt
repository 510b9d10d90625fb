//! The suggested text.

ghost use Rattle.std.specs.Prelude.{◌≡◌, ◌+◌, ◌∷◌, ◌++◌, [], List, true, false, Some, length, IfOk, OnOk, MatchResult};
ghost use Rattle.std.specs.List.{Contains, position};
ghost use Rattle.cap_grants.specs.declared.grant.Access.TheVariants.{Class};
ghost use Rattle.request_types.specs.declared.request.ClassCall.{ClassCall};
ghost use Rattle.suggest_core.specs.declared.seen.Seen.{Seen};
ghost use Rattle.suggest_core.specs.Grain as spec;
ghost use Rattle.suggest_core.specs.Outcome.{IsOutcome};
ghost use Rattle.suggest_core.specs.Parts.{HasCalls, HasMoving, HasSome};
ghost use Rattle.suggest_core.specs.Suggestion as suggestion;

use crate::access::access_for;
use crate::grain::Grain;
use crate::region::Region;
use crate::seen::{Seen, is_left_out, moves};
use cap_text::{Access, AllowGrant};
use common_types::{OutOfMemory, TryClone};
use grant_core::Path;
use std::alloc::Global;
use verdict_core::{Calls, ClassCall, Needs, grants_allow};

/// What is suggested for the requests seen.
#[derive(Debug)]
pub enum Suggestion {
    /// The least text of the grain: its grants, each with its number as its path.
    Text(Vec<(Path, AllowGrant)>),
    /// Nothing, since no text of the grain allows all requests. The request at this index is the first that asks for nothing, or
    /// that only `*` allows where that is not wanted.
    LeftOut(usize),
}

impl Drop for Suggestion {
    fn drop(self) {
        match self {
            Suggestion::Text(_) | Suggestion::LeftOut(_) => (),
        }
    }
}

impl Suggestion {
    /// The grants of the text, or the index of the request that is left out.
    pub fn into_text(self) -> Result<Vec<(Path, AllowGrant)>, usize>
        ensures { MatchResult result (λ grants. self ≡ Suggestion.Text grants) (λ index. self ≡ Suggestion.LeftOut index) }
    {
        match self {
            Suggestion::Text(grants) => Ok(grants),
            Suggestion::LeftOut(index) => Err(index),
        }
    }
}

/// Adds a grant with the next number.
fn push_grant(grants: &mut Vec<(Path, AllowGrant)>, grant: AllowGrant) -> Result<(), OutOfMemory>
    ensures { OnOk result (grants.new.items ≡ grants.old.items ++ ((length grants.old.items + 1) ∷ [], grant) ∷ []) }
{
    let number = grants.len() + 1;
    let path = Path::of(*grants.allocator(), &[number])?;
    grants.push((path, grant))?;
    Ok(())
}

/// Adds the flags of the region of a request that reads or writes, if the grants deny it.
fn add_flags(
    grants: &mut Vec<(Path, AllowGrant)>,
    grain: &Grain,
    seen: &[Seen],
    request: &Seen,
) -> Result<(), OutOfMemory>
    requires { Contains seen.now request.now }
    ensures { OnOk result ((far : List Seen) → HasMoving grain.now seen.now far grants.old.items → HasMoving grain.now seen.now (far ++ request.now ∷ []) grants.new.items) }
{
    if !moves(&request.needs) {
        return Ok(());
    }
    if grants_allow(grants, &request.target.as_target(), &request.needs) {
        return Ok(());
    }
    let region = Region::of(*grants.allocator(), grain, seen, &request.target)?;
    let access = access_for(seen, &region);
    push_grant(grants, region.into_grant(access))
}

/// Needs of one call alone.
fn one_call(alloc: Global, call: &ClassCall) -> Result<Needs, OutOfMemory>
    ensures { IfOk result (λ needs. needs ≡ record { reads = false; writes = false; calls = call.now ∷ [] }) }
{
    let mut calls = Vec::with_capacity(alloc, 1)?;
    calls.push(call.copy()?)?;
    Ok(Needs {
        reads: false,
        writes: false,
        calls: Calls::from_vec(calls),
    })
}

/// The access of a call's method.
fn method_of(call: &ClassCall) -> Result<Access, OutOfMemory>
    ensures { IfOk result (λ access. access ≡ Class call.now.class (Some call.now.method)) }
{
    Ok(Access::Class {
        class: call.class.copy()?,
        method: Some(call.method.copy()?),
    })
}

/// Adds a grant of the method of a request's call, if the grants do not cover the call.
fn add_method(
    grants: &mut Vec<(Path, AllowGrant)>,
    grain: &Grain,
    seen: &[Seen],
    request: &Seen,
    call: &ClassCall,
) -> Result<(), OutOfMemory>
    requires called { Contains request.now.needs.calls call.now }
    requires still { spec.moves request.now.needs ≡ false }
    requires there { Contains seen.now request.now }
    ensures { OnOk result ((far : List Seen) (calls : List ClassCall) → HasSome grain.now seen.now far request.now calls grants.old.items
        → HasSome grain.now seen.now far request.now (calls ++ call.now ∷ []) grants.new.items) }
{
    let needs = one_call(*grants.allocator(), call)?;
    if grants_allow(grants, &request.target.as_target(), &needs) {
        return Ok(());
    }
    let region = Region::of(*grants.allocator(), grain, seen, &request.target)?;
    push_grant(grants, region.into_grant(method_of(call)?))
}

/// Adds a grant of each method that a request of calls alone calls and the grants do not cover.
fn add_methods(
    grants: &mut Vec<(Path, AllowGrant)>,
    grain: &Grain,
    seen: &[Seen],
    request: &Seen,
) -> Result<(), OutOfMemory>
    requires { Contains seen.now request.now }
    ensures { OnOk result ((far : List Seen) → HasCalls grain.now seen.now far grants.old.items → HasCalls grain.now seen.now (far ++ request.now ∷ []) grants.new.items) }
{
    if moves(&request.needs) {
        return Ok(());
    }
    for call in request.needs.calls.as_slice() {
        add_method(grants, grain, seen, request, call)?;
    }
    Ok(())
}

/// The grants for all requests: first the flags, then the methods.
fn all_grants(
    alloc: Global,
    grain: &Grain,
    seen: &[Seen],
) -> Result<Vec<(Path, AllowGrant)>, OutOfMemory>
    ensures { IfOk result (λ grants. HasCalls grain.now seen.now seen.now grants.items) }
{
    let mut grants = Vec::new(alloc);
    for request in seen {
        add_flags(&mut grants, grain, seen, request)?;
    }
    for request in seen {
        add_methods(&mut grants, grain, seen, request)?;
    }
    Ok(grants)
}

/// The index of the first request for which nothing is suggested.
fn first_left_out(allow_all: bool, seen: &[Seen]) -> Option<usize>
    ensures { result ≡ position (suggestion.is_left_out allow_all) seen.now }
{
    seen.iter()
        .position(|request| is_left_out(allow_all, request))
}

/// The least text of a grain that allows all requests seen, without a redundant grant; or the first request for which nothing is
/// suggested. With `allow_all` a region gets `*` where a request needs it.
///
/// What was not seen, and what the grants for the requests seen do not allow beside them, is not allowed. A class method that was
/// seen is taken to read, to write and to be listed as it was seen. The only error is out of memory.
pub fn suggest(
    alloc: Global,
    grain: &Grain,
    allow_all: bool,
    seen: &[Seen],
) -> Result<Suggestion, OutOfMemory>
    ensures { IfOk result (λ suggestion. IsOutcome grain.now allow_all seen.now suggestion) }
{
    if let Some(index) = first_left_out(allow_all, seen) {
        return Ok(Suggestion::LeftOut(index));
    }
    let grants = all_grants(alloc, grain, seen)?;
    Ok(Suggestion::Text(grants))
}
