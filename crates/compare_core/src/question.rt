//! The needs that are tried at a target.

ghost use Rattle.std.specs.Prelude.{◌≡◌, ◌≤◌, ◌++◌, [], true, false, length, map, IfOk, OnOk};
ghost use Rattle.compare_core.specs.Questions as spec;
ghost use Rattle.compare_core.specs.Questions.{AreEnough, IsShownBy};

use crate::calls::calls_for;
use crate::owned_target::OwnedTarget;
use crate::registry::Registry;
use cap_text::AllowGrant;
use common_types::{OutOfMemory, TryClone};
use grant_core::Path;
use std::alloc::Global;
use verdict_core::{Calls, ClassCall, Needs, Ticket, grants_allow};

/// Needs that read and write as these flags say, with these calls.
fn asks(reads: bool, writes: bool, calls: Vec<ClassCall>) -> Needs
    ensures { result ≡ spec.asks reads writes calls.items }
{
    Needs {
        reads,
        writes,
        calls: Calls::from_vec(calls),
    }
}

/// The needs of a listing.
pub(crate) fn asks_to_read(alloc: Global) -> Needs
    ensures { result ≡ spec.asks true false [] }
{
    asks(true, false, Vec::new(alloc))
}

/// Needs with one call.
fn asks_one(
    alloc: Global,
    reads: bool,
    writes: bool,
    call: &ClassCall,
) -> Result<Needs, OutOfMemory>
    ensures { IfOk result (λ needs. needs ≡ spec.asks_one reads writes call.now) }
{
    let mut calls = Vec::with_capacity(alloc, 1)?;
    calls.push(call.copy()?)?;
    Ok(asks(reads, writes, calls))
}

/// Adds needs with each of the calls.
fn push_calls(
    questions: &mut Vec<Needs>,
    alloc: Global,
    reads: bool,
    writes: bool,
    calls: &[ClassCall],
) -> Result<(), OutOfMemory>
    ensures { OnOk result (questions.new.items ≡ questions.old.items ++ map (spec.asks_one reads writes) calls.now) }
{
    for call in calls {
        questions.push(asks_one(alloc, reads, writes, call)?)?;
    }
    Ok(())
}

/// The needs with at most one of these calls that ask for something: the plainest first.
fn needs_with(alloc: Global, calls: &[ClassCall]) -> Result<Vec<Needs>, OutOfMemory>
    ensures { IfOk result (λ questions. questions.items ≡ spec.questions calls.now) }
{
    let mut questions = Vec::new(alloc);
    questions.push(asks(true, false, Vec::new(alloc)))?;
    questions.push(asks(false, true, Vec::new(alloc)))?;
    questions.push(asks(true, true, Vec::new(alloc)))?;
    push_calls(&mut questions, alloc, false, false, calls)?;
    push_calls(&mut questions, alloc, true, false, calls)?;
    push_calls(&mut questions, alloc, false, true, calls)?;
    push_calls(&mut questions, alloc, true, true, calls)?;
    Ok(questions)
}

/// Needs with at most one call, which are enough to try for a grant.
pub(crate) fn questions(
    alloc: Global,
    registry: Registry,
    grant: &AllowGrant,
    old: &Ticket,
) -> Result<Vec<Needs>, OutOfMemory>
    requires { length old.now.grants ≤ 16384 }
    ensures { IfOk result (λ questions. AreEnough registry grant.now old.now.grants questions.items) }
{
    needs_with(alloc, calls_for(alloc, registry, grant, old)?.as_slice())
}

/// Whether the new grants allow the needs at a target where the old one denies them.
pub(crate) fn shows(
    old: &Ticket,
    new: &[(Path, AllowGrant)],
    target: &OwnedTarget,
    needs: &Needs,
) -> bool
    ensures { result ≡ spec.shows old.now.grants new.now target.now needs.now }
{
    grants_allow(new, &target.as_target(), needs)
        && !grants_allow(old.grants(), &target.as_target(), needs)
}

/// Equal needs.
fn copy_needs(needs: &Needs) -> Result<Needs, OutOfMemory>
    ensures { IfOk result (λ copy. copy ≡ needs.now) }
{
    Ok(Needs {
        reads: needs.reads,
        writes: needs.writes,
        calls: needs.calls.copy()?,
    })
}

/// The first of the needs that the new grants allow at a target where the old ticket denies them.
pub(crate) fn shown_needs(
    questions: &[Needs],
    old: &Ticket,
    new: &[(Path, AllowGrant)],
    target: &OwnedTarget,
) -> Result<Option<Needs>, OutOfMemory>
    ensures { IfOk result (λ found. IsShownBy old.now.grants new.now target.now questions.now found) }
{
    for needs in questions {
        if shows(old, new, target, needs) {
            return Ok(Some(copy_needs(needs)?));
        }
    }
    Ok(None)
}
