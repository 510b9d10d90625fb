//! What is asked of a capability text.

ghost use Rattle.std.specs.Prelude.{◌≡◌, ◌++◌, ◌||◌, IfOk};
ghost use Rattle.common_types.specs.Refused.{RefusedFirst};
ghost use Rattle.object_core.specs.Needs.{needs_of};
ghost use Rattle.verdict_text.specs.Asked.{are_too_many, asked_needs, calls_fault, named_fault};

use common_types::{OutOfMemory, TryClone};
use network_core::Address;
use object_core::{NeedsFault, Op, needs_of};
use std::alloc::Global;
use std::marker::Model;
use verdict_core::{Calls, ClassCall, Needs, Target};

/// How many calls a request has at most.
const MAX_CALLS: usize = 16;

/// What is asked of a capability text: a request, and the tick when it comes.
#[derive(Drop)]
pub struct Asked<'a> {
    pub target: Target<'a>,
    /// Whether the request reads and writes, beside what its calls ask for.
    pub reads: bool,
    pub writes: bool,
    /// Calls of methods of the class registry.
    pub calls: &'a [Op],
    /// Calls behind these which say themselves what their methods do.
    pub stated: &'a [ClassCall],
    /// At this tick a ticket is expired that ends at it or before.
    pub tick: u64,
    /// The client's address. Without one, the answer is over all addresses.
    pub from: Option<Address>,
}

impl<'a> Model for Asked<'a> {
    ghost use Rattle.verdict_text.specs.Asked as seen;

    ghost Value = { seen.Asked };

    ghost view = { λ a. record { target = a.target; reads = a.reads; writes = a.writes; calls = a.calls.now; stated = a.stated.now; tick = a.tick; from = a.from } };
}

/// What a request with these calls asks for. Without calls it asks for nothing.
fn needs_of_named(alloc: Global, calls: &[Op]) -> Result<Needs, NeedsFault>
    ensures refused { RefusedFirst (named_fault calls.now) NeedsFault.OutOfMemory result }
    ensures needs { IfOk result (λ needs. needs ≡ needs_of calls.now) }
{
    if calls.is_empty() {
        return Ok(Needs {
            reads: false,
            writes: false,
            calls: Calls::from_vec(Vec::new(alloc)),
        });
    }
    needs_of(alloc, calls)
}

/// Whether a request has too many calls.
fn are_too_many(calls: &[Op], stated: &[ClassCall]) -> bool
    ensures { result ≡ are_too_many calls.now stated.now }
{
    stated.len() > MAX_CALLS || calls.len() > MAX_CALLS - stated.len()
}

/// The calls, and the stated ones behind them.
fn with_stated(calls: Calls, stated: &[ClassCall]) -> Result<Calls, OutOfMemory>
    ensures { IfOk result (λ all. all ≡ calls ++ stated.now) }
{
    let mut all = calls.into_vec();
    for call in stated {
        all.push(call.copy()?)?;
    }
    Ok(Calls::from_vec(all))
}

/// What a request asks for: what its calls say, and its own two flags. An `Err` says why the calls are refused, as
/// `TooManyOps` for more than 16 of them, or that a growth was refused, which is no fault of theirs; nothing is left then.
pub fn needs_asked(alloc: Global, asked: &Asked<'_>) -> Result<Needs, NeedsFault>
    ensures refused { RefusedFirst (calls_fault asked.now) NeedsFault.OutOfMemory result }
    ensures needs { IfOk result (λ needs. needs ≡ asked_needs asked.now) }
{
    if are_too_many(asked.calls, asked.stated) {
        return Err(NeedsFault::TooManyOps);
    }
    let named = needs_of_named(alloc, asked.calls)?;
    Ok(Needs {
        reads: asked.reads || named.reads,
        writes: asked.writes || named.writes,
        calls: with_stated(named.calls, asked.stated)?,
    })
}
