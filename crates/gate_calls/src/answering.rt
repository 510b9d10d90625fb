//! Answers to requests as C passes them.

ghost use Rattle.std.specs.Prelude.{◌≡◌, ◌<◌, [], length, IfOk};
ghost use Rattle.rights_core.specs.Rights.{with_networks};
ghost use Rattle.gate_calls.specs.Answers as spec;
ghost use Rattle.gate_calls.specs.declared.answering.Origin.TheVariants as origins;

use crate::caps::{Caps, Grants};
use crate::codes::{ALLOW, BAD_ADDRESS, DENY, DEPENDS};
use crate::limited::LimitedRights;
use crate::request::{SigApplication, SigCall, SigRequest, Trouble, names_of, needs_of, tags_of};
use common_types::{Items, OutOfMemory, Tags};
use network_core::Address;
use rights_core::{Everywhere, judge_at, judge_everywhere};
use std::alloc::Global;
use verdict_core::{IndexedTicket, Needs, Target};

/// What a ticket answers to a request.
#[derive(Clone, Copy)]
pub(crate) enum Answer {
    Allowed,
    Denied,
    /// No address is given, and some are allowed and others denied.
    Depends,
    /// The text of the address writes none, and some grant has a network.
    BadAddress,
}

/// Where a request comes from.
#[derive(Clone, Copy)]
pub(crate) enum Origin {
    /// No address is given.
    Anywhere,
    At(Address),
    /// The text of the address writes none.
    Unreadable,
}

/// What the text of an address writes.
fn origin_of(from: &[u8]) -> Origin
    ensures { spec.IsOrigin from.now result }
{
    if from.is_empty() {
        return Origin::Anywhere;
    }
    match Address::parse(from) {
        Some(address) => Origin::At(address),
        None => Origin::Unreadable,
    }
}

/// Where a request of rights with networks comes from.
#[tactic(auto, using(crate::proofs::Plain::origin_limited))]
pub(crate) fn origin_for(limited: &LimitedRights, from: &[u8]) -> Origin
    ensures { spec.IsOriginFor limited.now from.now result }
{
    let _rights = limited.as_rights();
    origin_of(from)
}

/// The number of an answer.
pub(crate) fn answer_code(answer: Answer) -> u32
    ensures code { result ≡ spec.answer_code answer }
    ensures small { result < 256 }
{
    match answer {
        Answer::Allowed => ALLOW,
        Answer::Denied => DENY,
        Answer::Depends => DEPENDS,
        Answer::BadAddress => BAD_ADDRESS,
    }
}

fn verdict(allowed: bool) -> Answer
    ensures { result ≡ spec.verdict allowed }
{
    if allowed {
        Answer::Allowed
    } else {
        Answer::Denied
    }
}

fn over_all(found: Everywhere) -> Answer
    ensures { result ≡ spec.over_all found }
{
    match found {
        Everywhere::Allowed => Answer::Allowed,
        Everywhere::Denied => Answer::Denied,
        Everywhere::Depends { .. } => Answer::Depends,
    }
}

/// The answer of a ticket that is that of every address.
#[inline(always)]
fn plain_answer(ticket: &IndexedTicket, target: &Target<'_>, needs: &Needs, tick: u64) -> Answer
    ensures { spec.IsAnswerAt (record { grants = with_networks ticket.now.grants []; until = ticket.now.until }) target.now needs.now tick origins.Anywhere result }
{
    verdict(ticket.judge(target, needs, tick))
}

/// The answer of rights with networks to a request without calls. It takes no memory.
#[inline(never)]
fn limited_answer(
    limited: &LimitedRights,
    origin: Origin,
    target: &Target<'_>,
    needs: &Needs,
    tick: u64,
) -> Answer
    requires { needs.now.calls ≡ [] }
    ensures { spec.IsAnswerAt limited.now target.now needs.now tick origin result }
{
    match origin {
        Origin::Anywhere => over_all(limited.judge_everywhere(target, needs, tick)),
        Origin::At(address) => verdict(limited.judge_at(&address, target, needs, tick)),
        Origin::Unreadable => Answer::BadAddress,
    }
}

/// The answer of rights with networks to a request that may have calls.
fn limited_answer_with(
    alloc: Global,
    limited: &LimitedRights,
    origin: Origin,
    target: &Target<'_>,
    needs: &Needs,
    tick: u64,
) -> Result<Answer, OutOfMemory>
    ensures { IfOk result (spec.IsAnswerAt limited.now target.now needs.now tick origin) }
{
    let rights = limited.as_rights();
    match origin {
        Origin::Anywhere => Ok(over_all(judge_everywhere(alloc, rights, target, needs, tick)?)),
        Origin::At(address) => Ok(verdict(judge_at(alloc, rights, &address, target, needs, tick)?)),
        Origin::Unreadable => Ok(Answer::BadAddress),
    }
}

/// The answer to a request without calls, for a pool without tags. It takes no memory.
#[inline(always)]
pub(crate) fn answer_to(alloc: Global, caps: &Caps, request: &SigRequest<'_>) -> Answer
    ensures { spec.IsAnswer caps.now request.now [] [] result }
{
    let tags = Items::new(alloc);
    let needs = Needs {
        reads: request.reads,
        writes: request.writes,
        calls: Items::new(alloc),
    };
    let (pool, namespace, object) = names_of(request);
    let target = Target {
        pool,
        tags: &tags,
        namespace,
        object,
    };
    match caps.grants() {
        Grants::Plain(ticket) => plain_answer(ticket, &target, &needs, request.tick),
        Grants::Limited(limited) => {
            limited_answer(
                limited,
                origin_for(limited, request.from),
                &target,
                &needs,
                request.tick,
            )
        }
    }
}

/// Answers each request as [`answer_to`] does, and writes the numbers.
pub(crate) fn answer_each(
    alloc: Global,
    caps: &Caps,
    requests: &[SigRequest<'_>],
    answers: &mut [u8],
)
    requires { length answers.old ≡ length requests.now }
    ensures { spec.AreCodes caps.now requests.now answers.new }
{
    for i in 0..requests.len() {
        answers[i] = answer_code(answer_to(alloc, caps, &requests[i])) as u8;
    }
}

/// The answer to a request with its calls, for a pool with its tags.
pub(crate) fn answer_with(
    alloc: Global,
    caps: &Caps,
    request: &SigRequest<'_>,
    applications: &[SigApplication<'_>],
    calls: &[SigCall<'_>],
) -> Result<Answer, Trouble>
    ensures { IfOk result (spec.IsAnswer caps.now request.now applications.now calls.now) }
{
    let tags = tags_of(alloc, applications)?;
    let needs = needs_of(alloc, request, calls)?;
    let (pool, namespace, object) = names_of(request);
    let target = Target {
        pool,
        tags: &tags,
        namespace,
        object,
    };
    match caps.grants() {
        Grants::Plain(ticket) => Ok(plain_answer(ticket, &target, &needs, request.tick)),
        Grants::Limited(limited) => {
            let origin = origin_for(limited, request.from);
            Ok(limited_answer_with(alloc, limited, origin, &target, &needs, request.tick)?)
        }
    }
}
