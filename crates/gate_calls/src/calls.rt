//! What a C program calls.

ghost use Rattle.std.specs.Prelude.{◌≡◌, ◌≢◌, ◌≤◌, ◌⊎◌, None, length};
ghost use Rattle.std.specs.Str.{IsUtf8};
ghost use Rattle.gate_calls.specs.Answers as verdicts;
ghost use Rattle.gate_calls.specs.Border as spec;
ghost use Rattle.gate_calls.specs.Buffers.{filled};
ghost use Rattle.gate_calls.specs.Codes as codes;
ghost use Rattle.gate_calls.specs.Faults.{IsFault};

use crate::answering::{Answer, answer_code, answer_each, answer_to, answer_with};
use crate::buffers::copy_in;
use crate::codes::{
    ALLOW, BAD_ADDRESS, BAD_LENGTH, BAD_RULES, DENY, DEPENDS, EMPTY, NO_MEMORY, NOT_UTF8, OK,
    REFUSED,
};
use crate::faults::{SigFault, fault_of};
use crate::handle::SigTicket;
use crate::making::caps_of;
use crate::reporting::{Reported, report_on};
use crate::request::{SigApplication, SigCall, SigRequest, Trouble};
use std::alloc::Global;
use std::str;
use verdict_text::Rules;

fn until_of(ends: bool, tick: u64) -> Option<u64>
    ensures { result ≡ spec.until_of ends tick }
{
    if ends { Some(tick) } else { None }
}

fn rules_of(number: u32) -> Option<Rules>
    ensures { result ≡ spec.rules_of number }
{
    match number {
        0 => Some(Rules::Project),
        1 => Some(Rules::Ceph),
        _ => None,
    }
}

/// Puts the ticket of a text into a handle, until a tick if `ends`.
///
/// `rules` is 0 for this project's rules and 1 for those of Ceph 16.2.15; any other is `BAD_RULES`. `REFUSED` writes the text's first
/// fault. `NOT_UTF8` and `NO_MEMORY` write none. All but `OK` leave the handle as it was.
#[tactic(auto, using(crate::proofs::Read::made, crate::proofs::Read::refused))]
pub fn parse(
    alloc: Global,
    ticket: &mut SigTicket,
    rules: u32,
    text: &[u8],
    ends: bool,
    until: u64,
    fault: &mut SigFault,
) -> u32
    ensures made { result ≡ codes.ok → spec.ByRules (λ r. spec.Holds (spec.IsTicketOf text.now (spec.until_of ends until) r) ticket.new.ticket) (spec.rules_of rules) }
    ensures refused { result ≡ codes.refused → spec.ByRules (IsFault text.now fault.new.rule fault.new.at) (spec.rules_of rules) }
    ensures not_text { result ≡ codes.not_utf8 → ¬ IsUtf8 text.now }
    ensures unknown_rules { result ≡ codes.bad_rules → spec.rules_of rules ≡ None }
    ensures known_rules { spec.rules_of rules ≡ None → result ≡ codes.bad_rules }
    ensures kept { result ≢ codes.ok → ticket.new.ticket ≡ ticket.old.ticket }
    ensures no_fault { result ≢ codes.refused → fault.new ≡ fault.old }
    ensures code { result ≤ codes.bad_rules }
{
    let Some(rules) = rules_of(rules) else {
        return BAD_RULES;
    };
    let Ok(text) = str::from_utf8(text) else {
        return NOT_UTF8;
    };
    match caps_of(alloc, rules, text, until_of(ends, until)) {
        Ok(made) => {
            ticket.put(made);
            OK
        }
        Err(refusal) => match fault_of(refusal) {
            Some(found) => {
                *fault = found;
                REFUSED
            }
            None => NO_MEMORY,
        },
    }
}

fn trouble_code(trouble: Trouble) -> u32
    ensures { result ≡ verdicts.trouble_code trouble }
{
    match trouble {
        Trouble::NotUtf8 => NOT_UTF8,
        Trouble::OutOfMemory => NO_MEMORY,
    }
}

fn code_of(outcome: Result<Answer, Trouble>) -> u32
    ensures { result ≡ verdicts.code_of outcome }
{
    match outcome {
        Ok(answer) => answer_code(answer),
        Err(trouble) => trouble_code(trouble),
    }
}

/// What a ticket answers to a request without calls, for a pool without tags: `ALLOW`, `DENY`, `DEPENDS`, `BAD_ADDRESS` or `EMPTY`.
///
/// It takes no memory.
#[tactic(auto, using(crate::proofs::Numbered::some_code, crate::proofs::Numbered::no_code))]
pub fn judge(alloc: Global, ticket: &mut SigTicket, request: &SigRequest<'_>) -> u32
    ensures judged { verdicts.IsCode ticket.old.ticket request.now result }
    ensures kept { ticket.new.ticket ≡ ticket.old.ticket }
{
    match ticket.take(alloc) {
        None => EMPTY,
        Some(shared) => {
            let found = answer_to(alloc, shared.as_caps(), request);
            ticket.put(shared);
            answer_code(found)
        }
    }
}

/// Judges each request as `judge` does, and writes the numbers of the answers in the same order: `OK`, `EMPTY`, or `BAD_LENGTH` if
/// there are not as many answers as requests.
///
/// It takes no memory.
pub fn judge_all(
    alloc: Global,
    ticket: &mut SigTicket,
    requests: &[SigRequest<'_>],
    answers: &mut [u8],
) -> u32
    ensures judged { result ≡ codes.ok → spec.Holds (λ caps. verdicts.AreCodes caps requests.now answers.new) ticket.old.ticket }
    ensures empty { result ≡ codes.empty → ticket.old.ticket ≡ None }
    ensures lengths { result ≡ codes.bad_length → length answers.old ≢ length requests.now }
    ensures nothing { result ≢ codes.ok → answers.new ≡ answers.old }
    ensures code { result ≢ codes.ok → result ≡ codes.empty ⊎ result ≡ codes.bad_length }
    ensures kept { ticket.new.ticket ≡ ticket.old.ticket }
{
    if requests.len() != answers.len() {
        return BAD_LENGTH;
    }
    match ticket.take(alloc) {
        None => EMPTY,
        Some(shared) => {
            answer_each(alloc, shared.as_caps(), requests, answers);
            ticket.put(shared);
            OK
        }
    }
}

/// What a ticket answers to a request with calls, for a pool with application tags: as `judge`, or `NOT_UTF8` or `NO_MEMORY`.
#[tactic(auto, using(crate::proofs::Numbered::some_code_with, crate::proofs::Numbered::no_code_with))]
pub fn judge_with(
    alloc: Global,
    ticket: &mut SigTicket,
    request: &SigRequest<'_>,
    applications: &[SigApplication<'_>],
    calls: &[SigCall<'_>],
) -> u32
    ensures judged { verdicts.IsCodeWith ticket.old.ticket request.now applications.now calls.now result }
    ensures kept { ticket.new.ticket ≡ ticket.old.ticket }
{
    match ticket.take(alloc) {
        None => EMPTY,
        Some(shared) => {
            let outcome = answer_with(alloc, shared.as_caps(), request, applications, calls);
            ticket.put(shared);
            code_of(outcome)
        }
    }
}

/// Writes as much of a report as fits, and its whole length: the number of its answer.
fn written(outcome: Result<Reported, Trouble>, out: &mut [u8], needed: &mut usize) -> u32
    ensures code { result ≡ verdicts.reported_code outcome }
    ensures text { verdicts.IsWritten (verdicts.reported_text outcome) needed.new out.old out.new }
{
    match outcome {
        Ok(Reported::Allowed) => ALLOW,
        Ok(Reported::BadAddress) => BAD_ADDRESS,
        Ok(Reported::Denied(text)) => {
            *needed = copy_in(out, text.as_str().as_bytes());
            DENY
        }
        Ok(Reported::Depends(text)) => {
            *needed = copy_in(out, text.as_str().as_bytes());
            DEPENDS
        }
        Err(trouble) => trouble_code(trouble),
    }
}

/// Why a request is denied: `DENY`, as much of the report as fits into `out`, and its whole length in `needed`. With `DEPENDS` that
/// are two lines: an address that is allowed and one that is denied. Any other answer is as of `judge_with`, and writes nothing.
#[tactic(auto, using(crate::proofs::Numbered::some_report, crate::proofs::Numbered::no_report))]
pub fn report(
    alloc: Global,
    ticket: &mut SigTicket,
    request: &SigRequest<'_>,
    applications: &[SigApplication<'_>],
    calls: &[SigCall<'_>],
    out: &mut [u8],
    needed: &mut usize,
) -> u32
    ensures reported { verdicts.IsReport ticket.old.ticket request.now applications.now calls.now result needed.new out.old out.new }
    ensures kept { ticket.new.ticket ≡ ticket.old.ticket }
{
    match ticket.take(alloc) {
        None => EMPTY,
        Some(shared) => {
            let outcome = report_on(alloc, shared.as_caps(), request, applications, calls);
            ticket.put(shared);
            written(outcome, out, needed)
        }
    }
}

/// The text of a ticket: `OK`, as much of it as fits into `out`, and its whole length in `needed`. By this project's rules it is the
/// canonical one, by Ceph's the text that was read. `EMPTY` writes nothing.
///
/// It takes no memory.
pub fn text(alloc: Global, ticket: &mut SigTicket, out: &mut [u8], needed: &mut usize) -> u32
    ensures needed { result ≡ codes.ok → spec.Holds (λ caps. needed.new ≡ length caps.text) ticket.old.ticket }
    ensures written { result ≡ codes.ok → spec.Holds (λ caps. out.new ≡ filled caps.text out.old) ticket.old.ticket }
    ensures nothing { result ≢ codes.ok → out.new ≡ out.old }
    ensures empty { result ≢ codes.ok → ticket.old.ticket ≡ None }
    ensures code { result ≢ codes.ok → result ≡ codes.empty }
    ensures kept { ticket.new.ticket ≡ ticket.old.ticket }
{
    match ticket.take(alloc) {
        None => EMPTY,
        Some(shared) => {
            *needed = copy_in(out, shared.as_caps().text().as_bytes());
            ticket.put(shared);
            OK
        }
    }
}

/// The number of a ticket's grants, profiles expanded; 0 for an empty handle.
pub fn grant_count(alloc: Global, ticket: &mut SigTicket) -> usize
    ensures count { result ≡ spec.grants_in ticket.old.ticket }
    ensures kept { ticket.new.ticket ≡ ticket.old.ticket }
{
    match ticket.take(alloc) {
        None => 0,
        Some(shared) => {
            let count = shared.as_caps().grant_count();
            ticket.put(shared);
            count
        }
    }
}

/// Lets a second handle hold the ticket of a first one, without copying it: `OK` or `NO_MEMORY`. The second handle's old ticket is
/// dropped; `NO_MEMORY` leaves both as they were.
pub fn share(alloc: Global, from: &mut SigTicket, to: &mut SigTicket) -> u32
    ensures shared { result ≡ codes.ok → to.new.ticket ≡ from.old.ticket }
    ensures refused { result ≢ codes.ok → to.new.ticket ≡ to.old.ticket }
    ensures code { result ≢ codes.ok → result ≡ codes.no_memory }
    ensures kept { from.new.ticket ≡ from.old.ticket }
{
    match from.take(alloc) {
        None => {
            drop(to.take(alloc));
            OK
        }
        Some(shared) => {
            let copy = shared.copy();
            from.put(shared);
            match copy {
                Ok(copy) => match Box::new(alloc, copy) {
                    Ok(copy) => {
                        to.put(copy);
                        OK
                    }
                    Err(_) => NO_MEMORY,
                },
                Err(_) => NO_MEMORY,
            }
        }
    }
}

/// Empties a handle. An empty one stays empty.
pub fn free(alloc: Global, ticket: &mut SigTicket)
    ensures { ticket.new.ticket ≡ None }
{
    drop(ticket.take(alloc));
}
