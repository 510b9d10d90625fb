//! The access gate for programs in C: the functions of `include/sigmuyap.h`.
//!
//! Each calls the function of the crate `gate_calls` and states its contract again.
#![tactic(auto)]

ghost use Rattle.std.specs.Prelude.{◌≡◌, ◌≢◌, ◌≤◌, ◌⊎◌, None, length};
ghost use Rattle.std.specs.Str.{IsUtf8};
ghost use Rattle.gate_calls.specs.Answers as verdicts;
ghost use Rattle.gate_calls.specs.Border as spec;
ghost use Rattle.gate_calls.specs.Buffers.{filled};
ghost use Rattle.gate_calls.specs.Codes as codes;
ghost use Rattle.gate_calls.specs.Faults.{IsFault, rule_name};
ghost use Rattle.gate_calls.specs.Widening.{BothHold, IsGainIn, IsWider};

use gate_calls::{SigApplication, SigCall, SigFault, SigRequest, SigTicket};
use std::alloc::Global;

/// The version of this interface. It grows by one where a function or a struct changes.
#[unsafe(no_mangle)]
pub extern "C" fn sig_version() -> u32
    ensures { result ≡ 1 }
{
    1
}

/// Puts the ticket of a text into a handle, by this project's rules or Ceph's.
#[unsafe(no_mangle)]
pub extern "C" fn sig_ticket_parse(
    alloc: Global,
    ticket: &mut SigTicket,
    rules: u32,
    text: &[u8],
    ends: bool,
    until: u64,
    fault: &mut SigFault,
) -> u32
    ensures made { result ≡ codes.ok → spec.ByRules (λ r. spec.Holds (spec.IsTicketOf text.now (spec.until_of ends until) r) ticket.new.ticket) (spec.rules_of rules) }
    ensures refused { result ≡ codes.refused → spec.ByRules (IsFault text.now fault.new.rule fault.new.at) (spec.rules_of rules) }
    ensures not_text { result ≡ codes.not_utf8 → ¬ IsUtf8 text.now }
    ensures unknown_rules { result ≡ codes.bad_rules → spec.rules_of rules ≡ None }
    ensures known_rules { spec.rules_of rules ≡ None → result ≡ codes.bad_rules }
    ensures kept { result ≢ codes.ok → ticket.new.ticket ≡ ticket.old.ticket }
    ensures no_fault { result ≢ codes.refused → fault.new ≡ fault.old }
    ensures code { result ≤ codes.bad_rules }
{
    gate_calls::parse(alloc, ticket, rules, text, ends, until, fault)
}

/// What a ticket answers to a request without calls, for a pool without tags.
#[unsafe(no_mangle)]
pub extern "C" fn sig_judge(alloc: Global, ticket: &mut SigTicket, request: &SigRequest<'_>) -> u32
    ensures judged { verdicts.IsCode ticket.old.ticket request.now result }
    ensures kept { ticket.new.ticket ≡ ticket.old.ticket }
{
    gate_calls::judge(alloc, ticket, request)
}

/// Judges many requests as `sig_judge` judges each.
#[unsafe(no_mangle)]
pub extern "C" fn sig_judge_all(
    alloc: Global,
    ticket: &mut SigTicket,
    requests: &[SigRequest<'_>],
    answers: &mut [u8],
) -> u32
    ensures judged { result ≡ codes.ok → spec.Holds (λ caps. verdicts.AreCodes caps requests.now answers.new) ticket.old.ticket }
    ensures empty { result ≡ codes.empty → ticket.old.ticket ≡ None }
    ensures lengths { result ≡ codes.bad_length → length answers.old ≢ length requests.now }
    ensures nothing { result ≢ codes.ok → answers.new ≡ answers.old }
    ensures code { result ≢ codes.ok → result ≡ codes.empty ⊎ result ≡ codes.bad_length }
    ensures kept { ticket.new.ticket ≡ ticket.old.ticket }
{
    gate_calls::judge_all(alloc, ticket, requests, answers)
}

/// What a ticket answers to a request with calls, for a pool with application tags.
#[unsafe(no_mangle)]
pub extern "C" fn sig_judge_with(
    alloc: Global,
    ticket: &mut SigTicket,
    request: &SigRequest<'_>,
    applications: &[SigApplication<'_>],
    calls: &[SigCall<'_>],
) -> u32
    ensures judged { verdicts.IsCodeWith ticket.old.ticket request.now applications.now calls.now result }
    ensures kept { ticket.new.ticket ≡ ticket.old.ticket }
{
    gate_calls::judge_with(alloc, ticket, request, applications, calls)
}

/// Why a request is denied.
#[unsafe(no_mangle)]
pub extern "C" fn sig_report(
    alloc: Global,
    ticket: &mut SigTicket,
    request: &SigRequest<'_>,
    applications: &[SigApplication<'_>],
    calls: &[SigCall<'_>],
    out: &mut [u8],
    needed: &mut usize,
) -> u32
    ensures reported { verdicts.IsReport ticket.old.ticket request.now applications.now calls.now result needed.new out.old out.new }
    ensures kept { ticket.new.ticket ≡ ticket.old.ticket }
{
    gate_calls::report(alloc, ticket, request, applications, calls, out, needed)
}

/// The text of a ticket.
#[unsafe(no_mangle)]
pub extern "C" fn sig_ticket_text(
    alloc: Global,
    ticket: &mut SigTicket,
    out: &mut [u8],
    needed: &mut usize,
) -> u32
    ensures needed { result ≡ codes.ok → spec.Holds (λ caps. needed.new ≡ length caps.text) ticket.old.ticket }
    ensures written { result ≡ codes.ok → spec.Holds (λ caps. out.new ≡ filled caps.text out.old) ticket.old.ticket }
    ensures nothing { result ≢ codes.ok → out.new ≡ out.old }
    ensures empty { result ≢ codes.ok → ticket.old.ticket ≡ None }
    ensures code { result ≢ codes.ok → result ≡ codes.empty }
    ensures kept { ticket.new.ticket ≡ ticket.old.ticket }
{
    gate_calls::text(alloc, ticket, out, needed)
}

/// The number of a ticket's grants, profiles expanded.
#[unsafe(no_mangle)]
pub extern "C" fn sig_ticket_grants(alloc: Global, ticket: &mut SigTicket) -> usize
    ensures count { result ≡ spec.grants_in ticket.old.ticket }
    ensures kept { ticket.new.ticket ≡ ticket.old.ticket }
{
    gate_calls::grant_count(alloc, ticket)
}

/// Whether `new` allows a request that `old` denies, with an example.
#[unsafe(no_mangle)]
pub extern "C" fn sig_widening(
    alloc: Global,
    old: &mut SigTicket,
    new: &mut SigTicket,
    out: &mut [u8],
    needed: &mut usize,
) -> u32
    ensures wider { result ≡ codes.wider → BothHold (λ before after. IsGainIn before after needed.new out.old out.new) old.old.ticket new.old.ticket }
    ensures not_wider { result ≡ codes.not_wider → BothHold (λ before after. ¬ IsWider before after) old.old.ticket new.old.ticket }
    ensures empty { result ≡ codes.empty → (old.old.ticket ≢ None → new.old.ticket ≡ None) }
    ensures nothing { result ≢ codes.wider → out.new ≡ out.old }
    ensures code { result ≤ codes.no_memory }
    ensures old_kept { old.new.ticket ≡ old.old.ticket }
    ensures new_kept { new.new.ticket ≡ new.old.ticket }
{
    gate_calls::widens(alloc, old, new, out, needed)
}

/// Lets a second handle hold the ticket of a first one.
#[unsafe(no_mangle)]
pub extern "C" fn sig_ticket_share(alloc: Global, from: &mut SigTicket, to: &mut SigTicket) -> u32
    ensures shared { result ≡ codes.ok → to.new.ticket ≡ from.old.ticket }
    ensures refused { result ≢ codes.ok → to.new.ticket ≡ to.old.ticket }
    ensures code { result ≢ codes.ok → result ≡ codes.no_memory }
    ensures kept { from.new.ticket ≡ from.old.ticket }
{
    gate_calls::share(alloc, from, to)
}

/// Empties a handle.
#[unsafe(no_mangle)]
pub extern "C" fn sig_ticket_free(alloc: Global, ticket: &mut SigTicket)
    ensures { ticket.new.ticket ≡ None }
{
    gate_calls::free(alloc, ticket);
}

/// Writes the printed name of a fault's rule, and returns its length.
#[unsafe(no_mangle)]
pub extern "C" fn sig_fault_name(rule: u32, out: &mut [u8]) -> usize
    ensures needed { result ≡ length (rule_name rule) }
    ensures written { out.new ≡ filled (rule_name rule) out.old }
{
    gate_calls::fault_name(rule, out)
}
