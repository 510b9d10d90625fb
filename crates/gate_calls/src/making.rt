//! From a capability text to a ticket.

ghost use Rattle.std.specs.Prelude.{◌≡◌, string_bytes, false, IfOk, IfErr};
ghost use Rattle.cap_text.specs.Grammar.{Spells};
ghost use Rattle.cap_text.specs.Printed.{printed};
ghost use Rattle.grant_core.specs.BuiltIn.{built_in};
ghost use Rattle.grant_core.specs.Flat.{flat};
ghost use Rattle.verdict_text.specs.Reading.{IsCephReading};
ghost use Rattle.verdict_text.specs.declared.reading.Rules.TheVariants.{Project, Ceph};
ghost use Rattle.gate_calls.specs.Border.{IsTicketOf};
ghost use Rattle.gate_calls.specs.Faults.{IsCephRefusal, IsExpansionRefusal, IsProjectRefusal, IsRefusal};
ghost use Rattle.gate_calls.specs.Grants.{rights_in};
ghost use Rattle.gate_calls.specs.declared.making.Refusal.TheVariants as no;

use crate::caps::{Caps, Grants};
use crate::limited::LimitedRights;
use crate::shared::SharedCaps;
use cap_text::{CapFault, CapList, FaultKind, parse, print};
use ceph_text::CephFault;
use common_types::OutOfMemory;
use grant_core::{ExpandFault, GrantTree, ProfileTable, expand};
use rights_core::Rights;
use std::alloc::{AllocError, AllocFailed, Global};
use verdict_core::{IndexedTicket, Ticket};
use verdict_text::{Reader, Rules, TextFault};

/// Why a text has no ticket.
#[derive(Clone, Copy)]
pub(crate) enum Refusal {
    Spelling(CapFault),
    Expansion(ExpandFault),
    Ceph(CephFault),
    OutOfMemory,
}

impl From<AllocError> for Refusal {
    ghost from_gives = { λ _ refusal. refusal ≡ no.OutOfMemory };

    fn from(_error: AllocError) -> Refusal {
        Refusal::OutOfMemory
    }
}

impl<T: Drop> From<AllocFailed<T>> for Refusal {
    ghost from_gives = { λ _ refusal. refusal ≡ no.OutOfMemory };

    fn from(_error: AllocFailed<T>) -> Refusal {
        Refusal::OutOfMemory
    }
}

/// The grants of a text, as it spells them by this project's rules.
fn list_of(alloc: Global, text: &str) -> Result<CapList, Refusal>
    ensures list { IfOk result (λ list. Spells text.now list) }
    ensures refused { IfErr result (λ refusal. IsProjectRefusal text.now refusal) }
{
    match parse(alloc, text) {
        Ok(list) => Ok(list),
        Err(
            CapFault {
                kind: FaultKind::OutOfMemory,
                ..
            },
        ) => Err(Refusal::OutOfMemory),
        Err(fault) => Err(Refusal::Spelling(fault)),
    }
}

/// The expansion of a list by the built-in profiles.
fn expanded(alloc: Global, list: &CapList) -> Result<GrantTree, Refusal>
    ensures tree { IfOk result (λ tree. tree ≡ flat built_in list.now) }
    ensures refused { IfErr result (λ refusal. IsExpansionRefusal list.now refusal) }
{
    let profiles = ProfileTable::builtin(alloc)?;
    match expand(alloc, &profiles, list) {
        Ok(tree) => Ok(tree),
        Err(ExpandFault::OutOfMemory) => Err(Refusal::OutOfMemory),
        Err(fault) => Err(Refusal::Expansion(fault)),
    }
}

fn indexed(ticket: Ticket) -> Result<IndexedTicket, OutOfMemory>
    ensures { IfOk result (λ indexed. indexed ≡ ticket) }
{
    match IndexedTicket::of(ticket) {
        Ok(indexed) => Ok(indexed),
        Err((_, error)) => Err(error),
    }
}

/// The ticket of a list by the built-in profiles.
fn ticket_of_list(
    alloc: Global,
    list: &CapList,
    until: Option<u64>,
) -> Result<IndexedTicket, Refusal>
    ensures ticket { IfOk result (λ ticket. ticket ≡ record { grants = flat built_in list.now; until = until }) }
    ensures refused { IfErr result (λ refusal. IsExpansionRefusal list.now refusal) }
{
    let tree = expanded(alloc, list)?;
    Ok(indexed(Ticket::of(tree, until))?)
}

/// What a text grants by this project's rules.
fn project_caps(alloc: Global, text: &str, until: Option<u64>) -> Result<Caps, Refusal>
    ensures ticket { IfOk result (IsTicketOf text.now until Project) }
    ensures refused { IfErr result (λ refusal. IsProjectRefusal text.now refusal) }
{
    let list = list_of(alloc, text)?;
    let ticket = ticket_of_list(alloc, &list, until)?;
    Ok(Caps::new(print(alloc, &list)?, Grants::Plain(ticket)))
}

/// The rights of a text by Ceph's rules.
#[tactic(auto, using(crate::proofs::Ceph::ends, crate::proofs::Ceph::no_spelling, crate::proofs::Ceph::no_expansion))]
fn ceph_rights(alloc: Global, text: &str, until: Option<u64>) -> Result<Rights, Refusal>
    ensures rights { IfOk result (λ rights. IsCephReading text.now until (Ok rights)) }
    ensures until { IfOk result (λ rights. rights.until ≡ until) }
    ensures refused { IfErr result (λ refusal. IsCephRefusal text.now refusal) }
{
    let reader = Reader::of(alloc, Rules::Ceph)?;
    match reader.read(alloc, text, until)? {
        Ok(rights) => Ok(rights),
        Err(TextFault::Unread(fault)) => Err(Refusal::Ceph(fault)),
        // Faults of this project's rules. Ceph's have none of them.
        Err(TextFault::Spelling(_) | TextFault::Expansion(_)) => unreachable!(),
    }
}

/// Rights, ready to judge requests.
fn grants_of(alloc: Global, rights: Rights, until: Option<u64>) -> Result<Grants, OutOfMemory>
    requires { rights.until ≡ until }
    ensures { IfOk result (λ grants. rights_in grants ≡ rights) }
{
    if rights.has_networks() {
        Ok(Grants::Limited(LimitedRights::of(alloc, rights, until)?))
    } else {
        Ok(Grants::Plain(indexed(rights.into_ticket())?))
    }
}

fn copied(alloc: Global, text: &str) -> Result<String, OutOfMemory>
    ensures { IfOk result (λ copy. string_bytes copy ≡ text.now) }
{
    let mut copy = String::new(alloc);
    copy.push_str(text)?;
    Ok(copy)
}

/// What a text grants by Ceph's rules.
fn ceph_caps(alloc: Global, text: &str, until: Option<u64>) -> Result<Caps, Refusal>
    ensures ticket { IfOk result (IsTicketOf text.now until Ceph) }
    ensures refused { IfErr result (λ refusal. IsCephRefusal text.now refusal) }
{
    let rights = ceph_rights(alloc, text, until)?;
    let grants = grants_of(alloc, rights, until)?;
    Ok(Caps::new(copied(alloc, text)?, grants))
}

/// What a text grants by these rules.
fn caps_by(alloc: Global, rules: Rules, text: &str, until: Option<u64>) -> Result<Caps, Refusal>
    ensures ticket { IfOk result (IsTicketOf text.now until rules) }
    ensures refused { IfErr result (λ refusal. IsRefusal text.now refusal rules) }
{
    match rules {
        Rules::Project => project_caps(alloc, text, until),
        Rules::Ceph => ceph_caps(alloc, text, until),
    }
}

/// The ticket of a text by these rules, until a tick or without an end.
pub(crate) fn caps_of(
    alloc: Global,
    rules: Rules,
    text: &str,
    until: Option<u64>,
) -> Result<Box<SharedCaps>, Refusal>
    ensures ticket { IfOk result (λ shared. IsTicketOf text.now until rules shared.value) }
    ensures refused { IfErr result (λ refusal. IsRefusal text.now refusal rules) }
{
    let caps = caps_by(alloc, rules, text, until)?;
    Ok(Box::new(alloc, SharedCaps::of(alloc, caps)?)?)
}
