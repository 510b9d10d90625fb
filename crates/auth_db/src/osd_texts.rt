//! Reading osd texts.

ghost use Rattle.std.specs.Prelude.{◌≡◌, None, IfOk, IfErr, OnOk};
ghost use Rattle.std.specs.Option.{unwrap_or};
ghost use Rattle.auth_db.specs.Refusals as spec;
ghost use Rattle.auth_db.specs.Texts.{IsGood, IsGoodText, IsTicket, ComesTo};
ghost use Rattle.auth_db.specs.Refusals.{TextRefuses, OsdRefuses, RefusedOrMemory};
ghost use Rattle.cap_text.specs.ReadText.{read_text};
ghost use Rattle.grant_core.specs.Flat.{flat};
ghost use Rattle.grant_core.specs.Refusal.{expand_refusal};

use crate::fault::AuthFault;
use cap_text::{CapFault, CapList, FaultKind, parse};
use common_types::{Name, OutOfMemory};
use grant_core::{ExpandFault, GrantTree, ProfileTable, expand};
use std::alloc::{AllocError, Global};
use verdict_core::Ticket;

/// Expands an osd text with a table.
fn expand_text(alloc: Global, table: &ProfileTable, text: &str) -> Result<GrantTree, AuthFault>
    ensures good { OnOk result (IsGoodText table.now text.now) }
    ensures tree { IfOk result (λ tree. ComesTo table.now text.now tree) }
    ensures refused { IfErr result (λ fault. TextRefuses table.now text.now fault) }
    ensures told { RefusedOrMemory (spec.read_refusal table.now (read_text text.now)) result }
{
    match parse(alloc, text) {
        Err(fault) => Err(text_fault(fault)),
        Ok(list) => expand_list(alloc, table, &list),
    }
}

/// Expands a list with a table. Out of memory is returned only where the list can be expanded.
fn expand_list(alloc: Global, table: &ProfileTable, list: &CapList) -> Result<GrantTree, AuthFault>
    ensures tree { IfOk result (λ tree. tree ≡ flat table.now list.now) }
    ensures accepted { OnOk result (expand_refusal table.now list.now ≡ None) }
    ensures refused { IfErr result (λ fault. fault ≡ spec.profile_fault (unwrap_or (expand_refusal table.now list.now) ExpandFault.OutOfMemory)) }
{
    match expand(alloc, table, list) {
        Err(fault) => Err(profile_fault(fault)),
        Ok(tree) => Ok(tree),
    }
}

// A text's fault. Out of memory becomes the users' own fault.
fn text_fault(fault: CapFault) -> AuthFault
    ensures { result ≡ spec.text_fault fault }
{
    match fault.kind {
        FaultKind::OutOfMemory => AuthFault::OutOfMemory,
        _ => AuthFault::BadCaps(fault),
    }
}

// The fault of an expansion. Out of memory becomes the users' own fault.
fn profile_fault(fault: ExpandFault) -> AuthFault
    ensures { result ≡ spec.profile_fault fault }
{
    match fault {
        ExpandFault::OutOfMemory => AuthFault::OutOfMemory,
        _ => AuthFault::BadProfile(fault),
    }
}

/// Whether a user may have this osd text.
pub(crate) fn check_osd(
    alloc: Global,
    table: &ProfileTable,
    osd: &Option<Name>,
) -> Result<(), AuthFault>
    ensures good { OnOk result (IsGood table.now osd.now) }
    ensures refused { IfErr result (λ fault. OsdRefuses table.now osd.now fault) }
    ensures told { RefusedOrMemory (spec.osd_refusal table.now osd.now) result }
{
    match osd {
        None => Ok(()),
        Some(text) => match expand_text(alloc, table, text.as_str()) {
            Err(fault) => Err(fault),
            Ok(_) => Ok(()),
        },
    }
}

/// The ticket of a stored osd text, until a tick or for ever. Such a text is good, so that only memory can be
/// wanting.
pub(crate) fn osd_ticket(
    alloc: Global,
    table: &ProfileTable,
    osd: &Option<Name>,
    until: Option<u64>,
) -> Result<Ticket, OutOfMemory>
    ensures { IfOk result (λ ticket. IsTicket table.now osd.now until ticket) }
{
    match osd {
        None => Ok(Ticket::empty(alloc, until)),
        Some(text) => match expand_text(alloc, table, text.as_str()) {
            Err(_) => Err(AllocError),
            Ok(tree) => Ok(Ticket::of(tree, until)),
        },
    }
}
