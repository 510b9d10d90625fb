//! Lists of grants, expanded by the built-in profiles.

ghost use Rattle.std.specs.Prelude.{◌≡◌, ◌≢◌, None, Some, IfOk, IfErr, OnOk};
ghost use Rattle.common_types.specs.Refused.{RefusedFirst};
ghost use Rattle.grant_core.specs.BuiltIn.{built_in};
ghost use Rattle.grant_core.specs.Flat.{flat};
ghost use Rattle.grant_core.specs.Refusal.{expand_refusal};

use cap_text::CapList;
use grant_core::{ExpandFault, ProfileTable, expand};
use std::alloc::Global;
use verdict_core::Ticket;

/// The ticket of a list that is expanded by the profiles of a table.
fn ticket_by(
    alloc: Global,
    table: &ProfileTable,
    list: &CapList,
    until: Option<u64>,
) -> Result<Ticket, ExpandFault>
    ensures ticket { IfOk result (λ ticket. ticket ≡ record { grants = flat table.now list.now; until = until }) }
    ensures refused { RefusedFirst (expand_refusal table.now list.now) ExpandFault.OutOfMemory result }
{
    let tree = expand(alloc, table, list)?;
    Ok(Ticket::of(tree, until))
}

/// The ticket of a list that is expanded by the built-in profiles, which the caller makes once for all its texts; it ends at
/// tick `until`, if at any. An `Err` says why the list cannot be expanded, or, of a list that can be, that a growth was refused,
/// which is no fault of the list; nothing is left of the ticket then.
pub fn ticket_of(
    alloc: Global,
    profiles: &ProfileTable,
    list: &CapList,
    until: Option<u64>,
) -> Result<Ticket, ExpandFault>
    requires { profiles.now ≡ built_in }
    ensures ticket { IfOk result (λ ticket. ticket ≡ record { grants = flat built_in list.now; until = until }) }
    ensures first { RefusedFirst (expand_refusal built_in list.now) ExpandFault.OutOfMemory result }
    ensures accepted { OnOk result (expand_refusal built_in list.now ≡ None) }
    ensures refused { IfErr result (λ fault. fault ≢ ExpandFault.OutOfMemory → expand_refusal built_in list.now ≡ Some fault) }
{
    ticket_by(alloc, profiles, list, until)
}
