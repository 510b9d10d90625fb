//! Tickets of a list and of parts of it, and whether one allows all that another does.

ghost use Rattle.std.specs.Prelude.{◌≡◌, ◌++◌, None, IfOk, OnOk, IsTrue, ◌↔◌};
ghost use Rattle.common_types.specs.Refused.{RefusedFirst};
ghost use Rattle.grant_core.specs.Flat.{flat};
ghost use Rattle.grant_core.specs.Refusal.{expand_refusal};
ghost use Rattle.lint_core.specs.Lint.{AllowsAll};
ghost use Rattle.lint_core.specs.Parts.{CanExpand};

use cap_text::{CapList, Grant};
use common_types::OutOfMemory;
use compare_core::widening;
use grant_core::{ExpandFault, ProfileTable, expand};
use std::alloc::{AllocError, Global};
use verdict_core::Ticket;

/// The ticket of a whole list, which does not end.
pub(crate) fn whole_ticket(
    alloc: Global,
    table: &ProfileTable,
    list: &CapList,
) -> Result<Ticket, ExpandFault>
    ensures ticket { IfOk result (λ ticket. ticket.grants ≡ flat table.now list.now) }
    ensures refused { RefusedFirst (expand_refusal table.now list.now) ExpandFault.OutOfMemory result }
{
    let tree = expand(alloc, table, list)?;
    Ok(Ticket::of(tree, None))
}

/// Adds copies of some grants.
fn push_copies(copies: &mut Vec<Grant>, grants: &[Grant]) -> Result<(), OutOfMemory>
    ensures { OnOk result (copies.new.items ≡ copies.old.items ++ grants.now) }
{
    for grant in grants {
        copies.push(grant.copy()?)?;
    }
    Ok(())
}

/// The ticket of the grants before and behind an index of a list. The only error is out of memory, since the list can
/// be expanded.
pub(crate) fn part_ticket(
    alloc: Global,
    table: &ProfileTable,
    front: &[Grant],
    behind: &[Grant],
) -> Result<Ticket, OutOfMemory>
    requires { CanExpand table.now (front.now ++ behind.now) }
    ensures { IfOk result (λ ticket. ticket.grants ≡ flat table.now (front.now ++ behind.now)) }
{
    let mut grants = Vec::new(alloc);
    push_copies(&mut grants, front)?;
    push_copies(&mut grants, behind)?;
    match whole_ticket(alloc, table, &CapList::from_vec(grants)) {
        Ok(ticket) => Ok(ticket),
        Err(_) => Err(AllocError),
    }
}

/// Whether a ticket allows all that another one does.
pub(crate) fn allows_all(
    alloc: Global,
    ticket: &Ticket,
    other: &Ticket,
) -> Result<bool, OutOfMemory>
    ensures { IfOk result (λ all. IsTrue all ↔ AllowsAll ticket.now.grants other.now.grants) }
{
    Ok(widening(alloc, ticket, other)?.is_empty())
}

/// Whether the grants before and behind others allow all that they allow with these. It compares them with these alone.
pub(crate) fn parts_allow_rest(
    alloc: Global,
    table: &ProfileTable,
    front: &[Grant],
    middle: &[Grant],
    behind: &[Grant],
) -> Result<bool, OutOfMemory>
    requires parts { CanExpand table.now (front.now ++ behind.now) }
    requires middle { CanExpand table.now middle.now }
    ensures { IfOk result (λ all. IsTrue all ↔ AllowsAll (flat table.now (front.now ++ behind.now)) (flat table.now (front.now ++ (middle.now ++ behind.now)))) }
{
    let parts = part_ticket(alloc, table, front, behind)?;
    let own = part_ticket(alloc, table, &[], middle)?;
    let all = allows_all(alloc, &parts, &own)?;
    Ok(all)
}

/// Whether the grants before and behind a place of a list allow all that a ticket does.
pub(crate) fn parts_allow_all(
    alloc: Global,
    table: &ProfileTable,
    front: &[Grant],
    behind: &[Grant],
    whole: &Ticket,
) -> Result<bool, OutOfMemory>
    requires { CanExpand table.now (front.now ++ behind.now) }
    ensures { IfOk result (λ all. IsTrue all ↔ AllowsAll (flat table.now (front.now ++ behind.now)) whole.now.grants) }
{
    let parts = part_ticket(alloc, table, front, behind)?;
    allows_all(alloc, &parts, whole)
}
