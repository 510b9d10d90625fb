//! The capability texts that are measured, and their tickets.

ghost use Rattle.std.specs.Prelude.{◌≤◌};

use crate::fault::Fault;
use cap_text::{CapList, parse};
use common_types::OutOfMemory;
use grant_core::{GrantTree, ProfileTable, expand};
use std::alloc::Global;
use verdict_core::{IndexedTicket, Ticket};

/// The number of the first grant. Numbers have two digits, so that all names are equally long.
pub(crate) const FIRST: usize = 10;

/// Adds a grant to a text.
pub(crate) fn push_grant(text: &mut String, grant: &str) -> Result<(), OutOfMemory> {
    if !text.is_empty() {
        text.push_str(", ")?;
    }
    text.push_str(grant)
}

/// So many grants, each for a pool of its own, with more words behind the pool.
pub(crate) fn pools(
    alloc: Global,
    name: &str,
    grants: usize,
    more: &str,
) -> Result<String, OutOfMemory>
    requires { grants ≤ 64 }
{
    let mut text = String::new(alloc);
    for i in 0..grants {
        let number = FIRST + i;
        let grant = format!(in alloc; "allow rw pool={name}{number}{more}")?;
        push_grant(&mut text, grant.as_str())?;
    }
    Ok(text)
}

/// The tree of a list by the built-in profiles.
fn expanded(alloc: Global, list: &CapList) -> Result<GrantTree, Fault> {
    let profiles = ProfileTable::builtin(alloc)?;
    match expand(alloc, &profiles, list) {
        Ok(tree) => Ok(tree),
        Err(fault) => Err(Fault::from(fault)),
    }
}

/// The ticket of a list.
fn ticket_of_list(alloc: Global, list: &CapList) -> Result<Ticket, Fault> {
    Ok(Ticket::of(expanded(alloc, list)?, None))
}

/// The ticket of a text.
pub(crate) fn ticket_of(alloc: Global, text: &str) -> Result<Ticket, Fault> {
    let list = parse(alloc, text)?;
    ticket_of_list(alloc, &list)
}

/// The ticket with its index.
pub(crate) fn indexed(ticket: Ticket) -> Result<IndexedTicket, OutOfMemory> {
    match IndexedTicket::of(ticket) {
        Ok(indexed) => Ok(indexed),
        Err((_, error)) => Err(error),
    }
}
