//! What it costs to expand a list by the built-in profiles.

use crate::fault::Fault;
use crate::grants::push_grant;
use cap_text::{CapList, parse};
use common_types::OutOfMemory;
use grant_core::{ExpandFault, GrantTree, ProfileTable, expand};
use std::alloc::{AllocError, Global};
use std::time::Clock;
use stopwatch::{Table, Work};
use verdict_core::Ticket;

/// A list, which is expanded. The tree is dropped.
#[derive(Drop)]
struct Expand<'a> {
    alloc: Global,
    table: &'a ProfileTable,
    list: &'a CapList,
}

impl Work for Expand<'_> {
    fn once(&self, _turn: usize) -> Result<bool, OutOfMemory> {
        match expand(self.alloc, self.table, self.list) {
            Ok(_) => Ok(true),
            Err(ExpandFault::OutOfMemory) => Err(AllocError),
            Err(_) => Ok(false),
        }
    }

    fn size(&self) -> u64 {
        1
    }
}

/// Whether the ticket of a tree has grants.
fn has_grants(tree: GrantTree) -> bool {
    !Ticket::of(tree, None).grants().is_empty()
}

/// A list, of which a ticket is made.
#[derive(Drop)]
struct MakeTicket<'a>(Expand<'a>);

impl Work for MakeTicket<'_> {
    fn once(&self, _turn: usize) -> Result<bool, OutOfMemory> {
        match expand(self.0.alloc, self.0.table, self.0.list) {
            Ok(tree) => Ok(has_grants(tree)),
            Err(ExpandFault::OutOfMemory) => Err(AllocError),
            Err(_) => Ok(false),
        }
    }

    fn size(&self) -> u64 {
        1
    }
}

/// The text of a profile's use, repeated `times` times.
fn uses(alloc: Global, name: &str, times: usize) -> Result<String, OutOfMemory> {
    let grant = format!(in alloc; "profile rbd pool={name}")?;
    let mut text = String::new(alloc);
    for _ in 0..times {
        push_grant(&mut text, grant.as_str())?;
    }
    Ok(text)
}

/// The list of a profile's use, repeated `times` times.
fn list_of(alloc: Global, name: &str, times: usize) -> Result<CapList, Fault> {
    Ok(parse(alloc, uses(alloc, name, times)?.as_str())?)
}

/// Adds a row with a number between two words.
fn add_row<C: Clock, W: Work>(
    table: &mut Table<'_, C>,
    call: &str,
    times: usize,
    what: &str,
    work: &W,
) -> Result<(), Fault>
    requires { W.ready work.now }
{
    let row = format!(in table.alloc(); "{call}, {times} of {what}")?;
    Ok(table.row(row.as_str(), work)?)
}

/// Adds the rows of a profile's use, repeated `times` times.
fn add_uses<C: Clock>(
    table: &mut Table<'_, C>,
    profiles: &ProfileTable,
    name: &str,
    times: usize,
) -> Result<(), Fault> {
    let alloc = table.alloc();
    let list = list_of(alloc, name, times)?;
    let work = Expand {
        alloc,
        table: profiles,
        list: &list,
    };
    add_row(table, "expand", times, "profile rbd with a pool", &work)?;
    let work = MakeTicket(work);
    add_row(table, "expand and make the ticket", times, "them", &work)
}

/// Adds the rows of expansions, over a given name.
pub(crate) fn add_expansions<C: Clock>(table: &mut Table<'_, C>, name: &str) -> Result<(), Fault> {
    let profiles = ProfileTable::builtin(table.alloc())?;
    for times in [1, 16, 51] {
        add_uses(table, &profiles, name, times)?;
    }
    Ok(())
}
