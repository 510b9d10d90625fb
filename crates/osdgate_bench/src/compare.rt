//! What it costs to find what one ticket allows that another denies.

ghost use Rattle.std.specs.Prelude.{◌<◌, ◌≤◌};

use crate::fault::Fault;
use crate::grants::{pools, ticket_of};
use common_types::OutOfMemory;
use compare_core::widening;
use std::alloc::Global;
use std::time::Clock;
use stopwatch::{Table, Work};
use verdict_core::Ticket;

/// Two tickets, and whether the new one allows what the old one denies. The examples are dropped.
struct Widening {
    alloc: Global,
    old: Ticket,
    new: Ticket,
}

impl Drop for Widening {
    fn drop(self) {
        let Widening {
            alloc: _,
            old: _,
            new: _,
        } = self;
    }
}

impl Work for Widening {
    fn once(&self, _turn: usize) -> Result<bool, OutOfMemory> {
        Ok(!widening(self.alloc, &self.old, &self.new)?.is_empty())
    }

    fn size(&self) -> u64 {
        1
    }
}

/// How the new ticket differs from the old one.
#[derive(Clone, Copy)]
enum Change {
    /// Not at all.
    Same,
    /// Its last grant is not in the old one.
    OneMore,
    /// Each of its grants has a namespace.
    Narrower,
    /// Each grant of the old one has a namespace.
    Wider,
}

impl Change {
    /// How a row is named.
    fn name(self) -> &'static str {
        match self {
            Change::Same => "the same",
            Change::OneMore => "one grant more",
            Change::Narrower => "each narrower",
            Change::Wider => "each wider",
        }
    }

    /// The old text. Each grant is for a pool of its own.
    fn old(self, alloc: Global, name: &str, grants: usize) -> Result<String, OutOfMemory>
        requires { 0 < grants × grants ≤ 64 }
    {
        match self {
            Change::OneMore => pools(alloc, name, grants - 1, ""),
            Change::Wider => pools(alloc, name, grants, " namespace=spaces"),
            _ => pools(alloc, name, grants, ""),
        }
    }

    /// The new text, of `grants` grants.
    fn new(self, alloc: Global, name: &str, grants: usize) -> Result<String, OutOfMemory>
        requires { grants ≤ 64 }
    {
        match self {
            Change::Narrower => pools(alloc, name, grants, " namespace=spaces"),
            _ => pools(alloc, name, grants, ""),
        }
    }

    fn work(self, alloc: Global, name: &str, grants: usize) -> Result<Widening, Fault>
        requires { 0 < grants × grants ≤ 64 }
    {
        let old = ticket_of(alloc, self.old(alloc, name, grants)?.as_str())?;
        let new = ticket_of(alloc, self.new(alloc, name, grants)?.as_str())?;
        Ok(Widening { alloc, old, new })
    }
}

/// Adds the row of a change.
fn add_row<C: Clock>(
    table: &mut Table<'_, C>,
    change: Change,
    name: &str,
    grants: usize,
) -> Result<(), Fault>
    requires { 0 < grants × grants ≤ 64 }
{
    let work = change.work(table.alloc(), name, grants)?;
    let how = change.name();
    let row = format!(in table.alloc(); "compare, {how}, of {grants}")?;
    Ok(table.row(row.as_str(), &work)?)
}

/// Adds the rows of comparisons, over pools whose names begin with a given one.
pub(crate) fn add_comparisons<C: Clock>(table: &mut Table<'_, C>, name: &str) -> Result<(), Fault> {
    for change in [
        Change::Same,
        Change::OneMore,
        Change::Narrower,
        Change::Wider,
    ] {
        for grants in [1, 16, 64] {
            add_row(table, change, name, grants)?;
        }
    }
    Ok(())
}
