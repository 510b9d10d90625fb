//! What it costs a group to move from set to set, by how much was decided before.

use crate::fault::Fault;
use crate::group::{all, request, three_daemons};
use common_types::{Name, OutOfMemory, TryClone};
use entry_core::Sealed;
use group_core::Group;
use place_core::{ActingSet, DaemonSet};
use std::alloc::Global;
use std::time::Clock;
use stopwatch::{Table, Work};
use verdict_core::SharedTicket;

/// For how many moves the time of a row is given.
const MOVES: u64 = 128;

/// The first of three daemons leaves the set of a group and comes back, again and again: on a copy, since each run is of the
/// same group.
#[derive(Drop)]
struct Moves {
    group: Box<Group>,
    rounds: u64,
    /// What is asked while it is away, a request each time.
    missed: Vec<Sealed>,
}

/// Moves a group to a set, and answers whether it settles. All three daemons are up.
fn moves_to(group: &mut Group, members: &[u8]) -> bool {
    let acting = ActingSet::from_slice(members).unwrap_or(ActingSet::new());
    group.new_interval(acting, DaemonSet::first(3)).is_ok() && group.settle().is_ok()
}

/// Decides a request, if there is one.
fn takes(group: &mut Group, request: Option<&Sealed>) -> Result<bool, OutOfMemory> {
    match request {
        None => Ok(true),
        Some(request) => Ok(group.submit(request.copy()?).is_ok() && group.settle().is_ok()),
    }
}

impl Moves {
    /// Moves a group to the set of two and back so often.
    fn go_and_return(&self, group: &mut Group) -> Result<bool, OutOfMemory> {
        for round in 0..self.rounds {
            let missed = self.missed.as_slice().get(round as usize);
            let went = moves_to(group, &[1, 2])
                && takes(group, missed)?
                && moves_to(group, &[0, 1, 2]);
            if !went {
                return Ok(false);
            }
        }
        Ok(true)
    }
}

impl Work for Moves {
    fn once(&self, _turn: usize) -> Result<bool, OutOfMemory> {
        let mut group = self.group.copy()?;
        self.go_and_return(&mut group)
    }

    fn size(&self) -> u64 {
        MOVES
    }
}

/// Has a group decide the requests of these numbers.
fn decide(
    alloc: Global,
    group: &mut Group,
    from: u32,
    to: u32,
    name: &str,
    ticket: &SharedTicket,
) -> Result<(), Fault> {
    for number in from..to {
        let request = request(alloc, number, name, ticket)?;
        if group.submit(request).is_err() || group.settle().is_err() {
            return Err(Fault::Refused);
        }
    }
    Ok(())
}

/// A group that decided `count` requests.
fn decided(alloc: Global, count: u32, name: &str) -> Result<Box<Group>, Fault> {
    let ticket = all(alloc)?;
    let mut group = Box::new(alloc, three_daemons(alloc, Name::new(alloc, name)?)?)?;
    decide(alloc, &mut group, 0, count, name, &ticket)?;
    Ok(group)
}

/// Requests that are new to a group that decided `count` requests.
fn more(alloc: Global, count: u32, name: &str) -> Result<Vec<Sealed>, Fault> {
    let ticket = all(alloc)?;
    let mut requests = Vec::new(alloc);
    for round in 0..(MOVES / 2) as u32 {
        requests.push(request(alloc, count.saturating_add(round), name, &ticket)?)?;
    }
    Ok(requests)
}

/// Adds the rows of groups that decided `size.count` requests: only copied, moved while nothing is missing, and moved
/// while one entry is missing each time.
fn add_moves<C: Clock>(table: &mut Table<'_, C>, name: &str, size: Size) -> Result<(), Fault> {
    let alloc = table.alloc();
    let mut work = Moves {
        group: decided(alloc, size.count, name)?,
        rounds: 0,
        missed: Vec::new(alloc),
    };
    table.row(size.copied, &work)?;
    work.rounds = MOVES / 2;
    table.row(size.moved, &work)?;
    work.missed = more(alloc, size.count, name)?;
    Ok(table.row(size.missing, &work)?)
}

/// How many requests were decided, and the names of the rows.
#[derive(Clone, Copy)]
struct Size {
    count: u32,
    copied: &'static str,
    moved: &'static str,
    missing: &'static str,
}

const SIZES: &[Size] = &[
    Size {
        count: 1000,
        copied: "peering, no move, of 1,000",
        moved: "peering, a move, of 1,000",
        missing: "peering, a move and an entry, of 1,000",
    },
    Size {
        count: 4000,
        copied: "peering, no move, of 4,000",
        moved: "peering, a move, of 4,000",
        missing: "peering, a move and an entry, of 4,000",
    },
    Size {
        count: 16000,
        copied: "peering, no move, of 16,000",
        moved: "peering, a move, of 16,000",
        missing: "peering, a move and an entry, of 16,000",
    },
];

/// Adds the row of a daemon that comes back and lacks 1,000 of 16,000 requests.
fn add_return<C: Clock>(table: &mut Table<'_, C>, name: &str) -> Result<(), Fault> {
    let alloc = table.alloc();
    let ticket = all(alloc)?;
    let mut group = decided(alloc, 15000, name)?;
    if !moves_to(&mut group, &[1, 2]) {
        return Err(Fault::Refused);
    }
    decide(alloc, &mut group, 15000, 16000, name, &ticket)?;
    let work = Return { group };
    Ok(table.row("peering, a return that lacks 1,000 of 16,000", &work)?)
}

/// The first of three daemons comes back into the set.
#[derive(Drop)]
struct Return {
    group: Box<Group>,
}

impl Work for Return {
    fn once(&self, _turn: usize) -> Result<bool, OutOfMemory> {
        let mut group = self.group.copy()?;
        Ok(moves_to(&mut group, &[0, 1, 2]))
    }

    fn size(&self) -> u64 {
        MOVES
    }
}

/// Adds the rows of peering, over a given name: the time for each of 128 moves, with the 128th part of a group's copy, which the
/// rows of no move show alone; and of one return, so divided too.
pub(crate) fn add_peering<C: Clock>(table: &mut Table<'_, C>, name: &str) -> Result<(), Fault> {
    for size in SIZES {
        add_moves(table, name, *size)?;
    }
    add_return(table, name)
}
