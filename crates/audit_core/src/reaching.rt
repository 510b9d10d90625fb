//! What rights reach of some pools.

ghost use Rattle.std.specs.Prelude.{◌≡◌, ◌∷◌, [], IfOk};
ghost use Rattle.std.specs.List.{list_any, list_all};
ghost use Rattle.audit_core.specs.Giving as spec;
ghost use Rattle.audit_core.specs.Reached.{AreCells};

use crate::cell::{Cell, Extent, Letter};
use crate::giving::{reaches_every, reaches_some};
use cap_text::AllowGrant;
use common_types::OutOfMemory;
use grant_core::Path;
use rights_core::{Rights, addresses, tickets};
use share_core::Pool;
use std::alloc::Global;
use verdict_core::Ticket;

fn some_reaches(letter: Letter, pool: &Pool, grants: &[(Path, AllowGrant)]) -> bool
    ensures { result ≡ spec.some_reaches letter pool.now grants.now }
{
    grants
        .iter()
        .any(|entry| reaches_some(letter, pool, &entry.1))
}

fn one_reaches_every(letter: Letter, pool: &Pool, grants: &[(Path, AllowGrant)]) -> bool
    ensures { result ≡ spec.one_reaches_every letter pool.now grants.now }
{
    grants
        .iter()
        .any(|entry| reaches_every(letter, pool, &entry.1))
}

/// Whether grants allow every request of a letter: of all requests those of objects, and the listings.
fn grants_reach_every(letter: Letter, pool: &Pool, grants: &[(Path, AllowGrant)]) -> bool
    ensures { result ≡ spec.grants_reach_every letter pool.now grants.now }
{
    match letter {
        Letter::Any => {
            one_reaches_every(Letter::Any, pool, grants)
                && one_reaches_every(Letter::Listing, pool, grants)
        }
        Letter::Read | Letter::Write | Letter::Listing | Letter::Call => {
            one_reaches_every(letter, pool, grants)
        }
    }
}

fn ticket_some(ticket: &Ticket, tick: u64, letter: Letter, pool: &Pool) -> bool
    ensures { result ≡ spec.ticket_some tick letter pool.now ticket.now }
{
    !ticket.is_expired(tick) && some_reaches(letter, pool, ticket.grants())
}

fn ticket_every(ticket: &Ticket, tick: u64, letter: Letter, pool: &Pool) -> bool
    ensures { result ≡ spec.ticket_every tick letter pool.now ticket.now }
{
    !ticket.is_expired(tick) && grants_reach_every(letter, pool, ticket.grants())
}

fn any_some(tickets: &[Ticket], tick: u64, letter: Letter, pool: &Pool) -> bool
    ensures { result ≡ list_any (spec.ticket_some tick letter pool.now) tickets.now }
{
    tickets
        .iter()
        .any(|ticket| ticket_some(ticket, tick, letter, pool))
}

fn all_every(tickets: &[Ticket], tick: u64, letter: Letter, pool: &Pool) -> bool
    ensures { result ≡ list_all (spec.ticket_every tick letter pool.now) tickets.now }
{
    tickets
        .iter()
        .all(|ticket| ticket_every(ticket, tick, letter, pool))
}

/// How much of a pool the tickets reach, each of which some address has.
fn extent(tickets: &[Ticket], tick: u64, letter: Letter, pool: &Pool) -> Extent
    ensures { result ≡ spec.extent tick letter pool.now tickets.now }
{
    if all_every(tickets, tick, letter, pool) {
        Extent::Whole
    } else if any_some(tickets, tick, letter, pool) {
        Extent::Part
    } else {
        Extent::Nothing
    }
}

/// What the tickets reach of a pool.
fn cell(tickets: &[Ticket], tick: u64, pool: &Pool) -> Cell
    ensures { result ≡ spec.cell tick pool.now tickets.now }
{
    Cell {
        read: extent(tickets, tick, Letter::Read, pool),
        write: extent(tickets, tick, Letter::Write, pool),
        list: extent(tickets, tick, Letter::Listing, pool),
        call: extent(tickets, tick, Letter::Call, pool),
        any: extent(tickets, tick, Letter::Any, pool),
    }
}

/// What rights reach of each of some pools at a tick, in order: letter by letter whether no request, some request or every
/// request is allowed. The requests are those of all namespaces and objects of a pool with exactly its tags, from all addresses.
/// Each is asked by itself: a request that both reads and writes needs one grant that does.
///
/// The only error is out of memory. Time goes by the pools, the grants, and the addresses at which networks begin and end.
pub fn cells(
    alloc: Global,
    rights: &Rights,
    tick: u64,
    pools: &[Pool],
) -> Result<Vec<Cell>, OutOfMemory>
    ensures { IfOk result (λ cells. AreCells rights.now tick pools.now cells.items) }
{
    let samples = addresses(alloc, &[rights])?;
    let tickets = tickets(alloc, rights, samples.as_slice())?;
    let tickets = tickets.as_slice();
    let mut cells = Vec::with_capacity(alloc, pools.len())?;
    for pool in pools {
        cells.push(cell(tickets, tick, pool))?;
    }
    Ok(cells)
}
