//! Locks over groups and over users, each with `count` seats.

ghost use Rattle.std.specs.Prelude.{◌≡◌, ℕ, ◌+◌, ◌<◌, [], ◌∷◌, ◌++◌, All, vec_len, map as each, IfOk};
ghost use Rattle.turn_lock.specs.Seats.{IsNewSeatOf, first_of};
ghost use Rattle.cluster_locks.specs.Places.{InStep, Beside, IsFreshRow, share_of};
ghost use Rattle.cluster_locks.specs.Shares.{shares_of};
ghost use Rattle.cluster_locks.specs.Groups.{group_in};

use crate::groups::LockedGroup;
use std::alloc::{AllocError, Global};
use turn_lock::{Recorded, Seat, TurnLock};

/// The seats of a list of locks, for one pass.
pub type Row<T> = Vec<Seat<T>>;

/// A lock over a value, and `count` seats. The seats share evenly the numbers that turns may draw.
///
/// `AllocError`: out of memory. The value is dropped.
pub fn open_lock<T: Recorded + Drop>(
    alloc: Global,
    value: T,
    count: usize,
) -> Result<(TurnLock<T>, Row<T>), AllocError>
    requires { 0 < count }
    ensures first { IfOk result (λ r. r.0.first ≡ T.state value) }
    ensures seats { IfOk result (λ r. (vec_len r.1 ≡ count) × All (IsNewSeatOf r.0) r.1.items) }
    ensures shares { IfOk result (λ r. (passes : ℕ) → passes + 1 ≡ count → each share_of r.1.items ≡ shares_of passes) }
{
    match TurnLock::new(alloc, value, count) {
        Ok(opened) => Ok(opened),
        Err((_value, error)) => Err(error),
    }
}

// The seats of one lock, one to each row.
fn deal<T: Recorded>(
    alloc: Global,
    mut rows: Vec<Row<T>>,
    mut seats: Row<T>,
) -> Result<Vec<Row<T>>, AllocError>
    requires { vec_len seats ≡ vec_len rows }
    ensures { IfOk result (λ dealt. InStep (λ row seat longer. longer.items ≡ row.items ++ seat ∷ []) rows.items seats.items dealt.items) }
{
    let mut dealt = Vec::with_capacity(alloc, rows.len())?;
    while let Some(mut row) = rows.pop() {
        row.push(seats.pop().unwrap())?;
        dealt.push(row)?;
    }
    dealt.reverse();
    Ok(dealt)
}

// `count` rows without a seat.
fn empty_rows<T: Recorded>(alloc: Global, count: usize) -> Result<Vec<Row<T>>, AllocError>
    ensures { IfOk result (λ rows. (vec_len rows ≡ count) × All (λ row. row.items ≡ []) rows.items) }
{
    let mut rows = Vec::with_capacity(alloc, count)?;
    for made in 0..count {
        rows.push(Vec::new(alloc))?;
    }
    Ok(rows)
}

// A lock over one more group, and a seat of it more in each row.
fn open_group(
    alloc: Global,
    locks: &mut Vec<TurnLock<LockedGroup>>,
    rows: Vec<Row<LockedGroup>>,
    group: LockedGroup,
) -> Result<Vec<Row<LockedGroup>>, AllocError>
    requires { 0 < vec_len rows }
    ensures firsts { IfOk result (λ longer. each first_of locks.new.items ≡ each first_of locks.old.items ++ group_in group ∷ []) }
    ensures count { IfOk result (λ longer. vec_len longer ≡ vec_len rows) }
    ensures rows { IfOk result (λ longer. (passes : ℕ) → passes + 1 ≡ vec_len rows
        → Beside (λ share row. IsFreshRow share locks.old.items row.items) (shares_of passes) rows.items
        → Beside (λ share row. IsFreshRow share locks.new.items row.items) (shares_of passes) longer.items) }
{
    let (lock, seats) = open_lock(alloc, group, rows.len())?;
    let longer = deal(alloc, rows, seats)?;
    locks.push(lock)?;
    Ok(longer)
}

/// A lock over each group, in order, and `count` rows of their seats.
///
/// `AllocError`: out of memory. The groups are dropped.
pub fn open_groups(
    alloc: Global,
    groups: Vec<LockedGroup>,
    count: usize,
) -> Result<(Vec<TurnLock<LockedGroup>>, Vec<Row<LockedGroup>>), AllocError>
    requires { 0 < count }
    ensures firsts { IfOk result (λ r. each first_of r.0.items ≡ each group_in groups.items) }
    ensures count { IfOk result (λ r. vec_len r.1 ≡ count) }
    ensures rows { IfOk result (λ r. (passes : ℕ) → passes + 1 ≡ count → Beside (λ share row. IsFreshRow share r.0.items row.items) (shares_of passes) r.1.items) }
{
    let mut rows = empty_rows(alloc, count)?;
    let mut locks = Vec::with_capacity(alloc, groups.len())?;
    for group in groups {
        rows = open_group(alloc, &mut locks, rows, group)?;
    }
    Ok((locks, rows))
}
