//! Lists of seats, one for each lock of a list of locks.

ghost use Rattle.std.specs.Prelude.{◌≡◌, ◌<◌, ◌≤◌, [], All, length, map, IfOk};
ghost use Rattle.std.specs.Vec.{vec_capacity};
ghost use Rattle.turn_lock.specs.Seats.{IsSeatOf, lock_of, seat_lock, seen_by};
ghost use Rattle.cluster_locks.specs.Places.{TurnsAt, TakesIn, InStep, ClosedAll};

use std::alloc::{AllocError, Global};
use std::sync::Wait;
use turn_lock::{Recorded, Seat, Step, TurnLock};

/// A turn on the lock k, by the seat k. It waits for the turns before it.
pub fn turn_at<T: Recorded + Drop, R: Wait, St: Step<Value = T> + Drop>(
    rt: &R,
    locks: &[TurnLock<T>],
    seats: &mut [Seat<T>],
    k: usize,
    step: St,
) -> St::Answer
    requires own { map seat_lock seats.old ≡ map lock_of locks.now }
    requires inside { k < length locks.now }
    ensures locks { map seat_lock seats.new ≡ map seat_lock seats.old }
    ensures turn { TurnsAt T.after St.entry St.tells locks.now k step result seats.old seats.new }
{
    let seat = &mut seats[k];
    locks[k].turn(rt, seat, step)
}

/// A seat takes in what another of its lock has seen, and its numbers.
pub fn take_in<T: Recorded>(lock: &TurnLock<T>, seat: &mut Seat<T>, other: Seat<T>)
    requires own { IsSeatOf lock.now seat.old }
    requires other { IsSeatOf lock.now other }
    ensures { TakesIn seat.old other seat.new }
{
    seat.join(lock, other);
}

/// Each seat takes in what another of its lock has seen, and its numbers.
pub fn join_all<T: Recorded>(locks: &[TurnLock<T>], seats: &mut [Seat<T>], mut others: Vec<Seat<T>>)
    requires own { map seat_lock seats.old ≡ map lock_of locks.now }
    requires other { map seat_lock others.items ≡ map lock_of locks.now }
    ensures locks { map seat_lock seats.new ≡ map seat_lock seats.old }
    ensures taken { InStep TakesIn seats.old others.items seats.new }
{
    while let Some(other) = others.pop() {
        let k = others.len();
        take_in(&locks[k], &mut seats[k], other);
    }
}

/// A new seat of a lock, which has seen as much and takes no turns.
pub fn split_seat<T: Recorded>(lock: &TurnLock<T>, seat: &mut Seat<T>) -> Seat<T>
    requires { IsSeatOf lock.now seat.old }
    ensures same { seat.new ≡ seat.old }
    ensures new { IsSeatOf lock.now result × (result.seen ≡ seat.old.seen) × (result.share ≡ 0) }
{
    seat.split_off(lock, 0)
}

/// A new seat of each lock, which has seen as much and takes no turns.
///
/// `AllocError`: memory was wanting, and the seats keep all.
pub fn split_all<T: Recorded>(
    alloc: Global,
    locks: &[TurnLock<T>],
    seats: &mut [Seat<T>],
) -> Result<Vec<Seat<T>>, AllocError>
    requires own { map seat_lock seats.old ≡ map lock_of locks.now }
    ensures same { seats.new ≡ seats.old }
    ensures locks { IfOk result (λ v. map seat_lock v.items ≡ map lock_of locks.now) }
    ensures seen { IfOk result (λ v. map seen_by v.items ≡ map seen_by seats.old) }
    ensures none { IfOk result (λ v. All (λ s. s.share ≡ 0) v.items) }
{
    let mut all = Vec::with_capacity(alloc, locks.len())?;
    for k in 0..locks.len() {
        all.push_reserved(split_seat(&locks[k], &mut seats[k]));
    }
    Ok(all)
}

/// Takes a last turn on each lock, and the values out. It waits for the turns before these.
pub fn close_all<T: Recorded + Drop, R: Wait>(
    rt: &R,
    mut locks: Vec<TurnLock<T>>,
    mut seats: Vec<Seat<T>>,
    mut out: Vec<T>,
) -> Vec<T>
    requires own { map seat_lock seats.items ≡ map lock_of locks.items }
    requires room { (out.items ≡ []) × (length locks.items ≤ vec_capacity out) }
    ensures { ClosedAll T.after T.fits T.state locks.items seats.items result.items }
{
    while let Some(lock) = locks.pop() {
        let seat = seats.pop().unwrap();
        out.push_reserved(lock.close(rt, seat));
    }
    out.reverse();
    out
}
