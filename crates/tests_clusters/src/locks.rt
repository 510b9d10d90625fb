//! A number under a turn lock.

ghost use Rattle.std.specs.Prelude.{◌≡◌, ◌+◌, ◌<◌, ◌^◌, ◌↔◌, [], ◌∷◌, min, if◌then◌else◌, IsTrue};
ghost use Rattle.tests_clusters.specs.declared.locks.Change.TheVariants.{Added, Idle, Looked};
ghost use Rattle.turn_lock.specs.Seats.{IsSeatOf, IsNewSeatOf, IsSameSeat, HasSameShare, HasAllNumbers};
ghost use Rattle.turn_lock.specs.Turns.{StartsWith, entries, last_word};

use std::alloc::Global;
use std::process::Abort;
use std::sync::Wait;
use std::thread::{Threads, join};
use turn_lock::{Recorded, Seat, Step, TurnLock};

/// A number, and how many turns were taken on it.
#[derive(Drop, Clone, Copy, PartialEq, Eq, Debug)]
struct Tally {
    number: u64,
    turns: u64,
}

/// An entry of the list. No value of it is made.
enum Change {
    Added(u64),
    Idle,
    Looked,
}

impl Recorded for Tally {
    type State = Tally;

    type Entry = Change;

    ghost state = { λ t. t };

    ghost after = { λ t c. record { number = elim c [ Added k ↦ t.number + k | Idle ↦ t.number | Looked ↦ t.number ]; turns = min (t.turns + 1) 18446744073709551615 } };

    // What is added leaves a sum that is a `u64`.
    ghost fits = { λ t c. elim c [ Added k ↦ t.number + k < 2 ^ 64 | Idle ↦ Unit {0} | Looked ↦ Unit {0} ] };
}

/// Adds, and is refused where the sum is no `u64`. Answers whether it did, and what it found.
#[derive(Drop)]
struct Add(u64);

impl Step for Add {
    type Value = Tally;

    type Answer = (bool, Tally);

    ghost entry = { λ s _ answer. if answer.0 then Added s.0 else Idle };

    ghost tells = { λ s found answer. (answer.1 ≡ found) × (IsTrue answer.0 ↔ (found.number + s.0 < 2 ^ 64)) };

    fn run(&mut self, value: &mut Tally) -> (bool, Tally) {
        let found = *value;
        value.turns = found.turns.saturating_add(1);
        match found.number.checked_add(self.0) {
            Some(sum) => {
                value.number = sum;
                (true, found)
            }
            None => (false, found),
        }
    }
}

/// Answers what it found.
#[derive(Drop)]
struct Look;

impl Step for Look {
    type Value = Tally;

    type Answer = Tally;

    ghost entry = { λ _ _ _. Looked };

    ghost tells = { λ _ found answer. answer ≡ found };

    fn run(&mut self, value: &mut Tally) -> Tally {
        let found = *value;
        value.turns = found.turns.saturating_add(1);
        found
    }
}

const ZERO: Tally = Tally {
    number: 0,
    turns: 0,
};

// Seat 0 adds five, the step of seat 1 is refused, and seat 1 looks. No other took a turn, as the
// turns that they found say, so this is the list.
fn add_idle_look<R: Wait + Abort>(
    rt: &R,
    lock: &TurnLock<Tally>,
    zero: &mut Seat<Tally>,
    one: &mut Seat<Tally>,
) -> Tally
    requires first { lock.now.first ≡ record { number = 0; turns = 0 } }
    requires seats { IsNewSeatOf lock.now zero.old × IsNewSeatOf lock.now one.old }
    ensures seats { IsSameSeat zero.old zero.new × IsSameSeat one.old one.new }
    ensures list { entries one.new.seen ≡ Added 5 ∷ Idle ∷ Looked ∷ [] }
{
    let (added, _) = lock.turn(rt, zero, Add(5));
    assert!(rt; added);
    let (_, before) = lock.turn(rt, one, Add(u64::MAX));
    assert!(rt; before.number == 5);
    assert!(rt; before.turns == 1);
    let found = lock.turn(rt, one, Look);
    assert!(rt; found.turns == 2);
    found
}

fn add_ones<R: Wait>(
    rt: &R,
    lock: &TurnLock<Tally>,
    mut seat: Seat<Tally>,
    times: u32,
) -> Seat<Tally>
    requires { IsSeatOf lock.now seat }
    ensures seat { IsSameSeat seat result }
    ensures share { HasSameShare seat result }
    ensures seen { StartsWith result.seen seat.seen }
{
    for _ in 0..times {
        lock.turn(rt, &mut seat, Add(1));
    }
    seat
}

// Two threads add ones, each `times` times. One seat has then seen what both had, and has all numbers.
fn add_in_two_threads<R: Threads + Wait + Sync>(
    rt: &R,
    lock: &TurnLock<Tally>,
    first: Seat<Tally>,
    second: Seat<Tally>,
    times: u32,
) -> Seat<Tally>
    requires seats { IsSeatOf lock.now first × IsSeatOf lock.now second }
    requires shares { first.share + second.share ≡ last_word }
    ensures seat { IsSameSeat first result }
    ensures all { HasAllNumbers result }
{
    let (mut first, second) = join(
        rt,
        || -> Seat<Tally>
            requires { IsSeatOf lock.now first }
            ensures { IsSameSeat first result × HasSameShare first result }
        { add_ones(rt, lock, first, times) },
        || -> Seat<Tally>
            requires { IsSeatOf lock.now second }
            ensures { IsSameSeat second result × HasSameShare second result }
        { add_ones(rt, lock, second, times) },
    );
    first.join(lock, second);
    first
}

// A split seat has seen what the first had, and a join has seen what both had. The third may draw one number.
fn split_and_join<R: Wait>(
    rt: &R,
    lock: &TurnLock<Tally>,
    first: &mut Seat<Tally>,
) -> (Tally, Tally)
    requires { IsSeatOf lock.now first.old }
    ensures seat { IsSameSeat first.old first.new }
    ensures seen { StartsWith first.new.seen first.old.seen }
{
    lock.turn(rt, first, Add(1));
    let mut second = first.split(lock);
    let mut third = second.split_off(lock, 1);
    let by_third = lock.turn(rt, &mut third, Look);
    lock.turn(rt, &mut second, Add(2));
    second.join(lock, third);
    first.join(lock, second);
    let by_first = lock.turn(rt, first, Look);
    (by_third, by_first)
}

fn two_seats<R: Abort>(rt: &R, alloc: Global) -> (TurnLock<Tally>, Seat<Tally>, Seat<Tally>)
    ensures first { result.0.first ≡ record { number = 0; turns = 0 } }
    ensures seats { IsNewSeatOf result.0 result.1 × IsNewSeatOf result.0 result.2 }
    ensures shares { result.1.share + result.2.share ≡ last_word }
{
    let Ok((lock, mut seats)) = TurnLock::new(alloc, ZERO, 2) else {
        panic!(rt; "there is memory");
    };
    let one = seats.pop().unwrap();
    let zero = seats.pop().unwrap();
    (lock, zero, one)
}

// Ends the test unless the tally is `number` after `turns` turns.
fn expect_tally<R: Abort>(rt: &R, found: Tally, number: u64, turns: u64) {
    assert_eq!(rt; found, Tally { number, turns });
}

#[test]
fn the_list_is_add_idle_look(rt: HostRuntime) {
    let (lock, mut zero, mut one) = two_seats(&rt, rt.alloc());
    let found = add_idle_look(&rt, &lock, &mut zero, &mut one);
    expect_tally(&rt, found, 5, 2);
    expect_tally(&rt, lock.close(&rt, one), 5, 3);
}

#[test]
fn two_threads_add_a_thousand_each(rt: HostRuntime) {
    let (lock, first, second) = two_seats(&rt, rt.alloc());
    let both = add_in_two_threads(&rt, &lock, first, second, 1000);
    expect_tally(&rt, lock.close(&rt, both), 2000, 2000);
}

#[test]
fn a_join_has_seen_what_both_had(rt: HostRuntime) {
    let (lock, mut first, _second) = two_seats(&rt, rt.alloc());
    let (by_third, by_first) = split_and_join(&rt, &lock, &mut first);
    expect_tally(&rt, by_third, 1, 1);
    expect_tally(&rt, by_first, 3, 3);
}

#[test]
fn the_value_comes_back_where_there_is_no_memory(rt: HostRuntime) {
    let value = Tally {
        number: 7,
        turns: 0,
    };
    let Err((back, _)) = TurnLock::new(rt.alloc(), value, usize::MAX) else {
        panic!(rt; "so many seats fit no memory");
    };
    expect_tally(&rt, back, 7, 0);
}
