//! The lock and its seats.
ghost use Rattle.std.specs.Prelude.{◌≡◌, ◌+◌, ◌/◌, ◌<◌, [], All, IfOk, IfErr, min, vec_len};
ghost use Rattle.turn_lock.specs.Seats.{IsSeatOf, IsNewSeatOf, IsSameSeat, HasSameShare, HasItsOwn, AreShared, GivesPart, joined_after};
ghost use Rattle.turn_lock.specs.Turns.{StartsWith, last_word, longer};
ghost use Rattle.turn_lock.specs.Turned.{Turned, Closes};

use crate::OutOfMemory;
use crate::locked_value::{Recorded, Step};
use crate::turnstile::{Token, Turnstile};
use std::alloc::Global;
use std::marker::Model;
use std::sync::Wait;
use std::thread;

// So many numbers `split` gives at most.
const PART: u64 = 1 << 32;

/// A value under a lock, which stands for the list of all turns that were taken on it.
///
/// Clauses see a lock as which one it is, `table`, and the state that its value began with,
/// `first`. Share it by `&` between threads, and give each thread a seat.
#[derive(Drop)]
pub struct TurnLock<T: Recorded> {
    turnstile: Turnstile<T>,
}

impl<T: Recorded> Model for TurnLock<T> {
    ghost use Rattle.turn_lock.specs.Seats.{Locked};

    ghost Value = { Locked T.State };

    ghost view = { λ l. record { table = l.turnstile.table.shared.table_id; first = T.state l.turnstile.table.shared.key.value } };
}

/// The right to take turns on one lock.
///
/// Clauses see a seat as the `lock` that it is of, its `number`, the beginning of the list that it
/// has `seen`, the entries that are its own, `mine`, its `share` of the numbers that the lock has,
/// how many of them it still `draws`, and the seats that were `joined` to it, each with its
/// entries. The list itself is nowhere at run time: a seat is a `u64`, how many numbers it may still
/// draw. A seat that is dropped takes these with it, and its entries stay.
#[derive(Drop)]
pub struct Seat<T: Recorded> {
    token: Token<T>,
    draws: u64,
}

impl<T: Recorded> Model for Seat<T> {
    ghost use Rattle.std.specs.Prelude.{◌≡◌, ◌≤◌, []};
    ghost use Rattle.turn_lock.specs.declared.rule.Stage.TheVariants.{Away};
    ghost use Rattle.turn_lock.specs.Seats.{Seated, HasItsOwn, seated};

    ghost Value = { Seated T.Entry };

    ghost view = { λ s. seated s.token };

    ghost invariant = { λ s. (s.token.me.0.stage ≡ Away) × (s.token.me.0.told ≡ []) × (s.token.me.0.draws ≡ s.draws) × (s.draws ≤ s.token.me.0.share) × (s.token.me.1 ≡ []) × HasItsOwn (seated s.token) };
}

fn wait_for_ever<R: Wait>(rt: &R)
    ensures { ⊥ }
{
    for _ in rt.forever() {
        thread::yield_now();
    }
}

impl<T: Recorded> TurnLock<T> {
    /// A lock over the value, with `seats` seats, at least one. The list is empty, and no seat has
    /// seen or made anything. The seats share all numbers that may be drawn evenly: all except the
    /// last have equally many, and the last has what is left.
    ///
    /// # Errors
    ///
    /// The value comes back as it was where there is no memory for the table or for the list of
    /// seats.
    pub fn new(
        alloc: Global,
        value: T,
        seats: usize,
    ) -> Result<(TurnLock<T>, Vec<Seat<T>>), (T, OutOfMemory)>
        requires { 0 < seats }
        ensures first { IfOk result (λ r. r.0.first ≡ T.state value) }
        ensures seats { IfOk result (λ r. (vec_len r.1 ≡ seats) × All (IsNewSeatOf r.0) r.1.items) }
        ensures shares { IfOk result (λ r. AreShared seats r.1.items) }
        ensures err { IfErr result (λ e. e.0 ≡ value) }
    {
        let Ok(mut all) = Vec::with_capacity(alloc, seats) else {
            return Err((value, OutOfMemory));
        };
        match Turnstile::new(alloc, value) {
            Ok((turnstile, mut token)) => {
                let even = u64::MAX / seats as u64;
                let mut draws = u64::MAX;
                for _ in 1..seats {
                    let other = turnstile.split(&mut token, even);
                    draws -= even;
                    all.push_reserved(Seat {
                        token: other,
                        draws: even,
                    });
                }
                all.push_reserved(Seat { token, draws });
                Ok((TurnLock { turnstile }, all))
            }
            Err(value) => Err((value, OutOfMemory)),
        }
    }

    /// Runs the step once, in a turn of its own, and answers what it answered.
    ///
    /// It waits until every turn that drew its number before is over. Where the step is refused its
    /// entry is an idle one, as the step's contract says. The seat may then draw one number less. The
    /// call returns in no bounded time, and never where the seat has no number left to draw, or where
    /// a step takes a turn of its own lock.
    pub fn turn<R: Wait, St: Step<Value = T> + Drop>(
        &self,
        rt: &R,
        seat: &mut Seat<T>,
        step: St,
    ) -> St::Answer
    where
        T: Drop,
        requires { IsSeatOf self.now seat.old }
        ensures seat { IsSameSeat seat.old seat.new }
        ensures share { HasSameShare seat.old seat.new }
        ensures draws { seat.new.draws + 1 ≡ seat.old.draws }
        ensures turned { Turned T.after St.entry St.tells self.now.first step result seat.old seat.new }
    {
        if seat.draws == 0 {
            wait_for_ever(rt);
        }
        let answer = self.turnstile.turn(rt, &mut seat.token, step);
        seat.draws -= 1;
        answer
    }

    /// Takes a last turn, and in it the value out of the lock.
    ///
    /// No thread has the lock any more, so each turn that was begun is over. The value stands for
    /// the whole list, which begins with what this seat had seen. To have this of each seat,
    /// [`Seat::join`] them into one first. Where all seats that have a share were joined into this
    /// one, the list has just their entries, each seat's in its order. It waits as a turn does.
    pub fn close<R: Wait>(self, rt: &R, seat: Seat<T>) -> T
    where
        T: Drop,
        requires { IsSeatOf self seat }
        ensures { Closes T.after T.fits self.first (T.state result) seat }
    {
        let TurnLock { turnstile } = self;
        let Seat { token, draws } = seat;
        if draws == 0 {
            wait_for_ever(rt);
        }
        turnstile.close(rt, token)
    }
}

impl<T: Recorded> Seat<T> {
    /// A new seat of the lock, which has seen what this one has, and made nothing. It gets `most` of
    /// the numbers that this one may still draw, or all where they are fewer.
    ///
    /// With `most` 0 the new seat has no share: it carries to another what this one has seen, and a
    /// lock is closed without it. With more, numbers are shared evenly: of a seat made by [`TurnLock::new`] with N seats beside it,
    /// each of k parts is `u64::MAX / N / k`. A seat that gave all its numbers away waits for ever in
    /// its next turn. It takes no memory, and waits for nobody.
    pub fn split_off(&mut self, lock: &TurnLock<T>, most: u64) -> Seat<T>
        requires { IsSeatOf lock.now self.old }
        ensures same { self.new ≡ record self.old { share = self.new.share; draws = self.new.draws } }
        ensures new { IsSeatOf lock.now result × (result.seen ≡ self.old.seen) × (result.mine ≡ []) × (result.joined ≡ []) }
        ensures part { GivesPart (min self.old.draws most) self.old self.new result }
        ensures own { HasItsOwn self.new × HasItsOwn result }
    {
        let part = self.draws.min(most);
        let token = lock.turnstile.split(&mut self.token, part);
        self.draws -= part;
        Seat { token, draws: part }
    }

    /// A new seat of the lock, which has seen what this one has, and made nothing.
    ///
    /// It gets 2^32 of the numbers that this one may draw, or half where that is less: enough for a
    /// seat that only carries to another what this one has seen, or that takes turns for a while. A
    /// seat for a long life is made by [`TurnLock::new`] or [`Seat::split_off`]. It takes no memory,
    /// and waits for nobody.
    pub fn split(&mut self, lock: &TurnLock<T>) -> Seat<T>
        requires { IsSeatOf lock.now self.old }
        ensures same { self.new ≡ record self.old { share = self.new.share; draws = self.new.draws } }
        ensures new { IsSeatOf lock.now result × (result.seen ≡ self.old.seen) × (result.mine ≡ []) × (result.joined ≡ []) }
        ensures part { GivesPart (min (self.old.draws / 2) 4294967296) self.old self.new result }
        ensures own { HasItsOwn self.new × HasItsOwn result }
    {
        let half = self.draws / 2;
        self.split_off(lock, half.min(PART))
    }

    /// From now on this seat has seen what both had seen, and may draw what both might. The other
    /// is spent: its entries stay in the list under its number. Where it had a share, clauses see
    /// it, and those that were joined to it, behind the seats that were joined to this one.
    ///
    /// It takes no memory, and waits for nobody.
    pub fn join(&mut self, lock: &TurnLock<T>, other: Seat<T>)
        requires own { IsSeatOf lock.now self.old }
        requires other { IsSeatOf lock.now other }
        ensures same { IsSameSeat self.old self.new × (self.new.mine ≡ self.old.mine) }
        ensures longer { self.new.seen ≡ longer self.old.seen other.seen }
        ensures begins { StartsWith self.new.seen self.old.seen × StartsWith self.new.seen other.seen }
        ensures share { (self.new.share ≡ self.old.share + other.share) × (self.new.joined ≡ joined_after self.old other) }
        ensures draws { self.new.draws ≡ min (self.old.draws + other.draws) last_word }
        ensures own { HasItsOwn self.new }
    {
        let Seat { token, draws } = other;
        lock.turnstile.join(&mut self.token, token);
        self.draws = self.draws.saturating_add(draws);
    }
}
