//! The two words and the slot of a lock, and a turn in its atomic steps.
ghost use Rattle.std.specs.Prelude.{◌≡◌, ℕ, ◌-◌, ◌<◌, ◌≤◌, [], ◌∷◌, ◌++◌, Some, IfOk, IfErr};
ghost use Rattle.std.specs.Bool.{MatchBool};
ghost use Rattle.turn_lock.specs.declared.rule.Stage.TheVariants.{Away, Waiting, Turn};
ghost use Rattle.turn_lock.specs.Seats.{HasItsOwn, HasSameShare, seated};
ghost use Rattle.turn_lock.specs.Turns.{StartsWith, made, made_by, state_after};
ghost use Rattle.turn_lock.specs.Turning.{Found, first_view, kept_view, given_view, joined_view, settled_view};
ghost use Rattle.turn_lock.specs.Turned.{Turned, Closes};

use crate::locked_value::{Recorded, Step};
use crate::rule::{Call, Chosen, Draw, Halve, Look, Settle, Tale, Tell, Turns, View};
use atomic_table::{Refused, Table};
use crossbeam_utils::Backoff;
use std::alloc::Global;
use std::marker::Brand;
use std::snapshot::Snapshot;
use std::sync::Wait;

// The table's token of a seat.
pub(crate) type Token<T> = atomic_table::Seat<Option<T>, View<<T as Recorded>::Entry>>;

// Word 0, the number that is served.
const SERVING: usize = 0;

// Word 1, the next number to be drawn.
const NEXT: usize = 1;

// The slot of the value.
const VALUE: usize = 0;

#[derive(Drop)]
pub(crate) struct Turnstile<T: Recorded> {
    table: Table<Option<T>, View<T::Entry>, Snapshot<T>, Turns<T>, Global>,
    ghost sized: { (table.shared.table_id.words ≡ 2) × (table.shared.table_id.slots ≡ 1) },
}

impl<T: Recorded> Turnstile<T> {
    // With the token of a first seat.
    pub(crate) fn new(alloc: Global, value: T) -> Result<(Turnstile<T>, Token<T>), T>
        ensures ok { IfOk result (λ r. (T.state r.0.table.shared.key.value ≡ T.state value) × (r.1.table_id ≡ r.0.table.shared.table_id) × (r.1.me ≡ (first_view, []))) }
        ensures err { IfErr result (λ x. x ≡ value) }
    {
        let Ok(mut slots) = Vec::with_capacity(alloc, 1) else {
            return Err(value);
        };
        let first = Snapshot::of(&value);
        slots.push_reserved(Some(value));
        match Table::new(alloc, &[0, 0], slots, &first) {
            Ok((table, token)) => Ok((Turnstile { table }, token)),
            Err(Refused { mut slots }) => {
                let value = slots.pop().unwrap().unwrap();
                slots.destroy_empty();
                Err(value)
            }
        }
    }

    fn split_as<N: Chosen>(&self, token: &mut Token<T>, part: u64) -> Token<T>
        requires table { token.old.table_id ≡ self.now.table.shared.table_id }
        requires tale { N.number ≡ part }
        requires ready { (token.old.me.0.stage ≡ Away) × (N.number ≤ token.old.me.0.draws) }
        ensures kept { (token.new.table_id ≡ token.old.table_id) × (token.new.id ≡ token.old.id) × (token.new.me ≡ (kept_view N.number token.old.me.0, token.old.me.1)) }
        ensures given { (result.table_id ≡ token.old.table_id) × (result.me ≡ (given_view N.number token.old.me.0, [])) }
    {
        self.table.shared.split_seat::<Halve<N>>(token)
    }

    // The token of a new seat, which may draw `part` of the numbers that this one may.
    fn split_off(&self, token: &mut Token<T>, part: u64) -> Token<T>
        requires table { token.old.table_id ≡ self.now.table.shared.table_id }
        requires ready { (token.old.me.0.stage ≡ Away) × (part ≤ token.old.me.0.draws) }
        ensures kept { (token.new.table_id ≡ token.old.table_id) × (token.new.id ≡ token.old.id) × (token.new.me ≡ (kept_view part token.old.me.0, token.old.me.1)) }
        ensures given { (result.table_id ≡ token.old.table_id) × (result.me ≡ (given_view part token.old.me.0, [])) }
    {
        self.split_as::<Brand>(token, part)
    }

    // Splits as `split_off` does. The new seat has then looked, and found no entry of its own.
    pub(crate) fn split(&self, token: &mut Token<T>, part: u64) -> Token<T>
        requires table { token.old.table_id ≡ self.now.table.shared.table_id }
        requires ready { (token.old.me.0.stage ≡ Away) × (part ≤ token.old.me.0.draws) }
        ensures kept { (token.new.table_id ≡ token.old.table_id) × (token.new.id ≡ token.old.id) × (token.new.me ≡ (kept_view part token.old.me.0, token.old.me.1)) }
        ensures given { (result.table_id ≡ token.old.table_id) × (result.me ≡ (given_view part token.old.me.0, [])) }
        ensures own { HasItsOwn (seated result) }
    {
        let mut other = self.split_off(token, part);
        self.settle(&mut other);
        other
    }

    fn join_as<N: Chosen>(&self, token: &mut Token<T>, other: Token<T>)
        requires table { (token.old.table_id ≡ self.now.table.shared.table_id) × (other.table_id ≡ self.now.table.shared.table_id) }
        requires tale { N.number ≡ other.id }
        requires ready { (token.old.me.0.stage ≡ Away) × (other.me.0.stage ≡ Away) × (other.me.1 ≡ []) }
        ensures seat { (token.new.table_id ≡ token.old.table_id) × (token.new.id ≡ token.old.id) }
        ensures joined { token.new.me ≡ (joined_view other.id token.old.me.0 other.me.0, token.old.me.1) }
    {
        self.table.shared.join_seat::<Tell<N>>(token, other);
    }

    // Takes in what another token has seen, and its share.
    pub(crate) fn join(&self, token: &mut Token<T>, other: Token<T>)
        requires table { (token.old.table_id ≡ self.now.table.shared.table_id) × (other.table_id ≡ self.now.table.shared.table_id) }
        requires ready { (token.old.me.0.stage ≡ Away) × (other.me.0.stage ≡ Away) × (other.me.1 ≡ []) }
        requires own { HasItsOwn (seated token.old) }
        ensures seat { (token.new.table_id ≡ token.old.table_id) × (token.new.id ≡ token.old.id) × (token.new.me ≡ (settled_view (joined_view other.id token.old.me.0 other.me.0), token.old.me.1)) }
        ensures begins { StartsWith token.new.me.0.seen token.old.me.0.seen × StartsWith token.new.me.0.seen other.me.0.seen }
        ensures own { HasItsOwn (seated token.new) }
    {
        self.join_as::<Brand>(token, other);
        self.settle(token);
    }

    fn settle_as<N: Tale<T::State, T::Entry>>(&self, token: &mut Token<T>)
        requires table { token.old.table_id ≡ self.now.table.shared.table_id }
        requires tale { N.by ≡ token.old.id }
        requires ready { token.old.me.0.stage ≡ Away }
        ensures seat { (token.new.table_id ≡ token.old.table_id) × (token.new.id ≡ token.old.id) × (token.new.me ≡ (settled_view token.old.me.0, token.old.me.1)) }
        ensures begins { StartsWith token.new.me.0.seen token.old.me.0.seen × StartsWith token.new.me.0.seen token.old.me.0.told }
        ensures own { StartsWith token.new.me.0.mine (made_by token.old.id token.new.me.0.seen) }
    {
        self.table.shared.load::<Settle<N>>(token, SERVING);
    }

    // What the token was told is from now on part of what it has seen.
    fn settle(&self, token: &mut Token<T>)
        requires table { token.old.table_id ≡ self.now.table.shared.table_id }
        requires ready { token.old.me.0.stage ≡ Away }
        ensures seat { (token.new.table_id ≡ token.old.table_id) × (token.new.id ≡ token.old.id) × (token.new.me ≡ (settled_view token.old.me.0, token.old.me.1)) }
        ensures begins { StartsWith token.new.me.0.seen token.old.me.0.seen × StartsWith token.new.me.0.seen token.old.me.0.told }
        ensures own { StartsWith token.new.me.0.mine (made_by token.old.id token.new.me.0.seen) }
    {
        self.settle_as::<Brand>(token);
    }

    fn draw(&self, token: &mut Token<T>) -> u64
        requires table { token.old.table_id ≡ self.now.table.shared.table_id }
        requires ready { (token.old.me.0.stage ≡ Away) × (0 < token.old.me.0.draws) }
        ensures seat { (token.new.table_id ≡ token.old.table_id) × (token.new.id ≡ token.old.id) }
        ensures drew { token.new.me ≡ (record token.old.me.0 { draws = token.old.me.0.draws - 1; stage = Waiting result }, token.old.me.1) }
    {
        self.table.shared.fetch_add::<Draw>(token, NEXT, 1)
    }

    fn look_as<N: Tale<T::State, T::Entry>>(&self, token: &mut Token<T>, ticket: u64) -> bool
        requires table { token.old.table_id ≡ self.now.table.shared.table_id }
        requires tale { (N.firsts ≡ T.state self.now.table.shared.key.value ∷ []) × (N.by ≡ token.old.id) × (N.ticket ≡ ticket) }
        requires ready { (token.old.me.0.stage ≡ Waiting ticket) × (token.old.me.1 ≡ []) }
        ensures seat { (token.new.table_id ≡ token.old.table_id) × (token.new.id ≡ token.old.id) }
        ensures found { MatchBool result (Found T.state T.after T.fits N.firsts N.by N.ticket token.old.me token.new.me) (token.new.me ≡ token.old.me) }
    {
        self.table.shared.load::<Look<N>>(token, SERVING) == ticket
    }

    // Whether the turn has come. The token then has the value.
    fn look(&self, token: &mut Token<T>, ticket: u64) -> bool
        requires table { token.old.table_id ≡ self.now.table.shared.table_id }
        requires ready { (token.old.me.0.stage ≡ Waiting ticket) × (token.old.me.1 ≡ []) }
        ensures seat { (token.new.table_id ≡ token.old.table_id) × (token.new.id ≡ token.old.id) }
        ensures found { MatchBool result (Found T.state T.after T.fits (T.state self.now.table.shared.key.value ∷ []) token.old.id ticket token.old.me token.new.me) (token.new.me ≡ token.old.me) }
    {
        self.look_as::<Brand>(token, ticket)
    }

    fn wait<R: Wait>(&self, rt: &R, token: &mut Token<T>, ticket: u64)
        requires table { token.old.table_id ≡ self.now.table.shared.table_id }
        requires ready { (token.old.me.0.stage ≡ Waiting ticket) × (token.old.me.1 ≡ []) }
        ensures seat { (token.new.table_id ≡ token.old.table_id) × (token.new.id ≡ token.old.id) }
        ensures found { Found T.state T.after T.fits (T.state self.now.table.shared.key.value ∷ []) token.old.id ticket token.old.me token.new.me }
    {
        let backoff = Backoff::new();
        for _ in rt.forever() {
            if self.look(token, ticket) {
                return;
            }
            backoff.snooze();
        }
        unreachable!()
    }

    fn call_next<N: Tale<T::State, T::Entry>, St: Step<Value = T>>(
        &self,
        token: &mut Token<T>,
        before: &Snapshot<St>,
        found: &Snapshot<T>,
        answer: &St::Answer,
    )
        requires table { token.old.table_id ≡ self.now.table.shared.table_id }
        requires tale { (N.by ≡ token.old.id) × (N.adds ≡ St.entry before.now.value (T.state found.now.value) answer.now ∷ []) }
        requires ready { (t : ℕ) × (y : T) × (token.old.me.0.stage ≡ Turn t) × (token.old.me.1 ≡ (0, Some y) ∷ []) × (T.state y ≡ state_after T.after (T.state self.now.table.shared.key.value) (token.old.me.0.seen ++ made token.old.id (St.entry before.now.value (T.state found.now.value) answer.now) ∷ [])) }
        requires fits { T.fits (state_after T.after (T.state self.now.table.shared.key.value) token.old.me.0.seen) (St.entry before.now.value (T.state found.now.value) answer.now) }
        ensures seat { (token.new.table_id ≡ token.old.table_id) × (token.new.id ≡ token.old.id) }
        ensures own { made_by token.old.id token.new.me.0.seen ≡ token.new.me.0.mine }
        ensures added { let e : T.Entry = St.entry before.now.value (T.state found.now.value) answer.now in (token.new.me ≡ (record token.old.me.0 { seen = token.old.me.0.seen ++ made token.old.id e ∷ []; mine = token.old.me.0.mine ++ e ∷ []; stage = Away }, [])) }
    {
        self.table.shared.fetch_add::<Call<N>>(token, SERVING, 1);
    }

    // One turn. The token has the value from `wait` to `call_next`.
    pub(crate) fn turn<R: Wait, St: Step<Value = T> + Drop>(
        &self,
        rt: &R,
        token: &mut Token<T>,
        mut step: St,
    ) -> St::Answer
    where
        T: Drop,
        requires table { token.old.table_id ≡ self.now.table.shared.table_id }
        requires ready { (token.old.me.0.stage ≡ Away) × (0 < token.old.me.0.draws) × (token.old.me.1 ≡ []) }
        ensures seat { (token.new.table_id ≡ token.old.table_id) × (token.new.id ≡ token.old.id) }
        ensures turned { Turned T.after St.entry St.tells (T.state self.now.table.shared.key.value) step result (seated token.old) (seated token.new) }
        ensures rests { (token.new.me.0.stage ≡ Away) × (token.new.me.0.told ≡ token.old.me.0.told) × (token.new.me.0.draws ≡ token.old.me.0.draws - 1) × (token.new.me.1 ≡ []) }
        ensures share { HasSameShare (seated token.old) (seated token.new) }
    {
        let ticket = self.draw(token);
        self.wait(rt, token, ticket);
        let mut value = self.table.shared.exchange(token, VALUE, None).unwrap();
        let before = Snapshot::of(&step);
        let found = Snapshot::of(&value);
        let answer = step.run(&mut value);
        drop(self.table.shared.exchange(token, VALUE, Some(value)));
        self.call_next::<Brand, St>(token, &before, &found, &answer);
        answer
    }

    // A last turn, in which the value is taken and not given back.
    pub(crate) fn close<R: Wait>(self, rt: &R, mut token: Token<T>) -> T
    where
        T: Drop,
        requires table { token.table_id ≡ self.table.shared.table_id }
        requires ready { (token.me.0.stage ≡ Away) × (0 < token.me.0.draws) × (token.me.1 ≡ []) }
        ensures { Closes T.after T.fits (T.state self.table.shared.key.value) (T.state result) (seated token) }
    {
        let ticket = self.draw(&mut token);
        self.wait(rt, &mut token, ticket);
        self.table.shared.exchange(&mut token, VALUE, None).unwrap()
    }
}
