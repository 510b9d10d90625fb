//! The rule of the table under a lock, and what each atomic step on it tells the seat that makes
//! it.
use crate::locked_value::Recorded;
use atomic_table::{Join, Play, Split, TableRule};
use std::collections::LinkedList;
use std::marker::{Brand, PhantomData};
use std::snapshot::Snapshot;

/// One turn of the list. No value of it is made.
pub struct Made<E> {
    /// The number of the seat that took the turn.
    pub by: u64,
    /// What the turn stands for.
    pub entry: E,
}

/// What a seat is about. No value of it is made.
pub enum Stage {
    /// It was joined to another seat, and is no more.
    Spent,
    /// It has drawn no number.
    Away,
    /// It waits until this number is served.
    Waiting(u64),
    /// This number, its own, is served, and it has the value.
    Turn(u64),
}

/// A seat that was joined to another. No value of it is made.
pub struct Joined<E> {
    /// Its number.
    pub by: u64,
    /// All entries that it made.
    pub entries: LinkedList<E>,
}

/// What a seat knows. No value of it is made.
pub struct View<E> {
    /// A beginning of the list.
    pub seen: LinkedList<Made<E>>,
    /// Another beginning, which a seat that was joined to this one had seen.
    pub told: LinkedList<Made<E>>,
    /// The seat's own entries, in order.
    pub mine: LinkedList<E>,
    /// So many numbers the seat may still draw.
    pub draws: u64,
    /// So many of the lock's numbers were given to it, those that were drawn counted.
    pub share: u64,
    /// The seats that were joined to it, and had a share.
    pub joined: LinkedList<Joined<E>>,
    /// What it is about.
    pub stage: Stage,
}

/// The rule of a lock over a `T`.
pub struct Turns<T> {
    marker: PhantomData<T>,
}

impl<T: Recorded> TableRule<Option<T>, View<T::Entry>, Snapshot<T>> for Turns<T> {
    ghost use Rattle.turn_lock.specs.Turning.{Ruled, first_view};

    ghost holds = { λ key. Ruled T.state T.after T.fits (T.state key.value) };

    ghost first = { λ _. first_view };
}

/// What the proof of a call says of its step: the state that the lock began with, the number drawn,
/// the seat's own number, and the entry that is added. Each is chosen where the call is proved
/// (`Invariants.antt`), and costs nothing when it runs.
pub(crate) trait Tale<S, E> {
    ghost use Rattle.std.specs.Prelude.{ℕ, List};

    ghost firsts: { List S };

    ghost ticket: { ℕ };

    ghost by: { ℕ };

    ghost adds: { List E };
}

impl<S, E> Tale<S, E> for Brand {
    ghost use Rattle.std.specs.Prelude.{[]};

    ghost firsts = { [] };

    ghost ticket = { 0 };

    ghost by = { 0 };

    ghost adds = { [] };
}

/// Draw a number.
pub(crate) struct Draw;

impl<T, E> Play<Option<T>, View<E>> for Draw {
    ghost use Rattle.turn_lock.specs.Turning.{drew};

    ghost then = { drew };
}

/// Look whether the number is served. In the proof the value leaves its slot here, with the look
/// that finds the turn.
pub(crate) struct Look<N> {
    tale: PhantomData<N>,
}

impl<T: Recorded, N: Tale<T::State, T::Entry>> Play<Option<T>, View<T::Entry>> for Look<N> {
    ghost use Rattle.turn_lock.specs.Turning.{looked};

    ghost then = { looked T.state T.after T.fits N.firsts N.by N.ticket };
}

/// Call the next number. In the proof the value comes home here, with the entry that it stands for.
pub(crate) struct Call<N> {
    tale: PhantomData<N>,
}

impl<T: Recorded, N: Tale<T::State, T::Entry>> Play<Option<T>, View<T::Entry>> for Call<N> {
    ghost use Rattle.turn_lock.specs.Turning.{called};

    ghost then = { called N.by N.adds };
}

/// Of what the seat has seen and what it was told, keep the longer.
pub(crate) struct Settle<N> {
    tale: PhantomData<N>,
}

impl<T: Recorded, N: Tale<T::State, T::Entry>> Play<Option<T>, View<T::Entry>> for Settle<N> {
    ghost use Rattle.turn_lock.specs.Turning.{settled};

    ghost then = { settled N.by };
}

/// A number that an act speaks of, chosen as a `Tale` is: how many of a seat's numbers go to a new
/// seat, or which seat is joined to another.
pub(crate) trait Chosen {
    ghost use Rattle.std.specs.Prelude.{ℕ};

    ghost number: { ℕ };
}

impl Chosen for Brand {
    ghost number = { 0 };
}

/// A seat is cut in two. The new one gets a part of the numbers that may be drawn.
pub(crate) struct Halve<N> {
    chosen: PhantomData<N>,
}

impl<E, N: Chosen> Split<View<E>> for Halve<N> {
    ghost use Rattle.turn_lock.specs.Turning.{kept_view, given_view};

    ghost left = { kept_view N.number };

    ghost right = { given_view N.number };
}

/// A seat learns what another had seen, and gets its share.
pub(crate) struct Tell<N> {
    chosen: PhantomData<N>,
}

impl<E, N: Chosen> Join<View<E>> for Tell<N> {
    ghost use Rattle.turn_lock.specs.Turning.{joined_view, spent_view};

    ghost both = { joined_view N.number };

    ghost spent = { spent_view };
}
