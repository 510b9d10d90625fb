//! A lock whose turns are taken by number, and whose value stands for the list of all turns.
//!
//! # What it is
//!
//! A [`TurnLock`] keeps one value, which threads change in turns. It is the ticket lock of
//! Mellor-Crummey and Scott: who wants a turn draws the next number, waits until it is served, has
//! the value to itself, and calls the next number. What a plain lock cannot say, this one can: what
//! happened between a thread's turns. For behind the value stands a list, with one entry for each
//! turn, in the order of the turns. No value of the list is ever made. It is what contracts speak
//! of, and the value at home is always the state that the entries of the list lead to.
//!
//! # A value, a step, a seat
//!
//! - A value that may lie under the lock implements [`Recorded`]: which *state* clauses see of it,
//!   which *entries* the list has, which state comes *after* one more entry, and which entries a
//!   state can have.
//! - A [`Step`] is what one turn does: it changes the value and answers. Its contract says which
//!   entry the run stands for, and what the answer tells of the state that the run found. A step
//!   that is refused stands for an idle entry, one which leaves the state as it was: a turn was
//!   taken and nothing happened. A step that gives something away holds it in an `Option`, and
//!   takes it out in `run`.
//! - A [`Seat`] is the right to take turns. It has a number, by which the list tells whose entry is
//!   whose. Clauses see a seat as the beginning of the list that it has *seen* and the entries that
//!   are *its own*. `split` and `split_off` make a second seat that has seen as much and made nothing, `join`
//!   lets one seat see all that two had seen. Neither takes memory or waits.
//!
//! # What is promised
//!
//! `turn` runs its step once. The step finds a value that stands for a list which has all that the
//! seat had seen as a prefix. It adds one entry, its own, and the seat has then seen the list up to
//! it. Of the seat's own entries the list has just those that it made, each once. `new`, `split`
//! and `join` keep this: a seat has never seen an entry of its own number that it did not make. A
//! seat of one lock fits no other: each call asks for a seat of its lock.
//!
//! `close` takes the lock, so no turn goes on any more, and returns the value. It stands for a
//! list that begins with what the seat had seen. Who wants this of every seat joins them into one
//! first. The numbers that turns draw are shared among the seats: a seat whose share is all of them
//! was joined with every seat that could take a turn, and then the list has no entry but theirs.
//!
//! # What is not promised
//!
//! That a turn comes, fairness, freedom from deadlock, time. `turn` and `close` wait, and what they
//! promise holds if they return. A step that takes a turn of the same lock, or two threads that
//! each take one lock inside a step of the other's, wait for ever. A step that never returns leaves
//! the lock taken.
//!
//! Numbers are `u64`s, and the last one is never drawn. Each seat may draw a limited share of them,
//! and one with none left waits for ever. The seats of `new` share all numbers evenly. `split`
//! gives a new seat 2^32 of those of the other, or half where that is less. `split_off` gives it
//! as many as requested. A seat that is joined gives all that it has to the other.
//!
//! # The atomic steps
//!
//! The lock has two words, `serving` and `next`, and one slot, which holds the value. Threads meet
//! in these eight kinds of atomic step alone, each sequentially consistent. Between any two of them
//! one rule holds (`specs/Turning.antt`): where nobody has the turn, the value in the slot stands
//! for the whole list, each number was drawn by one seat, each seat has seen a beginning of the
//! list which has just its own entries under its number, and the shares of all seats are the lock's
//! numbers.
//!
//! | Step | Word or slot | What it tells the seat |
//! |---|---|---|
//! | make the first seat, in `new` | none, since nobody shares the lock yet | the list is empty |
//! | split | load of `serving` | the new seat has seen what the old one had, and made nothing; it has a part of the share |
//! | join | load of `serving` | the seat was told what the other had seen and has its share too; the other is spent |
//! | draw a number | `fetch_add` on `next` | its number |
//! | look | load of `serving` | whether its number is served: if so it has seen the whole list. After a split or a join, which of what it has seen and was told is longer |
//! | take | exchange on the slot | nothing: the value is the one that the look found |
//! | give back | exchange on the slot | nothing |
//! | call the next number | `fetch_add` on `serving` | its entry is the last of the list, which it has seen up to there; it has no number any more |
//!
//! An entry gets its place in the list by the one `fetch_add` that calls the next number. Between
//! giving back and calling, the value in the slot already stands for the list and the entry of the
//! seat whose turn it is.
//!
//! # What contracts see
//!
//! A lock is which one it is and the state that it began with. A seat is its lock, its number, the list of turns that it has
//! seen, its own entries, its share of the lock's numbers, and the seats that were joined to it with their entries.
//!
//! # Costs
//!
//! No list exists at run time, and no share: a seat is a `u64`, how many numbers it may still draw. A turn is two `fetch_add`s,
//! one that draws its number and one that calls the next, and a look at the number that is served, again until it is its own.
#![tactic(auto)]

mod lock;
mod locked_value;
mod rule;
mod turnstile;

pub use lock::{Seat, TurnLock};
pub use locked_value::{Recorded, Step};
pub use rule::{Made, Stage, View};
pub use std::alloc::AllocError as OutOfMemory;
