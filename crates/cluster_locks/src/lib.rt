//! What is under a cluster's turn locks, the steps on it, and the other parts of a cluster.
//!
//! There is a lock for each group and one for the users. A step takes one turn on one of them. The lock's list of turns
//! gets one entry, the step's.
//!
//! The calls on rows are those of `cluster`: a row is a seat of each lock of a list, and each pass has one. What a pass
//! does with a session of its own, and what a cluster begins with, needs no lock. It is here so that its mutants are
//! tested in a small crate.
#![tactic(auto)]

mod beginning;
mod fault_text;
mod first;
mod groups;
mod moves;
mod opening;
mod rows;
mod sessions;
mod users;

pub use beginning::{PoolSpec, UserSpec, events_of};
pub use first::first_of;
pub use groups::{
    AnswerFault, AnswerOf, GroupEntry, GroupEvent, LockedGroup, Submission, Work, Worked,
};
pub use moves::{IsFull, Move};
pub use opening::{Row, open_groups, open_lock};
pub use rows::{close_all, join_all, split_all, split_seat, take_in, turn_at};
pub use sessions::{count_request, judge_by, next_piece};
pub use users::{Change, Open, OpenFault, Renew, UserCommand, UserEntry, UserTable};
