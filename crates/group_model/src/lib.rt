//! Groups whose peering sends suffixes of logs, as definitions, and their laws.
//!
//! `refinement` has the laws that they decide what groups of `group_model_whole` decide; `laws` has what holds of every group, whatever
//! happens to it, each carried over from there.
//!
//! # What contracts see
//!
//! Groups are plain records here, made of the copies and messages of `peer_core`. `group_step` defines each event: as
//! `group_model_whole` does, except for what peering sends. The laws of this crate are functions that do nothing. They
//! have the names and the words of those of `group_model_whole`. They use each definition of `group_model_whole` that
//! is over sets, requests, answers and entries alone.
//!
//! # Design
//!
//! No code stands here: the copies of `peer_core` follow these rules, and the groups of `group_core`. What the contracts of their
//! calls speak of (groups that can be, refusals, budgets, what holds of all) stands here too, so that laws can be said of it
//! without the code. this crate has four laws, functions that do nothing. The first compares two folds over the same events, that
//! of this crate and that of `group_model_whole` (`StandsFor`). Between them stands a relation that each event keeps
//! (`proofs/Agreeing.antt`): a part that is on its way, put behind what its receiver had when it promised the interval, is the
//! log that would have been sent whole. It says so by the history that the proofs of `group_model_whole` speak of, which tells
//! what each daemon held of each interval. So nothing has to be said of the receiver's log as it is later, and a late Info needs
//! no care: once its interval has chosen, nothing is claimed of it. That parts fit rests on two facts of the history. All but the
//! last entry of a log was decided, so it begins every log that is chosen later; and one number is one request, so equal numbers
//! behind equal entries are equal entries.
//!
//! No law of this crate is proved by a second induction over copies and messages. A group that events make stands for the group
//! by whole logs that the same events make (`Twin`), so what `group_model_whole` says of that one is said of both: lists are
//! equal, and counts of deliveries, budgets and refusals are alike. What holds of any record of a group, made by events or not,
//! has no such twin: that events only add, what a refusal leaves, losses, and the test of readiness. These are proved of the
//! rules themselves (`proofs/Shown.antt`, `Refusals.antt` and `Losses.antt`), the last by a group by whole logs whose copies have
//! the same numbers and bases.
#![tactic(auto)]

mod laws;
mod refinement;

pub use laws::{
    a_kick_recovers, answers_are_decided, appends_go_to_others, calls_only_add,
    calm_groups_stay_calm, groups_stay_the_same, limits_hold, one_entry_is_open,
    one_interval_serves_all, requests_are_decided_in_order, requests_were_submitted, settling_ends,
    small_sets_answer_nothing, worked_cases,
};
pub use refinement::{
    fit_answers_true, promises_are_kept, suffix_cases, suffixes_refine_whole_logs,
};
