//! The protocol's first version, kept as its specification: groups whose peering sends whole logs, and their laws.
//!
//! The rules are definitions; no code follows them. Groups send suffixes of logs, and decide what these rules decide: `group_model`
//! proves it, and carries the laws over.
//!
//! # What contracts see
//!
//! Copies and groups stand here as plain records of definitions, and messages carry whole logs. `copy_step` and `group_step` are
//! short and can be read alone.
//!
//! # Design
//!
//! These are the rules by which groups first went, and on them each law of groups was proved, by induction over copies and
//! messages. No code follows them any more. this crate says that groups that send suffixes decide what these decide, so each law
//! goes over to those in a few lines, and whoever wants to know what a group decides may read these shorter rules.
#![tactic(auto)]

mod laws;

pub use laws::{
    a_kick_recovers, answers_are_decided, appends_go_to_others, calls_only_add,
    calm_groups_stay_calm, decided_entries_stay, groups_stay_the_same, limits_hold,
    one_entry_is_open, one_interval_serves_all, requests_are_decided_in_order,
    requests_were_submitted, settling_ends, small_sets_answer_nothing, worked_cases,
};
