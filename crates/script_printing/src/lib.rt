//! What a script prints of a step: what an event tells, answers, users and places. The definitions are in `specs/`.
//!
//! The printed texts are this project's profile, after Ceph's command line.
#![tactic(auto)]

mod printing;

pub use printing::{
    push_answer, push_counted, push_located, push_ready, push_refused, push_settled, push_told,
    push_user, push_users,
};
