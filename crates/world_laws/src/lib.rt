//! The laws of worlds: what holds of every world, whatever happens to it.
#![tactic(auto)]

mod laws;

pub use laws::{
    a_kick_recovers, accepted_have_numbers, answers_are_decided, decided_is_one_list,
    every_place_has_its_group, groups_are_served, intervals_are_the_maps, listings_are_told,
    parts_are_legal_together, pieces_are_the_namespace, requests_are_submissions,
    runs_tell_the_audit, the_service_keeps_its_word, tickets_are_read, worlds_hold, worlds_serve,
};
