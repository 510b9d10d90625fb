//! What can be seen of groups, as one number that takes no memory.

ghost use Rattle.std.specs.Prelude.{◌<◌};
ghost use Rattle.cluster.specs.Passes.{AreSeatsOf, group_count};

use cluster::{Cluster, LockedGroup, Seats};
use entry_core::{Id, reply_number};
use group_core::Group;
use group_messages::Party;
use peer_core::{Body, Sent};
use std::sync::Wait;
use turn_lock::Step;

/// Where each look begins.
pub(crate) const NOTHING: u64 = 14695981039346656037;

/// A look with one value more.
pub(crate) fn mix(look: u64, value: u64) -> u64 {
    (look ^ value).wrapping_mul(1099511628211)
}

fn with_id(look: u64, id: Id) -> u64 {
    mix(mix(look, u64::from(id.session())), u64::from(id.number()))
}

fn number_of(party: Party) -> u64 {
    match party {
        Party::Client => 255,
        Party::Osd(number) => u64::from(number),
    }
}

// What a body says, without the logs and the outputs in it.
fn with_body(look: u64, body: &Body) -> u64 {
    match body {
        Body::Interval(sets) => mix(mix(look, 1), sets.len() as u64),
        Body::Query { interval, .. } => mix(mix(look, 2), *interval),
        Body::Info { interval, .. } => mix(mix(look, 3), *interval),
        Body::Install { interval, .. } => mix(mix(look, 4), *interval),
        Body::Installed { interval } => mix(mix(look, 5), *interval),
        Body::Append { request, .. } => with_id(mix(look, 6), request.id()),
        Body::Appended { index, .. } => mix(mix(look, 7), *index as u64),
        Body::Request(request) => with_id(mix(look, 8), request.id()),
        Body::Reply { id, .. } => with_id(mix(look, 9), *id),
        Body::NotHere(id) => with_id(mix(look, 10), *id),
    }
}

/// With each message of a wire, in order.
pub(crate) fn with_wire(look: u64, wire: &[Sent]) -> u64 {
    let mut all = look;
    for sent in wire {
        let ends = mix(mix(all, number_of(sent.from)), number_of(sent.to));
        all = with_body(ends, &sent.body);
    }
    all
}

// The wire, what was decided, what was submitted and what is answered.
fn look_at(group: &Group) -> u64 {
    let mut all = with_wire(NOTHING, group.wire());
    for entry in group.decided() {
        let decided = with_id(mix(all, 1), entry.sealed.id());
        all = mix(decided, u64::from(reply_number(&entry.reply)));
    }
    for request in group.requests() {
        all = with_id(mix(all, 2), request.id());
        if let Some(answer) = group.answer(request.id()) {
            all = mix(all, u64::from(reply_number(answer)));
        }
    }
    all
}

/// Looks at a group.
#[derive(Drop)]
struct Looking;

impl Step for Looking {
    ghost use Rattle.tests_memory_clusters.specs.Looks.{look_entry, LookTells};

    type Value = LockedGroup;

    type Answer = u64;

    ghost entry = { look_entry };

    ghost tells = { LookTells };

    fn run(&mut self, placed: &mut LockedGroup) -> u64 {
        look_at(&placed.group)
    }
}

/// A look at group 0, by seats that take no other turns.
pub(crate) fn look<R: Wait>(rt: &R, cluster: &Cluster, seats: &mut Seats) -> u64
    requires seats { AreSeatsOf cluster.now seats.old }
    requires group { 0 < group_count cluster.now }
    ensures { AreSeatsOf cluster.now seats.new }
{
    cluster.turn(rt, seats, 0, Looking)
}
