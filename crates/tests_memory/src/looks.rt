//! What can be seen of messages and replies, as one number that takes no memory.

use entry_core::{Id, Reply, reply_number};
use group_messages::Party;
use peer_core::{Body, Sent};

/// Where each look begins.
pub(crate) const NOTHING: u64 = 14695981039346656037;

/// A look with one value more.
pub(crate) fn mix(look: u64, value: u64) -> u64 {
    (look ^ value).wrapping_mul(1099511628211)
}

/// With a text.
pub(crate) fn with_bytes(look: u64, bytes: &[u8]) -> u64 {
    let mut all = mix(look, 256);
    for byte in bytes {
        all = mix(all, u64::from(*byte));
    }
    all
}

pub(crate) fn with_id(look: u64, id: Id) -> u64 {
    mix(mix(look, u64::from(id.session())), u64::from(id.number()))
}

/// With what a reply is, and the outputs that it has.
pub(crate) fn with_reply(look: u64, reply: &Reply) -> u64 {
    let mut all = mix(look, u64::from(reply_number(reply)));
    if let Reply::Done(outputs) = reply {
        for output in outputs.as_slice() {
            all = with_bytes(all, output.as_slice());
        }
    }
    all
}

fn number_of(party: Party) -> u64 {
    match party {
        Party::Client => 255,
        Party::Osd(number) => u64::from(number),
    }
}

// What a body says, without the logs in it.
fn with_body(look: u64, body: &Body) -> u64 {
    match body {
        Body::Interval(sets) => mix(mix(look, 1), sets.len() as u64),
        Body::Query { interval, .. } => mix(mix(look, 2), *interval),
        Body::Info { interval, .. } => mix(mix(look, 3), *interval),
        Body::Install { interval, .. } => mix(mix(look, 4), *interval),
        Body::Installed { interval } => mix(mix(look, 5), *interval),
        Body::Append { request, .. } => with_id(mix(look, 6), request.id()),
        Body::Appended { index, .. } => mix(mix(look, 7), *index as u64),
        Body::Request(request) => with_id(mix(look, 8), request.id()),
        Body::Reply { id, reply } => with_reply(with_id(mix(look, 9), *id), reply),
        Body::NotHere(id) => with_id(mix(look, 10), *id),
    }
}

/// With each message of a wire, in order.
pub(crate) fn with_wire(look: u64, wire: &[Sent]) -> u64 {
    let mut all = look;
    for sent in wire {
        let ends = mix(mix(all, number_of(sent.from)), number_of(sent.to));
        all = with_body(ends, &sent.body);
    }
    all
}
