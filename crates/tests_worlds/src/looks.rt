//! What is done to a world, and what is seen of it, as printed.

use super::lines::{group_of, read};
use common_types::TryClone;
use entry_core::{GroupId, Id};
use group_messages::GroupFault;
use script_printing::{push_answer, push_counted, push_ready, push_refused, push_told};
use std::alloc::Global;
use std::process::Abort;
use world_core::{Event, World, WorldFault};
use world_script::Command;

/// Each group here settles with fewer deliveries.
const MAX_DELIVERIES: u64 = 10_000;

// Carries out an event, and prints what it tells or why it is refused.
pub(super) fn happen<R: Abort>(rt: &R, world: &mut World, event: Event, text: &mut String) {
    match world.apply(event) {
        Ok(told) => push_told(text, told).expect(rt, "memory"),
        Err(fault) => push_refused(text, fault).expect(rt, "memory"),
    }
}

// Delivers message 0 of a group until none is left, and prints how many were delivered.
pub(super) fn settle<R: Abort>(rt: &R, world: &mut World, group: &GroupId, text: &mut String) {
    for delivered in 0..MAX_DELIVERIES {
        let event = Event::Deliver {
            group: group.copy().expect(rt, "memory"),
            place: 0,
        };
        match world.apply(event) {
            Ok(_) => {}
            Err(WorldFault::Group(GroupFault::NoMessage(0))) => {
                return push_counted(text, "settled ", delivered).expect(rt, "memory");
            }
            Err(fault) => return push_refused(text, fault).expect(rt, "memory"),
        }
    }
}

// How many messages of a group are on their way.
fn wire<R: Abort>(rt: &R, world: &World, group: &GroupId, text: &mut String) {
    match world.wire(group) {
        Ok(sent) => push_counted(text, "", sent.len() as u64).expect(rt, "memory"),
        Err(fault) => push_refused(text, fault).expect(rt, "memory"),
    }
}

// Whether a group can be recovered by hand.
fn ready<R: Abort>(rt: &R, world: &World, group: &GroupId, text: &mut String) {
    match world.ready(group) {
        Ok(ready) => push_ready(text, ready).expect(rt, "memory"),
        Err(fault) => push_refused(text, fault).expect(rt, "memory"),
    }
}

// The ids of the audit, in order.
fn audit<R: Abort>(rt: &R, world: &World, text: &mut String) {
    text.push_str("decided").expect(rt, "memory");
    for entry in world.audit().expect(rt, "memory").iter() {
        let id = entry.sealed.id();
        write!(text, " {}.{}", id.session(), id.number()).expect(rt, "memory");
    }
}

// What the audit says of a request, by each of its entries.
fn decided<R: Abort>(rt: &R, alloc: Global, world: &World, word: &str, text: &mut String) {
    let wanted = id_of(rt, alloc, word);
    for entry in world.audit().expect(rt, "memory").iter() {
        let id = entry.sealed.id();
        if id.session() == wanted.session() && id.number() == wanted.number() {
            push_answer(text, id, Some(&entry.reply)).expect(rt, "memory");
        }
    }
}

// The id that a word is.
fn id_of<R: Abort>(rt: &R, alloc: Global, word: &str) -> Id {
    let line = format!(in alloc; "answer {word}").expect(rt, "memory");
    match read(rt, alloc, line.as_str()) {
        Command::Answer(id) => id,
        _ => panic!(rt; "no id: {word}"),
    }
}

// What the client is answered.
fn answer<R: Abort>(rt: &R, world: &World, id: Id, text: &mut String) {
    match world.answer(id) {
        Ok(reply) => push_answer(text, id, reply).expect(rt, "memory"),
        Err(fault) => push_refused(text, fault).expect(rt, "memory"),
    }
}

// What a list came to.
fn listing<R: Abort>(rt: &R, world: &World, first: Id, text: &mut String) {
    match world.listing(first) {
        Ok(reply) => push_answer(text, first, reply.as_ref()).expect(rt, "memory"),
        Err(fault) => push_refused(text, fault).expect(rt, "memory"),
    }
}

// Prints what a question of a script sees.
fn ask<R: Abort>(rt: &R, world: &World, question: Command, text: &mut String) {
    match question {
        Command::Answer(id) => answer(rt, world, id, text),
        Command::Listing(first) => listing(rt, world, first, text),
        Command::Ready(group) => ready(rt, world, &group, text),
        _ => panic!(rt; "no question"),
    }
}

// Prints what a line sees of a world: whether it is a line that looks at it.
pub(super) fn see<R: Abort>(
    rt: &R,
    alloc: Global,
    world: &World,
    line: &str,
    text: &mut String,
) -> bool {
    let (word, rest) = line.split_once(' ').unwrap_or((line, ""));
    match word {
        "wire" => wire(rt, world, &group_of(rt, alloc, rest), text),
        "audit" => audit(rt, world, text),
        "decided" => decided(rt, alloc, world, rest, text),
        "epoch" => push_counted(text, "", u64::from(world.map().epoch())).expect(rt, "memory"),
        "answer" | "listing" | "ready" => ask(rt, world, read(rt, alloc, line), text),
        _ => return false,
    }
    true
}
