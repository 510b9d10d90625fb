//! A group moves while a tag and a user go, as a list of events. `sessions/answers` shows them one after another.

use super::lines::{event_of, expect_on};
use crate::expecting::{expect_row, expect_so};
use grant_core::ProfileTable;
use script_printing::push_refused;
use std::alloc::Global;
use std::process::Abort;
use world_core::{Event, World, WorldFault, run};

// The events, each message to daemon 0 lost, which is down.
const EVENTS: &str = "\
osd pool create data 1 3 2
auth add client.a osd 'allow rwx tag app k=v'
osd pool application enable data app
osd pool application set data app k v
open client.a
at 4 0 do 1 data '' x call counter add 1
osd down 0
osd pool application rm data app k
auth del client.a
lose data 0 0
deliver data 0 0
deliver data 0 0
lose data 0 0
deliver data 0 0
deliver data 0 0
deliver data 0 0
lose data 0 0
deliver data 0 0
deliver data 0 0
deliver data 0 0
deliver data 0 0
deliver data 0 0
deliver data 0 0
deliver data 0 0
at 6 0 do 1 data '' x call counter add 1
deliver data 0 0
deliver data 0 0
deliver data 0 0
deliver data 0 0
";

// What must be seen of a world after all of them.
const SEEN: &str = "\
epoch -> 6
wire data 0 -> 0
audit -> decided 1.1 1.2
decided 1.1 -> 1.1 ok / - \"1\"
decided 1.2 -> 1.2 denied / - 1 tag
";

// What stands in these lines behind this number.
fn changed<'a>(changes: &'a str, place: usize) -> Option<&'a str> {
    for change in changes.lines() {
        if let Some((word, line)) = change.split_once(' ')
            && word.parse::<usize>() == Ok(place)
        {
            return Some(line);
        }
    }
    None
}

// The events of a text, some of which are changed: a change is an event behind its place, counted from 0.
fn events_of<R: Abort>(rt: &R, alloc: Global, text: &str, changes: &str) -> Vec<Event> {
    let mut events = Vec::new(alloc);
    for (place, line) in text.lines().enumerate() {
        let line = changed(changes, place).unwrap_or(line);
        events
            .push(event_of(rt, alloc, line, 0))
            .expect(rt, "memory");
    }
    events
}

// The world of three daemons that events make, or the place and the fault of the first refusal.
fn made<R: Abort>(rt: &R, alloc: Global, events: &[Event]) -> Result<World, (usize, WorldFault)> {
    run(
        alloc,
        ProfileTable::builtin(alloc).expect(rt, "profiles"),
        3,
        events,
    )
}

#[test]
fn a_list_of_events(rt: HostRuntime) {
    let events = events_of(&rt, rt.alloc(), EVENTS, "");
    expect_row(&rt, events.len() == 29, "events", events.len());
    match made(&rt, rt.alloc(), events.as_slice()) {
        Ok(mut world) => expect_on(&rt, rt.alloc(), &mut world, SEEN),
        Err(_) => panic!(&rt; "an event is refused"),
    }
}

// Changes of the list, and the place of its first refusal and what is printed of it.
const CHANGES: [(&str, usize, &str); 3] = [
    ("9 deliver data 0 0", 9, "refused P2 Unreachable\n"),
    ("9 deliver data 0 0\n8 renew 2", 8, "refused W1 NoSession\n"),
    (
        "8 renew 2\n0 osd pool create data 65 3 2",
        0,
        "refused M7 Limit\n",
    ),
];

// Whether the list is refused at this place, and so, where some of its events are changed.
fn stops<R: Abort>(rt: &R, alloc: Global, changes: &str, place: usize, wanted: &str) -> bool {
    let events = events_of(rt, alloc, EVENTS, changes);
    match made(rt, alloc, events.as_slice()) {
        Ok(_) => false,
        Err((stop, fault)) => {
            let mut text = String::new(alloc);
            push_refused(&mut text, fault).expect(rt, "memory");
            stop == place && text.as_str() == wanted
        }
    }
}

#[test]
fn a_list_stops_at_the_first_refusal(rt: HostRuntime) {
    for (changes, place, wanted) in CHANGES {
        let stops = stops(&rt, rt.alloc(), changes, place, wanted);
        expect_so(&rt, stops, changes);
    }
    let is_made = made(&rt, rt.alloc(), &[]).is_ok();
    expect_so(&rt, is_made, "no events");
}
