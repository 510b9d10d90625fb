//! Random tickets and entities, of which those that name no common pool are not compared.

use crate::drawing::pick;
use crate::pieces::{expect_so, read_entities, ticket};
use share_core::PoolIndex;
use share_text::{Detail, Strictness, holders_of, share_entities, share_texts};
use std::alloc::Global;
use std::process::Abort;
use verdict_core::Ticket;
use verdict_text::{Entity, Format};

/// Grants of some pools, and now and then one without a pool.
const GRANTS: &[&str] = &[
    "allow r pool=a",
    "allow w pool=a namespace=x",
    "allow rw pool=b",
    "allow x pool=b",
    "allow w pool=c",
    "allow r pool=c object_prefix o",
    "allow rw pool=d",
    "allow r pool=e",
    "allow w pool=f namespace=y",
    "allow r pool=f",
    "allow rw pool=g",
    "allow r pool=h",
    "allow w pool=h object_prefix p",
    "allow rw tag app k=v",
];

/// A text of one to three grants.
fn draw_grants<R: Abort>(rt: &R, alloc: Global, row: &mut u64) -> String {
    let mut text = String::from_str(alloc, pick(row, GRANTS)).expect(rt, "memory");
    for _ in 0..2u32 {
        if pick(row, ["stop", "go"].as_slice()) == "go" {
            text.push_str(", ").expect(rt, "memory");
            text.push_str(pick(row, GRANTS)).expect(rt, "memory");
        }
    }
    text
}

fn draw_tickets<R: Abort>(rt: &R, alloc: Global, row: &mut u64, count: usize) -> Vec<Ticket> {
    let mut tickets = Vec::new(alloc);
    for _ in 0..count {
        let text = draw_grants(rt, alloc, row);
        let ticket = ticket(rt, alloc, text.as_str(), None);
        tickets.push(ticket).expect(rt, "memory");
    }
    tickets
}

/// Whether some grants of two tickets name one pool, or one of them names none.
fn have_pools_in_common(ones: &Ticket, others: &Ticket) -> bool {
    for mine in ones.grants() {
        for theirs in others.grants() {
            match (&mine.1.pool, &theirs.1.pool) {
                (Some(mine), Some(theirs)) => {
                    if mine.as_str() == theirs.as_str() {
                        return true;
                    }
                }
                _ => return true,
            }
        }
    }
    false
}

/// The places from one on of those that have pools in common with a ticket.
fn looked_for<R: Abort>(
    rt: &R,
    alloc: Global,
    tickets: &[Ticket],
    ones: &Ticket,
    from: usize,
) -> Vec<usize> {
    let mut places = Vec::new(alloc);
    for (place, others) in tickets.iter().enumerate() {
        if place >= from && have_pools_in_common(ones, others) {
            places.push(place).expect(rt, "memory");
        }
    }
    places
}

/// Whether those that are near each of some tickets are those that looking finds.
fn are_near_ones_found<R: Abort>(rt: &R, alloc: Global, tickets: &[Ticket]) -> bool {
    let mut index = PoolIndex::new(alloc);
    for ticket in tickets {
        index.add(ticket).expect(rt, "memory");
    }
    for (place, ticket) in tickets.iter().enumerate() {
        for from in [0, place, place + 1, tickets.len()] {
            let near = index.near(ticket, from).expect(rt, "memory");
            let expected = looked_for(rt, alloc, tickets, ticket, from);
            if near.as_slice() != expected.as_slice() {
                return false;
            }
        }
    }
    true
}

#[test]
fn an_index_finds_who_has_pools_in_common(rt: HostRuntime) {
    let mut row = 11u64;
    for count in 0..24usize {
        let tickets = draw_tickets(&rt, rt.alloc(), &mut row, count);
        let are_found = are_near_ones_found(&rt, rt.alloc(), tickets.as_slice());
        expect_so(&rt, are_found, "tickets");
    }
}

fn draw_entities<R: Abort>(rt: &R, alloc: Global, row: &mut u64, count: u32) -> Vec<Entity> {
    let mut entities = Vec::new(alloc);
    for number in 0..count {
        let entity = Entity {
            name: format!(in alloc; "client.{number}").expect(rt, "memory"),
            osd: draw_grants(rt, alloc, row),
        };
        entities.push(entity).expect(rt, "memory");
    }
    entities
}

/// What follows the first `blanks` blanks.
fn behind_blanks(text: &str, blanks: u32) -> &str {
    let mut rest = text;
    for _ in 0..blanks {
        rest = match rest.split_once(' ') {
            None => "",
            Some((_, behind)) => behind,
        };
    }
    rest
}

/// Adds the line of two entities by the first example of their texts, which is of the strongest kind.
fn push_line<R: Abort>(rt: &R, text: &mut String, one: &Entity, other: &Entity) {
    let alloc = *text.allocator();
    let (osd, other_osd) = (one.osd.as_str(), other.osd.as_str());
    let printed = share_texts(alloc, osd, other_osd, false).expect(rt, "memory");
    let line = printed.text.as_str().lines().next().unwrap_or("");
    let (one, other) = (one.name.as_str(), other.name.as_str());
    let target = behind_blanks(line, 4);
    let pushed = if line.starts_with("writes writes ") {
        write!(text, "{one} and {other} write {target}\n")
    } else if line.starts_with("writes reads ") {
        write!(text, "{one} writes what {other} reads {target}\n")
    } else if line.starts_with("reads writes ") {
        write!(text, "{other} writes what {one} reads {target}\n")
    } else if line.starts_with("reads reads ") {
        write!(text, "{one} and {other} read {target}\n")
    } else {
        Ok(())
    };
    pushed.expect(rt, "memory");
}

/// The lines of each two entities.
fn lines_of_all<R: Abort>(rt: &R, alloc: Global, entities: &[Entity]) -> String {
    let mut text = String::new(alloc);
    for (place, one) in entities.iter().enumerate() {
        for other in entities.iter().skip(place + 1) {
            push_line(rt, &mut text, one, other);
        }
    }
    text
}

/// Whether the report on some entities consists of the reports on each two of them, and is not empty.
fn is_each_pair_told<R: Abort>(rt: &R, alloc: Global, entities: &[Entity]) -> bool {
    let strictness = Strictness {
        reads: true,
        check: false,
        format: Format::Text,
    };
    let read = read_entities(rt, alloc, entities);
    let holders = holders_of(alloc, read.as_slice()).expect(rt, "memory");
    let holders = holders.as_slice();
    let told = share_entities(alloc, holders, strictness, None, Detail::Whole).expect(rt, "memory");
    let lines = lines_of_all(rt, alloc, entities);
    told.text.as_str() == lines.as_str() && !lines.is_empty()
}

#[test]
fn each_two_entities_of_a_file_are_told(rt: HostRuntime) {
    let mut row = 5u64;
    for count in [2u32, 3, 20, 60] {
        let entities = draw_entities(&rt, rt.alloc(), &mut row, count);
        let is_each_told = is_each_pair_told(&rt, rt.alloc(), entities.as_slice());
        expect_so(&rt, is_each_told, "entities");
    }
}
