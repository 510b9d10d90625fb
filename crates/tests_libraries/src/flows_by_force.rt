//! Flows of small clusters, compared with distances by the Floyd-Warshall algorithm.

use crate::drawing::{draw, pick};
use crate::pieces::{
    TagRow, entities_of, expect_printed, expect_so, pools_of, read_entities, ticket_of_text,
};
use flow_core::{Found, chains_from};
use share_core::{Pool, Touch, share, share_in};
use share_text::{Detail, flow_entities, holders_of};
use std::alloc::Global;
use std::process::Abort;
use verdict_core::Ticket;
use verdict_text::Entity;

/// How many entities a cluster has, each of which goes by a digit.
const COUNT: usize = 7;

/// As far as where no chain leads.
const FAR: u8 = 99;

/// How far each place is from each.
type Distances = [[u8; COUNT]; COUNT];

/// The first grants of texts.
const WRITES: &[&str] = &[
    "allow w pool=a",
    "allow w pool=b",
    "allow w pool=c",
    "allow w pool=d",
    "allow x pool=a",
    "allow w pool=e namespace=n",
    "allow r pool=z",
];

/// What stands behind them. The last one leaves a text without grants.
const READS: &[&str] = &[
    ", allow r pool=a",
    ", allow r pool=b",
    ", allow r pool=c",
    ", allow r pool=d",
    ", allow class-read pool=b",
    ", allow r pool=e namespace=m",
    "",
    " pool=",
];

/// Some of the pools that the texts name.
const POOLS: &[(&str, &[TagRow]); 2] = &[("a", &[]), ("c", &[])];

/// Entities that go by the digits.
fn draw_entities<R: Abort>(rt: &R, alloc: Global, row: &mut u64) -> Vec<Entity> {
    let mut entities = Vec::new(alloc);
    for digit in ["0", "1", "2", "3", "4", "5", "6"] {
        let (writes, reads) = (pick(row, WRITES), pick(row, READS));
        let entity = Entity {
            name: String::from_str(alloc, digit).expect(rt, "memory"),
            osd: format!(in alloc; "{writes}{reads}").expect(rt, "memory"),
        };
        entities.push(entity).expect(rt, "memory");
    }
    entities
}

/// The tickets of the entities, and none where one has no grants.
fn tickets_of<R: Abort>(rt: &R, alloc: Global, entities: &[Entity]) -> Vec<Option<Ticket>> {
    let mut tickets = Vec::new(alloc);
    for entity in entities {
        let ticket = ticket_of_text(rt, alloc, entity.osd.as_str());
        tickets.push(ticket).expect(rt, "memory");
    }
    tickets
}

/// Whether the one writes what the other reads.
fn writes_to(one: &Option<Ticket>, other: &Option<Ticket>, pools: Option<&[Pool]>) -> bool {
    match (one, other, pools) {
        (Some(one), Some(other), None) => share(one, &Touch::AnyWrite, other, &Touch::AnyRead),
        (Some(one), Some(other), Some(pools)) => {
            share_in(one, &Touch::AnyWrite, other, &Touch::AnyRead, pools)
        }
        _ => false,
    }
}

/// One where there is a step.
fn direct(tickets: &[Option<Ticket>], pools: Option<&[Pool]>) -> Distances {
    let mut found = [[FAR; COUNT]; COUNT];
    for (row, one) in found.iter_mut().zip(tickets) {
        for (far, other) in row.iter_mut().zip(tickets) {
            if writes_to(one, other, pools) {
                *far = 1;
            }
        }
    }
    found
}

fn far_from(far: &Distances, from: usize, to: usize) -> u8 {
    match far.get(from).copied() {
        Some(row) => row.get(to).copied().unwrap_or(FAR),
        None => FAR,
    }
}

/// No further than through this place.
fn go_through(far: &mut Distances, middle: usize) {
    let behind = match far.get(middle).copied() {
        Some(row) => row,
        None => [FAR; COUNT],
    };
    for row in far.iter_mut() {
        let before = row.get(middle).copied().unwrap_or(FAR);
        for (far, more) in row.iter_mut().zip(behind.iter()) {
            *far = before.saturating_add(*more).min(*far);
        }
    }
}

fn all_through(mut far: Distances) -> Distances {
    for middle in 0..COUNT {
        go_through(&mut far, middle);
    }
    far
}

/// How many steps the places behind a start make, each of which is one, or far where one is not.
fn walked(steps: &Distances, start: usize, places: &[usize]) -> u8 {
    let mut count = 0u8;
    let mut before = start;
    for place in places {
        if far_from(steps, before, *place) != 1 {
            return FAR;
        }
        count = count.saturating_add(1);
        before = *place;
    }
    count
}

/// The writer, those between and the reader of a line.
fn places_of<R: Abort>(rt: &R, alloc: Global, line: &str) -> Vec<usize> {
    let mut places = Vec::new(alloc);
    for digit in line.bytes().filter(|byte| byte.is_ascii_digit()) {
        let place = (digit as usize).saturating_sub(48);
        places.push(place).expect(rt, "memory");
    }
    places
}

/// Whether a line tells of a shortest chain from the one to the other.
fn is_line_right<R: Abort>(
    rt: &R,
    alloc: Global,
    line: &str,
    steps: &Distances,
    ends: (usize, usize),
    far: u8,
) -> bool {
    let places = places_of(rt, alloc, line);
    match places.split_first() {
        None => false,
        Some((writer, rest)) => {
            *writer == ends.0
                && rest.last().copied() == Some(ends.1)
                && walked(steps, *writer, rest) == far
        }
    }
}

/// Whether each two of which the one is reached have a line, in order, and no others.
fn are_lines_right<R: Abort>(rt: &R, alloc: Global, text: &str, steps: &Distances) -> bool {
    let far = all_through(*steps);
    let mut lines = text.lines();
    for writer in 0..COUNT {
        for reader in 0..COUNT {
            let expected = far_from(&far, writer, reader);
            if reader != writer && expected < FAR {
                let line = lines.next().unwrap_or("");
                if !is_line_right(rt, alloc, line, steps, (writer, reader), expected) {
                    return false;
                }
            }
        }
    }
    lines.next().is_none()
}

/// Whether the flows of some entities are those that distances tell.
fn are_flows_right<R: Abort>(
    rt: &R,
    alloc: Global,
    entities: &[Entity],
    pools: Option<&[Pool]>,
) -> bool {
    let tickets = tickets_of(rt, alloc, entities);
    let steps = direct(&tickets, pools);
    let read = read_entities(rt, alloc, entities);
    let holders = holders_of(alloc, read.as_slice()).expect(rt, "memory");
    let holders = holders.as_slice();
    let printed = flow_entities(alloc, holders, pools, Detail::Whole, true).expect(rt, "memory");
    printed.fails != printed.text.is_empty()
        && are_lines_right(rt, alloc, printed.text.as_str(), &steps)
}

#[test]
fn flows_are_those_of_distances(rt: HostRuntime) {
    let alloc = rt.alloc();
    let pools = pools_of(&rt, alloc, POOLS);
    let mut row = 11u64;
    for _ in 0..24u32 {
        let entities = draw_entities(&rt, alloc, &mut row);
        let in_any = are_flows_right(&rt, alloc, &entities, None);
        let in_pools = are_flows_right(&rt, alloc, &entities, Some(&pools));
        expect_so(&rt, in_any && in_pools, "flows");
    }
}

/// The steps of random places, some of which do not exist.
fn draw_steps<R: Abort>(
    rt: &R,
    alloc: Global,
    row: &mut u64,
    found: &mut Distances,
) -> Vec<Vec<usize>> {
    let mut steps = Vec::new(alloc);
    for distances in found.iter_mut() {
        let mut places = Vec::new(alloc);
        for _ in 0..draw(row) % 4 {
            let place = draw(row) % 9;
            places.push(place).expect(rt, "memory");
            if let Some(far) = distances.get_mut(place) {
                *far = 1;
            }
        }
        steps.push(places).expect(rt, "memory");
    }
    steps
}

/// Whether it is a chain of steps to the end, as long as the distance.
fn is_chain_right(found: &Found, start: usize, steps: &Distances, far: u8) -> bool {
    let chain = found.chain.as_slice();
    found.chain.last().copied() == Some(found.end) && walked(steps, start, chain) == far
}

/// Whether the chains found are those to the places to which a chain leads, in order, each as long as the distance.
fn are_chains_right(chains: &[Found], start: usize, steps: &Distances) -> bool {
    let far = all_through(*steps);
    let mut rest = chains.iter();
    for place in 0..COUNT {
        let expected = far_from(&far, start, place);
        if expected < FAR {
            let is_right = match rest.next() {
                None => false,
                Some(found) => found.end == place && is_chain_right(found, start, steps, expected),
            };
            if !is_right {
                return false;
            }
        }
    }
    rest.next().is_none()
}

#[test]
fn chains_are_those_of_distances(rt: HostRuntime) {
    let mut row = 5u64;
    for _ in 0..40u32 {
        let mut found = [[FAR; COUNT]; COUNT];
        let steps = draw_steps(&rt, rt.alloc(), &mut row, &mut found);
        for start in 0..9usize {
            let chains = chains_from(rt.alloc(), &steps, start).expect(&rt, "memory");
            expect_so(&rt, are_chains_right(&chains, start, &found), "chains");
        }
    }
}

/// What comes from a database over a lake to reports, and to a dashboard, which writes back.
const CLUSTER: &[(&str, &str); 6] = &[
    ("client.database", "allow rw pool=database"),
    ("client.lake", "allow r pool=database, allow w pool=lake"),
    ("client.broken", "allow everything"),
    ("client.report", "allow r pool=lake, allow w pool=report"),
    ("client.reader", "allow r pool=report"),
    ("client.apart", "allow rw pool=apart"),
];

const FLOWS: &str = "\
client.database -> client.lake
client.database -> client.lake -> client.report
client.database -> client.lake -> client.report -> client.reader
client.lake -> client.report
client.lake -> client.report -> client.reader
client.report -> client.reader
";

const FIRST_STEPS: &str = "\
client.database -> client.lake
client.database -> client.lake .. client.report, 2 steps
client.database -> client.lake .. client.reader, 3 steps
client.lake -> client.report
client.lake -> client.report .. client.reader, 2 steps
client.report -> client.reader
";

#[test]
fn flows_print(rt: HostRuntime) {
    let entities = entities_of(&rt, rt.alloc(), CLUSTER);
    let read = read_entities(&rt, rt.alloc(), &entities);
    let holders = holders_of(rt.alloc(), read.as_slice()).expect(&rt, "memory");
    let holders = holders.as_slice();
    for (detail, lines) in [(Detail::Whole, FLOWS), (Detail::Brief, FIRST_STEPS)] {
        let printed = flow_entities(rt.alloc(), holders, None, detail, false).expect(&rt, "memory");
        expect_printed(&rt, &printed, lines, false);
    }
}
