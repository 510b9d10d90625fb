//! Random pairs of texts, of which all targets over small alphabets tell whether they share something.

use crate::alphabets::{SETS, all_needs, all_targets, call_of};
use crate::drawing::draw_text;
use crate::pieces::{
    TagRow, entities_of, expect_printed, expect_so, expect_text, read_entities, tags_of_each,
    ticket,
};
use compare_core::Registry;
use share_core::{Shared, Touch, share, sharing};
use share_text::{Detail, Strictness, everybody_entities, holders_of, share_entities, share_texts};
use std::alloc::Global;
use std::process::Abort;
use verdict_core::{Needs, Target, Ticket, grants_allow};
use verdict_text::Format;

const TAGS: &[&str] = &[
    " tag p *=*",
    " tag p k=*",
    " tag p *=v",
    " tag p k=v",
    " tag p k=w",
    " tag q k=w",
];

/// The tags that pools have: of p none, or no pair, or one or two; of q none or one pair.
const POOLS: &[&[TagRow]; 12] = &[
    &[],
    &[("p", "", "")],
    &[("p", "k", "v")],
    &[("p", "k", "w")],
    &[("p", "z", "v")],
    &[("p", "k", "w"), ("p", "z", "v")],
    &[("q", "k", "w")],
    &[("q", "k", "w"), ("p", "", "")],
    &[("q", "k", "w"), ("p", "k", "v")],
    &[("q", "k", "w"), ("p", "k", "w")],
    &[("q", "k", "w"), ("p", "z", "v")],
    &[("q", "k", "w"), ("p", "k", "w"), ("p", "z", "v")],
];

/// The calls that are touches, by their numbers among the sets of calls.
const CALLS: &[usize; 3] = &[2, 11, 18];

/// The touches, each of which has a bit.
fn all_touches<R: Abort>(rt: &R, alloc: Global) -> Vec<Touch> {
    let mut touches = Vec::new(alloc);
    touches.push(Touch::Read).expect(rt, "memory");
    touches.push(Touch::Write).expect(rt, "memory");
    touches.push(Touch::AnyRead).expect(rt, "memory");
    touches.push(Touch::AnyWrite).expect(rt, "memory");
    for number in CALLS {
        if let Some([row]) = SETS.get(*number) {
            let touch = Touch::Call(call_of(rt, alloc, row));
            touches.push(touch).expect(rt, "memory");
        }
    }
    touches
}

/// The bits of the touches that a request is of. The sets of calls without reads and writes come first.
fn mark_of(place: usize, needs: &Needs) -> u8 {
    let alone = needs.calls.as_slice().is_empty();
    let calls = needs.calls.as_slice();
    let mut mark = 0u8;
    for (bit, holds) in [
        (1u8, needs.reads && !needs.writes && alone),
        (2, needs.writes && !needs.reads && alone),
        (4, needs.reads || calls.iter().any(|call| call.class_reads)),
        (
            8,
            needs.writes || calls.iter().any(|call| call.class_writes),
        ),
        (16, place == CALLS[0]),
        (32, place == CALLS[1]),
        (64, place == CALLS[2]),
    ] {
        if holds {
            mark |= bit;
        }
    }
    mark
}

/// The bits of the touches that a ticket allows at a target.
fn touches_at(ticket: &Ticket, target: &Target<'_>, needs: &[Needs]) -> u8 {
    let mut found = 0u8;
    for (place, needs) in needs.iter().enumerate() {
        if grants_allow(ticket.grants(), target, needs) {
            found |= mark_of(place, needs);
        }
    }
    found
}

/// Adds what two tickets share at a target: to each touch of the one those of the other.
fn add_shared(found: &mut [u8], ones: u8, others: u8) {
    let mut bit = 1u8;
    for row in found {
        if ones & bit != 0 {
            *row |= others;
        }
        bit = bit.wrapping_mul(2);
    }
}

/// What two tickets share over the alphabets.
fn all_shared(ones: &Ticket, others: &Ticket, targets: &[Target<'_>], needs: &[Needs]) -> [u8; 7] {
    let mut found = [0u8; 7];
    for target in targets {
        let mine = touches_at(ones, target, needs);
        if mine != 0 {
            let theirs = touches_at(others, target, needs);
            add_shared(found.as_mut_slice(), mine, theirs);
        }
    }
    found
}

/// Whether each example is of a target at which both may do so.
fn are_shared(
    examples: &[Shared],
    tickets: (&Ticket, &Ticket),
    bits: (u8, u8),
    needs: &[Needs],
) -> bool {
    for example in examples {
        let target = example.target.as_target();
        if touches_at(tickets.0, &target, needs) & bits.0 == 0
            || touches_at(tickets.1, &target, needs) & bits.1 == 0
        {
            return false;
        }
    }
    true
}

/// Whether the answers for two touches are those that looking finds.
fn is_right<R: Abort>(
    rt: &R,
    alloc: Global,
    tickets: (&Ticket, &Ticket),
    touches: (&Touch, &Touch),
    bits: (u8, u8),
    expected: bool,
    needs: &[Needs],
) -> bool {
    let examples = sharing(alloc, tickets.0, touches.0, tickets.1, touches.1).expect(rt, "memory");
    share(tickets.0, touches.0, tickets.1, touches.1) == expected
        && examples.is_empty() != expected
        && are_shared(examples.as_slice(), tickets, bits, needs)
}

/// Whether the answers for all touches are those that looking finds.
fn are_right<R: Abort>(
    rt: &R,
    alloc: Global,
    tickets: (&Ticket, &Ticket),
    touches: &[Touch],
    found: &[u8],
    needs: &[Needs],
) -> bool {
    let mut one_bit = 1u8;
    for (one, row) in touches.iter().zip(found) {
        let mut other_bit = 1u8;
        for other in touches {
            let bits = (one_bit, other_bit);
            let expected = *row & other_bit != 0;
            if !is_right(rt, alloc, tickets, (one, other), bits, expected, needs) {
                return false;
            }
            other_bit = other_bit.wrapping_mul(2);
        }
        one_bit = one_bit.wrapping_mul(2);
    }
    true
}

/// Whether two texts are reported to share what the search finds.
fn is_told<R: Abort>(
    rt: &R,
    alloc: Global,
    texts: (&str, &str),
    touches: &[Touch],
    targets: &[Target<'_>],
    needs: &[Needs],
) -> bool {
    let ones = ticket(rt, alloc, texts.0, None);
    let others = ticket(rt, alloc, texts.1, None);
    let found = all_shared(&ones, &others, targets, needs);
    are_right(
        rt,
        alloc,
        (&ones, &others),
        touches,
        found.as_slice(),
        needs,
    )
}

fn expect_told<R: Abort>(
    rt: &R,
    alloc: Global,
    touches: &[Touch],
    targets: &[Target<'_>],
    needs: &[Needs],
) {
    let mut row = 7u64;
    for _ in 0..12u32 {
        let first = draw_text(rt, alloc, &mut row, TAGS);
        let second = draw_text(rt, alloc, &mut row, TAGS);
        let texts = (first.as_str(), second.as_str());
        let is_told = is_told(rt, alloc, texts, touches, targets, needs);
        expect_so(rt, is_told, second.as_str());
    }
}

#[test]
fn sharing_finds_what_looking_finds(rt: HostRuntime) {
    let alloc = rt.alloc();
    let tags = tags_of_each(&rt, alloc, POOLS);
    let targets = all_targets(&rt, alloc, &tags);
    let needs = all_needs(&rt, alloc, Registry::Every);
    let touches = all_touches(&rt, alloc);
    expect_told(&rt, alloc, &touches, &targets, &needs);
}

/// Two texts, and what is printed of them.
const PRINTED: &[(&str, &str, &str); 6] = &[
    ("allow rw pool=a", "allow rw pool=b", "apart\n"),
    (
        "allow rw namespace=web",
        "allow r namespace=we*",
        "writes reads 1 1 --pool '<any>' --namespace web --object a\nreads reads 1 1 --pool '<any>' --namespace web --object a\n",
    ),
    ("allow w tag app k=v", "allow w tag app k=u", "apart\n"),
    (
        "allow w tag app k=v",
        "allow w tag app j=u",
        "writes writes 1 1 --pool '<any>' --object a --tag app:k=v --tag app:j=u\n",
    ),
    (
        "allow x object_prefix log",
        "allow class-read",
        "writes reads 1 1 --pool '<any>' --object log\nreads reads 1 1 --pool '<any>' --object log\n",
    ),
    ("allow r", "deny r", "refused second C3 UnknownWord at 0\n"),
];

#[test]
fn shared_texts_print(rt: HostRuntime) {
    for (first, second, want) in PRINTED {
        let printed = share_texts(rt.alloc(), first, second, false).expect(&rt, "memory");
        expect_text(&rt, printed.text.as_str(), want, first);
    }
}

/// Two entities, of which one writes what the other reads.
const TWO: &[(&str, &str); 2] = &[
    ("client.backup", "allow r"),
    ("client.web", "allow w pool=web"),
];

#[test]
fn shared_entities_print(rt: HostRuntime) {
    let two = entities_of(&rt, rt.alloc(), TWO);
    let strictness = Strictness {
        reads: true,
        check: true,
        format: Format::Text,
    };
    let read = read_entities(&rt, rt.alloc(), &two);
    let holders = holders_of(rt.alloc(), read.as_slice()).expect(&rt, "memory");
    let holders = holders.as_slice();
    let whole = Detail::Whole;
    let printed = share_entities(rt.alloc(), holders, strictness, None, whole).expect(
        &rt, "memory",
    );
    let line = "client.web writes what client.backup reads --pool web --object a\n";
    expect_printed(&rt, &printed, line, true);
}

/// Four that read and write every object, of whom one does so by two grants, and three that do not.
const EVERYBODY: &[(&str, &str); 7] = &[
    ("client.admin", "allow *"),
    ("client.web", "allow rw pool=web"),
    ("client.both", "allow r, allow w"),
    ("client.part", "allow rw namespace=a"),
    ("osd.0", "allow *"),
    ("client.reader", "allow r pool=web"),
    ("osd.1", "profile read-write"),
];

const EVERYBODY_LINE: &str =
    "client.admin, client.both, osd.0 and 1 more read and write every object of every pool, their pairs are left out\n";

const OTHERS: &str = "\
client.web and client.part write --pool web --namespace a --object a
client.web writes what client.reader reads --pool web --object a
client.part writes what client.reader reads --pool web --namespace a --object a
";

#[test]
fn everybody_prints(rt: HostRuntime) {
    let entities = entities_of(&rt, rt.alloc(), EVERYBODY);
    let strictness = Strictness {
        reads: false,
        check: true,
        format: Format::Text,
    };
    let read = read_entities(&rt, rt.alloc(), &entities);
    let holders = holders_of(rt.alloc(), read.as_slice()).expect(&rt, "memory");
    let holders = holders.as_slice();
    let line = everybody_entities(rt.alloc(), holders, Format::Text).expect(&rt, "memory");
    expect_text(&rt, line.as_str(), EVERYBODY_LINE, "everybody");
    let brief = Detail::Brief;
    let printed = share_entities(rt.alloc(), holders, strictness, None, brief).expect(
        &rt, "memory",
    );
    expect_printed(&rt, &printed, OTHERS, true);
}
