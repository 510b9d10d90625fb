//! What tickets answer, by each call: with an index, and without one. `sessions/verdicts` shows verdicts on many requests.

use crate::pieces::{expect_so, expect_text, ticket};
use common_types::Tags;
use std::alloc::Global;
use std::process::Abort;
use verdict_core::{Calls, IndexedTicket, Needs, SharedTicket, Target, Ticket, judge, report};

/// The object x of the pool data.
fn target(tags: &Tags) -> Target<'_> {
    Target {
        pool: b"data",
        tags,
        namespace: b"",
        object: b"x",
    }
}

/// To read and to write.
fn needs(alloc: Global) -> Needs {
    Needs {
        reads: true,
        writes: true,
        calls: Calls::from_vec(Vec::new(alloc)),
    }
}

/// What a ticket answers: nothing where it allows the request, else the report's text behind a word.
fn plain_answer<R: Abort>(rt: &R, alloc: Global, ticket: &Ticket, tick: u64) -> String {
    let tags = Tags::from_vec(Vec::new(alloc));
    let asked = target(&tags);
    let needs = needs(alloc);
    if judge(ticket, &asked, &needs, tick) {
        return String::new(alloc);
    }
    let lines = report(alloc, ticket, &asked, &needs, tick).expect(rt, "memory");
    format!(in alloc; "deny\n{lines}").expect(rt, "memory")
}

/// What a ticket with an index answers: nothing where it allows the request, else the report's text behind a word.
fn indexed_answer<R: Abort>(rt: &R, alloc: Global, ticket: &IndexedTicket, tick: u64) -> String {
    let tags = Tags::from_vec(Vec::new(alloc));
    let asked = target(&tags);
    let needs = needs(alloc);
    if ticket.judge(&asked, &needs, tick) {
        return String::new(alloc);
    }
    let lines = ticket
        .report(alloc, &asked, &needs, tick)
        .expect(rt, "memory");
    format!(in alloc; "deny\n{lines}").expect(rt, "memory")
}

/// A text, when its ticket ends, when it is asked, and what it answers.
type Row = (&'static str, Option<u64>, u64, &'static str);

const ROWS: &[Row; 4] = &[
    ("allow r, allow w", None, 0, "deny\n1 write\n2 read\n"),
    ("allow r, allow rw", None, u64::MAX, ""),
    ("allow rw pool=data", Some(10), 9, ""),
    ("allow rw pool=data", Some(10), 10, "deny\n1 expired\n"),
];

#[test]
fn tickets_judge_and_report(rt: HostRuntime) {
    let alloc = rt.alloc();
    for (text, until, tick, want) in ROWS {
        let plain = ticket(&rt, alloc, text, *until);
        let answer = plain_answer(&rt, alloc, &plain, *tick);
        expect_text(&rt, answer.as_str(), want, text);
        let shared = SharedTicket::of(plain).expect(&rt, "memory");
        let answer = indexed_answer(&rt, alloc, shared.as_ticket(), *tick);
        expect_text(&rt, answer.as_str(), want, text);
    }
}

/// Whether the paths of its grants are 1, 2.1.1 and 2.2, and it ends at 7.
fn is_as_expanded(ticket: &Ticket) -> bool {
    match ticket.grants() {
        [first, second, third] => {
            first.0.as_slice() == [1].as_slice()
                && second.0.as_slice() == [2, 1, 1].as_slice()
                && third.0.as_slice() == [2, 2].as_slice()
                && ticket.until() == Some(7)
        }
        _ => false,
    }
}

#[test]
fn tickets_of_expanded_lists(rt: HostRuntime) {
    let both = ticket(&rt, rt.alloc(), "allow r, profile rbd pool=vms", Some(7));
    let copy = both.copy().expect(&rt, "memory");
    expect_so(&rt, is_as_expanded(&copy), "a copy");
    let ends = both.is_expired(7) && !both.is_expired(6);
    expect_so(&rt, ends, "its end");
}

/// How many grants a copy of a ticket with an index has, and when it ends.
fn copied<R: Abort>(rt: &R, ticket: Ticket) -> (usize, Option<u64>) {
    let indexed = IndexedTicket::of(ticket).ok().expect(rt, "memory");
    let copy = indexed.copy().expect(rt, "memory");
    (copy.grants().len(), copy.until())
}

#[test]
fn tickets_without_grants(rt: HostRuntime) {
    let none = Ticket::empty(rt.alloc(), Some(0));
    let answer = plain_answer(&rt, rt.alloc(), &none, 0);
    expect_text(&rt, answer.as_str(), "deny\n", "no grants");
    expect_so(&rt, copied(&rt, none) == (0, Some(0)), "a copy");
}
