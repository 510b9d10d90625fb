//! Logs by each call: what is sealed, decided, found and copied. `sessions/logs` shows what requests are answered, one after another.

use crate::looks::gives;
use crate::operations::Work::{Append, List, Read};
use crate::operations::{Work, name, ops, view};
use crate::pieces::{expect_row, expect_so};
use crate::tickets::ticket_of;
use Says::{Denies, Gives, Lists};
use common_types::{Items, TryClone};
use entry_core::{Entry, Id, Log, Reply, Sealed, reply_number};
use object_core::{NeedsFault, Op};
use std::alloc::Global;
use std::process::Abort;
use verdict_core::Condition;

/// When each request is submitted.
const TICK: u64 = 9;

/// What is answered: an output, a condition of a denial that has one line of the path 1, or one name.
#[derive(Clone, Copy)]
pub(crate) enum Says {
    Gives(&'static str),
    Denies(Condition),
    Lists(&'static str),
}

/// A request's number, the text of who asks, the object, what is asked, and what is answered. Vectors are asked for in
/// session 1, and listings in session 2.
pub(crate) type Row = (u32, &'static str, &'static str, Work, Says);

/// Operations on an object, of a pool of four groups.
fn vector<R: Abort>(
    rt: &R,
    alloc: Global,
    number: u32,
    text: &str,
    object: &str,
    ops: Vec<Op>,
) -> Result<Sealed, NeedsFault> {
    let ticket = ticket_of(rt, alloc, text);
    let namespace = name(rt, alloc, "");
    let object = name(rt, alloc, object);
    let view = view(rt, alloc, 4);
    let id = Id::new(1, number);
    Sealed::vector(alloc, id, ticket, TICK, view, 0, namespace, object, ops)
}

/// The names of a group.
fn listing<R: Abort>(rt: &R, alloc: Global, number: u32, text: &str, group: u32) -> Sealed {
    let ticket = ticket_of(rt, alloc, text);
    let namespace = name(rt, alloc, "");
    let view = view(rt, alloc, 4);
    let id = Id::new(2, number);
    Sealed::listing(alloc, id, ticket, TICK, view, group, namespace).expect(rt, "memory")
}

/// The request of a row.
pub(crate) fn sealed<R: Abort>(rt: &R, alloc: Global, row: &Row) -> Sealed {
    let (number, text, object, work, _) = *row;
    if let List(group) = work {
        return listing(rt, alloc, number, text, group);
    }
    let ops = ops(rt, alloc, work);
    vector(rt, alloc, number, text, object, ops).expect(rt, "a request")
}

/// Decides and pushes. The log is left as it was where it has the id already.
pub(crate) fn add<R: Abort>(rt: &R, log: &mut Log, sealed: &Sealed) {
    if log.contains(sealed.id()) {
        return;
    }
    let decided = log.decide(sealed).expect(rt, "memory");
    log.push(decided).expect(rt, "memory");
}

/// Whether a reply says this, and has its number.
fn is_said(reply: &Reply, wanted: Says) -> bool {
    let number = reply_number(reply);
    match (reply, wanted) {
        (Reply::Done(_), Gives(output)) => number == 0 && gives(reply, &[output]),
        (Reply::Names(names), Lists(name)) => match names.as_slice() {
            [only] => number == 0 && only.as_str() == name,
            _ => false,
        },
        (Reply::Denied(report), Denies(condition)) => match report.lines() {
            [line] => number == 1 && line.0.as_slice() == [1].as_slice() && line.1 == condition,
            _ => false,
        },
        _ => false,
    }
}

const TWO: &[Row; 2] = &[
    (1, "allow rw", "x", Append("a"), Gives("")),
    (2, "allow rw", "x", Read, Gives("a")),
];

/// What a log of these two decides of a third request. The object x is in group 2 of four.
const THIRD: &[Row; 4] = &[
    (3, "allow rw", "x", Read, Gives("a")),
    (3, "allow r", "x", Append("a"), Denies(Condition::Write)),
    (1, "allow r", "", List(2), Lists("x")),
    (1, "allow w", "", List(2), Denies(Condition::Read)),
];

/// An id, what a log of the two finds by it, and whether it stands before the last entry.
type Found = (u32, u32, Option<Says>, bool);

const FOUND: &[Found; 3] = &[
    (1, 1, Some(Gives("")), true),
    (1, 2, Some(Gives("a")), false),
    (2, 1, None, false),
];

/// A log of the two requests.
fn of_two<R: Abort>(rt: &R, alloc: Global) -> Log {
    let mut log = Log::new(alloc);
    for row in TWO {
        add(rt, &mut log, &sealed(rt, alloc, row));
    }
    log
}

/// Whether a log decides of the request of a row what it says.
pub(crate) fn decides<R: Abort>(rt: &R, alloc: Global, log: &Log, row: &Row) -> bool {
    let sealed = sealed(rt, alloc, row);
    let decided = log.decide(&sealed).expect(rt, "memory");
    is_said(&decided.entry().reply, row.4)
}

fn finds(log: &Log, id: Id, wanted: Option<Says>) -> bool {
    match (log.find(id), wanted) {
        (Some(reply), Some(wanted)) => is_said(reply, wanted),
        (None, None) => true,
        _ => false,
    }
}

/// Whether a log finds what a row says.
fn is_found(log: &Log, row: &Found) -> bool {
    let (session, number, wanted, is_before) = *row;
    let id = Id::new(session, number);
    log.contains(id) == wanted.is_some()
        && finds(log, id, wanted)
        && log.find_before_last(id).is_some() == is_before
}

/// Whether the last entry of a log has this id.
fn is_last(log: &Log, id: Id) -> bool {
    match log.last_entry() {
        Some(entry) => entry.sealed.id() == id,
        None => false,
    }
}

fn expect_two<R: Abort>(rt: &R, log: &Log) {
    let are_two = log.len() == 2 && log.entries().len() == 2;
    expect_so(rt, are_two && is_last(log, Id::new(1, 2)), "two entries");
    for (place, row) in FOUND.iter().enumerate() {
        expect_row(rt, is_found(log, row), "row", place);
    }
}

fn expect_third<R: Abort>(rt: &R, alloc: Global, log: &Log) {
    for (place, row) in THIRD.iter().enumerate() {
        expect_row(rt, decides(rt, alloc, log, row), "row", place);
    }
}

#[test]
fn entries_are_found(rt: HostRuntime) {
    let log = of_two(&rt, rt.alloc());
    expect_two(&rt, &log);
    expect_two(&rt, &log.copy().expect(&rt, "memory"));
    expect_third(&rt, rt.alloc(), &log);
}

/// Whether a request is in the first group of the pool data, also in a copy of that group.
fn is_in_the_first_group<R: Abort>(rt: &R, sealed: &Sealed) -> bool {
    let group = sealed.group().expect(rt, "memory");
    let copy = group.copy().expect(rt, "memory");
    copy.number == 0 && copy.pool.as_str() == "data"
}

/// How many operations are sealed in a copy of a request, which has none where it is a listing.
fn operations<R: Abort>(rt: &R, sealed: &Sealed) -> Option<usize> {
    let copy = sealed.copy().expect(rt, "memory");
    match copy.ops() {
        Some(ops) => Some(ops.len()),
        None => None,
    }
}

/// The number of a copy of an entry's reply.
fn copied_number<R: Abort>(rt: &R, sealed: Sealed) -> u32 {
    let reply = Reply::Failed {
        place: 1,
        number: 17,
    };
    let entry = Entry { sealed, reply };
    let copy = entry.copy().expect(rt, "memory");
    reply_number(&copy.reply)
}

/// Whether it is request 7 of session 1, of a pool of four groups, in no namespace, and allowed.
fn is_as_sealed(sealed: &Sealed) -> bool {
    sealed.id().session() == 1
        && sealed.id().number() == 7
        && sealed.view().pg_num == 4
        && sealed.namespace().is_empty()
        && sealed.is_allowed()
}

#[test]
fn what_is_sealed_is_kept(rt: HostRuntime) {
    let sealed = sealed(
        &rt,
        rt.alloc(),
        &(7, "allow rw", "x", Append("a"), Gives("")),
    );
    expect_so(&rt, is_as_sealed(&sealed), "what is sealed");
    let is_first = sealed.group_number() == 0 && is_in_the_first_group(&rt, &sealed);
    expect_so(&rt, is_first, "its group");
    expect_so(&rt, operations(&rt, &sealed) == Some(1), "its operation");
    expect_so(&rt, copied_number(&rt, sealed) == 17, "its number");
}

#[test]
fn a_listing_has_no_operations(rt: HostRuntime) {
    let listing = sealed(&rt, rt.alloc(), &(0, "allow w", "", List(0), Lists("")));
    let is_denied = !listing.is_allowed() && operations(&rt, &listing).is_none();
    expect_so(&rt, is_denied, "a listing");
}

#[test]
fn faults_of_needs_are_not_sealed(rt: HostRuntime) {
    let sealed = vector(&rt, rt.alloc(), 1, "allow rwx", "x", Vec::new(rt.alloc()));
    let is_refused = matches!(sealed, Err(NeedsFault::EmptyVector));
    expect_so(&rt, is_refused, "an empty vector");
}

/// Three numbers.
fn three<R: Abort>(rt: &R, alloc: Global) -> Items<u64> {
    let mut items = Items::new(alloc);
    for item in [4u64, 5, 6] {
        items.push(item).expect(rt, "memory");
    }
    items
}

#[test]
fn items_are_a_list(rt: HostRuntime) {
    let mut items = three(&rt, rt.alloc());
    let copy = items.copy().expect(&rt, "memory");
    items.truncate(1);
    let is_cut = items.as_slice() == [4u64].as_slice() && items.len() == 1;
    expect_so(&rt, is_cut, "the first item");
    let copied = copy.into_vec();
    let are_all = copied.as_slice() == [4u64, 5, 6].as_slice();
    expect_so(&rt, are_all, "all items");
}
