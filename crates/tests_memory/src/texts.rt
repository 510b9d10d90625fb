//! Texts that are read, printed, expanded and reported.

use cap_text::{CapFault, CapList, FaultKind, parse, print};
use common_types::{OutOfMemory, Tags};
use grant_core::{ExpandFault, GrantTree, ProfileTable, expand};
use std::alloc::Global;
use std::process::Abort;
use std::test::Fail;
use verdict_core::{Calls, Needs, SharedTicket, Target, Ticket, judge, report};

/// A text, its canonical form, and the report of a request that reads, writes and is denied.
type Row = (&'static str, &'static str, &'static str);

const ROWS: &[Row; 6] = &[
    ("allow  r", "allow r", "1 write\n"),
    ("allow r, allow w", "allow r, allow w", "1 write\n2 read\n"),
    ("allow rw pool=other", "allow rw pool=other", "1 pool\n"),
    (
        "allow rwx tag cephfs data=*",
        "allow rwx tag cephfs data=*",
        "1 tag\n",
    ),
    (
        "allow rw object_prefix a",
        "allow rw object_prefix a",
        "1 prefix\n",
    ),
    (
        "profile rbd pool=other",
        "profile rbd pool=other",
        "1.1.1 pool\n1.2 pool\n",
    ),
];

fn parsed(alloc: Global, text: &str) -> Result<CapList, CapFault> {
    match parse(alloc, text) {
        Err(
            CapFault {
                kind: FaultKind::OutOfMemory,
                ..
            },
        ) => parse(alloc, text),
        read => read,
    }
}

fn printed(alloc: Global, list: &CapList) -> Result<String, OutOfMemory> {
    match print(alloc, list) {
        Err(_) => print(alloc, list),
        text => text,
    }
}

fn expanded(alloc: Global, list: &CapList) -> Result<GrantTree, ExpandFault> {
    let table = match ProfileTable::builtin(alloc) {
        Err(_) => ProfileTable::builtin(alloc)?,
        Ok(table) => table,
    };
    match expand(alloc, &table, list) {
        Err(ExpandFault::OutOfMemory) => expand(alloc, &table, list),
        tree => tree,
    }
}

fn reported(alloc: Global, ticket: &Ticket) -> Result<String, OutOfMemory> {
    let tags = Tags::from_vec(Vec::new(alloc));
    let target = Target {
        pool: b"data",
        tags: &tags,
        namespace: b"",
        object: b"x",
    };
    let needs = Needs {
        reads: true,
        writes: true,
        calls: Calls::from_vec(Vec::new(alloc)),
    };
    if judge(ticket, &target, &needs, 0) {
        return Ok(String::new(alloc));
    }
    let lines = report(alloc, ticket, &target, &needs, 0)?;
    format!(in alloc; "{lines}")
}

// The report, where it is refused made once more.
fn reported_again(alloc: Global, ticket: &Ticket) -> Result<String, OutOfMemory> {
    match reported(alloc, ticket) {
        Err(_) => reported(alloc, ticket),
        text => text,
    }
}

// The report of a list.
fn reported_of(alloc: Global, list: &CapList) -> Result<String, Fail> {
    let tree = expanded(alloc, list)?;
    let ticket = Ticket::of(tree, None);
    Ok(reported_again(alloc, &ticket)?)
}

// Whether a text is printed and reported as its row says.
fn is_so(alloc: Global, row: &Row) -> Result<bool, Fail> {
    let list = parsed(alloc, row.0)?;
    let lines = reported_of(alloc, &list)?;
    let text = printed(alloc, &list)?;
    Ok(text.as_str() == row.1 && lines.as_str() == row.2)
}

#[test]
fn texts(rt: HostRuntime) -> Result<(), Fail> {
    for row in ROWS {
        assert!(rt; is_so(rt.alloc(), row)?, "{}", row.0);
    }
    Ok(())
}

/// Texts that are refused, with their faults and where those are.
const REFUSED: &[(&str, FaultKind, usize); 3] = &[
    ("allow rw tag cephfs data=", FaultKind::BadWord, 25),
    ("allow rw tag cephfs data", FaultKind::BadMatch, 24),
    (
        "allow rw pool=data network 10.0.0.0/8",
        FaultKind::NetworkClause,
        19,
    ),
];

#[test]
fn texts_that_are_refused(rt: HostRuntime) -> Result<(), Fail> {
    for (text, kind, at) in REFUSED {
        let wanted = CapFault {
            kind: *kind,
            at: *at,
        };
        assert!(rt; parsed(rt.alloc(), *text).err() == Some(wanted), "{text}");
    }
    Ok(())
}
