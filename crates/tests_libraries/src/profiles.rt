//! Profiles that are added, and what their uses expand to. `sessions/texts/expanded.console` shows the built-in ones.

use crate::pieces::{expect_so, expect_text};
use cap_text::{CapList, parse, push_allow};
use grant_core::{ExpandFault, Path, ProfileTable, expand};
use std::alloc::Global;
use std::process::Abort;

// A list of `count` uses of the profile of this name.
fn uses<R: Abort>(rt: &R, alloc: Global, name: &str, count: usize) -> String {
    let mut text = String::new(alloc);
    for _ in 0..count {
        let between = if text.is_empty() { "" } else { ", " };
        write!(text, "{between}profile {name}").expect(rt, "memory");
    }
    text
}

// The paths and the grants of the tree that a text expands to.
fn shown<R: Abort>(rt: &R, alloc: Global, table: &ProfileTable, text: &str) -> String {
    let list = parse(alloc, text).expect(rt, "a list");
    let tree = expand(alloc, table, &list).expect(rt, "a tree");
    let mut shown = String::new(alloc);
    for (path, grant) in tree.grants() {
        let between = if shown.is_empty() { "" } else { "; " };
        write!(shown, "{between}{path} ").expect(rt, "memory");
        push_allow(&mut shown, grant).expect(rt, "memory");
    }
    shown
}

// How many grants a text expands to, or the fault.
fn count<R: Abort>(rt: &R, alloc: Global, table: &ProfileTable, text: &str) -> String {
    let list = parse(alloc, text).expect(rt, "a list");
    match expand(alloc, table, &list) {
        Ok(tree) => { format!(in alloc; "{}", tree.grants().len()).expect(rt, "memory") }
        Err(fault) => fault.to_string(alloc).expect(rt, "memory"),
    }
}

// Adds a profile, and says `added` or the refusal.
fn added<R: Abort>(
    rt: &R,
    alloc: Global,
    table: &mut ProfileTable,
    name: &str,
    body: &str,
) -> String {
    let list = parse(alloc, body).expect(rt, "a list");
    let told = match table.add(name, list) {
        Ok(()) => String::from_str(alloc, "added"),
        Err(fault) => fault.to_string(alloc),
    };
    told.expect(rt, "memory")
}

// Adds profiles whose bodies begin with a text, each of which must be answered as its row says.
fn expect_added<R: Abort>(
    rt: &R,
    alloc: Global,
    table: &mut ProfileTable,
    begin: &str,
    rows: &[(&str, &str, &str)],
) {
    for (name, more, want) in rows {
        let body = format!(in alloc; "{begin}{more}").expect(rt, "memory");
        let answer = added(rt, alloc, table, name, body.as_str());
        expect_text(rt, answer.as_str(), want, name);
    }
}

const OWN: &[(&str, &str, &str); 1] = &[(
    "own",
    "allow r pool=own, allow rw namespace=n, allow rwx, profile read-only pool=p",
    "added",
)];

const USES: &[(&str, &str); 3] = &[
    ("", ""),
    (
        "profile own pool=q namespace=m",
        "1.1 allow r pool=own; 1.2 allow rw pool=q namespace=n; 1.3 allow rwx pool=q namespace=m; 1.4.1 allow r pool=p",
    ),
    (
        "allow r tag a b=c, profile own namespace=m",
        "1 allow r tag a b=c; 2.1 allow r pool=own; 2.2 allow rw namespace=n; 2.3 allow rwx namespace=m; 2.4.1 allow r pool=p",
    ),
];

#[test]
fn uses_are_replaced_by_filled_grants(rt: HostRuntime) {
    let alloc = rt.alloc();
    let mut table = ProfileTable::builtin(alloc).expect(&rt, "profiles");
    expect_added(&rt, alloc, &mut table, "", OWN);
    for (text, want) in USES {
        let shown = shown(&rt, alloc, &table, text);
        expect_text(&rt, shown.as_str(), want, text);
    }
}

const REFUSALS: &[(&str, &str, &str); 7] = &[
    ("t", "allow r tag a b=c", "G3 TagInProfile 1"),
    (
        "t",
        "allow r, profile osd, allow r tag a b=c",
        "G1 UnknownProfile 2",
    ),
    (
        "t",
        "allow r, allow r tag a b=c, profile osd",
        "G3 TagInProfile 2",
    ),
    ("t", "profile t", "G1 UnknownProfile 1"),
    ("rbd", "allow r tag a b=c", "G2 DuplicateProfile"),
    (
        "five",
        "allow r, allow r, allow r, allow r, allow r",
        "added",
    ),
    ("five", "allow r", "G2 DuplicateProfile"),
];

// What follows 51 uses of a profile of five grants, and how many grants that expands to, or the fault.
const FULL: &[(&str, &str); 4] = &[
    ("", "255"),
    (", allow r", "256"),
    (", profile five", "G5 TooLarge"),
    (", profile five, profile osd", "G1 UnknownProfile 53"),
];

// Profiles whose bodies are 51 uses and more, and how they are answered.
const FULL_BODIES: &[(&str, &str, &str); 2] = &[
    ("most", ", allow r", "added"),
    ("more", ", profile five", "G5 TooLarge"),
];

#[test]
fn refusals_come_in_their_order(rt: HostRuntime) {
    let alloc = rt.alloc();
    let many = uses(&rt, alloc, "five", 51);
    let mut table = ProfileTable::builtin(alloc).expect(&rt, "profiles");
    expect_added(&rt, alloc, &mut table, "", REFUSALS);
    for (more, want) in FULL {
        let text = format!(in alloc; "{many}{more}").expect(&rt, "memory");
        let count = count(&rt, alloc, &table, text.as_str());
        expect_text(&rt, count.as_str(), want, more);
    }
    expect_added(&rt, alloc, &mut table, many.as_str(), FULL_BODIES);
}

// The profile `p0` is empty, and each of 27 more uses the one before 64 times.
fn add_chain<R: Abort>(rt: &R, alloc: Global, table: &mut ProfileTable) {
    let empty = CapList::empty(alloc);
    table.add("p0", empty).expect(rt, "a profile");
    for i in 1..28_usize {
        let before = format!(in alloc; "p{}", i.saturating_sub(1)).expect(rt, "memory");
        let name = format!(in alloc; "p{i}").expect(rt, "memory");
        let body = uses(rt, alloc, before.as_str(), 64);
        let answer = added(rt, alloc, table, name.as_str(), body.as_str());
        expect_text(rt, answer.as_str(), "added", name.as_str());
    }
}

const BEHIND_THE_CHAIN: &[(&str, &str, &str); 2] = &[
    ("p28", "profile osd", "G4 TooManyProfiles"),
    ("p27", "profile osd", "G2 DuplicateProfile"),
];

#[test]
fn a_chain_of_empty_profiles_is_expanded_at_once(rt: HostRuntime) {
    let alloc = rt.alloc();
    let mut table = ProfileTable::builtin(alloc).expect(&rt, "profiles");
    add_chain(&rt, alloc, &mut table);
    let all = uses(&rt, alloc, "p27", 64);
    let grants = count(&rt, alloc, &table, all.as_str());
    expect_text(&rt, grants.as_str(), "0", "the end of the chain");
    expect_added(&rt, alloc, &mut table, "", BEHIND_THE_CHAIN);
}

// All faults, in a line each.
fn faults_shown<R: Abort>(rt: &R, alloc: Global) -> String {
    let mut lines = String::new(alloc);
    for fault in [
        ExpandFault::UnknownProfile(1),
        ExpandFault::DuplicateProfile,
        ExpandFault::TagInProfile(64),
        ExpandFault::TooManyProfiles,
        ExpandFault::TooLarge,
        ExpandFault::OutOfMemory,
    ] {
        writeln!(lines, "{fault}").expect(rt, "memory");
    }
    lines
}

const FAULTS: &str = "G1 UnknownProfile 1\nG2 DuplicateProfile\nG3 TagInProfile 64\n\
G4 TooManyProfiles\nG5 TooLarge\nG6 OutOfMemory\n";

// The text of a copy of a path, which must have these numbers.
fn path_shown<R: Abort>(rt: &R, alloc: Global, numbers: &[usize]) -> String {
    let path = Path::of(alloc, numbers).expect(rt, "memory");
    let copy = path.copy().expect(rt, "memory");
    expect_so(rt, copy.as_slice() == numbers, "a copy of a path");
    copy.to_string(alloc).expect(rt, "memory")
}

#[test]
fn faults_and_paths_print_their_texts(rt: HostRuntime) {
    let alloc = rt.alloc();
    let shown = faults_shown(&rt, alloc);
    expect_text(&rt, shown.as_str(), FAULTS, "faults");
    let shown = path_shown(&rt, alloc, &[2, 1, 10]);
    expect_text(&rt, shown.as_str(), "2.1.10", "a path");
    let shown = path_shown(&rt, alloc, &[]);
    expect_text(&rt, shown.as_str(), "", "an empty path");
}
