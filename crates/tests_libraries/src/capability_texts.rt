//! Texts that are read and printed again. `sessions/texts` shows what texts spell, and their faults.

use crate::pieces::{expect_so, expect_text};
use cap_text::{
    Access, AllowGrant, CapList, Grant, parse, print, spellable_is_spelled, spelled_is_spellable,
    spells_at_most_one,
};
use std::alloc::Global;
use std::process::Abort;

/// Texts that use profiles, which need not be there, and their canonical forms.
const USES: &[(&str, &str); 3] = &[
    ("profile network", "profile network"),
    (
        "profile = 'a b' pool b namespace=c*",
        "profile \"a b\" pool=b namespace=c*",
    ),
    (
        "profile a pool=b namespace=c; profile d, allow class e 'f', allow class \"g\"",
        "profile a pool=b namespace=c, profile d, allow class e f, allow class g",
    ),
];

#[test]
fn uses_of_profiles_are_read_and_printed(rt: HostRuntime) {
    spells_at_most_one();
    for (text, want) in USES {
        let list = parse(rt.alloc(), text).expect(&rt, "a list");
        let printed = print(rt.alloc(), &list).expect(&rt, "memory");
        expect_text(&rt, printed.as_str(), want, text);
    }
}

/// A list that allows all.
fn all<R: Abort>(rt: &R, alloc: Global) -> CapList {
    let mut grants = Vec::new(alloc);
    let grant = Grant::Allow(AllowGrant {
        access: Access::All,
        pool: None,
        namespace: None,
        prefix: None,
        tag: None,
    });
    grants.push(grant).expect(rt, "memory");
    expect_so(rt, CapList::can_hold(grants.as_slice()), "a list of all");
    CapList::from_vec(grants)
}

#[test]
fn lists_are_made_and_printed(rt: HostRuntime) {
    let alloc = rt.alloc();
    spelled_is_spellable();
    spellable_is_spelled();
    let copy = all(&rt, alloc).copy().expect(&rt, "memory");
    let printed = print(alloc, &copy).expect(&rt, "memory");
    expect_text(&rt, printed.as_str(), "allow *", "all");
    let nothing = print(alloc, &CapList::empty(alloc)).expect(&rt, "memory");
    expect_text(&rt, nothing.as_str(), "", "nothing");
}
