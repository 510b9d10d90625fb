//! Users that are made, found, changed and removed. `sessions/users` shows the refusals.

use crate::pieces::{expect_so, expect_text, name};
use auth_db::{AuthDb, AuthFault, Caps, Creation};
use grant_core::ProfileTable;
use std::alloc::Global;
use std::process::Abort;

const NAME: &str = "client.a";

/// Caps of a text of osd.
fn osd<R: Abort>(rt: &R, alloc: Global, text: &str) -> Caps {
    Caps {
        mon: None,
        mgr: None,
        mds: None,
        osd: Some(name(rt, alloc, text)),
    }
}

fn database<R: Abort>(rt: &R, alloc: Global) -> AuthDb {
    AuthDb::new(alloc, ProfileTable::builtin(alloc).expect(rt, "profiles"))
}

/// Whether the user has this text, and a copy of its caps is the same.
fn has_caps<R: Abort>(rt: &R, alloc: Global, users: &AuthDb, text: &str) -> bool {
    let caps = users.get(NAME).expect(rt, "a user");
    let copy = caps.copy().expect(rt, "memory");
    caps.equals(&osd(rt, alloc, text)) && copy.equals(caps)
}

/// How many grants the ticket of the user has, and whether it is expired at the time of its end.
fn ticket<R: Abort>(rt: &R, users: &AuthDb, until: u64) -> (usize, bool) {
    let ticket = users.ticket(NAME, Some(until)).expect(rt, "a ticket");
    (ticket.grants().len(), ticket.is_expired(until))
}

/// Whether this is the first of the users' names.
fn is_first<R: Abort>(rt: &R, users: &AuthDb, name: &str) -> bool {
    match users.list().expect(rt, "memory").as_slice() {
        [first, ..] => first.as_str() == name,
        [] => false,
    }
}

/// Texts with which `get_or_create` is called for the user, and its results.
const CREATIONS: &[(&str, Result<Creation, AuthFault>); 3] = &[
    ("allow r", Ok(Creation::Made)),
    ("allow r", Ok(Creation::There)),
    ("allow rw", Err(AuthFault::CapsDiffer)),
];

#[test]
fn a_user_is_made_found_and_changed(rt: HostRuntime) {
    let alloc = rt.alloc();
    let mut users = database(&rt, alloc);
    for (text, told) in CREATIONS {
        let caps = osd(&rt, alloc, text);
        expect_so(&rt, users.get_or_create(NAME, caps) == *told, text);
    }
    let told = users.caps(NAME, osd(&rt, alloc, "allow w"));
    expect_so(&rt, told == Ok(()), "other texts");
    expect_so(&rt, has_caps(&rt, alloc, &users, "allow w"), "its texts");
    expect_so(&rt, ticket(&rt, &users, 7) == (1, true), "its ticket");
    expect_so(&rt, is_first(&rt, &users, NAME), "its name");
}

#[test]
fn a_user_is_added_and_removed(rt: HostRuntime) {
    let alloc = rt.alloc();
    let mut users = database(&rt, alloc);
    let told = users.add(NAME, osd(&rt, alloc, "allow r"));
    expect_so(&rt, told == Ok(()), "an addition");
    expect_so(&rt, users.del(NAME) == Ok(()), "a removal");
    let told = users.del(NAME);
    expect_so(&rt, told == Err(AuthFault::NoEntity), "another removal");
    expect_so(&rt, !is_first(&rt, &users, NAME), "no name");
    let told = users.add(NAME, Caps::none());
    expect_so(&rt, told == Ok(()), "another addition");
}

// A fault that no session shows.
#[test]
fn want_of_memory_has_its_text(rt: HostRuntime) {
    let text = AuthFault::OutOfMemory
        .to_string(rt.alloc())
        .expect(&rt, "memory");
    expect_text(&rt, text.as_str(), "A7 OutOfMemory", "want of memory");
}
