//! Users that are made, found, changed and removed.

use crate::looks::{NOTHING, mix, with_bytes};
use Command::{Add, Delete, Make, Set};
use auth_db::{AuthDb, AuthFault, Caps};
use common_types::{Name, OutOfMemory};
use grant_core::ProfileTable;
use std::alloc::Global;
use std::process::Abort;
use std::test::Fail;

/// A command on the user of this name, with a text of osd.
#[derive(Clone, Copy)]
enum Command {
    Add(&'static str, &'static str),
    Make(&'static str, &'static str),
    Set(&'static str, &'static str),
    Delete(&'static str),
}

/// A command, its fault, and how many users there are then.
type Row = (Command, Option<AuthFault>, usize);

const ROWS: &[Row; 11] = &[
    (Set("client.a", "allow r"), Some(AuthFault::NoEntity), 0),
    (Add("client.a", "allow r pool=data"), None, 1),
    (Add("client.a", "allow w"), Some(AuthFault::Exists), 1),
    (Make("client.a", "allow r pool=data"), None, 1),
    (Make("client.a", "allow w"), Some(AuthFault::CapsDiffer), 1),
    (Make("client.b", "profile rbd"), None, 2),
    (Set("client.a", "allow rw tag app k=v"), None, 2),
    (Add("client.c", ""), None, 3),
    (Delete("client.b"), None, 2),
    (Delete("client.b"), Some(AuthFault::NoEntity), 2),
    (Set("client.c", "allow rwx"), None, 2),
];

const NAMES: [&str; 3] = ["client.a", "client.b", "client.c"];

fn osd(alloc: Global, text: &str) -> Result<Caps, OutOfMemory> {
    let mut caps = Caps::none();
    if !text.is_empty() {
        caps.osd = Some(Name::new(alloc, text)?);
    }
    Ok(caps)
}

// What each user of these names may do.
fn look(users: &AuthDb) -> u64 {
    let mut all = NOTHING;
    for name in NAMES {
        all = mix(all, 1);
        if let Ok(caps) = users.get(name) {
            all = mix(all, 2);
            if let Some(text) = &caps.osd {
                all = with_bytes(all, text.as_str().as_bytes());
            }
        }
    }
    all
}

fn made(alloc: Global, users: &mut AuthDb, command: Command) -> Result<(), AuthFault> {
    match command {
        Add(name, text) => users.add(name, osd(alloc, text)?),
        Make(name, text) => users.get_or_create(name, osd(alloc, text)?).map(|_| ()),
        Set(name, text) => users.caps(name, osd(alloc, text)?),
        Delete(name) => users.del(name),
    }
}

// How many users a list has, where it is refused made once more.
fn count(users: &AuthDb) -> Option<usize> {
    match users.list() {
        Ok(names) => Some(names.len()),
        Err(_) => match users.list() {
            Ok(names) => Some(names.len()),
            Err(_) => None,
        },
    }
}

// How many grants the ticket of the first user has, where it is refused made once more.
fn grants(users: &AuthDb) -> Result<usize, AuthFault> {
    match users.ticket("client.a", Some(7)) {
        Err(AuthFault::OutOfMemory) => Ok(users.ticket("client.a", Some(7))?.grants().len()),
        Err(fault) => Err(fault),
        Ok(ticket) => Ok(ticket.grants().len()),
    }
}

// Whether a command has the result that its case says: at once, or after it was refused and all stayed as it was.
fn is_so(alloc: Global, users: &mut AuthDb, row: &Row) -> bool {
    let (command, wanted, wanted_count) = *row;
    let before = look(users);
    let mut told = made(alloc, users, command).err();
    let mut stays = true;
    if told == Some(AuthFault::OutOfMemory) {
        stays = look(users) == before;
        told = made(alloc, users, command).err();
    }
    stays && told == wanted && count(users) == Some(wanted_count)
}

fn begun(alloc: Global) -> Result<AuthDb, OutOfMemory> {
    match ProfileTable::builtin(alloc) {
        Err(_) => Ok(AuthDb::new(alloc, ProfileTable::builtin(alloc)?)),
        Ok(table) => Ok(AuthDb::new(alloc, table)),
    }
}

#[test]
fn users(rt: HostRuntime) -> Result<(), Fail> {
    let mut users = begun(rt.alloc())?;
    for (place, row) in ROWS.iter().enumerate() {
        assert!(rt; is_so(rt.alloc(), &mut users, row), "{place}");
    }
    assert!(rt; grants(&users) == Ok(1));
    Ok(())
}
