//! Commands on the users by a call of their own, one after another on the same users.

use crate::expecting::expect_row;
use Command::{Add, Delete, Make, Set};
use auth_db::{AuthDb, AuthFault, Caps};
use common_types::{Name, OutOfMemory};
use grant_core::ProfileTable;
use std::alloc::Global;
use std::process::Abort;
use world_core::{AuthCommand, Told, change_users};

/// A command on the user `client.a`.
#[derive(Clone, Copy)]
enum Command {
    Add(&'static str),
    Make(&'static str),
    Set(&'static str),
    Delete,
}

/// A command and its result: 0 if it is done, 1 if the user was made, 2 if the user was there, and else its fault. Also
/// the text that the user then has, if there is a user.
type Row = (Command, Result<u32, AuthFault>, Option<&'static str>);

const ROWS: &[Row; 10] = &[
    (Set("allow r"), Err(AuthFault::NoEntity), None),
    (Delete, Err(AuthFault::NoEntity), None),
    (Add("allow r"), Ok(0), Some("allow r")),
    (Add("allow w"), Err(AuthFault::Exists), Some("allow r")),
    (Make("allow r"), Ok(2), Some("allow r")),
    (Make("allow w"), Err(AuthFault::CapsDiffer), Some("allow r")),
    (Set("allow rw"), Ok(0), Some("allow rw")),
    (Delete, Ok(0), None),
    (Make("allow w"), Ok(1), Some("allow w")),
    (Set("allow x"), Ok(0), Some("allow x")),
];

fn osd(alloc: Global, text: &str) -> Result<Caps, OutOfMemory> {
    let mut caps = Caps::none();
    caps.osd = Some(Name::new(alloc, text)?);
    Ok(caps)
}

fn command_of(alloc: Global, command: Command) -> Result<AuthCommand, OutOfMemory> {
    let name = Name::new(alloc, "client.a")?;
    Ok(match command {
        Add(text) => AuthCommand::Add {
            name,
            caps: osd(alloc, text)?,
        },
        Make(text) => AuthCommand::GetOrCreate {
            name,
            caps: osd(alloc, text)?,
        },
        Set(text) => AuthCommand::SetCaps {
            name,
            caps: osd(alloc, text)?,
        },
        Delete => AuthCommand::Delete { name },
    })
}

/// The number that stands for the result of a command on the users.
fn number_of(told: Told) -> u32 {
    match told {
        Told::Done => 0,
        Told::Made => 1,
        Told::There => 2,
        _ => 3,
    }
}

/// Whether the user has this text, or is not there.
fn has(users: &AuthDb, text: Option<&str>) -> bool {
    match (users.get("client.a"), text) {
        (Ok(caps), Some(text)) => match &caps.osd {
            Some(osd) => osd.as_str() == text,
            None => false,
        },
        (Err(AuthFault::NoEntity), None) => true,
        _ => false,
    }
}

/// Whether a command has the result that its case says.
fn is_so(alloc: Global, users: &mut AuthDb, row: &Row) -> Result<bool, OutOfMemory> {
    let (command, wanted, text) = *row;
    let said = match change_users(users, command_of(alloc, command)?) {
        Ok(told) => Ok(number_of(told)),
        Err(fault) => Err(fault),
    };
    Ok(said == wanted && has(users, text))
}

#[test]
fn commands_on_users_come_to_what_they_tell(rt: HostRuntime) {
    let table = ProfileTable::builtin(rt.alloc()).expect(&rt, "profiles");
    let mut users = AuthDb::new(rt.alloc(), table);
    for (place, row) in ROWS.iter().enumerate() {
        let is_so = is_so(rt.alloc(), &mut users, row).expect(&rt, "memory");
        expect_row(&rt, is_so, "row", place);
    }
}
