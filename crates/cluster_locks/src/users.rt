//! The users under a turn lock, with the number of sessions, and the steps on them.

ghost use Rattle.std.specs.Prelude.{◌≡◌, ◌+◌, ◌<◌, IfOk};
ghost use Rattle.common_types.specs.Refused.{RefusedFirst};
ghost use Rattle.auth_db.specs.Refusals.{known_refusal};
ghost use Rattle.auth_db.specs.Users.{HasTicket};
ghost use Rattle.cluster_locks.specs.Users.{table_after, open_entry, OpenTells, renew_entry, RenewTells, change_entry, ChangeTells};

use auth_db::{AuthDb, AuthFault};
use common_types::Name;
use std::marker::Model;
use turn_lock::{Recorded, Step};
use verdict_core::SharedTicket;
use world_front::{AuthCommand, MAX_SESSIONS, Told, change_users};

/// The users, and how many sessions were opened.
#[derive(Drop)]
pub struct UserTable {
    pub db: AuthDb,
    pub sessions: u32,
}

/// A command that changed the users, as clauses see it. No value of it is made.
pub struct UserCommand {
    nothing: (),
}

impl Model for UserCommand {
    ghost use Rattle.std.specs.Prelude.{[]};
    ghost use Rattle.auth_db.specs.Users.{Command, Delete};

    ghost Value = { Command };

    ghost view = { λ _. Delete [] };
}

/// An entry of the users' list. No value of it is made.
pub enum UserEntry {
    /// A command that was accepted.
    Changed(UserCommand),
    /// A session was opened.
    Opened,
    /// A turn that only looked.
    Looked,
    /// A turn that was refused.
    Idle,
}

impl Recorded for UserTable {
    type State = UserTable;

    type Entry = UserEntry;

    ghost state = { λ t. t };

    ghost after = { table_after };
}

// The present ticket of a user, until a tick or for ever, to be shared.
fn shared_ticket(db: &AuthDb, name: &str, until: Option<u64>) -> Result<SharedTicket, AuthFault>
    ensures refused { RefusedFirst (known_refusal db.now.users name.now) AuthFault.OutOfMemory result }
    ensures ticket { IfOk result (λ ticket. HasTicket db.now name.now until ticket) }
{
    let ticket = db.ticket(name, until)?;
    match SharedTicket::of(ticket) {
        Ok(ticket) => Ok(ticket),
        Err(_) => Err(AuthFault::OutOfMemory),
    }
}

// One session more: its number.
fn count_session(table: &mut UserTable) -> u32
    requires { table.old.sessions < 1024 }
    ensures number { result ≡ table.old.sessions + 1 }
    ensures counted { table.new ≡ record table.old { sessions = table.old.sessions + 1 } }
{
    let number = table.sessions + 1;
    table.sessions = number;
    number
}

/// Opens a session of a user, whose ticket ends at a tick or never: the session's number, and the ticket.
#[derive(Drop)]
pub struct Open {
    pub name: Name,
    pub until: Option<u64>,
}

/// Why no session is opened.
#[derive(Clone, Copy, Debug)]
pub enum OpenFault {
    User(AuthFault),
    /// W6: 1,024 sessions were opened, over all passes.
    Limit,
}

impl Step for Open {
    type Value = UserTable;

    type Answer = Result<(u32, SharedTicket), OpenFault>;

    ghost entry = { open_entry };

    ghost tells = { OpenTells };

    fn run(&mut self, table: &mut UserTable) -> Result<(u32, SharedTicket), OpenFault> {
        if let Err(fault) = table.db.get(self.name.as_str()) {
            return Err(OpenFault::User(fault));
        }
        if table.sessions >= MAX_SESSIONS {
            return Err(OpenFault::Limit);
        }
        match shared_ticket(&table.db, self.name.as_str(), self.until) {
            Ok(ticket) => Ok((count_session(table), ticket)),
            Err(fault) => Err(OpenFault::User(fault)),
        }
    }
}

/// Looks for the present ticket of a user, which ends at a tick or never.
#[derive(Drop)]
pub struct Renew {
    pub name: Name,
    pub until: Option<u64>,
}

impl Step for Renew {
    type Value = UserTable;

    type Answer = Result<SharedTicket, AuthFault>;

    ghost entry = { renew_entry };

    ghost tells = { RenewTells };

    fn run(&mut self, table: &mut UserTable) -> Result<SharedTicket, AuthFault> {
        shared_ticket(&table.db, self.name.as_str(), self.until)
    }
}

/// Carries out a command, which the step passes to the users.
#[derive(Drop)]
pub struct Change(pub Option<AuthCommand>);

impl Step for Change {
    type Value = UserTable;

    type Answer = Result<Told, AuthFault>;

    ghost entry = { change_entry };

    ghost tells = { ChangeTells };

    fn run(&mut self, table: &mut UserTable) -> Result<Told, AuthFault> {
        match self.0.take() {
            None => Ok(Told::Done),
            Some(command) => change_users(&mut table.db, command),
        }
    }
}
