//! What happens to a world, and what it tells.

ghost use Rattle.std.specs.Prelude.{◌≡◌, IfOk};

use crate::ops::Ops;
use auth_db::Caps;
use common_types::{Name, OutOfMemory, TryClone};
use entry_core::{GroupId, Id};
use map_core::{Epoch, MapCommand};

/// A command on the users: those of the Ceph manual's User Management chapter.
#[derive(Debug, Drop)]
pub enum AuthCommand {
    /// `auth add`.
    Add { name: Name, caps: Caps },
    /// `auth get-or-create`.
    GetOrCreate { name: Name, caps: Caps },
    /// `auth caps`: all four texts are put in the place of the old.
    SetCaps { name: Name, caps: Caps },
    /// `auth del`.
    Delete { name: Name },
}

/// Who asks, by which map, when, and where.
#[derive(Debug)]
pub struct Ask {
    /// The session's number, from 1 on.
    pub session: u32,
    /// The epoch of the map that the asker has seen.
    pub epoch: Epoch,
    /// The stamp of the request, by which its ticket is judged. Its unit is the caller's.
    pub tick: u64,
    /// The pool's name.
    pub pool: Name,
    /// The namespace, at most 64 bytes of 33 to 126; empty for the default one.
    pub namespace: Name,
}

impl Drop for Ask {
    fn drop(self) {
        let Ask {
            session: _,
            epoch: _,
            tick: _,
            pool: _,
            namespace: _,
        } = self;
    }
}

/// What happens to a world. One event is one atomic step.
#[derive(Drop)]
pub enum Event {
    /// A command on the users.
    Auth(AuthCommand),
    /// A command on the map.
    Map(MapCommand),
    /// A new session of a user. Its ticket holds before that tick, or for ever.
    Open { entity: Name, until: Option<u64> },
    /// A session's ticket is made anew from what its user may do now.
    Renew { session: u32, until: Option<u64> },
    /// A session ends.
    Close { session: u32 },
    /// A vector of operations on an object, whose name has 1 to 255 bytes of 33 to 126.
    Submit { ask: Ask, object: Name, ops: Ops },
    /// The names of the objects of a pool's namespace: one request to each group of the pool, under consecutive numbers.
    List(Ask),
    /// The message at a place of a group's wire, counted from 0, reaches its addressee.
    Deliver { group: GroupId, place: usize },
    /// That message is lost.
    Lose { group: GroupId, place: usize },
    /// That message is sent once more.
    Repeat { group: GroupId, place: usize },
    /// A group sends again what is unanswered.
    Kick { group: GroupId },
}

/// What an accepted event tells.
#[derive(Clone, Copy, Debug)]
pub enum Told {
    /// It happened.
    Done,
    /// There was no user of the name, and now there is.
    Made,
    /// The user was there.
    There,
    /// The map's new epoch.
    Epoch(Epoch),
    /// The new session's number.
    Session(u32),
    /// The id of the new request.
    Request(Id),
    /// The id of a list's first piece, and how many pieces there are, under consecutive numbers.
    List { first: Id, count: u32 },
}

impl AuthCommand {
    /// An equal command.
    pub fn copy(&self) -> Result<AuthCommand, OutOfMemory>
        ensures { IfOk result (λ command. command ≡ self.now) }
    {
        match self {
            AuthCommand::Add { name, caps } => Ok(AuthCommand::Add {
                name: name.copy()?,
                caps: caps.copy()?,
            }),
            AuthCommand::GetOrCreate { name, caps } => Ok(AuthCommand::GetOrCreate {
                name: name.copy()?,
                caps: caps.copy()?,
            }),
            AuthCommand::SetCaps { name, caps } => Ok(AuthCommand::SetCaps {
                name: name.copy()?,
                caps: caps.copy()?,
            }),
            AuthCommand::Delete { name } => Ok(AuthCommand::Delete { name: name.copy()? }),
        }
    }
}

impl Ask {
    /// An equal question.
    pub fn copy(&self) -> Result<Ask, OutOfMemory>
        ensures { IfOk result (λ ask. ask ≡ self.now) }
    {
        Ok(Ask {
            session: self.session,
            epoch: self.epoch,
            tick: self.tick,
            pool: self.pool.copy()?,
            namespace: self.namespace.copy()?,
        })
    }
}

impl Event {
    /// An equal event.
    pub fn copy(&self) -> Result<Event, OutOfMemory>
        ensures { IfOk result (λ event. event ≡ self.now) }
    {
        match self {
            Event::Auth(command) => Ok(Event::Auth(command.copy()?)),
            Event::Map(command) => Ok(Event::Map(command.copy()?)),
            Event::Open { entity, until } => Ok(Event::Open {
                entity: entity.copy()?,
                until: *until,
            }),
            Event::Renew { session, until } => Ok(Event::Renew {
                session: *session,
                until: *until,
            }),
            Event::Close { session } => Ok(Event::Close { session: *session }),
            Event::Submit { ask, object, ops } => Ok(Event::Submit {
                ask: ask.copy()?,
                object: object.copy()?,
                ops: ops.copy()?,
            }),
            Event::List(ask) => Ok(Event::List(ask.copy()?)),
            Event::Deliver { group, place } => Ok(Event::Deliver {
                group: group.copy()?,
                place: *place,
            }),
            Event::Lose { group, place } => Ok(Event::Lose {
                group: group.copy()?,
                place: *place,
            }),
            Event::Repeat { group, place } => Ok(Event::Repeat {
                group: group.copy()?,
                place: *place,
            }),
            Event::Kick { group } => Ok(Event::Kick {
                group: group.copy()?,
            }),
        }
    }
}
