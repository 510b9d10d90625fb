//! Sessions of users.

ghost use Rattle.std.specs.Prelude.{◌≡◌, ◌<◌, ◌≤◌, ◌+◌, ◌++◌, ℕ, [], ◌∷◌, Ok, true, OnOk, OnErr, IfOk, length};
ghost use Rattle.store_core.specs.Request.{numbers};
ghost use Rattle.world_front.specs.ControlPlane.{asks_more, error_of, opened, session_at, session_of};
ghost use Rattle.world_front.specs.ControlPlane as spec;
ghost use Rattle.common_types.specs.Refused.{RefusedExactly};

use common_types::{Name, OutOfMemory};
use entry_core::Id;
use map_core::Epoch;
use std::alloc::Global;
use std::marker::Model;
use verdict_core::SharedTicket;
use world_events::{Ask, WorldFault};

/// Who asks, with the ticket of the last opening or renewal. Its requests count from 1.
pub struct Session {
    /// The user's name.
    pub entity: Name,
    pub ticket: SharedTicket,
    /// The last epoch that was used, 0 at first.
    pub epoch: Epoch,
    /// The last tick that was used, 0 at first.
    pub tick: u64,
    /// The number of its next request.
    pub next: u32,
    pub is_closed: bool,
}

impl Drop for Session {
    fn drop(self) {
        let Session {
            entity: _,
            ticket: _,
            epoch: _,
            tick: _,
            next: _,
            is_closed: _,
        } = self;
    }
}

/// The requests of one list: consecutive numbers.
#[derive(Clone, Copy, Drop)]
pub struct ListRange {
    /// The first of them.
    pub first: Id,
    pub count: u32,
}

impl Session {
    /// A new session.
    pub fn new(entity: Name, ticket: SharedTicket) -> Session
        ensures { result ≡ opened entity ticket }
    {
        Session {
            entity,
            ticket,
            epoch: 0,
            tick: 0,
            next: 1,
            is_closed: false,
        }
    }
}

/// Sessions by their numbers, which count from 1. Closed ones keep theirs.
#[derive(Drop)]
pub(crate) struct Sessions {
    all: Vec<Session>,
}

impl Model for Sessions {
    ghost use Rattle.std.specs.Prelude.{List};
    ghost use Rattle.world_front.specs.ControlPlane as front;

    ghost Value = { List front.Session };

    ghost view = { λ a. a.all.items };
}

impl Sessions {
    /// No sessions. It takes no memory.
    pub fn new(alloc: Global) -> Sessions
        ensures { result ≡ [] }
    {
        Sessions {
            all: Vec::new(alloc),
        }
    }

    /// These sessions. It takes no memory.
    pub fn from_vec(all: Vec<Session>) -> Sessions
        ensures { result ≡ all.items }
    {
        Sessions { all }
    }

    /// All of them. It takes no memory.
    pub fn into_vec(self) -> Vec<Session>
        ensures { result.items ≡ self }
    {
        self.all
    }

    /// How many there are, closed ones counted.
    pub fn len(&self) -> usize
        ensures { result ≡ length self.now }
    {
        self.all.len()
    }

    /// The open session of a number, or W1.
    pub fn find(&self, number: u32) -> Result<&Session, WorldFault>
        ensures found { IfOk result (λ session. session_of self.now number ≡ Ok session.now) }
        ensures refused { RefusedExactly (error_of (session_of self.now number)) result }
    {
        if number == 0 {
            return Err(WorldFault::NoSession);
        }
        match self.all.get(number as usize - 1) {
            None => Err(WorldFault::NoSession),
            Some(session) => {
                if session.is_closed {
                    Err(WorldFault::NoSession)
                } else {
                    Ok(session)
                }
            }
        }
    }

    /// Adds a session.
    pub fn push(&mut self, session: Session) -> Result<(), OutOfMemory>
        ensures ok { OnOk result (self.new ≡ self.old ++ session ∷ []) }
        ensures err { OnErr result (self.new ≡ self.old) }
    {
        self.all.push(session)?;
        Ok(())
    }

    /// Gives the open session of a number another ticket, or W1.
    pub fn renew(&mut self, number: u32, ticket: SharedTicket) -> Result<(), WorldFault>
        ensures ok { OnOk result (self.new ≡ session_at self.old number (λ s. record s { ticket = ticket })) }
        ensures refused { RefusedExactly (error_of (session_of self.old number)) result }
        ensures err { OnErr result (self.new ≡ self.old) }
    {
        self.find(number)?;
        let session = &mut self.all[number as usize - 1];
        session.ticket = ticket;
        Ok(())
    }

    /// Closes the open session of a number, or W1.
    pub fn close(&mut self, number: u32) -> Result<(), WorldFault>
        ensures ok { OnOk result (self.new ≡ session_at self.old number (λ s. record s { is_closed = true })) }
        ensures refused { RefusedExactly (error_of (session_of self.old number)) result }
        ensures err { OnErr result (self.new ≡ self.old) }
    {
        self.find(number)?;
        let session = &mut self.all[number as usize - 1];
        session.is_closed = true;
        Ok(())
    }

    /// Records `count` more requests of the asker in its open session. Without one, nothing changes.
    pub fn ask(&mut self, ask: &Ask, count: u32)
        requires room { (s : spec.Session) → session_of self.old ask.now.session ≡ Ok s → s.next + count < numbers }
        ensures { self.new ≡ session_at self.old ask.now.session (asks_more ask.now count) }
    {
        if self.find(ask.session).is_err() {
            return;
        }
        let session = &mut self.all[ask.session as usize - 1];
        session.epoch = ask.epoch;
        session.tick = ask.tick;
        session.next += count;
    }
}
