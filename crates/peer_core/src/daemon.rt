//! One daemon's copy of one group, as others see it.

ghost use Rattle.std.specs.Prelude.{◌≡◌, length, IfOk, OnErr};
ghost use Rattle.peer_core.specs.Steps.{blank, restarted};
ghost use Rattle.peer_core.specs.Decided.{decided_by};
ghost use Rattle.peer_core.specs.Copy.{copy_step, retransmit};

use crate::state::State;
use common_types::{Items, OutOfMemory, TryClone};
use entry_core::{Entry, Log};
use group_messages::{Message, Role, Sent};
use std::alloc::Global;
use std::marker::Model;

/// One daemon's copy of one placement group (Ceph Peering and the RADOS paper, by this project's profile), whose peering
/// sends of a log what the other lacks.
///
/// It takes one message at a time, and says what is sent. Where memory is refused, a call leaves it as it was.
#[derive(Drop)]
pub struct Daemon {
    state: State,
}

impl Model for Daemon {
    ghost use Rattle.peer_core.specs.Types as types;

    ghost Value = { types.Copy };

    ghost view = { λ daemon. daemon.state };
}

impl Daemon {
    /// The copy of the daemon of a number, 0 to 15: of nothing, and idle. A group takes no requests in an interval whose set has fewer than `min_size` members.
    pub fn new(alloc: Global, number: u8, min_size: usize) -> Daemon
        ensures { result ≡ blank min_size number }
    {
        Daemon {
            state: State::new(alloc, number, min_size),
        }
    }

    /// Takes a message, and says what is sent. A message that fits no rule changes nothing.
    ///
    /// A request, an append and its answer take no longer as the log grows, nor do a query, an info, an install and the
    /// choice of a log where nobody lacks anything. Where this copy lacks something of the chosen log, the choice and the
    /// install copy its log.
    pub fn on(&mut self, message: Message) -> Result<Items<Sent>, OutOfMemory>
        ensures ok { IfOk result (λ sent. copy_step self.old message ≡ record { copy = self.new; sent = sent }) }
        ensures err { OnErr result (self.new ≡ self.old) }
    {
        self.state.on(message)
    }

    /// Forgets all but what is kept through a restart: the promise, the base and the log.
    pub fn restart(&mut self)
        ensures { self.new ≡ restarted self.old }
    {
        self.state.restart();
    }

    /// What it sends again, to those who did not answer yet.
    pub fn kick(&self) -> Result<Items<Sent>, OutOfMemory>
        ensures { IfOk result (λ sent. sent ≡ retransmit self.now) }
    {
        self.state.retransmit()
    }

    /// Which daemon this is.
    pub fn number(&self) -> u8
        ensures { result ≡ self.now.number }
    {
        self.state.number
    }

    /// The latest interval that it promised to follow, or 0.
    pub fn promise(&self) -> u64
        ensures { result ≡ self.now.promise }
    {
        self.state.promise
    }

    /// The interval that its log began with, or 0.
    pub fn base(&self) -> u64
        ensures { result ≡ self.now.base }
    {
        self.state.base
    }

    /// All entries that it holds, decided or not.
    pub fn log(&self) -> &Log
        ensures { result.now ≡ self.now.log }
    {
        &self.state.log
    }

    /// What it does at present.
    pub fn role(&self) -> &Role
        ensures { result.now ≡ self.now.role }
    {
        &self.state.role
    }

    /// The entries that it shows to be decided: where it is active, all of its log but the last entry while that is in flight; else none.
    pub fn decided(&self) -> &[Entry]
        ensures { result.now ≡ decided_by self.now.role self.now.log }
    {
        let entries = self.state.log.entries();
        match &self.state.role {
            Role::Active(None) => entries,
            Role::Active(Some(_)) => &entries[..entries.len().saturating_sub(1)],
            _ => &[],
        }
    }

    /// How many requests wait for their turn.
    pub fn waiting_count(&self) -> usize
        ensures { result ≡ length self.now.waiting }
    {
        self.state.waiting.len()
    }
}

impl TryClone for Daemon {
    fn copy(&self) -> Result<Daemon, OutOfMemory> {
        Ok(Daemon {
            state: self.state.copy()?,
        })
    }
}
