//! What a daemon has of its group.

ghost use Rattle.std.specs.Prelude.{◌≡◌};

use common_types::{OutOfMemory, TryClone};
use entry_core::Log;
use group_messages::{IntervalSets, Queue, Role};
use std::alloc::Global;

/// A daemon's copy of a group: the promise, the base and the log, which a restart keeps, and what it does at present.
pub struct State {
    pub number: u8,
    pub min_size: usize,
    pub promise: u64,
    pub base: u64,
    pub log: Log,
    pub known: IntervalSets,
    pub role: Role,
    pub waiting: Queue,
}

impl Drop for State {
    fn drop(self) {
        let State {
            number: _,
            min_size: _,
            promise: _,
            base: _,
            log: _,
            known: _,
            role: _,
            waiting: _,
        } = self;
    }
}

impl State {
    ghost use Rattle.std.specs.Prelude.{◌≡◌};
    ghost use Rattle.peer_core.specs.Steps.{blank, restarted};
    ghost use Rattle.peer_core.specs.Copy.{promise_interval};

    /// A copy of nothing.
    pub fn new(alloc: Global, number: u8, min_size: usize) -> State
        ensures { result ≡ blank min_size number }
    {
        State {
            number,
            min_size,
            promise: 0,
            base: 0,
            log: Log::new(alloc),
            known: IntervalSets::new(),
            role: Role::Idle,
            waiting: Queue::new(alloc),
        }
    }

    /// Forgets all but the promise, the base and the log.
    pub fn restart(&mut self)
        ensures { self.new ≡ restarted self.old }
    {
        let alloc = self.log.allocator();
        self.known = IntervalSets::new();
        self.role = Role::Idle;
        self.waiting = Queue::new(alloc);
    }

    /// Promises an interval, and drops the role, where the interval is new.
    pub fn promise_interval(&mut self, interval: u64)
        ensures { self.new ≡ promise_interval self.old interval }
    {
        if self.promise < interval {
            self.promise = interval;
            self.role = Role::Idle;
            self.waiting = Queue::new(self.log.allocator());
        }
    }
}

impl TryClone for State {
    fn copy(&self) -> Result<State, OutOfMemory> {
        Ok(State {
            number: self.number,
            min_size: self.min_size,
            promise: self.promise,
            base: self.base,
            log: self.log.copy()?,
            known: self.known.copy()?,
            role: self.role.copy()?,
            waiting: self.waiting.copy()?,
        })
    }
}
