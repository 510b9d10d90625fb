//! The messages on their way.

ghost use Rattle.std.specs.Prelude.{◌≡◌, ◌+◌, ◌-◌, ◌<◌, ◌≤◌, ◌++◌, [], length, take, remove, IfOk, OnOk, OnErr, vec_len};

use common_types::{Items, OutOfMemory, TryClone};
use peer_core::Sent;
use std::alloc::Global;
use std::marker::Model;

/// How many messages that were taken away may stand in front of a short wire.
const MAX_PASSED: usize = 32;

/// Messages in order of sending. The first is taken away at once: it stays in front, and is dropped later with others.
pub struct Wire {
    sent: Vec<Sent>,
    passed: usize,
}

impl Drop for Wire {
    fn drop(self) {
        let Wire { sent: _, passed: _ } = self;
    }
}

impl Model for Wire {
    ghost use Rattle.group_wire.specs.WireRoom.{WireRoom};

    ghost Value = { WireRoom };

    ghost use Rattle.std.specs.Prelude.{◌-◌, ◌≤◌, drop, length};
    ghost use Rattle.std.specs.Vec.{vec_len, vec_capacity};

    ghost view = { λ a. record { sent = drop a.passed a.sent.items; room = vec_capacity a.sent - vec_len a.sent } };

    ghost invariant = { λ a. a.passed ≤ length a.sent.items };
}

impl Wire {
    /// No messages. It takes no memory.
    pub fn new(alloc: Global) -> Wire
        ensures { result.sent ≡ [] }
    {
        Wire {
            sent: Vec::new(alloc),
            passed: 0,
        }
    }

    /// The messages, in order of sending.
    pub fn as_slice(&self) -> &[Sent]
        ensures { result.now ≡ self.now.sent }
    {
        &self.sent.as_slice()[self.passed..]
    }

    /// Makes room for `more` more messages. The only error is out of memory.
    pub fn reserve(&mut self, more: usize) -> Result<(), OutOfMemory>
        ensures room { OnOk result (more ≤ self.new.room) }
        ensures same { self.new.sent ≡ self.old.sent }
    {
        self.sent.reserve(more)
    }

    /// Adds messages for which there is room. It takes no memory.
    pub fn append(&mut self, mut more: Vec<Sent>)
        requires { vec_len more ≤ self.old.room }
        ensures { self.new.sent ≡ self.old.sent ++ more.items }
    {
        let _ = self.sent.append(&mut more);
    }

    /// Adds messages, if there is memory for them. The only error is out of memory, and then nothing changes.
    pub fn extend(&mut self, mut more: Vec<Sent>) -> Result<(), OutOfMemory>
        ensures ok { OnOk result (self.new.sent ≡ self.old.sent ++ more.items) }
        ensures err { OnErr result (self.new.sent ≡ self.old.sent) }
    {
        self.sent.append(&mut more)
    }

    /// Takes the message at place k away, counted from 0. It takes no memory.
    pub fn remove(&mut self, k: usize)
        requires { k < length self.old.sent }
        ensures { self.new.sent ≡ remove self.old.sent k }
    {
        if k > 0 {
            let _ = self.sent.remove(self.passed + k);
            return;
        }
        self.passed += 1;
        self.drop_passed();
    }

    /// Takes the last message away, if there is one. It takes no memory.
    pub fn pop(&mut self)
        ensures { self.new.sent ≡ take (length self.old.sent - 1) self.old.sent }
    {
        let left = self.sent.as_slice().len();
        if self.passed < left {
            self.sent.truncate(left - 1);
        }
    }

    /// Drops what was passed, once it is enough to be worth it.
    fn drop_passed(&mut self)
        ensures { self.new.sent ≡ self.old.sent }
    {
        if self.passed < MAX_PASSED || self.passed <= self.sent.len() / 2 {
            return;
        }
        let left = self.sent.len() - self.passed;
        self.sent.rotate_left(self.passed);
        self.sent.truncate(left);
        self.passed = 0;
    }

    /// A copy. The only error is out of memory.
    pub fn copy(&self) -> Result<Wire, OutOfMemory>
        ensures { IfOk result (λ w. w.sent ≡ self.now.sent) }
    {
        let mut sent = Items::new(*self.sent.allocator());
        for message in self.as_slice() {
            sent.push(message.copy()?)?;
        }
        Ok(Wire {
            sent: sent.into_vec(),
            passed: 0,
        })
    }
}
