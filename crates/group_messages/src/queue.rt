//! The requests that wait for their turn.

ghost use Rattle.std.specs.Prelude.{◌≡◌, ◌+◌, ◌<◌, ◌==◌, ◌++◌, [], ◌∷◌, length, drop, OnOk, OnErr, slice_index_or};
ghost use Rattle.std.specs.List.{list_any};

use common_types::{OutOfMemory, TryClone};
use entry_core::{Id, IdHash, Sealed};
use std::alloc::Global;
use std::collections::{HashSet, VecDeque};
use std::marker::Model;

/// Requests in their order, which contracts see as a list.
///
/// Of an id that never waited it is known at once that it does not wait.
pub struct Queue {
    requests: VecDeque<Sealed>,
    // the ids that wait, and some that waited
    seen: HashSet<Id, IdHash>,
}

impl Drop for Queue {
    fn drop(self) {
        let Queue {
            requests: _,
            seen: _,
        } = self;
    }
}

impl Model for Queue {
    ghost use Rattle.std.specs.Prelude.{List};
    ghost use Rattle.store_core.specs.Request.{Sealed};

    ghost Value = { List Sealed };

    ghost use Rattle.group_messages.specs.Waiting.{KnowsWaiting};

    ghost view = { λ q. q.requests.items };

    ghost invariant = { λ q. KnowsWaiting q.requests.items q.seen };
}

impl Queue {
    /// No requests. It takes no memory.
    pub fn new(alloc: Global) -> Queue
        ensures { result ≡ [] }
    {
        Queue {
            requests: VecDeque::new(alloc),
            seen: HashSet::with_hasher(alloc, IdHash::new()),
        }
    }

    /// How many requests wait.
    pub fn len(&self) -> usize
        ensures { result ≡ length self.now }
    {
        self.requests.len()
    }

    /// The request at a place, counted from 0.
    pub fn at(&self, place: usize) -> &Sealed
        requires { place < length self.now }
        ensures { result.now ≡ slice_index_or self.now place result.now }
    {
        &self.requests[place]
    }

    /// Whether a request of this id waits.
    pub fn has(&self, id: Id) -> bool
        ensures { result ≡ list_any (λ w. w.id == id) self.now }
    {
        self.seen.contains(&id) && self.requests.iter().any(|w| w.id() == id)
    }

    /// Puts a request behind the others. The only error is out of memory, which leaves all as it was.
    pub fn push_back(&mut self, request: Sealed) -> Result<(), OutOfMemory>
        ensures ok { OnOk result (self.new ≡ self.old ++ request ∷ []) }
        ensures err { OnErr result (self.new ≡ self.old) }
    {
        self.seen.insert(request.id())?;
        self.requests.push_back(request)?;
        Ok(())
    }

    /// Puts a request before the others. The only error is out of memory, which leaves all as it was.
    pub fn push_front(&mut self, request: Sealed) -> Result<(), OutOfMemory>
        ensures ok { OnOk result (self.new ≡ request ∷ self.old) }
        ensures err { OnErr result (self.new ≡ self.old) }
    {
        self.seen.insert(request.id())?;
        self.requests.push_front(request)?;
        Ok(())
    }

    /// Leaves out the request at a place, and all before it.
    pub fn skip_through(&mut self, place: usize)
        ensures { self.new ≡ drop (place + 1) self.old }
    {
        self.skip(place);
        self.skip(1);
    }

    /// Leaves the first requests out, that many.
    pub fn skip(&mut self, count: usize)
        ensures { self.new ≡ drop count self.old }
    {
        for _ in 0..count {
            let _ = self.requests.pop_front();
        }
    }
}

impl TryClone for Queue {
    fn copy(&self) -> Result<Queue, OutOfMemory> {
        let mut queue = Queue::new(*self.requests.allocator());
        for request in &self.requests {
            queue.push_back(request.copy()?)?;
        }
        Ok(queue)
    }
}
