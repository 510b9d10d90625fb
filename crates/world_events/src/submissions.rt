//! The requests that were submitted.

ghost use Rattle.std.specs.Prelude.{◌≡◌, ◌++◌, [], ◌∷◌, None, OnOk, OnErr, length, take, option_copied};
ghost use Rattle.group_model_whole.specs.Group.{submitted};
ghost use Rattle.world_events.specs.Submitting.{AreNew};

use common_types::{OutOfMemory, TryClone};
use entry_core::{Id, IdHash, Sealed};
use indexmap::IndexMap;
use std::alloc::Global;
use std::marker::Model;

/// Requests in order of submission, each found by its id.
#[derive(Drop)]
pub struct Submissions {
    requests: IndexMap<Id, Sealed, IdHash>,
}

impl Model for Submissions {
    ghost use Rattle.std.specs.Prelude.{List};
    ghost use Rattle.store_core.specs.Request as request;
    ghost use Rattle.world_events.specs.Submitting.{requests_in, AreKeyed};

    ghost Value = { List request.Sealed };

    ghost view = { λ a. requests_in a.requests.entries };

    ghost invariant = { λ a. AreKeyed a.requests.entries };
}

impl Submissions {
    /// No requests. It takes no memory.
    pub fn new(alloc: Global) -> Submissions
        ensures { result ≡ [] }
    {
        Submissions {
            requests: IndexMap::with_hasher(alloc, IdHash::new()),
        }
    }

    /// How many there are.
    pub fn len(&self) -> usize
        ensures { result ≡ length self.now }
    {
        self.requests.len()
    }

    /// The request of an id, if it was submitted.
    pub fn get(&self, id: Id) -> Option<&Sealed>
        ensures { option_copied result ≡ submitted self.now id }
    {
        self.requests.get(&id)
    }

    /// Adds a request of a new id.
    pub fn push(&mut self, request: Sealed) -> Result<(), OutOfMemory>
        requires { submitted self.old request.id ≡ None }
        ensures ok { OnOk result (self.new ≡ self.old ++ request ∷ []) }
        ensures err { OnErr result (self.new ≡ self.old) }
    {
        self.requests.insert(request.id(), request)?;
        Ok(())
    }

    /// Keeps the first `count` requests.
    fn truncate(&mut self, count: usize)
        ensures { self.new ≡ take count self.old }
    {
        self.requests.truncate(count);
    }

    /// Adds a copy of a request of a new id, which shares its parts.
    fn push_copy(&mut self, request: &Sealed) -> Result<(), OutOfMemory>
        requires { submitted self.old request.now.id ≡ None }
        ensures ok { OnOk result (self.new ≡ self.old ++ request.now ∷ []) }
        ensures err { OnErr result (self.new ≡ self.old) }
    {
        let request = request.copy()?;
        self.push(request)
    }

    /// Adds copies of requests of new ids, all or none.
    pub fn append(&mut self, requests: &[Sealed]) -> Result<(), OutOfMemory>
        requires { AreNew self.old requests.now }
        ensures ok { OnOk result (self.new ≡ self.old ++ requests.now) }
        ensures err { OnErr result (self.new ≡ self.old) }
    {
        let before = self.len();
        for request in requests {
            if let Err(error) = self.push_copy(request) {
                self.truncate(before);
                return Err(error);
            }
        }
        Ok(())
    }
}
