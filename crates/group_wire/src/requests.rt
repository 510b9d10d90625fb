//! The requests that were submitted to a group.

ghost use Rattle.std.specs.Prelude.{◌≡◌, ◌-◌, ◌++◌, [], ◌∷◌, false, length, take, OnOk, OnErr, MatchOption};
ghost use Rattle.group_model.specs.Group.{is_submitted};
ghost use Rattle.group_wire.specs.Places.{IsPlaceOf};

use common_types::{Items, OutOfMemory, TryClone};
use entry_core::{Id, IdHash, Sealed};
use indexmap::IndexSet;
use std::alloc::Global;
use std::marker::Model;

/// Requests in order of submission, and their ids, so that one is found without a search.
pub(crate) struct Requests {
    all: Vec<Sealed>,
    ids: IndexSet<Id, IdHash>,
}

impl Drop for Requests {
    fn drop(self) {
        let Requests { all: _, ids: _ } = self;
    }
}

impl Model for Requests {
    ghost use Rattle.std.specs.Prelude.{List, ◌≡◌, map};
    ghost use Rattle.store_core.specs.Request as request;

    ghost Value = { List request.Sealed };

    ghost view = { λ a. a.all.items };

    ghost invariant = { λ a. a.ids.keys ≡ map (λ s. s.id) a.all.items };
}

impl Requests {
    pub fn new(alloc: Global) -> Requests
        ensures { result ≡ [] }
    {
        Requests {
            all: Vec::new(alloc),
            ids: IndexSet::with_hasher(alloc, IdHash::new()),
        }
    }

    pub fn as_slice(&self) -> &[Sealed]
        ensures { result.now ≡ self.now }
    {
        self.all.as_slice()
    }

    /// Whether a request of this id was submitted.
    pub fn has(&self, id: Id) -> bool
        ensures { result ≡ is_submitted self.now id }
    {
        let _all = &self.all;
        self.ids.contains(&id)
    }

    /// The place of the request of this id.
    pub fn place_of(&self, id: Id) -> Option<usize>
        ensures { MatchOption result (is_submitted self.now id ≡ false) (λ k. IsPlaceOf self.now id k) }
    {
        let _all = &self.all;
        // `len` is called for its clause that the ids differ.
        let _count = self.ids.len();
        match self.ids.get_index_of(&id) {
            Some(place) => Some(place),
            None => None,
        }
    }

    /// Adds a request of a new id.
    pub fn push(&mut self, request: Sealed) -> Result<(), OutOfMemory>
        requires { is_submitted self.old request.id ≡ false }
        ensures ok { OnOk result (self.new ≡ self.old ++ request ∷ []) }
        ensures err { OnErr result (self.new ≡ self.old) }
    {
        self.all.reserve(1)?;
        self.ids.insert(request.id())?;
        self.all.push_reserved(request);
        Ok(())
    }

    /// Takes the last request away.
    pub fn pop(&mut self)
        ensures { self.new ≡ take (length self.old - 1) self.old }
    {
        let count = self.all.len().saturating_sub(1);
        self.ids.truncate(count);
        self.all.truncate(count);
    }
}

impl TryClone for Requests {
    fn copy(&self) -> Result<Requests, OutOfMemory> {
        let mut all = Items::new(*self.all.allocator());
        for request in self.all.as_slice() {
            all.push(request.copy()?)?;
        }
        Ok(Requests {
            all: all.into_vec(),
            ids: self.ids.clone()?,
        })
    }
}
