//! The answers that reached the client.

ghost use Rattle.std.specs.Prelude.{◌≡◌, ◌+◌, ◌<◌, ◌++◌, [], ◌∷◌, false, OnOk, OnErr, option_copied};
ghost use Rattle.group_model.specs.Group.{is_answered, answer_of};

use crate::element_at::at;
use common_types::{Items, OutOfMemory, TryClone};
use entry_core::{Id, IdHash, Reply};
use indexmap::IndexSet;
use std::alloc::Global;
use std::marker::Model;

/// The first reply to the request of an id.
pub struct Answer {
    pub id: Id,
    pub reply: Reply,
}

impl Drop for Answer {
    fn drop(self) {
        let Answer { id: _, reply: _ } = self;
    }
}

impl Model for Answer {
    ghost use Rattle.group_messages.specs.Answers as answer;

    ghost Value = { answer.Answer };

    ghost view = { λ a. record { id = a.id; reply = a.reply } };
}

impl TryClone for Answer {
    fn copy(&self) -> Result<Answer, OutOfMemory> {
        Ok(Answer {
            id: self.id,
            reply: self.reply.copy()?,
        })
    }
}

/// Answers in the order in which they came, and their ids, so that one is found without a search.
pub(crate) struct Answers {
    all: Vec<Answer>,
    ids: IndexSet<Id, IdHash>,
}

impl Drop for Answers {
    fn drop(self) {
        let Answers { all: _, ids: _ } = self;
    }
}

impl Model for Answers {
    ghost use Rattle.std.specs.Prelude.{List, ◌≡◌, map};
    ghost use Rattle.group_messages.specs.Answers as answer;

    ghost Value = { List answer.Answer };

    ghost view = { λ a. a.all.items };

    ghost invariant = { λ a. a.ids.keys ≡ map (λ s. s.id) a.all.items };
}

impl Answers {
    pub fn new(alloc: Global) -> Answers
        ensures { result ≡ [] }
    {
        Answers {
            all: Vec::new(alloc),
            ids: IndexSet::with_hasher(alloc, IdHash::new()),
        }
    }

    /// Whether the request of this id was answered.
    pub fn has(&self, id: Id) -> bool
        ensures { result ≡ is_answered self.now id }
    {
        let _all = &self.all;
        self.ids.contains(&id)
    }

    /// The answer to the request of this id.
    pub fn get(&self, id: Id) -> Option<&Reply>
        ensures { option_copied result ≡ answer_of self.now id }
    {
        match self.ids.get_index_of(&id) {
            Some(place) => match at(self.all.as_slice(), place) {
                Some(answer) => Some(&answer.reply),
                None => None,
            },
            None => None,
        }
    }

    /// Adds the answer to a request that has none.
    pub fn push(&mut self, answer: Answer) -> Result<(), OutOfMemory>
        requires { is_answered self.old answer.id ≡ false }
        ensures ok { OnOk result (self.new ≡ self.old ++ answer ∷ []) }
        ensures err { OnErr result (self.new ≡ self.old) }
    {
        self.all.reserve(1)?;
        self.ids.insert(answer.id)?;
        self.all.push_reserved(answer);
        Ok(())
    }
}

impl TryClone for Answers {
    fn copy(&self) -> Result<Answers, OutOfMemory> {
        let mut all = Items::new(*self.all.allocator());
        for answer in self.all.as_slice() {
            all.push(answer.copy()?)?;
        }
        Ok(Answers {
            all: all.into_vec(),
            ids: self.ids.clone()?,
        })
    }
}
