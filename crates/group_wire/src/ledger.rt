//! What was asked of a group and what was answered.

ghost use Rattle.std.specs.Prelude.{◌≡◌, ◌-◌, ◌++◌, [], ◌∷◌, ◌==◌, not, false, length, take, OnOk, OnErr, option_copied};
ghost use Rattle.std.specs.List.{filter};
ghost use Rattle.group_model.specs.Group.{is_submitted, is_answered, answer_of};
ghost use Rattle.group_wire.specs.Places.{IsRising, open_places};

use crate::answers::{Answer, Answers};
use crate::requests::Requests;
use common_types::{OutOfMemory, TryClone};
use entry_core::{Id, Reply, Sealed};
use std::alloc::Global;
use std::marker::Model;

/// Requests in order of submission, the answers to them, and the places of the requests that have no answer, in order: so
/// these are found without a look at the others.
pub struct Ledger {
    requests: Requests,
    answers: Answers,
    unanswered: Vec<usize>,
}

impl Drop for Ledger {
    fn drop(self) {
        let Ledger {
            requests: _,
            answers: _,
            unanswered: _,
        } = self;
    }
}

impl Model for Ledger {
    ghost use Rattle.std.specs.Prelude.{◌≡◌};
    ghost use Rattle.group_wire.specs.Places as places;

    ghost Value = { places.Ledger };

    ghost view = { λ a. record { requests = a.requests; answers = a.answers } };

    ghost invariant = { λ a. a.unanswered.items ≡ places.open_places a.requests a.answers };
}

/// Takes a place out of places that rise.
fn take_out(places: &mut Vec<usize>, place: usize)
    requires { IsRising 0 places.old.items }
    ensures { places.new.items ≡ filter (λ k. not (k == place)) places.old.items }
{
    match places.as_slice().binary_search(&place) {
        Ok(index) => {
            let _ = places.remove(index);
        }
        Err(_) => {}
    }
}

impl Ledger {
    /// No requests and no answers. It takes no memory.
    pub fn new(alloc: Global) -> Ledger
        ensures requests { result.requests ≡ [] }
        ensures answers { result.answers ≡ [] }
    {
        Ledger {
            requests: Requests::new(alloc),
            answers: Answers::new(alloc),
            unanswered: Vec::new(alloc),
        }
    }

    /// The requests that were submitted, in order.
    pub fn requests(&self) -> &[Sealed]
        ensures { result.now ≡ self.now.requests }
    {
        self.requests.as_slice()
    }

    /// The places of the requests that have no answer, in order.
    pub(crate) fn unanswered(&self) -> &[usize]
        ensures { result.now ≡ open_places self.now.requests self.now.answers }
    {
        let _requests = &self.requests;
        self.unanswered.as_slice()
    }

    /// Whether a request of this id was submitted.
    pub fn has(&self, id: Id) -> bool
        ensures { result ≡ is_submitted self.now.requests id }
    {
        self.requests.has(id)
    }

    /// Whether the request of this id was answered.
    pub fn is_answered(&self, id: Id) -> bool
        ensures { result ≡ is_answered self.now.answers id }
    {
        self.answers.has(id)
    }

    /// The answer to the request of this id.
    pub fn answer(&self, id: Id) -> Option<&Reply>
        ensures { option_copied result ≡ answer_of self.now.answers id }
    {
        self.answers.get(id)
    }

    /// Adds a request of a new id. The only error is out of memory, and then nothing changes.
    pub fn submit(&mut self, request: Sealed) -> Result<(), OutOfMemory>
        requires { is_submitted self.old.requests request.id ≡ false }
        ensures requests { OnOk result (self.new.requests ≡ self.old.requests ++ request ∷ []) }
        ensures answers { OnOk result (self.new.answers ≡ self.old.answers) }
        ensures err { OnErr result (self.new ≡ self.old) }
    {
        let place = self.requests.as_slice().len();
        let answered = self.answers.has(request.id());
        self.unanswered.reserve(1)?;
        self.requests.push(request)?;
        if !answered {
            self.unanswered.push_reserved(place);
        }
        Ok(())
    }

    /// Takes the last request away, if there is one. It takes no memory.
    pub fn undo_submit(&mut self)
        ensures requests { self.new.requests ≡ take (length self.old.requests - 1) self.old.requests }
        ensures answers { self.new.answers ≡ self.old.answers }
    {
        let answered = match self.requests.as_slice().last() {
            Some(request) => self.answers.has(request.id()),
            None => return,
        };
        self.requests.pop();
        if !answered {
            let left = self.unanswered.as_slice().len().saturating_sub(1);
            self.unanswered.truncate(left);
        }
    }

    /// Adds the answer to a request that has none. The only error is out of memory, and then nothing changes.
    pub fn hear(&mut self, answer: Answer) -> Result<(), OutOfMemory>
        requires { is_answered self.old.answers answer.id ≡ false }
        ensures requests { OnOk result (self.new.requests ≡ self.old.requests) }
        ensures answers { OnOk result (self.new.answers ≡ self.old.answers ++ answer ∷ []) }
        ensures err { OnErr result (self.new ≡ self.old) }
    {
        let id = answer.id;
        self.answers.push(answer)?;
        match self.requests.place_of(id) {
            Some(place) => take_out(&mut self.unanswered, place),
            None => {}
        }
        Ok(())
    }
}

impl TryClone for Ledger {
    fn copy(&self) -> Result<Ledger, OutOfMemory> {
        Ok(Ledger {
            requests: self.requests.copy()?,
            answers: self.answers.copy()?,
            unanswered: Vec::from_slice(*self.unanswered.allocator(), self.unanswered.as_slice())?,
        })
    }
}
