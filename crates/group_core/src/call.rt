//! Calls by a value, which says which one it is.

ghost use Rattle.std.specs.Prelude.{◌≡◌, ℕ, IsOk, None};
ghost use Rattle.group_model.specs.Group.{refusal_of, Lose};
ghost use Rattle.group_model.specs.Reached.{Steps};
ghost use Rattle.group_core.specs.Calls.{event_of};

use crate::group::Group;
use group_messages::GroupFault;

/// What happens to a group between requests and moves. A message is named by its place on the wire, counted from 0.
#[derive(Clone, Copy, Drop)]
pub enum GroupCall {
    Deliver(usize),
    Lose(usize),
    Repeat(usize),
    Kick,
}

impl Group {
    /// Carries out a call, as the method of its name does, and is refused as that is.
    pub fn call(&mut self, what: GroupCall) -> Result<(), GroupFault>
        ensures steps { Steps self.old (event_of what) result self.new }
        ensures free { (place : ℕ) → what ≡ GroupCall.Lose place → refusal_of self.old (Lose place) ≡ None → IsOk result }
    {
        match what {
            GroupCall::Deliver(place) => self.deliver(place),
            GroupCall::Lose(place) => self.lose(place),
            GroupCall::Repeat(place) => self.repeat(place),
            GroupCall::Kick => self.kick(),
        }
    }
}
