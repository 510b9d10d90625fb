//! What a locked value stands for, and what one turn does to it.
ghost use Rattle.std.specs.Prelude.{◌≡◌};

/// A value that may lie under a [`TurnLock`](crate::TurnLock): it stands for a list of entries, one
/// for each turn.
///
/// A value whose type has a model of its own writes `type State = Self; ghost state = { λ s. s };`.
pub trait Recorded {
    /// What clauses see of the value. No value of this type is made.
    type State;

    /// What one turn adds to the list. It should have a case for a turn in which nothing happened,
    /// since a refused step has an entry too. No value of this type is made.
    type Entry;

    // the state of a value
    ghost state: { Self → Self.State };

    // the state after one more entry
    ghost after: { Self.State → Self.Entry → Self.State };

    // which entries a state can have: each entry of the list is one of the state that it found
    ghost fits: { Self.State → Self.Entry → Type 0 } = { λ _ _. Unit {0} };
}

/// What one turn does, once. The turn owns it, so it may hold what it gives away, as an `Option`
/// that `run` empties.
pub trait Step {
    /// The value under the lock.
    type Value: Recorded;

    /// What the turn answers, whatever the step decided.
    type Answer;

    // Which entry the run stands for: of the step, the state that it finds, and the answer.
    ghost entry: { Self → Self.Value.State → Self.Answer → Self.Value.Entry };

    // What the answer says of the state that the step finds.
    ghost tells: { Self → Self.Value.State → Self.Answer → Type 0 };

    /// Changes the value as its entry says, and answers. It runs while every other seat waits, so
    /// keep it short, and let it wait for nobody.
    fn run(&mut self, value: &mut Self::Value) -> Self::Answer
        ensures keeps { Self.Value.state value.new ≡ Self.Value.after (Self.Value.state value.old) (entry self.old (Self.Value.state value.old) result) }
        ensures tells { tells self.old (Self.Value.state value.old) result }
        ensures fits { Self.Value.fits (Self.Value.state value.old) (entry self.old (Self.Value.state value.old) result) };
}
