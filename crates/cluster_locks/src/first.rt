//! Which of several faults is reported.

ghost use Rattle.std.specs.Prelude.{◌≡◌};
ghost use Rattle.std.specs.Option.{option_or};

/// The first of two faults, if there is one.
pub fn first_of<F: Drop>(earlier: Option<F>, later: Option<F>) -> Option<F>
    ensures { result ≡ option_or earlier later }
{
    earlier.or(later)
}
