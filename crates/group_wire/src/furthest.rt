//! The copy that is furthest on.

ghost use Rattle.std.specs.Prelude.{◌≡◌};
ghost use Rattle.group_model_whole.specs.Choice.{is_better};
ghost use Rattle.group_wire.specs.Furthest.{whole_offer};
ghost use Rattle.group_wire.specs.Furthest.{furthest as furthest_log};

use entry_core::Entry;
use peer_core::Daemon;

/// Whether the first copy is further on.
fn is_further(one: &Daemon, other: &Daemon) -> bool
    ensures { result ≡ is_better (whole_offer one.now) (whole_offer other.now) }
{
    let length = one.log().len();
    let other_length = other.log().len();
    one.base() > other.base()
        || one.base() == other.base()
            && (length > other_length || length == other_length && one.number() < other.number())
}

/// The log of the copy that is furthest on: it begins with all that was decided. It takes no memory.
pub fn furthest(copies: &[Daemon]) -> &[Entry]
    ensures { result.now ≡ furthest_log copies.now }
{
    let Some((first, rest)) = copies.split_first() else {
        return &[];
    };
    let mut best = first;
    for copy in rest {
        if is_further(copy, best) {
            best = copy;
        }
    }
    best.log().entries()
}
