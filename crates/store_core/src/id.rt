//! The ids of requests.

ghost use Rattle.std.specs.Prelude.{◌≡◌, ◌+◌, ◌*◌, ◌/◌, ◌%◌, ◌==◌};
ghost use Rattle.std.specs.Cmp.{nat_eq_equiv, partial_equiv_from_equiv};
ghost use Rattle.std.specs.Hash as fed;
ghost use Rattle.store_core.specs.Names.{id_hashes_alike};
ghost use Rattle.store_core.specs.Request.{numbers};

use std::hash::{Hash, Hasher};
use std::marker::Model;

// The numbers of a session's requests are below this.
const NUMBERS: u64 = 1 << 32;

/// Which request: its session, and its number in that session. Contracts see it as one number, the session times
/// 2^32 and the number.
#[derive(Clone, Copy, Debug, Drop)]
pub struct Id {
    session: u32,
    number: u32,
}

impl Model for Id {
    ghost use Rattle.std.specs.Prelude.{ℕ, ◌<◌};
    ghost use Rattle.store_core.specs.Request.{numbers};

    ghost Value = { ℕ };

    ghost use Rattle.store_core.specs.Inside.{id_of, parts_of, parts_of-id_of};

    ghost view = { id_of };

    ghost invariant = { λ id. id.number < numbers };

    ghost inverse = { parts_of };

    ghost inverse_ok = { parts_of-id_of };
}

impl Id {
    /// The id of a session's request.
    pub fn new(session: u32, number: u32) -> Id
        ensures { result ≡ session * numbers + number }
    {
        Id { session, number }
    }

    /// The session.
    pub fn session(self) -> u32
        ensures { result ≡ self / numbers }
    {
        self.session
    }

    /// The request's number in its session.
    pub fn number(self) -> u32
        ensures { result ≡ self % numbers }
    {
        self.number
    }

    // The one number that it stands for.
    fn value(self) -> u64
        ensures { result ≡ self }
    {
        u64::from(self.session) * NUMBERS + u64::from(self.number)
    }
}

impl PartialEq for Id {
    ghost eq = { λ a b. a == b };

    ghost laws = { partial_equiv_from_equiv nat_eq_equiv };

    fn eq(&self, other: &Id) -> bool {
        self.value() == other.value()
    }
}

impl Eq for Id {
    ghost laws = { nat_eq_equiv };
}

impl Hash for Id {
    ghost hash_input = { λ id. fed.u64 id };

    ghost respects_eq = { id_hashes_alike };

    fn hash<H: Hasher>(&self, state: &mut H) {
        self.value().hash(state);
    }
}
