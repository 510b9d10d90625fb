//! Which rule a capability text breaks.

ghost use Rattle.std.specs.Prelude.{◌≡◌};
ghost use Rattle.cap_grants.specs.declared.fault_kind.FaultKind.TheVariants as kinds;

use std::alloc::{AllocError, AllocFailed};

/// Which rule a text breaks first. The rules and their order are this project's profile.
#[derive(Clone, Copy, Debug, PartialEq, Eq)]
pub enum FaultKind {
    /// C1: the text has more than 4,096 bytes.
    TooLong,
    /// C2: more than 64 grants, told at the first byte of the next one.
    TooManyGrants,
    /// C3: a grant begins with neither `allow` nor `profile`, or goes on behind its last part.
    UnknownWord,
    /// C4: no access stands where one must.
    BadAccess,
    /// C5: a clause that may not come here, or no `=` in a tag.
    BadMatch,
    /// C6: no value, or what begins no token.
    BadWord,
    /// C7: a `network` clause, which grants nothing here and is never passed over.
    NetworkClause,
    /// C8: an allocation failed; the text was not checked.
    OutOfMemory,
}

impl From<AllocError> for FaultKind {
    ghost from_gives = { λ _ e. e ≡ kinds.OutOfMemory };

    fn from(_error: AllocError) -> FaultKind {
        FaultKind::OutOfMemory
    }
}

impl<T: Drop> From<AllocFailed<T>> for FaultKind {
    ghost from_gives = { λ _ e. e ≡ kinds.OutOfMemory };

    fn from(_error: AllocFailed<T>) -> FaultKind {
        FaultKind::OutOfMemory
    }
}
