//! Why a call on the users is refused.

ghost use Rattle.std.specs.Prelude.{◌≡◌, Some};
ghost use Rattle.auth_db.specs.declared.fault.AuthFault.TheVariants.{OutOfMemory};
ghost use Rattle.auth_db.specs.Printed.{fault_text};

use cap_text::CapFault;
use grant_core::ExpandFault;
use std::alloc::{AllocError, AllocFailed};
use std::fmt;

/// Why a call on the users is refused. Each leaves the users as they were.
#[derive(Clone, Copy, Debug, PartialEq, Eq)]
pub enum AuthFault {
    /// A1: the name is not a type, a dot and an ID of 1 to 64 word bytes.
    BadName,
    /// A2: there is a user of this name.
    Exists,
    /// A3: there is no user of this name.
    NoEntity,
    /// A4: there is a user of this name, with other texts.
    CapsDiffer,
    /// A5: a text is too long, or the osd text has this first fault.
    BadCaps(CapFault),
    /// A6: the osd text's list is not expanded.
    BadProfile(ExpandFault),
    /// A7: a growth was refused.
    OutOfMemory,
    /// A8: there are 1,024 users.
    Limit,
}

impl From<AllocError> for AuthFault {
    ghost from_gives = { λ _ fault. fault ≡ OutOfMemory };

    fn from(_error: AllocError) -> AuthFault {
        AuthFault::OutOfMemory
    }
}

impl<T: Drop> From<AllocFailed<T>> for AuthFault {
    ghost from_gives = { λ _ fault. fault ≡ OutOfMemory };

    fn from(_error: AllocFailed<T>) -> AuthFault {
        AuthFault::OutOfMemory
    }
}

/// Its number, and its name or what it carries, as `A5 C7 NetworkClause at 9`.
impl fmt::Display for AuthFault {
    ghost output = { λ fault. Some (fault_text fault) };

    fn fmt<W: fmt::Write>(&self, f: &mut fmt::Formatter<W>) -> fmt::Result {
        match self {
            AuthFault::BadName => write!(f, "A1 BadName"),
            AuthFault::Exists => write!(f, "A2 Exists"),
            AuthFault::NoEntity => write!(f, "A3 NoEntity"),
            AuthFault::CapsDiffer => write!(f, "A4 CapsDiffer"),
            AuthFault::BadCaps(fault) => write!(f, "A5 {fault}"),
            AuthFault::BadProfile(fault) => write!(f, "A6 {fault}"),
            AuthFault::OutOfMemory => write!(f, "A7 OutOfMemory"),
            AuthFault::Limit => write!(f, "A8 Limit"),
        }
    }
}

impl std::error::Error for AuthFault {}
