//! Why an event of a group is refused.

ghost use Rattle.std.specs.Prelude.{◌≡◌, Some};
ghost use Rattle.group_messages.specs.declared.fault.GroupFault.TheVariants.{OutOfMemory};
ghost use Rattle.group_messages.specs.Printed.{fault_text};

use std::alloc::{AllocError, AllocFailed};
use std::fmt;

/// Why a call on a group is refused.
#[derive(Clone, Copy, Debug, PartialEq, Eq)]
pub enum GroupFault {
    /// P1: no message is on its way at this place, counted from 0.
    NoMessage(usize),
    /// P2: the message was to a daemon that is down. It is dropped, and nothing else changes.
    Unreachable,
    /// P3: the group has 16,384 requests, or 1,024 intervals.
    Full,
    /// P4: a growth was refused.
    OutOfMemory,
    /// P5: a request of this id was submitted here before.
    Doubled,
}

impl From<AllocError> for GroupFault {
    ghost from_gives = { λ _ fault. fault ≡ OutOfMemory };

    fn from(_error: AllocError) -> GroupFault {
        GroupFault::OutOfMemory
    }
}

impl<T: Drop> From<AllocFailed<T>> for GroupFault {
    ghost from_gives = { λ _ fault. fault ≡ OutOfMemory };

    fn from(_error: AllocFailed<T>) -> GroupFault {
        GroupFault::OutOfMemory
    }
}

/// Its number, its name, and a place that it carries, as `P1 NoMessage 0`.
impl fmt::Display for GroupFault {
    ghost output = { λ fault. Some (fault_text fault) };

    fn fmt<W: fmt::Write>(&self, f: &mut fmt::Formatter<W>) -> fmt::Result {
        match self {
            GroupFault::NoMessage(place) => write!(f, "P1 NoMessage {place}"),
            GroupFault::Unreachable => write!(f, "P2 Unreachable"),
            GroupFault::Full => write!(f, "P3 Full"),
            GroupFault::OutOfMemory => write!(f, "P4 OutOfMemory"),
            GroupFault::Doubled => write!(f, "P5 Doubled"),
        }
    }
}

impl std::error::Error for GroupFault {}
