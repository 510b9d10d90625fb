//! Why a text gives no list of grants, or a list is not expanded.

ghost use Rattle.std.specs.Prelude.{◌≡◌, Some};
ghost use Rattle.ceph_text.specs.declared.fault.CephFault.TheVariants.{OutOfMemory};
ghost use Rattle.ceph_text.specs.FaultText.{fault_text};

use std::alloc::{AllocError, AllocFailed};
use std::error::Error;
use std::fmt;

/// Why a text gives no list of grants, or why a list is not expanded.
#[derive(Clone, Copy, Debug, PartialEq, Eq)]
pub enum CephFault {
    /// Ceph refuses the text. `at` is the byte, counted from 0, behind the last whole grant that was read from its front.
    Refused { at: usize },
    /// The text has more than 1,048,576 bytes.
    TooLong,
    /// More than 4,096 grants can be read from the text's front.
    TooManyGrants,
    /// The list expands to more than 16,384 grants.
    TooLarge,
    /// An allocation failed. Nothing is left.
    OutOfMemory,
}

impl From<AllocError> for CephFault {
    ghost from_gives = { λ _ e. e ≡ OutOfMemory };

    fn from(_error: AllocError) -> CephFault {
        CephFault::OutOfMemory
    }
}

impl<T: Drop> From<AllocFailed<T>> for CephFault {
    ghost from_gives = { λ _ e. e ≡ OutOfMemory };

    fn from(_error: AllocFailed<T>) -> CephFault {
        CephFault::OutOfMemory
    }
}

/// Its number and its name, and the byte where reading stopped, as `E1 CephRefuses at 9`.
impl fmt::Display for CephFault {
    ghost output = { λ fault. Some (fault_text fault) };

    fn fmt<W: fmt::Write>(&self, f: &mut fmt::Formatter<W>) -> fmt::Result {
        match self {
            CephFault::Refused { at } => write!(f, "E1 CephRefuses at {at}"),
            CephFault::TooLong => f.write_str("E2 TextTooLong"),
            CephFault::TooManyGrants => f.write_str("E3 TooManyGrants"),
            CephFault::TooLarge => f.write_str("E4 TooLarge"),
            CephFault::OutOfMemory => f.write_str("E5 OutOfMemory"),
        }
    }
}

impl Error for CephFault {}
