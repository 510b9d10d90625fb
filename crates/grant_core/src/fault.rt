//! Why a profile or a list is refused.

ghost use Rattle.std.specs.Prelude.{◌≡◌, Some};
ghost use Rattle.grant_core.specs.declared.fault.ExpandFault.TheVariants.{OutOfMemory};
ghost use Rattle.grant_core.specs.Text.{fault_text};

use std::alloc::{AllocError, AllocFailed};
use std::fmt;

/// Why a profile is not added to a table, or a list is not expanded. Either leaves all values as they were.
#[derive(Clone, Copy, Debug, PartialEq, Eq)]
pub enum ExpandFault {
    /// The grant of this number, counted from 1, uses a profile that is not in the table.
    UnknownProfile(usize),
    /// The table has a profile of this name.
    DuplicateProfile,
    /// The grant of this number in a profile's body, counted from 1, has a tag.
    TagInProfile(usize),
    /// The table has 32 profiles.
    TooManyProfiles,
    /// More than 256 grants would be left.
    TooLarge,
    /// A growth was refused.
    OutOfMemory,
}

impl From<AllocError> for ExpandFault {
    ghost from_gives = { λ _ fault. fault ≡ OutOfMemory };

    fn from(_error: AllocError) -> ExpandFault {
        ExpandFault::OutOfMemory
    }
}

impl<T: Drop> From<AllocFailed<T>> for ExpandFault {
    ghost from_gives = { λ _ fault. fault ≡ OutOfMemory };

    fn from(_error: AllocFailed<T>) -> ExpandFault {
        ExpandFault::OutOfMemory
    }
}

impl fmt::Display for ExpandFault {
    ghost output = { λ fault. Some (fault_text fault) };

    fn fmt<W: fmt::Write>(&self, f: &mut fmt::Formatter<W>) -> fmt::Result {
        match self {
            ExpandFault::UnknownProfile(number) => write!(f, "G1 UnknownProfile {number}"),
            ExpandFault::DuplicateProfile => write!(f, "G2 DuplicateProfile"),
            ExpandFault::TagInProfile(number) => write!(f, "G3 TagInProfile {number}"),
            ExpandFault::TooManyProfiles => write!(f, "G4 TooManyProfiles"),
            ExpandFault::TooLarge => write!(f, "G5 TooLarge"),
            ExpandFault::OutOfMemory => write!(f, "G6 OutOfMemory"),
        }
    }
}

impl std::error::Error for ExpandFault {}
