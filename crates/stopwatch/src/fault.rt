//! Why a piece of work is not measured.

use std::alloc::{AllocError, AllocFailed};
use std::io;

/// Why a piece of work is not measured, or its line not added.
#[derive(Clone, Copy, Debug, PartialEq, Eq)]
pub enum MeasureFault {
    /// A growth was refused.
    OutOfMemory,
    /// The clock could not be read.
    Clock,
}

impl From<AllocError> for MeasureFault {
    fn from(_error: AllocError) -> MeasureFault {
        MeasureFault::OutOfMemory
    }
}

impl<T: Drop> From<AllocFailed<T>> for MeasureFault {
    fn from(_error: AllocFailed<T>) -> MeasureFault {
        MeasureFault::OutOfMemory
    }
}

impl From<io::Error> for MeasureFault {
    fn from(_error: io::Error) -> MeasureFault {
        MeasureFault::Clock
    }
}
