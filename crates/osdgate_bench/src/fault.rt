//! Why a table is not made.

use cap_text::CapFault;
use grant_core::ExpandFault;
use object_core::NeedsFault;
use std::alloc::{AllocError, AllocFailed};
use std::fmt;
use stopwatch::MeasureFault;
use world_script::ScriptFault;

/// Why a table is not made. No part of it is printed then.
#[derive(Clone, Copy)]
pub(crate) enum Fault {
    /// A growth was refused.
    OutOfMemory,
    /// The clock could not be read.
    Clock,
    /// A text that is to be measured spells no list, since the given name is no word.
    Text(CapFault),
    /// A list that is to be measured is not expanded.
    Expansion(ExpandFault),
    /// A vector that is to be measured is not sealed.
    Needs(NeedsFault),
    /// A script that is to be measured ends before its last line.
    Script(ScriptFault),
    /// A line of a script that is to be measured is refused.
    Refused,
}

impl From<AllocError> for Fault {
    fn from(_error: AllocError) -> Fault {
        Fault::OutOfMemory
    }
}

impl<T: Drop> From<AllocFailed<T>> for Fault {
    fn from(_error: AllocFailed<T>) -> Fault {
        Fault::OutOfMemory
    }
}

impl From<MeasureFault> for Fault {
    fn from(fault: MeasureFault) -> Fault {
        match fault {
            MeasureFault::OutOfMemory => Fault::OutOfMemory,
            MeasureFault::Clock => Fault::Clock,
        }
    }
}

impl From<CapFault> for Fault {
    fn from(fault: CapFault) -> Fault {
        Fault::Text(fault)
    }
}

impl From<ExpandFault> for Fault {
    fn from(fault: ExpandFault) -> Fault {
        Fault::Expansion(fault)
    }
}

impl From<NeedsFault> for Fault {
    fn from(fault: NeedsFault) -> Fault {
        Fault::Needs(fault)
    }
}

impl From<ScriptFault> for Fault {
    fn from(fault: ScriptFault) -> Fault {
        Fault::Script(fault)
    }
}

impl fmt::Display for Fault {
    fn fmt<W: fmt::Write>(&self, f: &mut fmt::Formatter<W>) -> fmt::Result {
        match self {
            Fault::OutOfMemory => write!(f, "no memory"),
            Fault::Clock => write!(f, "the clock could not be read"),
            Fault::Text(fault) => write!(f, "a text is refused: {fault}"),
            Fault::Expansion(fault) => write!(f, "a list is not expanded: {fault}"),
            Fault::Needs(fault) => write!(f, "a vector is not sealed: {fault}"),
            Fault::Script(fault) => write!(f, "a script ends early: {fault}"),
            Fault::Refused => write!(f, "a line of a script is refused"),
        }
    }
}
