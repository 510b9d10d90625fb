//! The printed form of a fault.

ghost use Rattle.std.specs.Prelude.{Some};
ghost use Rattle.world_events.specs.Printed.{fault_text};

use crate::fault::WorldFault;
use std::fmt;

/// Its number and its name, as `W4 StaleEpoch`; a fault of a lower layer prints itself.
impl fmt::Display for WorldFault {
    ghost output = { λ fault. Some (fault_text fault) };

    fn fmt<W: fmt::Write>(&self, f: &mut fmt::Formatter<W>) -> fmt::Result {
        match self {
            WorldFault::NoSession => write!(f, "W1 NoSession"),
            WorldFault::NoPool => write!(f, "W2 NoPool"),
            WorldFault::BadObjectName => write!(f, "W3 BadObjectName"),
            WorldFault::StaleEpoch => write!(f, "W4 StaleEpoch"),
            WorldFault::NoRequest => write!(f, "W5 NoRequest"),
            WorldFault::Limit => write!(f, "W6 Limit"),
            WorldFault::OutOfMemory => write!(f, "W7 OutOfMemory"),
            WorldFault::StaleTick => write!(f, "W9 StaleTick"),
            WorldFault::Auth(fault) => write!(f, "{fault}"),
            WorldFault::Map(fault) => write!(f, "{fault}"),
            WorldFault::Needs(fault) => write!(f, "{fault}"),
            WorldFault::Group(fault) => write!(f, "{fault}"),
        }
    }
}

impl std::error::Error for WorldFault {}
