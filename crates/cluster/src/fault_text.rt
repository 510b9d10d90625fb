//! The printed forms of faults: number, name, and what they carry.

ghost use Rattle.std.specs.Prelude.{Some};
ghost use Rattle.cluster.specs.Printed.{fault_text, change_text, tell_text, close_text};

use crate::closing::CloseFault;
use crate::fault::ClusterFault;
use crate::monitor::{ChangeFault, TellFault};
use std::error::Error;
use std::fmt;

/// As `K1 Unfinished 2`; a fault of a lower layer prints itself.
impl fmt::Display for ClusterFault {
    ghost output = { λ fault. Some (fault_text fault) };

    fn fmt<W: fmt::Write>(&self, f: &mut fmt::Formatter<W>) -> fmt::Result {
        match self {
            ClusterFault::World(fault) => write!(f, "{fault}"),
            ClusterFault::Unfinished(at) => write!(f, "K1 Unfinished {at}"),
            ClusterFault::NoThread => write!(f, "K2 NoThread"),
            ClusterFault::OutOfMemory => write!(f, "K3 OutOfMemory"),
            ClusterFault::NoReader => write!(f, "K4 NoReader"),
        }
    }
}

impl Error for ClusterFault {}

/// As `K1 Unfinished 2`; a fault of the map or of a group prints itself.
impl fmt::Display for ChangeFault {
    ghost output = { λ fault. Some (change_text fault) };

    fn fmt<W: fmt::Write>(&self, f: &mut fmt::Formatter<W>) -> fmt::Result {
        match self {
            ChangeFault::Map(fault) => write!(f, "{fault}"),
            ChangeFault::Group(fault) => write!(f, "{fault}"),
            ChangeFault::Unfinished(at) => write!(f, "K1 Unfinished {at}"),
        }
    }
}

impl Error for ChangeFault {}

/// As `K4 NoReader`.
impl fmt::Display for TellFault {
    ghost output = { λ fault. Some (tell_text fault) };

    fn fmt<W: fmt::Write>(&self, f: &mut fmt::Formatter<W>) -> fmt::Result {
        match self {
            TellFault::Unfinished(at) => write!(f, "K1 Unfinished {at}"),
            TellFault::NoReader => write!(f, "K4 NoReader"),
        }
    }
}

impl Error for TellFault {}

/// As `L1 MissingPass`.
impl fmt::Display for CloseFault {
    ghost output = { λ fault. Some (close_text fault) };

    fn fmt<W: fmt::Write>(&self, f: &mut fmt::Formatter<W>) -> fmt::Result {
        match self {
            CloseFault::MissingPass => write!(f, "L1 MissingPass"),
            CloseFault::Unfinished => write!(f, "L2 Unfinished"),
            CloseFault::OutOfMemory => write!(f, "L3 OutOfMemory"),
        }
    }
}

impl Error for CloseFault {}
