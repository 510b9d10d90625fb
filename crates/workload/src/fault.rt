//! Why a workload has no tally.

use cluster::{ChangeFault, CloseFault, ClusterFault};
use std::alloc::{AllocError, AllocFailed};
use std::error::Error;
use std::fmt;
use world_core::WorldFault;

/// Why a workload has no tally.
#[derive(Clone, Copy, Debug)]
pub enum WorkloadFault {
    /// A call of a worker, or the start of the cluster, was refused.
    Cluster(ClusterFault),
    /// A daemon could not be taken down or up.
    Change(ChangeFault),
    /// The cluster could not be closed.
    Close(CloseFault),
    /// A group could not be settled.
    World(WorldFault),
}

impl From<AllocError> for WorkloadFault {
    fn from(_error: AllocError) -> WorkloadFault {
        WorkloadFault::Cluster(ClusterFault::OutOfMemory)
    }
}

impl<T: Drop> From<AllocFailed<T>> for WorkloadFault {
    fn from(_error: AllocFailed<T>) -> WorkloadFault {
        WorkloadFault::Cluster(ClusterFault::OutOfMemory)
    }
}

impl From<ClusterFault> for WorkloadFault {
    fn from(fault: ClusterFault) -> WorkloadFault {
        WorkloadFault::Cluster(fault)
    }
}

impl From<WorldFault> for WorkloadFault {
    fn from(fault: WorldFault) -> WorkloadFault {
        WorkloadFault::World(fault)
    }
}

/// The fault's number and name, and what it carries.
impl fmt::Display for WorkloadFault {
    fn fmt<W: fmt::Write>(&self, f: &mut fmt::Formatter<W>) -> fmt::Result {
        match self {
            WorkloadFault::Cluster(fault) => write!(f, "{fault}"),
            WorkloadFault::Change(fault) => write!(f, "{fault}"),
            WorkloadFault::Close(fault) => write!(f, "{fault}"),
            WorkloadFault::World(fault) => write!(f, "{fault}"),
        }
    }
}

impl Error for WorkloadFault {}
