//! Why a call on a cluster is refused.

ghost use Rattle.std.specs.Prelude.{◌≡◌};
ghost use Rattle.cluster.specs.declared.fault.ClusterFault.TheVariants as faults;

use std::alloc::{AllocError, AllocFailed};
use world_core::WorldFault;

/// Why a call on a cluster is refused.
#[derive(Clone, Copy, Debug)]
pub enum ClusterFault {
    /// A refusal of a lower layer, in the order of the world's event of that name. It leaves all as it was.
    /// Exception: a delivery to a daemon that is down (P2) has dropped its message.
    World(WorldFault),
    /// K1: a change of the map is unfinished at this group, counted from 0, or, at the number of groups, at its publication.
    Unfinished(usize),
    /// K2: no thread could be started.
    NoThread,
    /// K3: a growth was refused, in whichever layer.
    OutOfMemory,
    /// K4: the published map gave no reader, or no reading. The call can be made again.
    NoReader,
}

impl From<AllocError> for ClusterFault {
    ghost from_gives = { λ _ fault. fault ≡ faults.OutOfMemory };

    fn from(_error: AllocError) -> ClusterFault {
        ClusterFault::OutOfMemory
    }
}

impl<T: Drop> From<AllocFailed<T>> for ClusterFault {
    ghost from_gives = { λ _ fault. fault ≡ faults.OutOfMemory };

    fn from(_error: AllocFailed<T>) -> ClusterFault {
        ClusterFault::OutOfMemory
    }
}
