//! Why a call on a world is refused.

ghost use Rattle.std.specs.Prelude.{◌≡◌};
ghost use Rattle.world_events.specs.declared.fault.WorldFault.TheVariants.{OutOfMemory};
ghost use Rattle.world_events.specs.Faults.{fault_of_map, fault_of_needs, users_fault};

use auth_db::AuthFault;
use group_messages::GroupFault;
use map_core::MapFault;
use object_core::NeedsFault;
use std::alloc::{AllocError, AllocFailed};

/// Why a call on a world is refused. A refused call leaves the world as it was.
///
/// Exception: a refused delivery to a daemon that is down (P2) has dropped its message.
///
/// No fault has the number W8.
#[derive(Clone, Copy, Debug)]
pub enum WorldFault {
    /// W1: there is no such session, or it is closed.
    NoSession,
    /// W2: there was no such pool at that epoch.
    NoPool,
    /// W3: the object's name is not 1 to 255 bytes of 33 to 126, or the namespace not at most 64 such bytes.
    BadObjectName,
    /// W4: the epoch is before one that this session has used, or after the present one.
    StaleEpoch,
    /// W5: no request of this id was submitted, or no list begins with it.
    NoRequest,
    /// W6: there are 1,024 sessions, closed ones counted.
    Limit,
    /// W7: a growth was refused, in whichever layer.
    OutOfMemory,
    /// W9: the tick is before one that this session has used.
    StaleTick,
    /// A fault of the users.
    Auth(AuthFault),
    /// A fault of the map, or of a pool's or group's name.
    Map(MapFault),
    /// A fault of a vector.
    Needs(NeedsFault),
    /// A fault of a group.
    Group(GroupFault),
}

impl From<AllocError> for WorldFault {
    ghost from_gives = { λ _ fault. fault ≡ OutOfMemory };

    fn from(_error: AllocError) -> WorldFault {
        WorldFault::OutOfMemory
    }
}

impl<T: Drop> From<AllocFailed<T>> for WorldFault {
    ghost from_gives = { λ _ fault. fault ≡ OutOfMemory };

    fn from(_error: AllocFailed<T>) -> WorldFault {
        WorldFault::OutOfMemory
    }
}

impl From<AuthFault> for WorldFault {
    ghost from_gives = { λ lower fault. fault ≡ users_fault lower };

    fn from(lower: AuthFault) -> WorldFault {
        match lower {
            AuthFault::OutOfMemory => WorldFault::OutOfMemory,
            fault => WorldFault::Auth(fault),
        }
    }
}

impl From<MapFault> for WorldFault {
    ghost from_gives = { λ lower fault. fault ≡ fault_of_map lower };

    fn from(lower: MapFault) -> WorldFault {
        match lower {
            MapFault::OutOfMemory => WorldFault::OutOfMemory,
            fault => WorldFault::Map(fault),
        }
    }
}

impl From<NeedsFault> for WorldFault {
    ghost from_gives = { λ lower fault. fault ≡ fault_of_needs lower };

    fn from(lower: NeedsFault) -> WorldFault {
        match lower {
            NeedsFault::OutOfMemory => WorldFault::OutOfMemory,
            fault => WorldFault::Needs(fault),
        }
    }
}
