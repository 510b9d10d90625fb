//! Why a command or a question is refused.

ghost use Rattle.std.specs.Prelude.{◌≡◌, Some};
ghost use Rattle.map_core.specs.Printed.{fault_text};
ghost use Rattle.map_core.specs.declared.fault.MapFault.TheVariants as faults;

use std::alloc::{AllocError, AllocFailed};
use std::fmt;

/// Why a command or a question is refused, which leaves the map as it was.
///
/// Where several hold, the first of this order is answered: `BadName`, `NoEpoch`, `PoolExists` or `NoPool`, `NoGroup`,
/// `NoApplication`, `NoKey`, `NoDaemon`, `AlreadySo`, `Limit`, `OutOfMemory`.
#[derive(Clone, Copy, Debug, PartialEq, Eq)]
pub enum MapFault {
    /// M1: a pool has this name.
    PoolExists,
    /// M2: no pool has this name, or had it at that epoch.
    NoPool,
    /// M3: the pool is not tagged with this application.
    NoApplication,
    /// M4: the application has no such key.
    NoKey,
    /// M5: the cluster has no daemon of this number.
    NoDaemon,
    /// M6: the application is enabled, the daemon is up or down as wanted, or one that is to restart is down.
    AlreadySo,
    /// M7: a number out of its range, 32 pools, 8 applications, 16 keys, or epoch 65,535.
    Limit,
    /// M8: a growth was refused.
    OutOfMemory,
    /// M9: a name, a key or a value that is not 1 to 64 word bytes.
    BadName,
    /// M10: the pool has no group of this number.
    NoGroup,
    /// M11: epoch 0, or one after the present one.
    NoEpoch,
}

impl From<AllocError> for MapFault {
    ghost from_gives = { λ _ fault. fault ≡ faults.OutOfMemory };

    fn from(_error: AllocError) -> MapFault {
        MapFault::OutOfMemory
    }
}

impl<T: Drop> From<AllocFailed<T>> for MapFault {
    ghost from_gives = { λ _ fault. fault ≡ faults.OutOfMemory };

    fn from(_error: AllocFailed<T>) -> MapFault {
        MapFault::OutOfMemory
    }
}

/// Its number and its name, as `M7 Limit`.
impl fmt::Display for MapFault {
    ghost output = { λ fault. Some (fault_text fault) };

    fn fmt<W: fmt::Write>(&self, f: &mut fmt::Formatter<W>) -> fmt::Result {
        f.write_str(match self {
            MapFault::PoolExists => "M1 PoolExists",
            MapFault::NoPool => "M2 NoPool",
            MapFault::NoApplication => "M3 NoApplication",
            MapFault::NoKey => "M4 NoKey",
            MapFault::NoDaemon => "M5 NoDaemon",
            MapFault::AlreadySo => "M6 AlreadySo",
            MapFault::Limit => "M7 Limit",
            MapFault::OutOfMemory => "M8 OutOfMemory",
            MapFault::BadName => "M9 BadName",
            MapFault::NoGroup => "M10 NoGroup",
            MapFault::NoEpoch => "M11 NoEpoch",
        })
    }
}

impl std::error::Error for MapFault {}
