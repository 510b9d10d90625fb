//! What a daemon does for its group.

use common_types::{Items, OutOfMemory, TryClone};
use entry_core::Sealed;
use place_core::ActingSet;

/// What another daemon reported about its copy. Its log is this copy's log up to an index, followed by this part.
#[derive(Drop)]
pub struct PeerInfo {
    pub number: u8,
    /// The interval that its log began with.
    pub base: u64,
    /// How many entries of this copy's log its log begins with, at least.
    pub start: usize,
    /// The requests of its log after these.
    pub part: Items<Sealed>,
}

/// With how many entries a member's log begins like the chosen one.
#[derive(Clone, Copy)]
pub struct Common {
    pub member: u8,
    pub count: usize,
}

/// What a daemon does for its group in the interval that it promised (Ceph Peering, by this project's profile).
pub enum Role {
    Idle,
    /// It requests copies: the others that reported theirs.
    Peering(Items<PeerInfo>),
    /// It sends out what the other members lack of the chosen log: those that have it, and how much each had of it.
    Installing {
        done: ActingSet,
        common: Items<Common>,
    },
    /// It takes requests. Where its last entry is in flight: the other members that have that entry.
    Active(Option<ActingSet>),
}

impl Drop for Role {
    fn drop(self) {
        match self {
            Role::Idle
            | Role::Peering(_)
            | Role::Installing { done: _, common: _ }
            | Role::Active(_) => (),
        }
    }
}

impl TryClone for PeerInfo {
    fn copy(&self) -> Result<PeerInfo, OutOfMemory> {
        Ok(PeerInfo {
            number: self.number,
            base: self.base,
            start: self.start,
            part: self.part.copy()?,
        })
    }
}

impl TryClone for Common {
    fn copy(&self) -> Result<Common, OutOfMemory> {
        Ok(*self)
    }
}

impl TryClone for Role {
    fn copy(&self) -> Result<Role, OutOfMemory> {
        match self {
            Role::Idle => Ok(Role::Idle),
            Role::Peering(informed) => Ok(Role::Peering(informed.copy()?)),
            Role::Installing { done, common } => Ok(Role::Installing {
                done: *done,
                common: common.copy()?,
            }),
            Role::Active(flight) => Ok(Role::Active(*flight)),
        }
    }
}
