//! What a group has.

use entry_core::GroupId;
use group_messages::IntervalSets;
use group_wire::{Ledger, Wire};
use peer_core::Daemon;
use place_core::DaemonSet;

/// The copies of one group, the messages among them, its intervals, its requests and its answers.
pub(crate) struct GroupState {
    pub group: GroupId,
    pub min_size: usize,
    pub copies: Vec<Daemon>,
    pub wire: Wire,
    pub sets: IntervalSets,
    pub up: DaemonSet,
    pub ledger: Ledger,
    pub decided: usize,
}

impl Drop for GroupState {
    fn drop(self) {
        let GroupState {
            group: _,
            min_size: _,
            copies: _,
            wire: _,
            sets: _,
            up: _,
            ledger: _,
            decided: _,
        } = self;
    }
}
