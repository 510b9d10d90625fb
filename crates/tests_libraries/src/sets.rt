//! Sets of daemons, by their numbers.

use place_core::{ActingSet, DaemonSet};

pub(crate) fn set(members: &[u8]) -> ActingSet {
    ActingSet::from_slice(members).unwrap_or(ActingSet::new())
}

pub(crate) fn up(members: &[u8]) -> DaemonSet {
    let mut all = DaemonSet::first(0);
    for daemon in members {
        all.set(*daemon, true);
    }
    all
}
