//! What moves a group.

use place_core::{ActingSet, DaemonSet};

/// What moves a group: what a map's command makes of it.
#[derive(Drop)]
pub enum GroupMove {
    /// The acting set is this one, and these daemons are up. Where the set is the last one, no interval begins.
    NewInterval { acting: ActingSet, up: DaemonSet },
    /// A daemon restarted. Where it is one of the last set, an interval of the same set begins.
    Restart(u8),
}
