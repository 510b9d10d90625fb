//! The commands of a script.

use common_types::Name;
use entry_core::{GroupId, Id};
use world_front::{Event, Ops};

/// What a line of a script says. It is this project's profile, after Ceph's command line.
#[derive(Drop)]
pub enum Command {
    /// The number of daemons of the cluster, 1 to 16. It is the first command, and occurs once.
    Osds(u8),
    /// An event that needs no more than the line.
    Happens(Event),
    /// A vector, by the present epoch and tick.
    Submit {
        session: u32,
        pool: Name,
        namespace: Name,
        object: Name,
        ops: Ops,
    },
    /// The names of a pool's namespace, by the present epoch and tick.
    List {
        session: u32,
        pool: Name,
        namespace: Name,
    },
    /// Where an object is.
    Locate {
        pool: Name,
        namespace: Name,
        object: Name,
    },
    /// A user's texts.
    ShowUser(Name),
    /// All users' names.
    ListUsers,
    /// The stamp of the requests that follow.
    Tick(u64),
    /// All messages of each group are delivered.
    Settle,
    /// Each group is kicked.
    KickAll,
    /// All messages of each group are lost.
    LoseAll,
    /// The answer to a request.
    Answer(Id),
    /// What a list came to, by the id of its first piece.
    Listing(Id),
    /// Whether a group is ready.
    Ready(GroupId),
}
