//! A pass: what one thread holds of a cluster.

ghost use Rattle.std.specs.Prelude.{◌≡◌};
ghost use Rattle.cluster.specs.Asks.{seats_of};

use crate::cluster::Seats;
use published_map::MapReader;
use world_core::Session;

/// A session, with its number, which counts over all passes from 1.
#[derive(Drop)]
pub struct OwnSession {
    pub(crate) number: u32,
    pub(crate) session: Session,
}

/// The right of one thread to call a cluster: a seat of each lock, a reader of the published map, and the sessions that it has opened.
#[derive(Drop)]
pub struct Pass {
    pub(crate) seats: Seats,
    pub(crate) reader: MapReader,
    pub(crate) sessions: Vec<OwnSession>,
}

impl Pass {
    /// Ends the pass: its seats, for steps of one's own by [`Cluster::turn`](crate::Cluster::turn).
    pub fn into_seats(self) -> Seats
        ensures { result ≡ seats_of self }
    {
        let Pass {
            seats,
            reader: _,
            sessions: _,
        } = self;
        seats
    }
}
