//! What daemons and the client send to one another.

use crate::interval_sets::IntervalSets;
use crate::party::Party;
use common_types::{Items, OutOfMemory, TryClone};
use entry_core::{Id, Reply, Sealed};

/// What a message says (Ceph Peering, by this project's profile). Intervals count from 1, and so does an entry's index in a log.
#[derive(Drop)]
pub enum Body {
    /// The sets of all intervals so far, the first first.
    Interval(IntervalSets),
    /// Asks for the copy, and for the promise to follow no earlier interval. It tells the length of the asker's log and the id of its last request.
    Query {
        interval: u64,
        len: usize,
        last: Option<Id>,
    },
    /// The answer: the interval that the copy's log began with, a place up to which the asker has the same entries, and the requests after that place.
    Info {
        interval: u64,
        base: u64,
        start: usize,
        part: Items<Sealed>,
    },
    /// What the addressee lacks of the log that an interval begins with: the requests after a place up to which it has the same entries.
    Install {
        interval: u64,
        start: usize,
        part: Items<Sealed>,
    },
    /// The answer to `Install`.
    Installed {
        interval: u64,
    },
    /// The request that the entry of an index decides.
    Append {
        interval: u64,
        index: usize,
        request: Sealed,
    },
    /// The answer to `Append`.
    Appended {
        interval: u64,
        index: usize,
    },
    /// A client's request.
    Request(Sealed),
    /// The answer to the request of an id.
    Reply {
        id: Id,
        reply: Reply,
    },
    /// The request of an id came to a daemon that does not lead its group now.
    NotHere(Id),
}

/// What reaches a daemon.
#[derive(Drop)]
pub struct Message {
    pub from: Party,
    pub body: Body,
}

/// What was sent.
pub struct Sent {
    pub from: Party,
    pub to: Party,
    pub body: Body,
}

impl Drop for Sent {
    fn drop(self) {
        let Sent {
            from: _,
            to: _,
            body: _,
        } = self;
    }
}

impl TryClone for Body {
    fn copy(&self) -> Result<Body, OutOfMemory> {
        Ok(match self {
            Body::Interval(sets) => Body::Interval(sets.copy()?),
            Body::Query {
                interval,
                len,
                last,
            } => Body::Query {
                interval: *interval,
                len: *len,
                last: *last,
            },
            Body::Info {
                interval,
                base,
                start,
                part,
            } => Body::Info {
                interval: *interval,
                base: *base,
                start: *start,
                part: part.copy()?,
            },
            Body::Install {
                interval,
                start,
                part,
            } => Body::Install {
                interval: *interval,
                start: *start,
                part: part.copy()?,
            },
            Body::Installed { interval } => Body::Installed {
                interval: *interval,
            },
            Body::Append {
                interval,
                index,
                request,
            } => Body::Append {
                interval: *interval,
                index: *index,
                request: request.copy()?,
            },
            Body::Appended { interval, index } => Body::Appended {
                interval: *interval,
                index: *index,
            },
            Body::Request(request) => Body::Request(request.copy()?),
            Body::Reply { id, reply } => Body::Reply {
                id: *id,
                reply: reply.copy()?,
            },
            Body::NotHere(id) => Body::NotHere(*id),
        })
    }
}

impl TryClone for Message {
    fn copy(&self) -> Result<Message, OutOfMemory> {
        Ok(Message {
            from: self.from,
            body: self.body.copy()?,
        })
    }
}

impl TryClone for Sent {
    fn copy(&self) -> Result<Sent, OutOfMemory> {
        Ok(Sent {
            from: self.from,
            to: self.to,
            body: self.body.copy()?,
        })
    }
}
