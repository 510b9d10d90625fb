//! Lines that tell of requests.

use common_types::Name;

/// A line that the reading of operations goes by. Names are as the log writes them.
#[derive(Debug)]
pub enum Line {
    /// A session of an entity begins.
    Session {
        session: Name,
        entity: Name,
    },
    /// A thread takes up an operation on an object.
    Operation {
        thread: Name,
        object: Name,
    },
    /// A thread decides an operation of a session, at a time. The text is what is behind the session.
    Decision {
        thread: Name,
        session: Name,
        time: Name,
        text: Name,
    },
    /// A line that lacks a part.
    Cut,
}

impl Drop for Line {
    fn drop(self) {
        match self {
            Line::Session {
                session: _,
                entity: _,
            } => (),
            Line::Operation {
                thread: _,
                object: _,
            } => (),
            Line::Decision {
                thread: _,
                session: _,
                time: _,
                text: _,
            } => (),
            Line::Cut => (),
        }
    }
}
