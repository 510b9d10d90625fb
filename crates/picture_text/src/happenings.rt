//! What a picture tells: rows of happenings, from the top to the bottom.

use place_core::{ActingSet, DaemonSet};

/// Who sends messages and takes them: the client, which stands for the group itself too, or a daemon.
#[derive(Clone, Copy, PartialEq, Eq)]
pub enum Party {
    Client,
    Osd(u8),
}

/// What a message is about.
#[derive(Clone, Copy)]
pub enum Topic {
    /// News of intervals, and what daemons ask and tell one another at their beginning.
    Peering,
    /// The entries of the log.
    Entries,
    /// Requests, and what they are answered.
    Requests,
}

/// A message, as it is named in a picture.
#[derive(Drop)]
pub struct Message {
    /// Who sent it.
    pub from: Party,
    /// Whom it is for.
    pub to: Party,
    /// Its kind, with its interval, its request or its place in the log.
    pub name: String,
    pub topic: Topic,
    /// Whether it is a message sent once more.
    pub repeated: bool,
}

/// How a message ends.
#[derive(Clone, Copy)]
pub enum End {
    /// It reached its addressee.
    Delivered,
    /// Its addressee is down, so it was dropped.
    Unreachable,
    /// It was lost.
    Lost,
    /// It is on its way where the script ends.
    OnItsWay,
}

/// What happened to a daemon.
#[derive(Clone, Copy)]
pub enum Change {
    Up,
    Down,
    Restarted,
}

/// What is said of a decision or an answer, a text for each line.
#[derive(Drop)]
pub struct Outcome {
    /// Whether the request is denied.
    pub is_denied: bool,
    pub lines: Vec<String>,
}

/// One thing that happened. A message is named by its number among the picture's messages, counted from 0.
pub enum Happening {
    /// An interval of the group began, with this number, counted from 1, and this acting set.
    Interval { number: usize, acting: ActingSet },
    /// Something happened to a daemon.
    Daemon { daemon: u8, change: Change },
    /// A message was taken from those that were on their way.
    Ended { message: usize, end: End },
    /// A message was sent.
    Sent { message: usize },
    /// A request was decided.
    Decided(Outcome),
    /// A request was answered.
    Answered(Outcome),
    /// A question of the script was answered, and this was printed.
    Printed(Outcome),
    /// The primary of an interval chose the log that the interval begins with. A text for each line.
    Chosen(Vec<String>),
    /// The event was refused, for this reason.
    Refused(String),
}

impl Drop for Happening {
    fn drop(self) {
        match self {
            Happening::Interval {
                number: _,
                acting: _,
            }
            | Happening::Daemon {
                daemon: _,
                change: _,
            }
            | Happening::Ended { message: _, end: _ }
            | Happening::Sent { message: _ }
            | Happening::Decided(_)
            | Happening::Answered(_)
            | Happening::Printed(_)
            | Happening::Chosen(_)
            | Happening::Refused(_) => (),
        }
    }
}

/// A line of a script.
#[derive(Drop)]
pub struct ScriptLine {
    /// Its number, counted from 1.
    pub number: usize,
    /// Its bytes.
    pub text: Vec<u8>,
    /// Whether its first rows are left out.
    pub continues: bool,
}

/// What one event did, or a line that did nothing to the group.
pub struct Row {
    /// The line of the script, beside the first of its rows.
    pub line: Option<ScriptLine>,
    pub happenings: Vec<Happening>,
}

impl Drop for Row {
    fn drop(self) {
        let Row {
            line: _,
            happenings: _,
        } = self;
    }
}

/// Where a picture begins.
#[derive(Drop)]
pub struct Beginning {
    /// The daemons that are up.
    pub up: DaemonSet,
    /// The number of the group's interval, 0 where the group is not there yet.
    pub interval: usize,
    /// Its acting set.
    pub acting: ActingSet,
}

/// All that a picture tells of one group.
pub struct Story {
    /// What it is about, at the picture's head.
    pub title: String,
    /// How many rows before the first one are left out.
    pub left_out: usize,
    pub beginning: Beginning,
    pub rows: Vec<Row>,
    /// The messages, in the order in which they were sent.
    pub messages: Vec<Message>,
    /// The messages that are on their way at the end, in the order in which they were sent.
    pub waiting: Vec<usize>,
    /// How many messages more are on their way, which are left out.
    pub waiting_left_out: usize,
    /// The daemons of all acting sets of the group.
    pub daemons: DaemonSet,
}

impl Drop for Story {
    fn drop(self) {
        let Story {
            title: _,
            left_out: _,
            beginning: _,
            rows: _,
            messages: _,
            waiting: _,
            waiting_left_out: _,
            daemons: _,
        } = self;
    }
}
