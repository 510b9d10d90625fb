//! What became of the requests of a workload.

use entry_core::{Entry, Id, Reply};
use object_core::Bytes;
use std::alloc::Global;
use std::fmt;
use world_core::{World, WorldFault};

/// What became of the requests of a workload.
#[derive(Debug)]
pub struct Tally {
    /// How many there are.
    pub requests: u32,
    /// How many have an answer.
    pub answered: u32,
    /// How many of the answers are denials.
    pub denied: u32,
    /// The output of the last addition, empty without one.
    pub counter: Bytes,
    /// How many changes of the map there were, where they were asked for.
    pub moves: Option<u32>,
}

impl Drop for Tally {
    fn drop(self) {
        let Tally {
            requests: _,
            answered: _,
            denied: _,
            counter: _,
            moves: _,
        } = self;
    }
}

/// The lines that the program prints.
impl fmt::Display for Tally {
    fn fmt<W: fmt::Write>(&self, f: &mut fmt::Formatter<W>) -> fmt::Result {
        write!(f, "requests {}\n", self.requests)?;
        write!(f, "answered {}\n", self.answered)?;
        write!(f, "denied {}\n", self.denied)?;
        match str::from_utf8(self.counter.as_slice()) {
            Ok(counter) => write!(f, "counter {counter}\n")?,
            Err(_) => return Err(fmt::Error),
        }
        match self.moves {
            None => Ok(()),
            Some(moves) => write!(f, "moves {moves}\n"),
        }
    }
}

impl Tally {
    // No requests yet.
    fn new(counter: Bytes, moves: Option<u32>) -> Tally {
        Tally {
            requests: 0,
            answered: 0,
            denied: 0,
            counter,
            moves,
        }
    }

    // One request more.
    fn add(&mut self, answer: Option<&Reply>) {
        self.requests = self.requests.saturating_add(1);
        match answer {
            None => {}
            Some(Reply::Denied(_)) => {
                self.answered = self.answered.saturating_add(1);
                self.denied = self.denied.saturating_add(1);
            }
            Some(_) => self.answered = self.answered.saturating_add(1),
        }
    }
}

// What a reply gave, where it is that of one operation that was done.
fn output_of(reply: &Reply) -> Option<&Bytes> {
    match reply {
        Reply::Done(outputs) => outputs.as_slice().last(),
        _ => None,
    }
}

// What the last operation that was done gave.
fn last_output(alloc: Global, entries: &[Entry]) -> Result<Bytes, WorldFault> {
    for entry in entries.iter().rev() {
        if let Some(output) = output_of(&entry.reply) {
            return Ok(Bytes::from_slice(alloc, output.as_slice())?);
        }
    }
    Ok(Bytes::from_slice(alloc, b"")?)
}

// Counts a session's requests.
fn count_session(world: &World, session: u32, tally: &mut Tally) -> Result<(), WorldFault> {
    for number in 1..u32::MAX {
        match world.answer(Id::new(session, number)) {
            Ok(answer) => tally.add(answer),
            Err(WorldFault::NoRequest) => return Ok(()),
            Err(fault) => return Err(fault),
        }
    }
    Ok(())
}

// The tally of `sessions` sessions, which count from 1.
pub(crate) fn tally_of(
    alloc: Global,
    world: &World,
    sessions: u32,
    moves: Option<u32>,
) -> Result<Tally, WorldFault> {
    let entries = world.audit()?;
    let mut tally = Tally::new(last_output(alloc, entries.as_slice())?, moves);
    for session in 1..=sessions {
        count_session(world, session, &mut tally)?;
    }
    Ok(tally)
}
