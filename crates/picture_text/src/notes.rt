//! What stands at the right of a row: what was decided and answered, and what happened to daemons.

use crate::happenings::{Change, Happening, Outcome, Row};
use place_core::OutOfMemory;
use std::alloc::Global;

/// The largest number of lines beside a row, so that a row fits on a page.
const MAX_NOTES: usize = 56;

/// What a note is about.
#[derive(Clone, Copy)]
pub(crate) enum About {
    Decided,
    Answered,
    /// A request was denied, as it was decided or answered.
    Denied,
    /// A line of the script printed this.
    Printed,
    /// Which log an interval begins with.
    Chosen,
    Daemon,
    Refused,
    /// How many notes more there are.
    Rest,
}

/// A line of text at the right of a row.
#[derive(Drop)]
pub(crate) struct Note {
    pub(crate) about: About,
    pub(crate) text: String,
}

/// The notes of a row as they are made. Those behind the last that has room are counted.
#[derive(Drop)]
struct Notes {
    alloc: Global,
    notes: Vec<Note>,
    rest: usize,
}

impl Notes {
    fn push(&mut self, about: About, text: &String) -> Result<(), OutOfMemory> {
        if self.notes.len() >= MAX_NOTES {
            self.rest = self.rest.saturating_add(1);
            return Ok(());
        }
        let text = text.clone()?;
        self.notes.push(Note { about, text })?;
        Ok(())
    }

    fn push_lines(&mut self, about: About, lines: &[String]) -> Result<(), OutOfMemory> {
        for line in lines {
            self.push(about, line)?;
        }
        Ok(())
    }

    /// Adds the lines on a request, which are about its denial if it is denied.
    fn push_outcome(&mut self, about: About, outcome: &Outcome) -> Result<(), OutOfMemory> {
        let about = if outcome.is_denied {
            About::Denied
        } else {
            about
        };
        self.push_lines(about, outcome.lines.as_slice())
    }

    fn push_happening(&mut self, happening: &Happening) -> Result<(), OutOfMemory> {
        match happening {
            Happening::Decided(outcome) => self.push_outcome(About::Decided, outcome),
            Happening::Answered(outcome) => self.push_outcome(About::Answered, outcome),
            Happening::Printed(outcome) => self.push_outcome(About::Printed, outcome),
            Happening::Chosen(lines) => self.push_lines(About::Chosen, lines.as_slice()),
            Happening::Daemon { daemon, change } => {
                let text = daemon_text(self.alloc, *daemon, *change)?;
                self.push(About::Daemon, &text)
            }
            Happening::Refused(text) => self.push(About::Refused, text),
            _ => Ok(()),
        }
    }

    /// The notes, and behind them how many more there are.
    fn into_vec(self) -> Result<Vec<Note>, OutOfMemory> {
        let Notes { alloc, notes, rest } = self;
        let mut notes = notes;
        if rest > 0 {
            notes.push(Note {
                about: About::Rest,
                text: format!(in alloc; "and {rest} more lines")?,
            })?;
        }
        Ok(notes)
    }
}

fn daemon_text(alloc: Global, daemon: u8, change: Change) -> Result<String, OutOfMemory> {
    match change {
        Change::Up => format!(in alloc; "osd.{daemon} comes up"),
        Change::Down => format!(in alloc; "osd.{daemon} goes down"),
        Change::Restarted => format!(in alloc; "osd.{daemon} restarts"),
    }
}

/// The notes of a row, in the order of its happenings.
pub(crate) fn notes_of(alloc: Global, row: &Row) -> Result<Vec<Note>, OutOfMemory> {
    let mut notes = Notes {
        alloc,
        notes: Vec::new(alloc),
        rest: 0,
    };
    for happening in &row.happenings {
        notes.push_happening(happening)?;
    }
    notes.into_vec()
}
