//! What a command prints, and what it notes beside that.

use crate::colours::{Colours, coloured_answer, coloured_notes};
use crate::documents::with_members;
use common_types::OutOfMemory;
use gate_files::{Chosen, Unchecked};
use std::alloc::Global;
use verdict_text::{Format, Printed, ReadText};

/// What a command prints on standard output, and its lines for standard error.
#[derive(Drop)]
pub struct Answered {
    pub printed: Printed,
    /// Lines for standard error, each with its line feed. It is empty if no line is noted.
    pub note: String,
    /// The entities that could not be checked.
    unchecked: Vec<Unchecked>,
    /// The texts of the arguments that it is about, as they were read.
    texts: Vec<ReadText>,
}

/// Copies of entities that could not be checked.
fn copies(alloc: Global, unchecked: &[Unchecked]) -> Result<Vec<Unchecked>, OutOfMemory> {
    let mut copies = Vec::with_capacity(alloc, unchecked.len())?;
    for entity in unchecked {
        copies.push(Unchecked {
            name: entity.name.clone()?,
            fault: entity.fault,
        })?;
    }
    Ok(copies)
}

impl Answered {
    /// An answer without a note.
    pub fn of(alloc: Global, printed: Printed) -> Answered {
        Answered::noted(alloc, printed, String::new(alloc))
    }

    /// An answer with these lines for standard error.
    pub fn noted(alloc: Global, printed: Printed, note: String) -> Answered {
        Answered {
            printed,
            note,
            unchecked: Vec::new(alloc),
            texts: Vec::new(alloc),
        }
    }

    /// The answer as one about a text of the arguments.
    pub fn about_text(mut self, text: ReadText) -> Result<Answered, OutOfMemory> {
        self.texts.push(text)?;
        Ok(self)
    }

    /// The texts of the arguments that it is about.
    pub(crate) fn texts(&self) -> &[ReadText] {
        self.texts.as_slice()
    }

    /// The answer of a command that prints a text and cannot fail.
    pub fn of_text(alloc: Global, text: String) -> Answered {
        Answered::of(alloc, Printed { text, fails: false })
    }

    /// The answer with more lines noted.
    pub fn with_note(
        mut self,
        lines: Result<String, OutOfMemory>,
    ) -> Result<Answered, OutOfMemory> {
        self.note.push_str(lines?.as_str())?;
        Ok(self)
    }

    /// The answer with what is noted of the entities that it is about. An entity that could not be checked makes it fail,
    /// unless the choice leaves those out.
    pub fn about(mut self, alloc: Global, chosen: &Chosen) -> Result<Answered, OutOfMemory> {
        self.printed.fails = self.printed.fails || chosen.fails();
        self.unchecked = copies(alloc, chosen.unchecked())?;
        self.with_note(chosen.notes(alloc))
    }

    /// The answer in its last form: a JSON document gets the members `not_checked` and `notes`. They have what standard error
    /// has.
    pub fn documented(mut self, alloc: Global, format: Format) -> Result<Answered, OutOfMemory> {
        if format == Format::Text {
            return Ok(self);
        }
        let document = self.printed.text.as_str();
        let text = with_members(
            alloc,
            document,
            self.unchecked.as_slice(),
            self.note.as_str(),
        )?;
        self.printed.text = text;
        Ok(self)
    }

    /// The answer with its colours, which is the last step before it is written. A document has none.
    pub fn coloured(
        mut self,
        alloc: Global,
        format: Format,
        colours: Colours,
    ) -> Result<Answered, OutOfMemory> {
        if colours.out && format == Format::Text {
            self.printed.text = coloured_answer(alloc, self.printed.text.as_str())?;
        }
        if colours.err {
            self.note = coloured_notes(alloc, self.note.as_str())?;
        }
        Ok(self)
    }
}

/// A text with more lines behind it.
pub fn with_line(
    mut text: String,
    lines: Result<String, OutOfMemory>,
) -> Result<String, OutOfMemory> {
    text.push_str(lines?.as_str())?;
    Ok(text)
}
