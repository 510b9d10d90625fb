//! The lines of a suggestion, and the command that applies it.

use caps_lines::{Verb, push_line};
use common_types::OutOfMemory;
use gate_files::ServiceText;
use std::alloc::Global;
use verdict_text::push_name;

/// The command that gives an entity a text, and keeps its texts for other services.
pub(crate) fn caps_command(
    alloc: Global,
    entity: &str,
    services: &[ServiceText],
    osd: &str,
) -> Result<String, OutOfMemory> {
    let mut kept = Vec::new(alloc);
    for text in services {
        if text.entity.as_str() == entity {
            kept.push(text)?;
        }
    }
    let mut line = String::new(alloc);
    push_line(&mut line, Verb::Replace, entity, kept.as_slice(), osd)?;
    Ok(line)
}

/// What is printed: lines for people, which are comments where commands are printed.
pub(crate) struct Lines {
    text: String,
    commands: bool,
}

impl Drop for Lines {
    fn drop(self) {
        let Lines {
            text: _,
            commands: _,
        } = self;
    }
}

impl Lines {
    pub(crate) fn new(alloc: Global, commands: bool) -> Lines {
        Lines {
            text: String::new(alloc),
            commands,
        }
    }

    pub(crate) fn into_text(self) -> String {
        let Lines { text, commands: _ } = self;
        text
    }

    /// Adds the line of an entity.
    pub(crate) fn push_entity(&mut self, name: &str) -> Result<(), OutOfMemory> {
        if self.commands {
            self.text.push_str("# ")?;
        }
        push_name(&mut self.text, name)?;
        self.text.push_str("\n")
    }

    /// Adds a line below an entity.
    pub(crate) fn push(&mut self, line: &str) -> Result<(), OutOfMemory> {
        self.text
            .push_str(if self.commands { "#   " } else { "  " })?;
        self.text.push_str(line)?;
        self.text.push_str("\n")
    }

    /// Adds each line of a text below an entity.
    pub(crate) fn push_all(&mut self, lines: &str) -> Result<(), OutOfMemory> {
        for line in lines.lines() {
            self.push(line)?;
        }
        Ok(())
    }

    /// Adds the line of a command, with its end, if commands are printed: as a comment if it gives rights that the entity does not have.
    pub(crate) fn push_command(&mut self, line: &str, widens: bool) -> Result<(), OutOfMemory> {
        if !self.commands {
            return Ok(());
        }
        if widens {
            self.text.push_str("# ")?;
        }
        self.text.push_str(line)
    }
}
