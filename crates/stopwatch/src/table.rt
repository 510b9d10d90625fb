//! Tables of times.

use crate::fault::MeasureFault;
use crate::measure::{Work, measure};
use crate::text::{push_line, push_name, push_number};
use std::alloc::{AllocError as OutOfMemory, Global};
use std::fmt::Write;
use std::time::Clock;

/// What is done with the work of a row.
#[derive(Clone, Copy, Debug)]
pub enum Mode {
    /// It is measured.
    Timed,
    /// It is done once, and its answer printed. No clock is read.
    Once,
}

/// A table that is being made. What was measured stands in its text, and how many calls there were, and how
/// many of them answered yes, is counted.
#[derive(Drop)]
pub struct Table<'a, C> {
    alloc: Global,
    clock: &'a C,
    mode: Mode,
    text: String,
    calls: usize,
    yes: usize,
}

/// The first line of a table.
fn head(alloc: Global, mode: Mode) -> Result<String, OutOfMemory> {
    let mut text = String::new(alloc);
    if let Mode::Once = mode {
        return Ok(text);
    }
    push_name(&mut text, "nanoseconds a call, of 15 runs")?;
    push_number(&mut text, "least")?;
    push_number(&mut text, "middle")?;
    text.push_str("\n")?;
    Ok(text)
}

impl<'a, C: Clock> Table<'a, C> {
    /// A table with its head.
    pub fn new(alloc: Global, clock: &'a C, mode: Mode) -> Result<Table<'a, C>, OutOfMemory> {
        Ok(Table {
            alloc,
            clock,
            mode,
            text: head(alloc, mode)?,
            calls: 0,
            yes: 0,
        })
    }

    /// Where the values of its rows are made.
    pub fn alloc(&self) -> Global {
        self.alloc
    }

    /// Adds the line of a piece of work.
    pub fn row<W: Work>(&mut self, name: &str, work: &W) -> Result<(), MeasureFault>
        requires { W.ready work.now }
    {
        match self.mode {
            Mode::Timed => self.measured(name, work),
            Mode::Once => self.tried(name, work),
        }
    }

    /// Does a piece of work once and adds its answer.
    fn tried<W: Work>(&mut self, name: &str, work: &W) -> Result<(), MeasureFault>
        requires { W.ready work.now }
    {
        let answer = work.once(0)?;
        self.calls = self.calls.saturating_add(1);
        self.yes = self.yes.saturating_add(usize::from(answer));
        push_name(&mut self.text, name)?;
        push_number(&mut self.text, if answer { "yes" } else { "no" })?;
        self.text.push_str("\n")?;
        Ok(())
    }

    /// Measures a piece of work and adds its times.
    fn measured<W: Work>(&mut self, name: &str, work: &W) -> Result<(), MeasureFault>
        requires { W.ready work.now }
    {
        let timing = measure(self.clock, work)?;
        self.calls = self.calls.saturating_add(timing.calls);
        self.yes = self.yes.saturating_add(timing.yes);
        push_line(
            self.alloc,
            &mut self.text,
            name,
            timing.least,
            timing.middle,
        )?;
        Ok(())
    }

    /// The text, with what was counted.
    pub fn into_text(self) -> Result<String, OutOfMemory> {
        let mut text = self.text;
        write!(text, "{} of {} calls answered yes\n", self.yes, self.calls)?;
        Ok(text)
    }
}
