//! `osdgate log`.

use crate::entities::Entities;
use crate::log_files::LogFiles;
use crate::log_notes::count_lines;
use crate::pool_lines::pool_lines;
use crate::requests::logs_in;
use clap::ArgMatches;
use command_steps::{
    Answered, BadWords, NoAnswer, auth_in, format_of, pools_given, reader_of, refuse_unmatched,
    value_of,
};
use common_types::OutOfMemory;
use gate_files::{InputFiles, Purpose, read_all};
use log_text::{LogReading, LoggedRequest, Standing, push_report, request_piece, standing_of};
use share_core::Pool;
use std::alloc::Global;
use std::io::{Read, Write};
use verdict_text::{Format, Printed, Reader, Reading, list_by};

/// What the arguments say.
#[derive(Clone, Copy)]
struct LogArguments<'m> {
    logs: &'m [&'m str],
    only: &'m [&'m str],
    /// Requests that were allowed are not printed.
    denied: bool,
    /// Only decisions that differ are printed, and they fail, as do those that cannot be checked.
    check: bool,
    format: Format,
}

impl<'m> LogArguments<'m> {
    /// What the arguments say. At most one file is standard input.
    fn of(matches: &'m ArgMatches<'_>) -> Result<LogArguments<'m>, BadWords> {
        let logs = matches.get_strs("logs").unwrap_or(&[]);
        refuse_two_inputs(matches, logs)?;
        Ok(LogArguments {
            logs,
            only: matches.get_strs("only").unwrap_or(&[]),
            denied: matches.get_flag("denied"),
            check: matches.get_flag("check"),
            format: format_of(matches),
        })
    }

    /// Whether a request is printed.
    fn prints(&self, request: &LoggedRequest, standing: &Standing) -> bool {
        if self.denied && request.decided.allowed {
            return false;
        }
        !self.check || standing.differs() || standing.is_unchecked()
    }
}

/// Refuses two files that are standard input.
pub(crate) fn refuse_two_inputs(matches: &ArgMatches<'_>, logs: &[&str]) -> Result<(), BadWords> {
    let named = ["auth", "pools", "requests"]
        .iter()
        .filter(|name| matches.get_str(**name) == Some("-"))
        .count();
    let logged = logs.iter().filter(|path| **path == "-").count();
    if named.saturating_add(logged) > 1 {
        return Err(BadWords::OneInput);
    }
    Ok(())
}

/// The entities of the file of `--auth`, each text read once.
pub(crate) fn entities_in<'m, F: InputFiles, R: Read>(
    alloc: Global,
    matches: &'m ArgMatches<'_>,
    files: &F,
    reader: &mut R,
    rules: &Reader,
    only: &'m [&'m str],
) -> Result<Entities<'m>, NoAnswer> {
    let path = value_of(matches, "auth");
    let file = auth_in(alloc, files, reader, Purpose::Entities, path)?;
    refuse_unmatched(alloc, matches, &[file.entities.as_slice()])?;
    let (entities, services) = file.into_parts();
    let entities = read_all(alloc, rules, entities)?;
    Ok(Entities::of(alloc, entities, services, only)?)
}

/// What is printed so far.
struct Rendering {
    text: String,
    /// How many decisions differ, and how many cannot be checked.
    differing: u64,
    unchecked: u64,
}

impl Drop for Rendering {
    fn drop(self) {
        let Rendering {
            text: _,
            differing: _,
            unchecked: _,
        } = self;
    }
}

impl Rendering {
    fn into_text(self) -> String {
        let Rendering {
            text,
            differing: _,
            unchecked: _,
        } = self;
        text
    }

    /// Adds a request, if it is printed.
    fn push(
        &mut self,
        alloc: Global,
        arguments: &LogArguments<'_>,
        reading: &LogReading,
        request: &LoggedRequest,
        read: Option<&Reading>,
    ) -> Result<(), OutOfMemory> {
        let Some(summary) = reading.summary(request) else {
            return Ok(());
        };
        let standing = standing_of(alloc, read, &request.decided)?;
        if standing.differs() {
            self.differing = self.differing.saturating_add(summary.count);
        }
        if standing.is_unchecked() {
            self.unchecked = self.unchecked.saturating_add(summary.count);
        }
        if !arguments.prints(request, &standing) {
            return Ok(());
        }
        if arguments.format == Format::Text {
            return push_report(&mut self.text, alloc, request, summary, &standing, read);
        }
        let piece = request_piece(alloc, request, summary, &standing, read)?;
        self.text.push_str(piece.as_str())
    }
}

/// All requests of chosen entities.
fn rendered(
    alloc: Global,
    arguments: &LogArguments<'_>,
    entities: &Entities<'_>,
    reading: &LogReading,
) -> Result<Rendering, OutOfMemory> {
    let mut rendering = Rendering {
        text: String::new(alloc),
        differing: 0,
        unchecked: 0,
    };
    for request in reading.requests() {
        let name = request.entity.as_str();
        if entities.chooses(name) {
            let read = entities.find(name).map(|entity| entity.osd.read());
            rendering.push(alloc, arguments, reading, request, read)?;
        }
    }
    Ok(rendering)
}

/// The lines on decisions that differ or cannot be checked.
fn check_lines(alloc: Global, rendering: &Rendering) -> Result<String, OutOfMemory> {
    let differing = rendering.differing;
    let unchecked = rendering.unchecked;
    let mut note = String::new(alloc);
    if differing > 0 {
        let line = format!(in alloc;
            "osdgate: {differing} decisions differ from the gate's; a session keeps the rights that it began with\n"
        )?;
        note.push_str(line.as_str())?;
    }
    if unchecked > 0 {
        let line = format!(in alloc;
            "osdgate: {unchecked} decisions cannot be compared with the gate's\n"
        )?;
        note.push_str(line.as_str())?;
    }
    Ok(note)
}

/// Whether some decisions of the log were not checked, whose entities are unknown.
fn has_unknown(reading: &LogReading) -> bool {
    let counts = reading.counts();
    counts.known() < counts.decisions
}

/// The answer on a log that was read.
fn answered(
    alloc: Global,
    arguments: &LogArguments<'_>,
    entities: &Entities<'_>,
    pools: Option<&[Pool]>,
    reading: &LogReading,
) -> Result<Answered, OutOfMemory> {
    let rendering = rendered(alloc, arguments, entities, reading)?;
    let found = rendering.differing > 0 || rendering.unchecked > 0 || has_unknown(reading);
    let mut note = count_lines(alloc, &reading.counts())?;
    note.push_str(check_lines(alloc, &rendering)?.as_str())?;
    if let Some(pools) = pools {
        note.push_str(pool_lines(alloc, reading, pools)?.as_str())?;
    }
    let text = rendering.into_text();
    let printed = Printed {
        text: list_by(alloc, "requests", text, arguments.format)?,
        fails: arguments.check && found,
    };
    Ok(Answered::noted(alloc, printed, note))
}

/// `osdgate log`: the requests of logs, and why they were denied.
pub(crate) fn log<F: InputFiles, L: LogFiles, R: Read, E: Write>(
    alloc: Global,
    matches: &ArgMatches<'_>,
    files: &F,
    logs: &L,
    reader: &mut R,
    err: &mut E,
) -> Result<Answered, NoAnswer> {
    let arguments = LogArguments::of(matches)?;
    let rules = reader_of(alloc, matches)?;
    let entities = entities_in(alloc, matches, files, reader, &rules, arguments.only)?;
    let pools = pools_given(alloc, files, reader, matches)?;
    let pools = pools.as_ref().map(Vec::as_slice);
    let reading = logs_in(alloc, files, logs, reader, err, arguments.logs)?;
    Ok(answered(alloc, &arguments, &entities, pools, &reading)?)
}
