//! The logs of the arguments.

use crate::log_files::{LogFiles, ShownReading, pour};
use crate::log_notes::no_decision_line;
use command_steps::{NoAnswer, Progress};
use common_types::OutOfMemory;
use gate_files::InputFiles;
use log_text::LogReading;
use std::alloc::Global;
use std::io;
use std::io::{ErrorKind, Read, Write};
use verdict_text::push_name;

fn unread_line(alloc: Global, path: &str, error: &io::Error) -> Result<String, OutOfMemory> {
    let mut line = String::from_str(alloc, "the log ")?;
    push_name(&mut line, path)?;
    let why = format!(in alloc; " cannot be read: {error}")?;
    line.push_str(why.as_str())?;
    Ok(line)
}

/// That a log cannot be read.
fn unread(alloc: Global, path: &str, error: &io::Error) -> NoAnswer {
    if error.kind() == ErrorKind::OutOfMemory {
        return NoAnswer::OutOfMemory;
    }
    match unread_line(alloc, path, error) {
        Ok(line) => NoAnswer::Told(line),
        Err(_) => NoAnswer::OutOfMemory,
    }
}

/// Reads one log, which is standard input where the path is `-`.
fn read_one<F: InputFiles, L: LogFiles, R: Read, E: Write>(
    alloc: Global,
    logs: &L,
    reader: &mut R,
    to: &mut ShownReading<'_, '_, F, E>,
    path: &str,
) -> Result<(), NoAnswer> {
    let read = if path == "-" {
        pour(alloc, reader, to)
    } else {
        logs.read_log(path, to)
    };
    match read {
        Ok(()) => Ok(to.end_file()?),
        Err(error) => Err(unread(alloc, path, &error)),
    }
}

/// Reads the logs of these paths, in order.
fn read_logs<F: InputFiles, L: LogFiles, R: Read, E: Write>(
    alloc: Global,
    logs: &L,
    reader: &mut R,
    to: &mut ShownReading<'_, '_, F, E>,
    paths: &[&str],
) -> Result<(), NoAnswer> {
    for path in paths {
        read_one(alloc, logs, reader, to, path)?;
    }
    Ok(())
}

/// Reads the logs of these paths, in order, and shows how far that is.
fn read_shown<F: InputFiles, L: LogFiles, R: Read, E: Write>(
    alloc: Global,
    reading: &mut LogReading,
    logs: &L,
    reader: &mut R,
    progress: &mut Progress<'_, F, E>,
    paths: &[&str],
) -> Result<(), NoAnswer> {
    let mut shown = ShownReading::of(alloc, reading, progress);
    let read = read_logs(alloc, logs, reader, &mut shown, paths);
    shown.end();
    read
}

/// Reads the logs of these paths, in order, as one log. It is an error if they have no decision.
pub(crate) fn logs_in<F: InputFiles, L: LogFiles, R: Read, E: Write>(
    alloc: Global,
    files: &F,
    logs: &L,
    reader: &mut R,
    err: &mut E,
    paths: &[&str],
) -> Result<LogReading, NoAnswer> {
    let mut reading = LogReading::new(alloc);
    let mut progress = Progress::begin(files, err);
    read_shown(alloc, &mut reading, logs, reader, &mut progress, paths)?;
    if reading.counts().decisions == 0 {
        return Err(NoAnswer::Told(no_decision_line(alloc, &reading.counts())?));
    }
    Ok(reading)
}
