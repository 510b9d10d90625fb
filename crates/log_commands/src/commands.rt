//! The commands about logs: from arguments to what is written, and the status.

ghost use Rattle.std.specs.Prelude.{◌≤◌};

use crate::log_command::log;
use crate::log_files::LogFiles;
use crate::suggest_command::suggest;
use clap::ArgMatches;
use command_steps::{
    Answered, BadWords, NoAnswer, finish_answer, finish_unanswered, format_of, with_rules_of,
};
use gate_files::InputFiles;
use std::alloc::Global;
use std::io::{Read, Write};

/// Whether a command of this name is one of these.
pub fn is_log_command(name: &str) -> bool {
    matches!(name, "log" | "suggest")
}

/// What a command of this name answers.
fn answer_command<F: InputFiles, L: LogFiles, R: Read, E: Write>(
    alloc: Global,
    name: &str,
    matches: &ArgMatches<'_>,
    files: &F,
    logs: &L,
    reader: &mut R,
    err: &mut E,
) -> Result<Answered, NoAnswer> {
    let answered = match name {
        "log" => log(alloc, matches, files, logs, reader, err)?,
        "suggest" => suggest(alloc, matches, files, logs, reader, err)?,
        _ => return Err(NoAnswer::Words(BadWords::Command)),
    };
    let answered = with_rules_of(alloc, matches, answered)?;
    Ok(answered.documented(alloc, format_of(matches))?)
}

/// Answers a command about logs by its arguments, and returns the status: `DONE`, `FOUND` or `TROUBLE` of `command_steps`. Logs
/// are read by `logs`, every other file by `files`. The answer goes to `out`, and notes to `err`, as do
/// lines on progress if that is a terminal.
pub fn run_log_command<F: InputFiles, L: LogFiles, R: Read, O: Write, E: Write>(
    alloc: Global,
    name: &str,
    matches: &ArgMatches<'_>,
    files: &F,
    logs: &L,
    reader: &mut R,
    out: &mut O,
    err: &mut E,
) -> u8
    ensures { result ≤ 2 }
{
    match answer_command(alloc, name, matches, files, logs, reader, err) {
        Ok(answered) => finish_answer(&answered, out, err),
        Err(why) => finish_unanswered(&why, out, err),
    }
}
