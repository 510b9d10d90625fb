//! `osdgate audit`, whose answer may go to a file, and `osdgate reach`.

ghost use Rattle.std.specs.Prelude.{◌≤◌};

use crate::output_files::OutputFiles;
use audit_commands::{audit, output_of, reach};
use clap::ArgMatches;
use command_steps::{Answered, TROUBLE, finish_answer, finish_unanswered, value_of, write_out};
use gate_files::InputFiles;
use std::alloc::Global;
use std::io::{Read, Write};

/// The path of what standard input is read from.
const STANDARD_INPUT: &str = "/dev/stdin";

/// Whether a path leads to the file of an option.
fn is_input<F: OutputFiles>(files: &F, matches: &ArgMatches<'_>, option: &str, path: &str) -> bool {
    let input = match value_of(matches, option) {
        "-" => STANDARD_INPUT,
        input => input,
    };
    path == input || files.is_same_file(path, input)
}

/// Why the answer is not written to a path, if it would replace a file that the command reads.
fn refused<F: OutputFiles>(
    files: &F,
    matches: &ArgMatches<'_>,
    path: &str,
) -> Option<&'static str> {
    if is_input(files, matches, "auth", path) {
        return Some("osdgate: the output would replace the file of `--auth`\n");
    }
    if is_input(files, matches, "pools", path) {
        return Some("osdgate: the output would replace the file of `--pools`\n");
    }
    if files.is_same_file(path, "/dev/stdout") {
        return Some("osdgate: the output would replace the file that standard output goes to\n");
    }
    None
}

/// Writes an answer to a file, and its notes to `err`. Returns the status.
fn finish_in_file<F: OutputFiles, O: Write, E: Write>(
    alloc: Global,
    files: &F,
    path: &str,
    answered: Answered,
    out: &mut O,
    err: &mut E,
) -> u8
    ensures { result ≤ 2 }
{
    if let Err(error) = files.write_bytes(path, answered.printed.text.as_bytes()) {
        let _ = write!(err, "osdgate: the output cannot be written: {error}\n");
        return TROUBLE;
    }
    let mut answered = answered;
    answered.printed.text = String::new(alloc);
    finish_answer(&answered, out, err)
}

/// Answers `osdgate audit`, and returns the status. With `--output` the answer goes to that file, which stays as it was if
/// there is no answer or it cannot be written.
pub(crate) fn run_audit<F: InputFiles + OutputFiles, R: Read, O: Write, E: Write>(
    alloc: Global,
    matches: &ArgMatches<'_>,
    files: &F,
    reader: &mut R,
    out: &mut O,
    err: &mut E,
) -> u8
    ensures { result ≤ 2 }
{
    let path = output_of(matches);
    if let Some(line) = path.and_then(|path| refused(files, matches, path)) {
        let _ = write_out(err, line);
        return TROUBLE;
    }
    match (audit(alloc, matches, files, reader), path) {
        (Ok(answered), None) => finish_answer(&answered, out, err),
        (Ok(answered), Some(path)) => finish_in_file(alloc, files, path, answered, out, err),
        (Err(why), _) => finish_unanswered(&why, out, err),
    }
}

/// Answers `osdgate reach`, and returns the status.
pub(crate) fn run_reach<F: InputFiles, R: Read, O: Write, E: Write>(
    alloc: Global,
    matches: &ArgMatches<'_>,
    files: &F,
    reader: &mut R,
    out: &mut O,
    err: &mut E,
) -> u8
    ensures { result ≤ 2 }
{
    match reach(alloc, matches, files, reader) {
        Ok(answered) => finish_answer(&answered, out, err),
        Err(why) => finish_unanswered(&why, out, err),
    }
}
