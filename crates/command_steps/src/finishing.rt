//! What is written of an answer, and the exit status.

ghost use Rattle.std.specs.Prelude.{◌≤◌};

use crate::answered::Answered;
use crate::no_answer::NoAnswer;
use clap::Error;
use clap::error::ErrorKind;
use command_arguments::{complaint, wrapped};
use common_types::OutOfMemory;
use gate_files::{InputFiles, WordsFault};
use std::alloc::{AllocError, Global};
use std::io::Write;

/// The status where nothing was found.
pub const DONE: u8 = 0;
/// The status where something was found: a text is refused, an entity could not be checked, or a check finds what it is for.
pub const FOUND: u8 = 1;
/// The status where there is no answer: the arguments are no command line, a file cannot be read or used, memory is out, or the
/// answer cannot be written.
pub const TROUBLE: u8 = 2;

const OUT_OF_MEMORY: &str = "refused OutOfMemory\n";

/// Writes a text and flushes. Returns whether both went well.
pub fn write_out<W: Write>(out: &mut W, text: &str) -> bool {
    out.write_all(text.as_bytes()).is_ok() && out.flush().is_ok()
}

/// Writes an answer's text. Returns the status.
fn finish<O: Write, E: Write>(text: &str, status: u8, out: &mut O, err: &mut E) -> u8
    requires { status ≤ 2 }
    ensures { result ≤ 2 }
{
    if write_out(out, text) {
        return status;
    }
    let _ = write_out(err, "osdgate: the answer could not be written\n");
    TROUBLE
}

/// Writes an answer to `out`, and then its notes to `err`. Returns the status.
pub fn finish_answer<O: Write, E: Write>(answered: &Answered, out: &mut O, err: &mut E) -> u8
    ensures { result ≤ 2 }
{
    let status = if answered.printed.fails { FOUND } else { DONE };
    let status = finish(answered.printed.text.as_str(), status, out, err);
    if !answered.note.is_empty() {
        let _ = write_out(err, answered.note.as_str());
    }
    status
}

/// Writes why arguments have no answer. Returns the status.
pub fn finish_unanswered<O: Write, E: Write>(why: &NoAnswer, out: &mut O, err: &mut E) -> u8
    ensures { result ≤ 2 }
{
    match why {
        NoAnswer::Words(bad) => {
            let _ = write!(err, "osdgate: {}\n", bad.text());
            TROUBLE
        }
        NoAnswer::Told(line) => {
            let _ = write!(err, "osdgate: {line}\n");
            TROUBLE
        }
        NoAnswer::File(bad) => {
            let _ = write!(err, "osdgate: {bad}\n");
            TROUBLE
        }
        NoAnswer::OutOfMemory => finish(OUT_OF_MEMORY, TROUBLE, out, err),
    }
}

/// The help that arguments request, with lines of at most `width` columns.
fn help_text(alloc: Global, error: &Error, width: usize) -> Result<String, OutOfMemory> {
    let help = format!(in alloc; "{error}")?;
    wrapped(alloc, help.as_str(), width)
}

/// The version, and what is noted of the build.
fn version_text<F: InputFiles>(
    alloc: Global,
    error: &Error,
    files: &F,
) -> Result<String, OutOfMemory> {
    let mut text = format!(in alloc; "{error}")?;
    if let Some(note) = files.build_note() {
        text.push_str(note.as_str())?;
    }
    Ok(text)
}

/// What clap says of arguments that it does not take, or the help or version that they ask for.
fn said<F: InputFiles>(alloc: Global, error: &Error, files: &F) -> Result<String, OutOfMemory> {
    match error.kind() {
        ErrorKind::OutOfMemory => Err(AllocError),
        ErrorKind::DisplayVersion => version_text(alloc, error, files),
        ErrorKind::DisplayHelp | ErrorKind::DisplayHelpOnMissingArgumentOrSubcommand => {
            help_text(alloc, error, files.screen().width)
        }
        _ => complaint(alloc, error),
    }
}

/// Writes what clap says of arguments that it does not take, to `err`, or the help that they ask for, to `out`. Returns the
/// status: 2, or 0 behind help.
pub fn refuse_command<F: InputFiles, O: Write, E: Write>(
    alloc: Global,
    error: &Error,
    files: &F,
    out: &mut O,
    err: &mut E,
) -> u8
    ensures { result ≤ 2 }
{
    let is_asked_for = !error.use_stderr();
    match said(alloc, error, files) {
        Err(_) => finish(OUT_OF_MEMORY, TROUBLE, out, err),
        Ok(text) if is_asked_for => finish(text.as_str(), DONE, out, err),
        Ok(text) => {
            let _ = write_out(err, text.as_str());
            TROUBLE
        }
    }
}

/// Writes why the arguments of the command line cannot be read. Returns the status.
pub fn refuse_words<O: Write, E: Write>(fault: WordsFault, out: &mut O, err: &mut E) -> u8
    ensures { result ≤ 2 }
{
    match fault {
        WordsFault::OutOfMemory => finish(OUT_OF_MEMORY, TROUBLE, out, err),
        WordsFault::NotText(number) => {
            let _ = write!(
                err,
                "osdgate: word {number} of the command line is not UTF-8\n"
            );
            TROUBLE
        }
    }
}
