//! The command line: from words to what is written, and the status.

ghost use Rattle.std.specs.Prelude.{◌≤◌};

use crate::auditing::{run_audit, run_reach};
use crate::checking::push_path;
use crate::drawing::{Drawn, asked_picture};
use crate::output_files::{Logs, OutputFiles};
use crate::run::{Ran, RunFault, Task, run_task};
use check_commands::run_check;
use clap::ArgMatches;
use command_arguments::command_words;
use command_steps::{DONE, FOUND, TROUBLE, number_of, refuse_command, write_out};
use gate_commands::run_question;
use gate_files::InputFiles;
use log_commands::{is_log_command, run_log_command};
use script_text::ScriptFault;
use std::alloc::Global;
use std::convert::AsStr;
use std::io::{Read, Write};
use std::{fmt, io};

/// How many workers `osdgate threads` has, or nothing where they are not 1 to 8.
fn workers_of(matches: &ArgMatches<'_>) -> Option<u32> {
    let count = u32::try_from(number_of(matches.get_str("workers")?)?).ok()?;
    if (1..=8).contains(&count) {
        Some(count)
    } else {
        None
    }
}

/// That a script cannot be read.
#[derive(Clone, Copy)]
struct Unread<'a>(&'a io::Error);

impl fmt::Display for Unread<'_> {
    fn fmt<W: fmt::Write>(&self, f: &mut fmt::Formatter<W>) -> fmt::Result {
        let error = self.0;
        write!(f, "the script cannot be read: {error}")
    }
}

/// Tells a fault of a script, behind the name of its file.
fn tell_fault<T: fmt::Display + Drop, E: Write>(alloc: Global, path: &str, fault: T, err: &mut E) {
    let mut name = String::new(alloc);
    if path != "-" && push_path(&mut name, path).is_ok() && name.push_str(": ").is_err() {
        return;
    }
    let _ = write!(err, "osdgate: {name}{fault}\n");
}

/// Tells how a script ended, and answers the status.
fn finish_script<E: Write>(
    alloc: Global,
    path: &str,
    ended: Result<(), RunFault>,
    err: &mut E,
) -> u8
    ensures { result ≤ 2 }
{
    match ended {
        Ok(()) => DONE,
        Err(RunFault::Script { fault, told }) => {
            tell_fault(alloc, path, fault, err);
            let _ = write_out(err, told.as_str());
            match fault {
                ScriptFault::BadLine(_) => FOUND,
                _ => TROUBLE,
            }
        }
        Err(RunFault::Wrong(told)) => {
            let _ = write_out(err, told.as_str());
            FOUND
        }
        Err(RunFault::Unread(error)) => {
            tell_fault(alloc, path, Unread(&error), err);
            TROUBLE
        }
        Err(RunFault::OutOfMemory) => {
            tell_fault(alloc, path, "S5 OutOfMemory 0", err);
            TROUBLE
        }
    }
}

/// Tells what became of a picture, and answers the status.
fn finish_picture<E: Write>(drawn: &Drawn, err: &mut E) -> u8
    ensures { result ≤ 2 }
{
    match drawn {
        Drawn::Written(told) => {
            let _ = write_out(err, told.as_str());
            DONE
        }
        Drawn::Nothing(why) => {
            let _ = write_out(err, why);
            TROUBLE
        }
        Drawn::Unwritten(error) => {
            let _ = write!(err, "osdgate: the picture cannot be written: {error}\n");
            TROUBLE
        }
        Drawn::OutOfMemory => {
            let _ = write_out(err, "osdgate: the picture cannot be drawn: OutOfMemory\n");
            TROUBLE
        }
    }
}

/// Tells how a script ended and what became of its picture, and answers the status.
fn finish_run<E: Write>(alloc: Global, path: &str, ran: Ran, err: &mut E) -> u8
    ensures { result ≤ 2 }
{
    let status = finish_script(alloc, path, ran.ended, err);
    match &ran.drawn {
        None => status,
        Some(drawn) => status.max(finish_picture(drawn, err)),
    }
}

/// Runs the script that the words name, draws it where they ask for a picture, and answers the status.
fn run_words<F: InputFiles + OutputFiles, R: Read, O: Write, E: Write>(
    alloc: Global,
    matches: &ArgMatches<'_>,
    files: &F,
    reader: &mut R,
    out: &mut O,
    err: &mut E,
) -> u8
    ensures { result ≤ 2 }
{
    let path = matches.get_str("script").unwrap_or("-");
    match asked_picture(alloc, files, matches, path) {
        Ok(picture) => {
            let check = matches.get_flag("check");
            let task = Task {
                path,
                check,
                picture,
            };
            finish_run(alloc, path, run_task(alloc, files, task, reader, out), err)
        }
        Err(why) => {
            let _ = write_out(err, why.line());
            TROUBLE
        }
    }
}

/// Writes what became of a workload, or why it has no end, and answers the status.
fn finish_workload<T: fmt::Display, F: fmt::Display, O: Write, E: Write>(
    ended: &Result<T, F>,
    out: &mut O,
    err: &mut E,
) -> u8
    ensures { result ≤ 2 }
{
    match ended {
        Ok(tally) => {
            if write!(out, "{tally}").is_ok() && out.flush().is_ok() {
                return DONE;
            }
            let _ = write_out(err, "osdgate: the answer could not be written\n");
            TROUBLE
        }
        Err(fault) => {
            let _ = write!(err, "osdgate: {fault}\n");
            FOUND
        }
    }
}

/// Prints how many workers are allowed, and returns the exit status.
fn refuse_workers<E: Write>(err: &mut E) -> u8
    ensures { result ≤ 2 }
{
    let _ = write_out(err, "osdgate: there are 1 to 8 workers\n");
    TROUBLE
}

/// Runs the program on its arguments, the first of which is the program's own name, and returns its exit status:
/// `DONE`, `FOUND` or `TROUBLE`. For a script that has a bad line, and for workers that meet a fault, it is `FOUND`.
///
/// `workload` is called with a number of workers and whether there are moves, if the arguments request it. It runs
/// the workers on threads, and its result is printed.
///
/// Answers, and the help that was requested, go to `out`. What is wrong with the arguments goes to `err`. If a
/// capability text has a fault, the text and a caret under the fault's byte also go to `err`. What a script prints is
/// written as it runs.
pub fn run_command<
    S: AsStr,
    F: InputFiles + OutputFiles,
    T: fmt::Display + Drop,
    X: fmt::Display + Drop,
    W: FnOnce(u32, bool) -> Result<T, X>,
    R: Read,
    O: Write,
    E: Write,
>(
    alloc: Global,
    words: &[S],
    files: &F,
    workload: W,
    reader: &mut R,
    out: &mut O,
    err: &mut E,
) -> u8
    requires { W.IsAlwaysCallable workload }
    ensures { result ≤ 2 }
{
    let matches = match command_words(alloc, words) {
        Ok(matches) => matches,
        Err(error) => return refuse_command(alloc, &error, files, out, err),
    };
    match matches.subcommand() {
        Some(("threads", inner)) => match workers_of(inner) {
            Some(count) => finish_workload(&workload(count, inner.get_flag("moves")), out, err),
            None => refuse_workers(err),
        },
        Some(("audit", inner)) => run_audit(alloc, inner, files, reader, out, err),
        Some(("check", inner)) => run_check(alloc, inner, files, reader, out, err),
        Some(("reach", inner)) => run_reach(alloc, inner, files, reader, out, err),
        Some(("run", inner)) => run_words(alloc, inner, files, reader, out, err),
        Some((name, inner)) if is_log_command(name) => {
            run_log_command(alloc, name, inner, files, &Logs(files), reader, out, err)
        }
        _ => run_question(alloc, &matches, files, reader, out, err),
    }
}
