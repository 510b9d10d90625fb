//! `osdgate run`: a script from a file or from standard input, and what it prints.

use crate::checking::{Looked, wrong_lines};
use crate::drawing::{Asked, Drawn, draw, is_printed};
use crate::output_files::OutputFiles;
use common_types::OutOfMemory;
use gate_files::InputFiles;
use script_text::{ScriptFault, read_script};
use std::alloc::Global;
use std::io;
use std::io::{ErrorKind, Read, Write};
use world_script::run_script;

/// The most bytes that a script may have; one that has more is S2.
const MAX_BYTES: u64 = 1_048_576;

/// Why a script did not run to its end.
#[derive(Drop)]
pub(crate) enum RunFault {
    /// The file cannot be read: nothing was run.
    Unread(io::Error),
    /// The script ended early. `told` is printed with the fault.
    Script { fault: ScriptFault, told: String },
    /// Lines of a script that is only checked are not commands. This is the report on them.
    Wrong(String),
    /// A growth was refused before the script began.
    OutOfMemory,
}

impl From<io::Error> for RunFault {
    fn from(error: io::Error) -> RunFault {
        if error.kind() == ErrorKind::OutOfMemory {
            return RunFault::OutOfMemory;
        }
        RunFault::Unread(error)
    }
}

impl From<OutOfMemory> for RunFault {
    fn from(_error: OutOfMemory) -> RunFault {
        RunFault::OutOfMemory
    }
}

/// What ended a script, with the report on a bad line.
fn ended_by(
    alloc: Global,
    looked: Looked<'_>,
    fault: ScriptFault,
) -> Result<RunFault, OutOfMemory> {
    let told = match fault {
        ScriptFault::BadLine(number) => wrong_lines(alloc, looked, Some(number))?,
        _ => String::new(alloc),
    };
    Ok(RunFault::Script { fault, told })
}

/// Runs a script, and writes to `out` what its lines print.
fn run_bytes<O: Write>(alloc: Global, looked: Looked<'_>, out: &mut O) -> Result<(), RunFault> {
    let mut reader = looked.script;
    if let Err(fault) = run_script(alloc, &mut reader, out) {
        return Err(ended_by(alloc, looked, fault)?);
    }
    match out.flush() {
        Ok(()) => Ok(()),
        Err(_) => Err(ended_by(alloc, looked, ScriptFault::Write)?),
    }
}

/// Looks at a script without running it.
fn check_bytes(alloc: Global, looked: Looked<'_>) -> Result<(), RunFault> {
    let told = wrong_lines(alloc, looked, None)?;
    if told.is_empty() {
        return Ok(());
    }
    Err(RunFault::Wrong(told))
}

/// The bytes of a file, or of `reader` where the path is `-`.
fn script_at<F: InputFiles, R: Read>(
    alloc: Global,
    files: &F,
    path: &str,
    reader: &mut R,
) -> Result<Vec<u8>, RunFault> {
    if path != "-" {
        return Ok(files.read_bytes(path, MAX_BYTES)?);
    }
    match read_script(alloc, reader) {
        Ok(script) => Ok(script),
        Err(fault) => Err(RunFault::Script {
            fault,
            told: String::new(alloc),
        }),
    }
}

/// How a script ended, and what became of its picture, where one was asked for and the script's lines were run.
#[derive(Drop)]
pub(crate) struct Ran {
    pub(crate) ended: Result<(), RunFault>,
    pub(crate) drawn: Option<Drawn>,
}

/// Whether lines of a script were run up to its end or to one that is no command.
fn has_lines_run(ended: &Result<(), RunFault>) -> bool {
    match ended {
        Ok(()) => true,
        Err(RunFault::Script { fault, .. }) => matches!(fault, ScriptFault::BadLine(_)),
        Err(_) => false,
    }
}

/// What is asked of a script.
#[derive(Drop)]
pub(crate) struct Task<'a> {
    /// Its file, `-` for standard input.
    pub(crate) path: &'a str,
    /// It is only looked at, and not run.
    pub(crate) check: bool,
    pub(crate) picture: Option<Asked<'a>>,
}

/// Runs a script, or looks at it.
fn end_of<O: Write>(
    alloc: Global,
    looked: Looked<'_>,
    task: &Task<'_>,
    out: &mut O,
) -> Result<(), RunFault> {
    if task.check {
        check_bytes(alloc, looked)
    } else if is_printed(&task.picture) {
        run_bytes(alloc, looked, &mut io::sink())
    } else {
        run_bytes(alloc, looked, out)
    }
}

/// Runs the script of a file, or of `reader` where the path is `-`, and writes to `out` what its lines print. Then it draws the
/// picture that is asked for. A picture for standard output takes the place of what the lines print.
pub(crate) fn run_task<F: InputFiles + OutputFiles, R: Read, O: Write>(
    alloc: Global,
    files: &F,
    task: Task<'_>,
    reader: &mut R,
    out: &mut O,
) -> Ran {
    let script = match script_at(alloc, files, task.path, reader) {
        Ok(script) => script,
        Err(fault) => {
            return Ran {
                ended: Err(fault),
                drawn: None,
            };
        }
    };
    let looked = Looked {
        path: task.path,
        script: script.as_slice(),
        screen: files.screen(),
    };
    let ended = end_of(alloc, looked, &task, out);
    let drawn = if has_lines_run(&ended) {
        draw(alloc, files, script.as_slice(), task.picture, out)
    } else {
        None
    };
    Ran { ended, drawn }
}
