//! How a script ends before its last line.

ghost use Rattle.std.specs.Prelude.{◌≡◌, Some};
ghost use Rattle.script_text.specs.Faults.{fault_text};

use std::alloc::AllocError;
use std::fmt;

/// How a script ends before its last line. It prints as its number, its name, and the line where it has one.
///
/// Lines count from 1, and blank lines count too.
#[derive(Clone, Copy, Debug, PartialEq, Eq)]
pub enum ScriptFault {
    /// S1: the reader failed, or a read was interrupted. No line was carried out.
    Read,
    /// S2: the input has more than 1,048,576 bytes. No line was carried out.
    TooMuch,
    /// S3: this line is no command. The lines before it were carried out, and what they print was written.
    BadLine(usize),
    /// S4: a write failed, or took no byte. A beginning of what the script prints was written.
    Write,
    /// S5: memory ran out at this line, or at 0 while the input was read.
    OutOfMemory(usize),
}

impl fmt::Display for ScriptFault {
    ghost output = { λ fault. Some (fault_text fault) };

    fn fmt<W: fmt::Write>(&self, f: &mut fmt::Formatter<W>) -> fmt::Result {
        match self {
            ScriptFault::Read => write!(f, "S1 Read"),
            ScriptFault::TooMuch => write!(f, "S2 TooMuch"),
            ScriptFault::BadLine(line) => write!(f, "S3 BadLine {line}"),
            ScriptFault::Write => write!(f, "S4 Write"),
            ScriptFault::OutOfMemory(line) => write!(f, "S5 OutOfMemory {line}"),
        }
    }
}

impl std::error::Error for ScriptFault {}

/// Why a script does not go on behind a line.
#[derive(Clone, Copy, Debug)]
pub enum LineFault {
    /// The line is no command.
    BadLine,
    /// Memory was wanting.
    OutOfMemory,
}

impl From<AllocError> for LineFault {
    fn from(_error: AllocError) -> LineFault {
        LineFault::OutOfMemory
    }
}
