//! Why arguments have no answer.

use crate::bad_words::{BadWords, NoRequest};
use common_types::OutOfMemory;
use gate_files::{FileFault, Purpose};
use std::alloc::{AllocError, AllocFailed, Global};
use std::fmt;
use verdict_text::push_name;

/// A file that is not what it is read for.
#[derive(Drop)]
pub struct BadFile {
    purpose: Purpose,
    /// Its path, as it is shown.
    path: String,
    fault: FileFault,
}

/// Why arguments have no answer.
#[derive(Drop)]
pub enum NoAnswer {
    /// Clap takes the arguments, and yet they are no command line.
    Words(BadWords),
    /// Clap takes the arguments, and yet they are no command line. This text says why.
    Told(String),
    /// A file is not what it is read for.
    File(BadFile),
    /// A growth was refused.
    OutOfMemory,
}

impl BadFile {
    fn of(
        alloc: Global,
        purpose: Purpose,
        path: &str,
        fault: FileFault,
    ) -> Result<BadFile, OutOfMemory> {
        let mut shown = String::new(alloc);
        push_name(&mut shown, path)?;
        Ok(BadFile {
            purpose,
            path: shown,
            fault,
        })
    }
}

impl NoAnswer {
    /// That a file is not what it is read for, or out of memory.
    pub fn of_file(alloc: Global, purpose: Purpose, path: &str, fault: FileFault) -> NoAnswer {
        match fault {
            FileFault::OutOfMemory => NoAnswer::OutOfMemory,
            fault => match BadFile::of(alloc, purpose, path, fault) {
                Ok(bad) => NoAnswer::File(bad),
                Err(_) => NoAnswer::OutOfMemory,
            },
        }
    }
}

impl fmt::Display for BadFile {
    fn fmt<W: fmt::Write>(&self, f: &mut fmt::Formatter<W>) -> fmt::Result {
        let path = self.path.as_str();
        let fault = &self.fault;
        if path == "-" {
            write!(f, "standard input {fault}")?;
        } else {
            let name = self.purpose.name();
            write!(f, "{name} {path} {fault}")?;
        }
        match self.purpose.command() {
            Some(command) if fault.is_of_form() => write!(f, "; `{command}` prints what is read"),
            _ => Ok(()),
        }
    }
}

impl From<BadWords> for NoAnswer {
    fn from(bad: BadWords) -> NoAnswer {
        NoAnswer::Words(bad)
    }
}

impl From<NoRequest> for NoAnswer {
    fn from(why: NoRequest) -> NoAnswer {
        match why {
            NoRequest::Words(bad) => NoAnswer::Words(bad),
            NoRequest::Told(line) => NoAnswer::Told(line),
            NoRequest::OutOfMemory => NoAnswer::OutOfMemory,
        }
    }
}

impl From<AllocError> for NoAnswer {
    fn from(_error: AllocError) -> NoAnswer {
        NoAnswer::OutOfMemory
    }
}

impl<T: Drop> From<AllocFailed<T>> for NoAnswer {
    fn from(_error: AllocFailed<T>) -> NoAnswer {
        NoAnswer::OutOfMemory
    }
}
