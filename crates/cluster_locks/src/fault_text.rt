//! The printed forms of the steps' faults: number, name, and what they carry.

ghost use Rattle.std.specs.Prelude.{Some};
ghost use Rattle.cluster_locks.specs.Printed.{open_text, answer_text};

use crate::groups::AnswerFault;
use crate::users::OpenFault;
use std::error::Error;
use std::fmt;

/// As `W6 Limit`; a fault of the users prints itself.
impl fmt::Display for OpenFault {
    ghost output = { λ fault. Some (open_text fault) };

    fn fmt<W: fmt::Write>(&self, f: &mut fmt::Formatter<W>) -> fmt::Result {
        match self {
            OpenFault::User(fault) => write!(f, "{fault}"),
            OpenFault::Limit => write!(f, "W6 Limit"),
        }
    }
}

impl Error for OpenFault {}

/// As `W5 NoRequest`.
impl fmt::Display for AnswerFault {
    ghost output = { λ fault. Some (answer_text fault) };

    fn fmt<W: fmt::Write>(&self, f: &mut fmt::Formatter<W>) -> fmt::Result {
        match self {
            AnswerFault::NoRequest => write!(f, "W5 NoRequest"),
            AnswerFault::OutOfMemory => write!(f, "W7 OutOfMemory"),
        }
    }
}

impl Error for AnswerFault {}
