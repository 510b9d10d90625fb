//! What a request is answered.

ghost use Rattle.std.specs.Prelude.{◌≡◌};
ghost use Rattle.store_core.specs.Replies.{number_of};

use common_types::{Items, Name, TryClone};
use object_core::Outputs;
use std::alloc::AllocError;
use verdict_core::Report;

/// What a request is answered.
pub enum Reply {
    /// The ticket does not allow it: for each grant the first condition that fails.
    Denied(Report),
    /// All operations of a vector were done: their outputs.
    Done(Outputs),
    /// The first operation that failed, counted from 1, and its error number. Nothing was done.
    Failed { place: usize, number: u32 },
    /// The names of a listing piece, in the order of their bytes.
    Names(Items<Name>),
}

impl Drop for Reply {
    fn drop(self) {
        match self {
            Reply::Denied(_)
            | Reply::Done(_)
            | Reply::Failed {
                place: _,
                number: _,
            }
            | Reply::Names(_) => (),
        }
    }
}

impl TryClone for Reply {
    fn copy(&self) -> Result<Reply, AllocError> {
        match self {
            Reply::Denied(report) => Ok(Reply::Denied(report.copy()?)),
            Reply::Done(outputs) => Ok(Reply::Done(outputs.copy()?)),
            Reply::Failed { place, number } => Ok(Reply::Failed {
                place: *place,
                number: *number,
            }),
            Reply::Names(names) => Ok(Reply::Names(names.copy()?)),
        }
    }
}

/// A reply's error number: 1 EPERM for a denial, the number of a failure, and 0 for what was done or listed. It takes
/// no memory.
pub fn reply_number(reply: &Reply) -> u32
    ensures { result ≡ number_of reply.now }
{
    match reply {
        Reply::Denied(_) => 1,
        Reply::Failed { number, .. } => *number,
        Reply::Done(_) | Reply::Names(_) => 0,
    }
}
