//! The words of the command line.

use std::alloc::{AllocError, AllocFailed, Global};
use std::env::{Env, FillError};

/// How many bytes a word is given room for at first.
const ROOM: usize = 256;

/// How often the room is doubled at most: no word is so long.
const DOUBLINGS: u32 = 40;

/// Why the words cannot be read.
#[derive(Clone, Copy, Debug, PartialEq, Eq)]
pub enum WordsFault {
    /// The word with this number is not UTF-8. The program's own name has number 0.
    NotText(usize),
    /// A growth was refused.
    OutOfMemory,
}

impl From<AllocError> for WordsFault {
    fn from(_error: AllocError) -> WordsFault {
        WordsFault::OutOfMemory
    }
}

impl<T: Drop> From<AllocFailed<T>> for WordsFault {
    fn from(_error: AllocFailed<T>) -> WordsFault {
        WordsFault::OutOfMemory
    }
}

/// The word with a number, or nothing behind the last one.
fn word<R: Env>(rt: &R, alloc: Global, number: usize) -> Result<Option<String>, WordsFault> {
    let mut room = ROOM;
    for _ in 0..DOUBLINGS {
        let mut bytes = vec![in alloc; 0u8; room]?;
        match rt.arg(number, bytes.as_mut_slice()) {
            Err(FillError::NotPresent) => return Ok(None),
            Err(FillError::TooLong) => room = room.saturating_mul(2),
            Ok(length) => {
                bytes.truncate(length);
                return match String::from_utf8(bytes) {
                    Ok(text) => Ok(Some(text)),
                    Err(_) => Err(WordsFault::NotText(number)),
                };
            }
        }
    }
    Err(WordsFault::OutOfMemory)
}

/// The words of the command line, the program's own name first.
pub fn words<R: Env>(rt: &R, alloc: Global) -> Result<Vec<String>, WordsFault> {
    let mut words = Vec::new(alloc);
    for number in 0..usize::MAX {
        match word(rt, alloc, number)? {
            None => break,
            Some(text) => words.push(text)?,
        }
    }
    Ok(words)
}
