//! Words that are no text.

use crate::expecting::expect_so;
use command_steps::refuse_words;
use gate_files::words;
use std::alloc::Global;
use std::env::{Env, FillError};

/// Words that end in one which is not UTF-8, or for which there is no room.
#[derive(Drop)]
struct Words {
    bad: usize,
}

impl Env for Words {
    fn arg(&self, i: usize, buf: &mut [u8]) -> Result<usize, FillError> {
        if i == self.bad {
            if buf.is_empty() {
                return Err(FillError::TooLong);
            }
            buf[0] = 255;
            return Ok(1);
        }
        if i < 2 {
            Ok(0)
        } else {
            Err(FillError::NotPresent)
        }
    }

    fn var(&self, _name: &str, _buf: &mut [u8]) -> Result<usize, FillError> {
        Err(FillError::NotPresent)
    }

    fn var_at(&self, _i: usize, _buf: &mut [u8]) -> Result<usize, FillError> {
        Err(FillError::NotPresent)
    }
}

/// Whether the words are refused, with this line on standard error and nothing on standard output.
fn are_refused(alloc: Global, bad: usize, line: &str) -> bool {
    let mut out: Vec<u8> = Vec::new(alloc);
    let mut err: Vec<u8> = Vec::new(alloc);
    match words(&Words { bad }, alloc) {
        Ok(_) => false,
        Err(fault) => {
            let status = refuse_words(fault, &mut out, &mut err);
            status == 2 && out.is_empty() && err.as_slice() == line.as_bytes()
        }
    }
}

/// Which word is no text, and the line that says so.
const REFUSED: &[(usize, &str); 2] = &[
    (0, "osdgate: word 0 of the command line is not UTF-8\n"),
    (1, "osdgate: word 1 of the command line is not UTF-8\n"),
];

#[test]
fn words_that_are_no_text(rt: HostRuntime) {
    let alloc = rt.alloc();
    let are_taken = words(&Words { bad: 7 }, alloc).is_ok();
    expect_so(&rt, are_taken, "empty words");
    for (bad, line) in REFUSED {
        expect_so(&rt, are_refused(alloc, *bad, line), line);
    }
}
