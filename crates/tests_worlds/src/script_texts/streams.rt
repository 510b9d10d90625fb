//! Readers and writers, also such that fail.

use crate::expecting::expect_so;
use script_text::{LineFault, ScriptFault, end_line, read_script, write_text};
use std::alloc::Global;
use std::io;
use std::io::{Error, ErrorKind, Read, Write};
use std::process::Abort;

/// Gives one byte at a time, and then fails, where it is to.
#[derive(Drop)]
struct Slow<'a> {
    rest: &'a [u8],
    fails: Option<ErrorKind>,
}

impl Read for Slow<'_> {
    fn read(&mut self, buf: &mut [u8]) -> io::Result<usize> {
        if self.rest.is_empty() {
            return match self.fails {
                None => Ok(0),
                Some(kind) => Err(Error::from(kind)),
            };
        }
        if buf.is_empty() {
            return Ok(0);
        }
        buf[0] = self.rest[0];
        self.rest = &self.rest[1..];
        Ok(1)
    }
}

/// Takes up to two bytes at a time while it has room, and then fails or takes none.
#[derive(Drop)]
struct Narrow {
    taken: Vec<u8>,
    room: usize,
    fails: bool,
}

impl Write for Narrow {
    fn write(&mut self, buf: &[u8]) -> io::Result<usize> {
        let count = buf.len().min(self.room).min(2);
        if count == 0 && self.fails {
            return Err(Error::from(ErrorKind::Other));
        }
        self.taken.extend_from_slice(&buf[..count])?;
        self.room -= count;
        Ok(count)
    }

    fn flush(&mut self) -> io::Result<()> {
        Ok(())
    }
}

/// How many bytes are read of a script of `len` bytes, or the fault.
fn read_len<R: Abort>(rt: &R, alloc: Global, len: usize) -> Result<usize, ScriptFault> {
    let bytes = vec![in alloc; b'#'; len].expect(rt, "memory");
    let mut reader = bytes.as_slice();
    match read_script(alloc, &mut reader) {
        Ok(script) => Ok(script.len()),
        Err(fault) => Err(fault),
    }
}

/// Lengths of scripts, and how they are read.
const LENGTHS: &[(usize, Result<usize, ScriptFault>); 3] = &[
    (0, Ok(0)),
    (1_048_576, Ok(1_048_576)),
    (1_048_577, Err(ScriptFault::TooMuch)),
];

#[test]
fn a_script_has_a_mebibyte_at_most(rt: HostRuntime) {
    for (len, wanted) in LENGTHS {
        let read = read_len(&rt, rt.alloc(), *len);
        expect_so(&rt, read == *wanted, "a length");
    }
}

#[test]
fn a_slow_reader_is_read_to_its_end(rt: HostRuntime) {
    let mut reader = Slow {
        rest: b"osds 3\n",
        fails: None,
    };
    let script = read_script(rt.alloc(), &mut reader).expect(&rt, "a script");
    let is_whole = script.as_slice() == b"osds 3\n".as_slice();
    expect_so(&rt, is_whole, "a script");
}

#[test]
fn a_reader_that_fails_is_not_read(rt: HostRuntime) {
    for kind in [ErrorKind::Other, ErrorKind::Interrupted] {
        let mut reader = Slow {
            rest: b"osds 3\n",
            fails: Some(kind),
        };
        let refused = read_script(rt.alloc(), &mut reader).err();
        expect_so(&rt, refused == Some(ScriptFault::Read), "a refusal");
    }
}

/// For how many bytes a writer has room, whether it fails then, whether it takes all, and what it takes.
const WRITTEN: &[(usize, bool, bool, &str); 5] = &[
    (9, false, true, "epoch 1"),
    (7, true, true, "epoch 1"),
    (5, true, false, "epoch"),
    (5, false, false, "epoch"),
    (0, false, false, ""),
];

/// Whether such a writer takes this of a text of seven bytes, and all of it or not.
fn is_written(alloc: Global, room: usize, fails: bool, whole: bool, wanted: &str) -> bool {
    let mut writer = Narrow {
        taken: Vec::new(alloc),
        room,
        fails,
    };
    let as_expected = match write_text(&mut writer, "epoch 1") {
        Ok(()) => whole,
        Err(fault) => !whole && fault == ScriptFault::Write,
    };
    as_expected && writer.taken.as_slice() == wanted.as_bytes()
}

#[test]
fn a_writer_takes_all_or_a_beginning(rt: HostRuntime) {
    for (room, fails, whole, wanted) in WRITTEN {
        let is_written = is_written(rt.alloc(), *room, *fails, *whole, wanted);
        expect_so(&rt, is_written, wanted);
    }
}

/// How a line goes on, for how many bytes a writer has room, what the line's end answers, and what is written.
const ENDS: &[(Result<(), LineFault>, usize, Result<(), ScriptFault>, &str); 4] = &[
    (Ok(()), 7, Ok(()), "epoch 1"),
    (Ok(()), 5, Err(ScriptFault::Write), "epoch"),
    (
        Err(LineFault::BadLine),
        7,
        Err(ScriptFault::BadLine(12)),
        "",
    ),
    (
        Err(LineFault::OutOfMemory),
        7,
        Err(ScriptFault::OutOfMemory(12)),
        "",
    ),
];

/// What the end of line 12 answers, which prints seven bytes, and what is written.
fn end_twelfth(
    alloc: Global,
    goes_on: Result<(), LineFault>,
    room: usize,
) -> (Result<(), ScriptFault>, Vec<u8>) {
    let mut writer = Narrow {
        taken: Vec::new(alloc),
        room,
        fails: true,
    };
    let ended = end_line(&mut writer, 12, "epoch 1", goes_on);
    (ended, writer.taken)
}

#[test]
fn a_line_that_does_not_go_on_ends_a_script_by_its_number(rt: HostRuntime) {
    for (goes_on, room, wanted, text) in ENDS {
        let (ended, taken) = end_twelfth(rt.alloc(), *goes_on, *room);
        let is_so = ended == *wanted && taken.as_slice() == text.as_bytes();
        expect_so(&rt, is_so, "an end");
    }
}
