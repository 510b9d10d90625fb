//! A script that ends out of memory: the fault is reported with the line, and the output of the lines before stays.

use script_text::ScriptFault;
use std::alloc::Global;
use std::io;
use std::io::{Error, ErrorKind, Read, Write};
use std::process::Abort;
use std::test::Fail;
use world_script::run_script;

/// A script, and what it writes.
#[derive(Clone, Copy)]
struct Case {
    script: &'static [u8],
    written: &'static str,
}

const ANSWERED: Case = Case {
    script: b"osds 3
osd pool create data 1 3 2
auth get-or-create client.a osd 'allow rw pool=data'
open client.a
osd map data '' x
do 1 data '' x append hello
do 1 data '' x read 0 0
do 1 data '' x call counter add 1
settle
answer 1.1
answer 1.2
answer 1.3
",
    written: "epoch 1
epoch 2
made
session 1
group 0 acting 0 1 2
request 1.1
request 1.2
request 1.3
settled 29
1.1 ok
- \"\"
1.2 ok
- \"hello\"
1.3 denied
- 1 call 1
",
};

/// It is read in two pieces, and each of its lines is written by itself.
const SHORT: Case = Case {
    script: b"osds 1
auth get-or-create client.a osd 'allow rw pool=data'
osd pool create data 1 1 1
settle
tick 7
",
    written: "epoch 1
made
epoch 2
settled 1
tick 7
",
};

/// How many bytes of what the first script writes each number of lines has written.
const BEGINNINGS: [usize; 13] = [0, 8, 16, 21, 31, 52, 64, 76, 88, 99, 111, 128, 150];

/// Gives up to 64 bytes at a time, and fails at this read.
#[derive(Drop)]
struct Source<'a> {
    rest: &'a [u8],
    reads: usize,
    fails_at: usize,
}

impl Read for Source<'_> {
    fn read(&mut self, buf: &mut [u8]) -> io::Result<usize> {
        let place = self.reads;
        self.reads = place.saturating_add(1);
        if place == self.fails_at {
            return Err(Error::from(ErrorKind::Other));
        }
        let count = buf.len().min(self.rest.len()).min(64);
        buf[..count].copy_from_slice(&self.rest[..count]);
        self.rest = &self.rest[count..];
        Ok(count)
    }
}

/// What is written, in a buffer that is as large as all of it, and the write that fails, or takes no byte.
#[derive(Drop)]
struct Sink {
    taken: [u8; 256],
    length: usize,
    writes: usize,
    fails_at: usize,
    takes_none: bool,
}

impl Sink {
    fn new(fails_at: usize, takes_none: bool) -> Sink {
        Sink {
            taken: [0; 256],
            length: 0,
            writes: 0,
            fails_at,
            takes_none,
        }
    }

    // Whether this much of the whole output was written.
    fn has(&self, case: Case, length: usize) -> bool {
        length <= case.written.len()
            && length <= self.taken.len()
            && self.length == length
            && &self.taken[..length] == &case.written.as_bytes()[..length]
    }

    // Whether a beginning of the output was written.
    fn has_a_beginning(&self, case: Case) -> bool {
        self.has(case, self.length)
    }

    // Whether the whole output was written.
    fn has_all(&self, case: Case) -> bool {
        self.has(case, case.written.len())
    }
}

impl Write for Sink {
    fn write(&mut self, buf: &[u8]) -> io::Result<usize> {
        let place = self.writes;
        self.writes = place.saturating_add(1);
        if place == self.fails_at {
            return if self.takes_none {
                Ok(0)
            } else {
                Err(Error::from(ErrorKind::Other))
            };
        }
        if self.length > self.taken.len() || buf.len() > self.taken.len() - self.length {
            return Err(Error::from(ErrorKind::Other));
        }
        let end = self.length + buf.len();
        self.taken[self.length..end].copy_from_slice(buf);
        self.length = end;
        Ok(buf.len())
    }

    fn flush(&mut self) -> io::Result<()> {
        Ok(())
    }
}

fn run(alloc: Global, case: Case, sink: &mut Sink, reads: usize) -> Result<(), ScriptFault> {
    let mut source = Source {
        rest: case.script,
        reads: 0,
        fails_at: reads,
    };
    run_script(alloc, &mut source, sink)
}

// Whether the whole output was written, or what stands before the line at which memory was refused.
fn is_written(alloc: Global) -> bool {
    let mut sink = Sink::new(usize::MAX, false);
    match run(alloc, ANSWERED, &mut sink, usize::MAX) {
        Ok(()) => sink.has_all(ANSWERED),
        Err(ScriptFault::OutOfMemory(line)) => {
            let before = BEGINNINGS.get(line.saturating_sub(1)).copied();
            let mut again = Sink::new(usize::MAX, false);
            before == Some(sink.length)
                && sink.has_a_beginning(ANSWERED)
                && run(alloc, ANSWERED, &mut again, usize::MAX).is_ok()
                && again.has_all(ANSWERED)
        }
        Err(_) => false,
    }
}

#[test]
fn first_script(rt: HostRuntime) -> Result<(), Fail> {
    assert!(&rt; is_written(rt.alloc()));
    Ok(())
}

// How the short script ends where this read fails, or this write fails or takes no byte, and what it wrote. Where memory is refused
// it is run once more, to another sink.
fn ended(
    alloc: Global,
    reads: usize,
    writes: usize,
    takes_none: bool,
) -> (Result<(), ScriptFault>, Sink) {
    let mut sink = Sink::new(writes, takes_none);
    match run(alloc, SHORT, &mut sink, reads) {
        Err(ScriptFault::OutOfMemory(_)) => {
            let mut again = Sink::new(writes, takes_none);
            (run(alloc, SHORT, &mut again, reads), again)
        }
        end => (end, sink),
    }
}

// How many reads there are, at each of which a failure is S1 and nothing is written.
fn reads(alloc: Global) -> Option<usize> {
    for place in 0..100usize {
        let (end, sink) = ended(alloc, place, usize::MAX, false);
        match end {
            Err(ScriptFault::Read) if sink.has(SHORT, 0) => {}
            Ok(()) if sink.has_all(SHORT) => return Some(place),
            _ => return None,
        }
    }
    None
}

// How many writes there are, at each of which a failure, or taking no byte, is S4 behind a beginning of the output.
fn writes(alloc: Global, takes_none: bool) -> Option<usize> {
    for place in 0..100usize {
        let (end, sink) = ended(alloc, usize::MAX, place, takes_none);
        match end {
            Err(ScriptFault::Write) if sink.has_a_beginning(SHORT) => {}
            Ok(()) if sink.has_all(SHORT) => return Some(place),
            _ => return None,
        }
    }
    None
}

#[test]
fn readers_and_writers_that_fail(rt: HostRuntime) -> Result<(), Fail> {
    let alloc = rt.alloc();
    assert!(&rt; reads(alloc) > Some(1));
    assert!(&rt; writes(alloc, false) > Some(4));
    assert!(&rt; writes(alloc, true) > Some(4));
    Ok(())
}
