//! A log that is read chunk by chunk.

use crate::counts::{Counts, add_one};
use crate::decided::Decided;
use crate::decision::decision_of;
use crate::front::{Fronted, front_of};
use crate::object::ObjectWords;
use crate::told::{Told, lacks_front, told_by};
use common_types::{Name, OutOfMemory};
use log_core::{Ledger, Line, LineBuffer, Marks, Request, Summary};
use memchr::memchr_iter;
use std::alloc::Global;
use std::str;

/// The most bytes of a line that are kept: 1 MiB. A longer line is cut into lines.
const MAX_LINE: usize = 1_048_576;

/// A request of an entity, with what was decided.
#[derive(Debug)]
pub struct LoggedRequest {
    pub entity: Name,
    pub decided: Decided,
    /// What its repetitions have in common.
    key: String,
}

impl Drop for LoggedRequest {
    fn drop(self) {
        let LoggedRequest {
            entity: _,
            decided: _,
            key: _,
        } = self;
    }
}

/// What was read of a log: its distinct requests, how often each was made, and how many lines it has of which kind.
///
/// The memory is that of the distinct requests, of a session's entity for each session, and of the longest line up to 1 MiB.
pub struct LogReading {
    buffer: LineBuffer,
    marks: Marks,
    ledger: Ledger,
    /// How many lines there are, of what the ledger does not see.
    lines: u64,
    of_osd: u64,
    not_text: u64,
    requests: Vec<LoggedRequest>,
    /// The keys of decisions that are not what an OSD of Ceph 16.2.15 writes.
    unread: Vec<String>,
}

impl Drop for LogReading {
    fn drop(self) {
        let LogReading {
            buffer: _,
            marks: _,
            ledger: _,
            lines: _,
            of_osd: _,
            not_text: _,
            requests: _,
            unread: _,
        } = self;
    }
}

/// A session or a thread of a daemon: each daemon has its own.
fn place_of(alloc: Global, front: Fronted<'_>, name: &str) -> Result<Name, OutOfMemory> {
    let mut text = String::from_str(alloc, front.daemon)?;
    text.push_str(" ")?;
    text.push_str(name)?;
    Ok(Name::from_string(text))
}

/// The line that an OSD's line is for the ledger, if it tells of a request.
fn line_of(alloc: Global, front: Fronted<'_>) -> Result<Option<Line>, OutOfMemory> {
    let line = match told_by(front) {
        Told::Nothing => return Ok(None),
        Told::Cut => Line::Cut,
        Told::Session { session, entity } => Line::Session {
            session: place_of(alloc, front, session)?,
            entity: Name::new(alloc, entity)?,
        },
        Told::Operation(object) => Line::Operation {
            thread: place_of(alloc, front, front.thread)?,
            object: object.joined(alloc)?,
        },
        Told::Decision { session, text } => Line::Decision {
            thread: place_of(alloc, front, front.thread)?,
            session: place_of(alloc, front, session)?,
            time: Name::new(alloc, front.time)?,
            text: Name::new(alloc, text)?,
        },
    };
    Ok(Some(line))
}

impl LogReading {
    /// Nothing was read. It takes no memory.
    pub fn new(alloc: Global) -> LogReading {
        LogReading {
            buffer: LineBuffer::new(alloc),
            marks: Marks::new(),
            ledger: Ledger::new(alloc),
            lines: 0,
            of_osd: 0,
            not_text: 0,
            requests: Vec::new(alloc),
            unread: Vec::new(alloc),
        }
    }

    /// How many decisions are not what an OSD of Ceph 16.2.15 writes.
    fn unread(&self) -> u64 {
        let mut count: u64 = 0;
        for key in &self.unread {
            if let Some(summary) = self.ledger.summary(key.as_str()) {
                count = count.saturating_add(summary.count);
            }
        }
        count
    }

    /// How many lines there are, by what they are.
    pub fn counts(&self) -> Counts {
        let told = self.ledger.counts();
        Counts {
            lines: self.lines,
            of_osd: self.of_osd,
            sessions: told.sessions,
            decisions: told.decisions,
            cut: told.cut,
            not_text: self.not_text,
            without_entity: told.without_entity,
            without_object: told.without_object,
            unread: self.unread(),
        }
    }

    /// The distinct requests, in the order in which they were first made.
    pub fn requests(&self) -> &[LoggedRequest] {
        self.requests.as_slice()
    }

    /// How often a request was made, and when first and last.
    pub fn summary(&self, request: &LoggedRequest) -> Option<&Summary> {
        self.ledger.summary(request.key.as_str())
    }

    /// Keeps a request that is made for the first time, or its key if its text cannot be read.
    fn keep(&mut self, alloc: Global, request: &Request) -> Result<(), OutOfMemory> {
        let key = request.key(alloc)?;
        let decided = match ObjectWords::of_joined(request.object.as_str()) {
            Some(object) => decision_of(alloc, &object, request.text.as_str())?,
            None => None,
        };
        match decided {
            Some(decided) => self.requests.push(LoggedRequest {
                entity: request.entity.copy()?,
                decided,
                key,
            })?,
            None => self.unread.push(key)?,
        }
        Ok(())
    }

    /// The line that a line of text is for the ledger, if it tells of a request.
    fn line_of_text(&mut self, alloc: Global, line: &str) -> Result<Option<Line>, OutOfMemory> {
        match front_of(line) {
            Some(front) => {
                add_one(&mut self.of_osd);
                line_of(alloc, front)
            }
            None if lacks_front(line) => Ok(Some(Line::Cut)),
            None => Ok(None),
        }
    }

    /// Passes over a line that says nothing of requests. It is looked at further only while no line of an OSD is known.
    fn pass_over(&mut self, line: &[u8]) {
        match str::from_utf8(line) {
            Err(_) => add_one(&mut self.not_text),
            Ok(line) => {
                if self.of_osd == 0 && front_of(line).is_some() {
                    add_one(&mut self.of_osd);
                }
            }
        }
    }

    /// Adds the line that a line of bytes with a mark is for the ledger, if it tells of a request.
    fn push_marked(
        &mut self,
        alloc: Global,
        told: &mut Vec<Line>,
        line: &[u8],
    ) -> Result<(), OutOfMemory> {
        let Ok(line) = str::from_utf8(line) else {
            add_one(&mut self.not_text);
            return Ok(());
        };
        if let Some(line) = self.line_of_text(alloc, line)? {
            told.push(line)?;
        }
        Ok(())
    }

    /// Adds the line that a line of bytes is for the ledger, if it tells of a request. An empty one counts for nothing.
    fn push_line(
        &mut self,
        alloc: Global,
        told: &mut Vec<Line>,
        line: &[u8],
    ) -> Result<(), OutOfMemory> {
        if line.is_empty() {
            return Ok(());
        }
        add_one(&mut self.lines);
        if self.marks.are_in(line) {
            return self.push_marked(alloc, told, line);
        }
        self.pass_over(line);
        Ok(())
    }

    /// Adds the lines that lines of bytes are for the ledger.
    fn push_lines(
        &mut self,
        alloc: Global,
        told: &mut Vec<Line>,
        lines: &[u8],
    ) -> Result<(), OutOfMemory> {
        let mut start = 0;
        for end in memchr_iter(b'\n', lines) {
            self.push_line(alloc, told, lines.get(start..end).unwrap_or(b""))?;
            start = end.saturating_add(1);
        }
        self.push_line(alloc, told, lines.get(start..).unwrap_or(b""))
    }

    /// Reads whole lines.
    fn read_lines(&mut self, alloc: Global, lines: &[u8]) -> Result<(), OutOfMemory> {
        let mut told = Vec::new(alloc);
        self.push_lines(alloc, &mut told, lines)?;
        for request in &self.ledger.read_all(alloc, told.as_slice())? {
            self.keep(alloc, request)?;
        }
        Ok(())
    }

    /// Reads the next bytes of a log. What is behind their last line feed waits for the next bytes. The only error is out of
    /// memory.
    pub fn read_chunk(&mut self, alloc: Global, chunk: &[u8]) -> Result<(), OutOfMemory> {
        let lines = self.buffer.take_lines(alloc, chunk)?;
        self.read_lines(alloc, lines.as_slice())?;
        if self.buffer.len() > MAX_LINE {
            self.end_file(alloc)?;
        }
        Ok(())
    }

    /// Reads the bytes that wait as a line: a file ends. The next bytes may be those of a later log of the same daemon. The only
    /// error is out of memory.
    pub fn end_file(&mut self, alloc: Global) -> Result<(), OutOfMemory> {
        let line = self.buffer.take_last(alloc);
        self.read_lines(alloc, line.as_slice())
    }
}
