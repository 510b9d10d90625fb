//! Files, and what they hold as text.

use crate::build_note::host_note;
use crate::file_fault::FileFault;
use crate::screen::{Screen, host_screen};
use std::alloc::Global;
use std::io::Read;
use std::time::{Clock, Duration};
use std::{fs, io};

/// The most bytes that a file of entities, pools or requests may have: 64 MiB.
const MAX_BYTES: u64 = 67_108_864;

/// What some programs write in front of UTF-8.
const BYTE_ORDER_MARK: char = '\u{feff}';

/// Files by their paths.
pub trait InputFiles {
    /// The bytes of a file: all of them, or one more than `most` where it has more. It is an error where the file cannot be read.
    fn read_bytes(&self, path: &str, most: u64) -> io::Result<Vec<u8>>;

    /// What lines for people are shown on.
    fn screen(&self) -> Screen {
        Screen::none()
    }

    /// What is noted of the program's build, if anything is.
    fn build_note(&self) -> Option<String> {
        None
    }

    /// The time since some start, if there is a clock.
    fn now(&self) -> Option<Duration> {
        None
    }
}

/// The files of the program's host.
impl InputFiles for HostRuntime {
    fn read_bytes(&self, path: &str, most: u64) -> io::Result<Vec<u8>> {
        read_most(self.alloc(), fs::open(self, path)?, most)
    }

    fn screen(&self) -> Screen {
        host_screen(self)
    }

    fn build_note(&self) -> Option<String> {
        host_note(self)
    }

    fn now(&self) -> Option<Duration> {
        self.monotonic().ok()
    }
}

/// What a reader has left: all of it, or one byte more than `most` where it has more.
pub(crate) fn read_most<R: Read + Drop>(
    alloc: Global,
    reader: R,
    most: u64,
) -> io::Result<Vec<u8>> {
    let mut bytes = Vec::new(alloc);
    let mut limited = reader.take(most.saturating_add(1));
    limited.read_to_end(&mut bytes)?;
    Ok(bytes)
}

/// The text of a file, or of `reader` where the path is `-`.
pub fn read_text<F: InputFiles, R: Read>(
    alloc: Global,
    files: &F,
    reader: &mut R,
    path: &str,
) -> Result<String, FileFault> {
    let bytes = if path == "-" {
        read_most(alloc, reader.by_ref(), MAX_BYTES)?
    } else {
        files.read_bytes(path, MAX_BYTES)?
    };
    if bytes.len() as u64 > MAX_BYTES {
        return Err(FileFault::TooLong);
    }
    match String::from_utf8(bytes) {
        Ok(text) => Ok(text),
        Err(_) => Err(FileFault::NotUtf8),
    }
}

/// A text without a byte order mark in front.
pub fn without_mark(text: &str) -> &str {
    text.strip_prefix(BYTE_ORDER_MARK).unwrap_or(text)
}
