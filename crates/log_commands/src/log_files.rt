//! Logs, which are read chunk by chunk.

ghost use Rattle.std.specs.Prelude.{◌≤◌};

use command_steps::Progress;
use common_types::OutOfMemory;
use gate_files::InputFiles;
use log_text::LogReading;
use std::alloc::Global;
use std::io;
use std::io::{Read, Write};

/// How many bytes are read at a time: 256 KiB.
const CHUNK: usize = 262_144;

/// How many bytes a megabyte has.
const MEGABYTE: u64 = 1_000_000;

/// What takes the bytes of a log.
pub trait TakesChunks {
    /// Takes the next bytes. The only error is out of memory.
    fn take(&mut self, chunk: &[u8]) -> Result<(), OutOfMemory>;
}

/// Logs by their paths.
pub trait LogFiles {
    /// Passes the bytes of a file on, chunk by chunk, in order. It is an error where the file cannot be read to its end.
    fn read_log<T: TakesChunks>(&self, path: &str, to: &mut T) -> io::Result<()>;
}

/// Passes on what a reader has left, chunk by chunk.
pub fn pour<R: Read, T: TakesChunks>(alloc: Global, reader: &mut R, to: &mut T) -> io::Result<()> {
    let mut chunk = vec![in alloc; 0u8; CHUNK]?;
    for _ in 0..u64::MAX {
        let count = reader.read(chunk.as_mut_slice())?;
        match chunk.get(..count) {
            None | Some([]) => return Ok(()),
            Some(bytes) => to.take(bytes)?,
        }
    }
    Ok(())
}

/// A log that is being read, and how far that is.
pub(crate) struct ShownReading<'r, 'a, F, E> {
    alloc: Global,
    reading: &'r mut LogReading,
    progress: &'r mut Progress<'a, F, E>,
    /// How many bytes are read.
    read: u64,
}

impl<F, E> Drop for ShownReading<'_, '_, F, E> {
    fn drop(self) {
        let ShownReading {
            alloc: _,
            reading: _,
            progress: _,
            read: _,
        } = self;
    }
}

impl<'r, 'a, F: InputFiles, E: Write> ShownReading<'r, 'a, F, E> {
    pub(crate) fn of(
        alloc: Global,
        reading: &'r mut LogReading,
        progress: &'r mut Progress<'a, F, E>,
    ) -> Self {
        ShownReading {
            alloc,
            reading,
            progress,
            read: 0,
        }
    }

    /// A file ends.
    pub(crate) fn end_file(&mut self) -> Result<(), OutOfMemory> {
        self.reading.end_file(self.alloc)
    }

    /// The last file ends.
    pub(crate) fn end(&mut self) {
        self.progress.end();
    }
}

impl<F: InputFiles, E: Write> TakesChunks for ShownReading<'_, '_, F, E> {
    fn take(&mut self, chunk: &[u8]) -> Result<(), OutOfMemory> {
        self.reading.read_chunk(self.alloc, chunk)?;
        self.read = self.read.saturating_add(chunk.len() as u64);
        self.progress.show(self.read / MEGABYTE, "MB are read");
        Ok(())
    }
}
