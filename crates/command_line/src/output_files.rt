//! Files that are written, and logs.

use log_commands::{LogFiles, TakesChunks, pour};
use std::fs::{File, OpenOptions};
use std::io::{ErrorKind, Write};
use std::os::unix::fs::MetadataExt;
use std::{fs, io};

/// How many names are tried for a new file.
const TRIES: u32 = 100;

/// Files that are written, by their paths, and logs, which are read chunk by chunk.
pub trait OutputFiles {
    /// Writes a file, in the place of what it had. It is an error where not all of the bytes can be written, and then the
    /// file has what it had.
    fn write_bytes(&self, path: &str, bytes: &[u8]) -> io::Result<()>;

    /// Whether two paths lead to the same file. A file that is missing is the same as none.
    fn is_same_file(&self, _first: &str, _second: &str) -> bool {
        false
    }

    /// Passes the bytes of a log on, chunk by chunk, in order. It is an error where the file cannot be read to its end.
    fn read_chunks<T: TakesChunks>(&self, _path: &str, _to: &mut T) -> io::Result<()> {
        Err(io::Error::from(ErrorKind::Unsupported))
    }
}

/// Refuses a path at which something other than a file or a link is, such as a folder or a pipe.
fn refuse_other_kinds(rt: &HostRuntime, path: &str) -> io::Result<()> {
    match fs::symlink_metadata(rt, path) {
        Ok(found) if !found.is_file() && !found.is_symlink() => {
            Err(io::Error::from(ErrorKind::InvalidInput))
        }
        _ => Ok(()),
    }
}

/// A new file in the folder of a path, and its name.
fn file_beside(rt: &HostRuntime, path: &str) -> io::Result<(String, File)> {
    let mut how = OpenOptions::new();
    how.write(true).create_new(true);
    for number in 0..TRIES {
        let name = format!(in rt.alloc(); "{path}.new{number}")?;
        match how.open(rt, name.as_str()) {
            Ok(file) => return Ok((name, file)),
            Err(error) if error.kind() == ErrorKind::AlreadyExists => continue,
            Err(error) => return Err(error),
        }
    }
    Err(io::Error::from(ErrorKind::AlreadyExists))
}

/// Writes a new file, up to the disk.
fn fill(mut file: File, bytes: &[u8]) -> io::Result<()> {
    file.write_all(bytes)?;
    file.sync_all()
}

/// Writes a file and gives it this name.
fn put(rt: &HostRuntime, file: File, name: &str, path: &str, bytes: &[u8]) -> io::Result<()> {
    fill(file, bytes)?;
    fs::rename(rt, name, path)
}

/// The files of the program's host. A file is written beside the path, and renamed when it is whole.
impl OutputFiles for HostRuntime {
    fn write_bytes(&self, path: &str, bytes: &[u8]) -> io::Result<()> {
        refuse_other_kinds(self, path)?;
        let (name, file) = file_beside(self, path)?;
        let written = put(self, file, name.as_str(), path, bytes);
        if written.is_err() {
            let _ = fs::remove_file(self, name.as_str());
        }
        written
    }

    fn read_chunks<T: TakesChunks>(&self, path: &str, to: &mut T) -> io::Result<()> {
        pour(self.alloc(), &mut fs::open(self, path)?, to)
    }

    fn is_same_file(&self, first: &str, second: &str) -> bool {
        match (fs::metadata(self, first), fs::metadata(self, second)) {
            (Ok(first), Ok(second)) => first.dev() == second.dev() && first.ino() == second.ino(),
            _ => false,
        }
    }
}

/// Files, for the commands about logs.
#[derive(Drop)]
pub(crate) struct Logs<'a, F>(pub(crate) &'a F);

impl<F: OutputFiles> LogFiles for Logs<'_, F> {
    fn read_log<T: TakesChunks>(&self, path: &str, to: &mut T) -> io::Result<()> {
        self.0.read_chunks(path, to)
    }
}
