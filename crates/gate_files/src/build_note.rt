//! Which build of the program this is: what a note beside it says.

use crate::input_files::read_most;
use std::alloc::Global;
use std::path::{Path, PathBuf};
use std::{fs, io};

/// The most bytes that are read of a note.
const MAX_BYTES: u64 = 1024;

/// Where a note is of a program in this folder, behind the folder's path.
const INSTALLED: &str = "../share/osdgate/build";

/// What a file says, where it can be read and is a text.
fn text_at(rt: &HostRuntime, path: &str) -> Option<String> {
    let alloc = rt.alloc();
    let bytes = read_most(alloc, fs::open(rt, path).ok()?, MAX_BYTES).ok()?;
    String::from_utf8(bytes).ok()
}

/// The folder of a path, with its slash.
fn folder_of(path: &str) -> Option<&str> {
    let at = path.rfind('/')?;
    path.get(..=at)
}

/// What is noted of the program that runs: beside it, in a file with its name and `.build`, or where it was installed.
pub(crate) fn host_note(rt: &HostRuntime) -> Option<String> {
    let alloc: Global = rt.alloc();
    let own = fs::read_link(rt, "/proc/self/exe").ok()?;
    let own = own.as_path().to_str()?;
    let beside = format!(in alloc; "{own}.build").ok()?;
    if let Some(note) = text_at(rt, beside.as_str()) {
        return Some(note);
    }
    let folder = folder_of(own)?;
    let installed = format!(in alloc; "{folder}{INSTALLED}").ok()?;
    text_at(rt, installed.as_str())
}
