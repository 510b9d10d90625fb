//! `osdgate explain`.

use crate::caps::caps_in;
use clap::ArgMatches;
use command_steps::{Answered, NoAnswer, fault_note, format_of, reader_of};
use common_types::OutOfMemory;
use gate_files::{InputFiles, Screen};
use std::alloc::Global;
use std::io::Read;
use verdict_text::{Explained, Format, Reader, read_explained};

/// What is printed and noted of the text, which is read once.
fn explained(
    alloc: Global,
    rules: &Reader,
    caps: String,
    format: Format,
    screen: Screen,
) -> Result<Answered, OutOfMemory> {
    let Explained { printed, text } = read_explained(alloc, rules, caps, format)?;
    let note = fault_note(alloc, &text, screen)?;
    Answered::noted(alloc, printed, note).about_text(text)
}

/// `osdgate explain`: what a capability text expands to.
pub(crate) fn explain<F: InputFiles, R: Read>(
    alloc: Global,
    matches: &ArgMatches<'_>,
    files: &F,
    reader: &mut R,
) -> Result<Answered, NoAnswer> {
    let caps = caps_in(alloc, matches, files, reader)?;
    let rules = reader_of(alloc, matches)?;
    let format = format_of(matches);
    Ok(explained(alloc, &rules, caps, format, files.screen())?)
}
