//! The capability text that a command is about.

use clap::ArgMatches;
use command_steps::{NoAnswer, caps_of, value_of};
use gate_files::InputFiles;
use std::alloc::Global;
use std::io::Read;

/// The text of `--caps`, or that of the entity of `--entity` in the file of `--auth`.
pub(crate) fn caps_in<F: InputFiles, R: Read>(
    alloc: Global,
    matches: &ArgMatches<'_>,
    files: &F,
    reader: &mut R,
) -> Result<String, NoAnswer> {
    match matches.get_str("auth") {
        None => Ok(String::from_str(alloc, value_of(matches, "caps"))?),
        Some(path) => caps_of(alloc, files, reader, path, value_of(matches, "entity")),
    }
}
