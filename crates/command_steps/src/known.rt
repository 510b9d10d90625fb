//! Which entities may stay unchecked: the patterns of `--known`, and those of the files that it names.

use crate::no_answer::NoAnswer;
use clap::ArgMatches;
use common_types::OutOfMemory;
use gate_files::{Choice, FileFault, InputFiles, read_text, without_mark};
use std::alloc::Global;
use std::fmt::Write;
use std::io::Read;
use verdict_text::push_name;

/// What is before the path of a file of patterns. No entity's name begins so.
const FILE_MARK: char = '@';

/// Patterns of the names of entities that may stay unchecked.
#[derive(Drop)]
pub struct KnownNames {
    patterns: Vec<String>,
}

/// Adds the patterns of a text, one a line. Blanks around a pattern, blank lines and those that begin with `#` do not count.
fn push_lines(patterns: &mut Vec<String>, alloc: Global, text: &str) -> Result<(), OutOfMemory> {
    for line in without_mark(text).lines() {
        let pattern = line.trim();
        if !pattern.is_empty() && !pattern.starts_with('#') {
            patterns.push(String::from_str(alloc, pattern)?)?;
        }
    }
    Ok(())
}

/// That a file of patterns cannot be used.
fn unused_file(alloc: Global, path: &str, fault: &FileFault) -> Result<NoAnswer, OutOfMemory> {
    let mut line = String::from_str(alloc, "the names file ")?;
    push_name(&mut line, path)?;
    write!(line, " {fault}")?;
    Ok(NoAnswer::Told(line))
}

/// That standard input is no file of patterns.
fn no_input(alloc: Global) -> Result<NoAnswer, OutOfMemory> {
    let line = "`--known=@FILE` needs a file, and not standard input";
    Ok(NoAnswer::Told(String::from_str(alloc, line)?))
}

/// The text of a file of patterns.
fn text_of<F: InputFiles, R: Read>(
    alloc: Global,
    files: &F,
    reader: &mut R,
    path: &str,
) -> Result<String, NoAnswer> {
    if path == "-" {
        return Err(no_input(alloc)?);
    }
    match read_text(alloc, files, reader, path) {
        Ok(text) => Ok(text),
        Err(FileFault::OutOfMemory) => Err(NoAnswer::OutOfMemory),
        Err(fault) => Err(unused_file(alloc, path, &fault)?),
    }
}

impl KnownNames {
    /// The patterns of `--known`. A word `@FILE` stands for those of the file.
    pub fn of<F: InputFiles, R: Read>(
        alloc: Global,
        files: &F,
        reader: &mut R,
        matches: &ArgMatches<'_>,
    ) -> Result<KnownNames, NoAnswer> {
        let mut patterns = Vec::new(alloc);
        for word in matches.get_strs("known").unwrap_or(&[]) {
            match word.strip_prefix(FILE_MARK) {
                Some(path) => {
                    let text = text_of(alloc, files, reader, path)?;
                    push_lines(&mut patterns, alloc, text.as_str())?;
                }
                None => patterns.push(String::from_str(alloc, word)?)?,
            }
        }
        Ok(KnownNames { patterns })
    }

    /// The patterns.
    pub fn patterns(&self, alloc: Global) -> Result<Vec<&str>, OutOfMemory> {
        let mut patterns = Vec::with_capacity(alloc, self.patterns.len())?;
        for pattern in &self.patterns {
            patterns.push(pattern.as_str())?;
        }
        Ok(patterns)
    }
}

/// The entities that `--only` and `--without` choose, of whom those with names of these patterns may stay unchecked.
pub fn choice_knowing<'m>(matches: &'m ArgMatches<'_>, known: &'m [&'m str]) -> Choice<'m> {
    Choice {
        only: matches.get_strs("only").unwrap_or(&[]),
        without: matches.get_strs("without").unwrap_or(&[]),
        known,
    }
}
