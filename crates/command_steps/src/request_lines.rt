//! Files of requests: a request a line, in the arguments of `osdgate verdict`.

use crate::bad_words::NoRequest;
use crate::calls::CallRules;
use crate::request_words::RequestWords;
use clap::error::ErrorKind;
use clap::{Command, Error};
use command_arguments::{first_words, request_command};
use common_types::OutOfMemory;
use gate_files::{FileFault, split_words, without_mark};
use share_core::Pool;
use std::alloc::Global;

/// A line that says something.
#[derive(Drop)]
pub struct RequestLine {
    /// Its number, from 1.
    number: usize,
    words: Vec<String>,
}

/// A request, and the number of its line, from 1.
#[derive(Drop)]
pub struct LineRequest<'a, 'p> {
    pub number: usize,
    pub request: RequestWords<'a, 'p>,
}

/// The arguments of the line with this number, which says something.
fn line_of(alloc: Global, number: usize, line: &str) -> Result<RequestLine, FileFault> {
    match split_words(alloc, line)? {
        Some(words) => Ok(RequestLine { number, words }),
        None => Err(FileFault::OpenQuote(number)),
    }
}

/// The lines of a text that are neither blank nor comments, which begin with `#`.
pub fn lines_of(alloc: Global, text: &str) -> Result<Vec<RequestLine>, FileFault> {
    let mut lines = Vec::new(alloc);
    for (index, line) in without_mark(text).lines().enumerate() {
        let trimmed = line.trim();
        if !trimmed.is_empty() && !trimmed.starts_with('#') {
            lines.push(line_of(alloc, index.saturating_add(1), trimmed)?)?;
        }
    }
    if lines.is_empty() {
        return Err(FileFault::Empty);
    }
    Ok(lines)
}

/// Why clap does not take the line with this number.
fn not_taken(alloc: Global, number: usize, error: &Error) -> Result<FileFault, OutOfMemory> {
    if error.kind() == ErrorKind::OutOfMemory {
        return Ok(FileFault::OutOfMemory);
    }
    Ok(FileFault::NoRequest {
        line: number,
        why: first_words(alloc, error)?,
    })
}

/// The request of a line.
fn request_of<'a, 'p>(
    alloc: Global,
    command: &mut Command<'a>,
    line: &'a RequestLine,
    pools: Option<&'p [Pool]>,
    rules: CallRules<'_>,
) -> Result<LineRequest<'a, 'p>, FileFault> {
    let number = line.number;
    let matches = match command.try_get_matches_from_mut(line.words.as_slice()) {
        Ok(matches) => matches,
        Err(error) => return Err(not_taken(alloc, number, &error)?),
    };
    match RequestWords::of(alloc, &matches, pools, rules) {
        Ok(request) => Ok(LineRequest { number, request }),
        Err(NoRequest::OutOfMemory) => Err(FileFault::OutOfMemory),
        Err(why) => Err(FileFault::NoRequest {
            line: number,
            why: why.why(alloc)?,
        }),
    }
}

/// The request of each line, whose calls are looked up by these rules. If a file of pools is given, each pool is one of them.
pub fn requests_of<'a, 'p>(
    alloc: Global,
    lines: &'a [RequestLine],
    pools: Option<&'p [Pool]>,
    rules: CallRules<'_>,
) -> Result<Vec<LineRequest<'a, 'p>>, FileFault> {
    let mut command = request_command(alloc)?;
    let mut all = Vec::with_capacity(alloc, lines.len())?;
    for line in lines {
        all.push(request_of(alloc, &mut command, line, pools, rules)?)?;
    }
    Ok(all)
}
