//! The requests that were seen of each entity.

use clap::ArgMatches;
use command_steps::{
    CallRules, LineRequest, NoAnswer, lines_of, or_bad_file, requests_of, text_in,
};
use common_types::{Name, OutOfMemory, Tags, TryClone};
use compare_core::OwnedTarget;
use gate_files::{FileFault, InputFiles, Purpose};
use indexmap::IndexMap;
use log_text::{Decided, LogReading, LoggedRequest, Summary};
use std::alloc::{AllocError, Global};
use std::io::Read;
use std::str;
use verdict_core::{Needs, Target};
use verdict_text::needs_asked;

/// The requests of an entity.
pub(crate) struct SeenOf<'a> {
    pub(crate) name: &'a str,
    /// The line on how many they are, and when they were made.
    pub(crate) seen: String,
    pub(crate) requests: Vec<&'a Decided>,
}

impl Drop for SeenOf<'_> {
    fn drop(self) {
        let SeenOf {
            name: _,
            seen: _,
            requests: _,
        } = self;
    }
}

impl<'a> SeenOf<'a> {
    /// These requests of each of some entities.
    pub(crate) fn of_names(
        alloc: Global,
        names: &[&'a str],
        requests: &'a [Decided],
    ) -> Result<Vec<SeenOf<'a>>, OutOfMemory> {
        let mut all = Vec::new(alloc);
        let count = requests.len();
        for name in names {
            let mut borrowed = Vec::with_capacity(alloc, count)?;
            for request in requests {
                borrowed.push(request)?;
            }
            all.push(SeenOf {
                name: *name,
                seen: format!(in alloc; "seen: {count} requests of the file")?,
                requests: borrowed,
            })?;
        }
        Ok(all)
    }
}

/// What was seen of an entity in a log.
#[derive(Clone, Copy)]
struct Span<'a> {
    count: u64,
    denied: u64,
    first: &'a str,
    last: &'a str,
}

impl<'a> Span<'a> {
    /// With one more request.
    fn with(self, summary: &'a Summary, allowed: bool) -> Span<'a> {
        let (first, last) = (summary.first.as_str(), summary.last.as_str());
        let denied = if allowed { 0 } else { summary.count };
        Span {
            count: self.count.saturating_add(summary.count),
            denied: self.denied.saturating_add(denied),
            first: if self.first.is_empty() || first < self.first {
                first
            } else {
                self.first
            },
            last: if last > self.last { last } else { self.last },
        }
    }
}

/// The line on the requests of an entity in a log.
fn span_line(
    alloc: Global,
    reading: &LogReading,
    requests: &[&LoggedRequest],
) -> Result<String, OutOfMemory> {
    let mut span = Span {
        count: 0,
        denied: 0,
        first: "",
        last: "",
    };
    for request in requests {
        if let Some(summary) = reading.summary(request) {
            span = span.with(summary, request.decided.allowed);
        }
    }
    let (count, denied, distinct) = (span.count, span.denied, requests.len());
    let (first, last) = (span.first, span.last);
    format!(in alloc;
        "seen: {count} requests, {denied} of them denied, {distinct} distinct, {first} to {last}"
    )
}

/// The requests of a log by their entities, in the order in which these first made one.
fn by_entity<'a>(
    alloc: Global,
    reading: &'a LogReading,
    names: &[&str],
) -> Result<IndexMap<String, Vec<&'a LoggedRequest>>, OutOfMemory> {
    let mut all: IndexMap<String, Vec<&'a LoggedRequest>> = IndexMap::new(alloc);
    for request in reading.requests() {
        let name = request.entity.as_str();
        if !names.is_empty() && !names.contains(&name) {
            continue;
        }
        match all.get_mut(name) {
            Some(requests) => requests.push(request)?,
            None => {
                let mut requests = Vec::new(alloc);
                requests.push(request)?;
                all.insert(String::from_str(alloc, name)?, requests)?;
            }
        }
    }
    Ok(all)
}

/// The requests of a log for each entity, or for each of these if some are given.
pub(crate) fn of_log<'a>(
    alloc: Global,
    reading: &'a LogReading,
    names: &[&'a str],
) -> Result<Vec<SeenOf<'a>>, OutOfMemory> {
    let mut all = Vec::new(alloc);
    for (_, requests) in by_entity(alloc, reading, names)? {
        let Some(first) = requests.first() else {
            continue;
        };
        let name = first.entity.as_str();
        let seen = span_line(alloc, reading, requests.as_slice())?;
        let mut decided = Vec::with_capacity(alloc, requests.len())?;
        for request in requests.iter() {
            decided.push(&request.decided)?;
        }
        all.push(SeenOf {
            name,
            seen,
            requests: decided,
        })?;
    }
    push_unseen(alloc, &mut all, names)?;
    Ok(all)
}

/// Adds entities that were asked for and made no request.
fn push_unseen<'a>(
    alloc: Global,
    all: &mut Vec<SeenOf<'a>>,
    names: &[&'a str],
) -> Result<(), OutOfMemory> {
    for name in names {
        if !all.iter().any(|of| of.name == *name) {
            all.push(SeenOf {
                name: *name,
                seen: String::from_str(alloc, "seen: no request")?,
                requests: Vec::new(alloc),
            })?;
        }
    }
    Ok(())
}

fn name_of(alloc: Global, bytes: &[u8]) -> Result<Name, OutOfMemory> {
    Name::new(alloc, str::from_utf8(bytes).unwrap_or(""))
}

fn owned(alloc: Global, target: &Target<'_>) -> Result<OwnedTarget, OutOfMemory> {
    Ok(OwnedTarget {
        pool: name_of(alloc, target.pool)?,
        tags: target.tags.copy()?,
        namespace: name_of(alloc, target.namespace)?,
        object: name_of(alloc, target.object)?,
    })
}

/// The request of a line.
fn request_of(alloc: Global, line: &LineRequest<'_, '_>) -> Result<Decided, FileFault> {
    let asked = line.request.asked(0);
    match needs_asked(alloc, &asked) {
        Ok(needs) => Ok(Decided {
            target: owned(alloc, &asked.target)?,
            needs,
            allowed: true,
        }),
        Err(fault) => Err(FileFault::NoRequest {
            line: line.number,
            why: format!(in alloc; "{fault}")?,
        }),
    }
}

fn all_requests(
    alloc: Global,
    matches: &ArgMatches<'_>,
    text: &str,
) -> Result<Vec<Decided>, FileFault> {
    let lines = lines_of(alloc, text)?;
    let rules = match CallRules::of(matches) {
        Ok(rules) => rules,
        Err(_) => return Err(FileFault::Empty),
    };
    let requests = requests_of(alloc, lines.as_slice(), None, rules)?;
    let mut all = Vec::with_capacity(alloc, requests.len())?;
    for line in &requests {
        all.push(request_of(alloc, line)?)?;
    }
    Ok(all)
}

/// The requests of a file, a request a line.
pub(crate) fn of_file<F: InputFiles, R: Read>(
    alloc: Global,
    matches: &ArgMatches<'_>,
    files: &F,
    reader: &mut R,
    path: &str,
) -> Result<Vec<Decided>, NoAnswer> {
    let text = text_in(alloc, files, reader, Purpose::Requests, path)?;
    let requests = all_requests(alloc, matches, text.as_str());
    or_bad_file(alloc, Purpose::Requests, path, requests)
}
