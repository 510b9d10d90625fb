//! `osdgate suggest`.

use crate::entities::Entities;
use crate::log_command::{entities_in, refuse_two_inputs};
use crate::log_files::LogFiles;
use crate::log_notes::count_lines;
use crate::requests::logs_in;
use crate::seen_requests::{SeenOf, of_file, of_log};
use crate::suggest_lines::{Lines, caps_command};
use clap::ArgMatches;
use command_steps::{Answered, BadWords, NoAnswer, reader_of};
use common_types::OutOfMemory;
use gate_files::InputFiles;
use log_text::{
    Decided, allows_each, compared_with_present, push_words, seen_of, suggested_text, tags_of,
};
use std::alloc::Global;
use std::io::{Read, Write};
use suggest_core::{Division, Grain, Seen, asks_nothing};
use verdict_text::{Printed, Reader, Reading};

/// What the arguments say.
#[derive(Clone, Copy)]
pub(crate) struct SuggestArguments<'m> {
    pub(crate) logs: &'m [&'m str],
    /// The entities, all of the log if none is given.
    pub(crate) names: &'m [&'m str],
    by: Division,
    allow_all: bool,
    commands: bool,
}

impl<'m> SuggestArguments<'m> {
    /// What the arguments say. At most one file is standard input.
    fn of(matches: &'m ArgMatches<'_>) -> Result<SuggestArguments<'m>, BadWords> {
        let logs = matches.get_strs("log").unwrap_or(&[]);
        refuse_two_inputs(matches, logs)?;
        Ok(SuggestArguments {
            logs,
            names: matches.get_strs("entity").unwrap_or(&[]),
            by: match matches.get_str("by") {
                Some("pool") => Division::Pool,
                Some("prefix") => Division::Prefix,
                _ => Division::Namespace,
            },
            allow_all: matches.get_flag("allow-all"),
            commands: matches.get_flag("commands"),
        })
    }
}

/// What suggestions are made by.
struct Suggesting<'a, 'm> {
    arguments: SuggestArguments<'m>,
    entities: &'a Entities<'m>,
    reader: &'a Reader,
    lines: Lines,
    fails: bool,
}

impl Drop for Suggesting<'_, '_> {
    fn drop(self) {
        let Suggesting {
            arguments: _,
            entities: _,
            reader: _,
            lines: _,
            fails: _,
        } = self;
    }
}

/// The requests that request something, for a suggestion.
fn asking(alloc: Global, requests: &[&Decided]) -> Result<Vec<Seen>, OutOfMemory> {
    let mut seen = Vec::with_capacity(alloc, requests.len())?;
    for request in requests {
        if !asks_nothing(&request.needs) {
            seen.push(seen_of(request)?)?;
        }
    }
    Ok(seen)
}

/// The grain of an entity: tags of its present text may replace the names of pools.
fn grain_of(alloc: Global, by: Division, present: &Reading) -> Result<Grain, OutOfMemory> {
    let tags = match present {
        Ok(rights) => tags_of(alloc, rights)?,
        Err(_) => Vec::new(alloc),
    };
    Ok(Grain { by, tags })
}

/// The line on a request that only `*` allows.
fn left_out_line(
    alloc: Global,
    seen: &[Seen],
    index: usize,
    requests: &[&Decided],
) -> Result<String, OutOfMemory> {
    let mut line = String::from_str(alloc, "no suggestion: only * allows ")?;
    let asking = requests
        .iter()
        .filter(|request| !asks_nothing(&request.needs))
        .nth(index);
    if let Some(request) = asking {
        push_words(&mut line, alloc, request)?;
    }
    let _all = seen;
    line.push_str("; --allow-all suggests it")?;
    Ok(line)
}

impl Suggesting<'_, '_> {
    /// Adds how a text stands to the present one, and the command. The text that is compared is the one that is printed.
    fn push_compared(
        &mut self,
        alloc: Global,
        name: &str,
        present: &Reading,
        text: &str,
        read: &Reading,
    ) -> Result<(), OutOfMemory> {
        let compared = compared_with_present(alloc, present, read)?;
        self.lines.push_all(compared.text.as_str())?;
        self.fails = self.fails || compared.fails;
        let command = caps_command(alloc, name, self.entities.services(), text)?;
        self.lines.push_command(command.as_str(), compared.fails)
    }

    /// Adds a suggested text, if it allows each request as Ceph reads it.
    fn push_text(
        &mut self,
        alloc: Global,
        name: &str,
        present: &Reading,
        text: &str,
        seen: &[Seen],
    ) -> Result<(), OutOfMemory> {
        let read = self.reader.read(alloc, text, None)?;
        let holds = match &read {
            Ok(rights) => allows_each(alloc, rights, seen)?,
            Err(_) => false,
        };
        if !holds {
            self.fails = true;
            return self
                .lines
                .push("no suggestion: Ceph has no text for these names");
        }
        self.lines.push(text)?;
        self.push_compared(alloc, name, present, text, &read)
    }

    /// Adds the suggestion for an entity that the file has.
    fn push_suggestion(
        &mut self,
        alloc: Global,
        name: &str,
        present: &Reading,
        requests: &[&Decided],
    ) -> Result<(), OutOfMemory> {
        let seen = asking(alloc, requests)?;
        if seen.len() < requests.len() {
            self.fails = true;
            self.lines
                .push("left out: requests that neither read nor write nor call")?;
        }
        if seen.is_empty() {
            return self.lines.push("no suggestion: nothing was requested");
        }
        let arguments = self.arguments;
        let grain = grain_of(alloc, arguments.by, present)?;
        match suggested_text(alloc, &grain, arguments.allow_all, seen.as_slice())? {
            Ok(text) => self.push_text(alloc, name, present, text.as_str(), seen.as_slice()),
            Err(index) => {
                self.fails = true;
                let line = left_out_line(alloc, seen.as_slice(), index, requests)?;
                self.lines.push(line.as_str())
            }
        }
    }

    /// Adds the lines of an entity.
    fn push_entity(&mut self, alloc: Global, of: &SeenOf<'_>) -> Result<(), OutOfMemory> {
        self.lines.push_entity(of.name)?;
        self.lines.push(of.seen.as_str())?;
        match self.entities.find(of.name) {
            Some(entity) => {
                let present = entity.osd.read();
                self.push_suggestion(alloc, of.name, present, of.requests.as_slice())
            }
            None => {
                self.fails = true;
                self.lines.push("the file has no such entity")
            }
        }
    }

    fn into_printed(self) -> Printed {
        let Suggesting {
            arguments: _,
            entities: _,
            reader: _,
            lines,
            fails,
        } = self;
        Printed {
            text: lines.into_text(),
            fails,
        }
    }
}

/// The line on what suggestions do not allow.
const NOT_SEEN: &str = "osdgate: what was not seen is not allowed by a suggested text\n";

/// The suggestions for entities.
fn suggested(
    alloc: Global,
    arguments: SuggestArguments<'_>,
    entities: &Entities<'_>,
    reader: &Reader,
    all: &[SeenOf<'_>],
    note: String,
) -> Result<Answered, OutOfMemory> {
    let mut suggesting = Suggesting {
        arguments,
        entities,
        reader,
        lines: Lines::new(alloc, arguments.commands),
        fails: false,
    };
    for of in all {
        suggesting.push_entity(alloc, of)?;
    }
    let mut note = note;
    note.push_str(NOT_SEEN)?;
    Ok(Answered::noted(alloc, suggesting.into_printed(), note))
}

/// `osdgate suggest`: the least texts that allow the requests seen.
pub(crate) fn suggest<F: InputFiles, L: LogFiles, R: Read, E: Write>(
    alloc: Global,
    matches: &ArgMatches<'_>,
    files: &F,
    logs: &L,
    reader: &mut R,
    err: &mut E,
) -> Result<Answered, NoAnswer> {
    let arguments = SuggestArguments::of(matches)?;
    let rules = reader_of(alloc, matches)?;
    let entities = entities_in(alloc, matches, files, reader, &rules, &[])?;
    if let Some(path) = matches.get_str("requests") {
        let requests = of_file(alloc, matches, files, reader, path)?;
        let all = SeenOf::of_names(alloc, arguments.names, requests.as_slice())?;
        let note = String::new(alloc);
        return Ok(suggested(alloc, arguments, &entities, &rules, all.as_slice(), note)?);
    }
    let reading = logs_in(alloc, files, logs, reader, err, arguments.logs)?;
    let all = of_log(alloc, &reading, arguments.names)?;
    let note = count_lines(alloc, &reading.counts())?;
    Ok(suggested(alloc, arguments, &entities, &rules, all.as_slice(), note)?)
}
