//! `osdgate compare`.

use crate::change_lines::change_lines;
use crate::known_changes::{KnownAnswer, known_pairs, known_texts};
use crate::service_lines::{add_changes, add_commands};
use clap::ArgMatches;
use command_steps::{
    Answered, BadWords, KnownNames, Methods, NoAnswer, auth_in, choice_knowing, choice_of,
    first_fault_note, format_of, methods_line, methods_of, reader_of, refuse_unmatched,
    registry_of, value_of,
};
use common_types::OutOfMemory;
use compare_text::{Comparison, ReadPair, compare_pairs, compare_read, read_pairs};
use gate_files::{
    AuthFile, Choice, InputFiles, Purpose, Screen, keep_chosen, keep_chosen_services,
    service_changes,
};
use indexmap::IndexSet;
use std::alloc::Global;
use std::io::Read;
use verdict_text::{Printed, ReadText, Reader, Reading, Rules};

/// What is compared.
#[derive(Clone, Copy)]
enum Compared<'a> {
    /// Two texts, the old one first.
    Texts(&'a str, &'a str),
    /// Two files of entities, the old one first.
    Files(&'a str, &'a str),
}

/// What the arguments say, except which entities are chosen.
#[derive(Clone, Copy)]
struct CompareArguments<'a> {
    compared: Compared<'a>,
    how: Comparison,
    /// The lines of `ceph` that make the change are printed too.
    commands: bool,
    methods: Methods,
}

/// The entities of two files that are chosen.
struct BothFiles {
    old: AuthFile,
    new: AuthFile,
}

impl Drop for BothFiles {
    fn drop(self) {
        let BothFiles { old: _, new: _ } = self;
    }
}

/// The two texts or files that are compared.
fn compared_of<'a>(matches: &ArgMatches<'a>) -> Result<Compared<'a>, BadWords> {
    match matches.get_strs("auth") {
        None => Ok(Compared::Texts(value_of(matches, "old"), value_of(matches, "new"))),
        Some([old, new]) if *old != "-" || *new != "-" => Ok(Compared::Files(*old, *new)),
        Some(_) => Err(BadWords::Files),
    }
}

impl<'a> CompareArguments<'a> {
    fn of(matches: &ArgMatches<'a>) -> Result<CompareArguments<'a>, BadWords> {
        Ok(CompareArguments {
            compared: compared_of(matches)?,
            methods: methods_of(matches)?,
            how: Comparison {
                registry: registry_of(matches),
                check: matches.get_flag("check"),
                format: format_of(matches),
            },
            commands: matches.get_flag("commands"),
        })
    }
}

/// A text that was read.
fn read_text(alloc: Global, rules: &Reader, text: &str) -> Result<ReadText, OutOfMemory> {
    ReadText::of(alloc, rules, String::from_str(alloc, text)?, None)
}

/// Of what is printed over every class registry and over the methods of Ceph's class table, that which is asked for, with a line on
/// whether they differ.
fn by_methods(
    alloc: Global,
    methods: Methods,
    every: Printed,
    known: KnownAnswer,
) -> Result<Answered, OutOfMemory> {
    let line = String::from_str(alloc, methods_line(methods, known.differs))?;
    let printed = if methods == Methods::Known {
        known.into_printed()
    } else {
        every
    };
    Ok(Answered::noted(alloc, printed, line))
}

/// How two texts that were read differ.
fn compared_readings(
    alloc: Global,
    rules: &Reader,
    old: &Reading,
    new: &Reading,
    arguments: CompareArguments<'_>,
) -> Result<Answered, OutOfMemory> {
    let how = arguments.how;
    let methods = arguments.methods;
    let every = compare_read(alloc, old, new, how)?;
    match (rules.rules(), old, new) {
        (Rules::Ceph, Ok(old), Ok(new)) if methods != Methods::Own => {
            let known = known_texts(alloc, methods, old, new, how)?;
            by_methods(alloc, methods, every, known)
        }
        _ => Ok(Answered::of(alloc, every)),
    }
}

/// How two texts differ.
fn compared_texts(
    alloc: Global,
    rules: &Reader,
    old: &str,
    new: &str,
    arguments: CompareArguments<'_>,
    screen: Screen,
) -> Result<Answered, OutOfMemory> {
    let old = read_text(alloc, rules, old)?;
    let new = read_text(alloc, rules, new)?;
    compared_readings(alloc, rules, old.read(), new.read(), arguments)?
        .with_note(first_fault_note(alloc, &old, &new, screen))?
        .about_text(old)?
        .about_text(new)
}

/// The chosen entities of two files.
fn both_files<F: InputFiles, R: Read>(
    alloc: Global,
    matches: &ArgMatches<'_>,
    files: &F,
    reader: &mut R,
    old: &str,
    new: &str,
) -> Result<BothFiles, NoAnswer> {
    let choice = choice_of(matches);
    let mut old = auth_in(alloc, files, reader, Purpose::OldEntities, old)?;
    let mut new = auth_in(alloc, files, reader, Purpose::NewEntities, new)?;
    let both = [old.entities.as_slice(), new.entities.as_slice()];
    refuse_unmatched(alloc, matches, &both)?;
    keep_chosen(choice, &mut old.entities);
    keep_chosen(choice, &mut new.entities);
    keep_chosen_services(choice, &mut old.services);
    keep_chosen_services(choice, &mut new.services);
    Ok(BothFiles { old, new })
}

/// The names of the entities of which a text that was read is refused, and for which that is accepted.
fn accepted_names(
    alloc: Global,
    choice: Choice<'_>,
    pairs: &[ReadPair<'_>],
) -> Result<IndexSet<String>, OutOfMemory> {
    let mut names = IndexSet::new(alloc);
    for pair in pairs {
        let is_refused = pair.old.is_err() || pair.new.is_err();
        if is_refused && choice.accepts(pair.name) {
            names.insert(String::from_str(alloc, pair.name)?)?;
        }
    }
    Ok(names)
}

/// How entities that were read differ, over the methods that are asked about.
fn compared_pairs(
    alloc: Global,
    rules: Rules,
    pairs: &[ReadPair<'_>],
    arguments: CompareArguments<'_>,
) -> Result<Answered, OutOfMemory> {
    let (how, methods) = (arguments.how, arguments.methods);
    let every = compare_pairs(alloc, pairs, how)?;
    if rules == Rules::Project || methods == Methods::Own {
        return Ok(Answered::of(alloc, every));
    }
    let known = known_pairs(alloc, methods, pairs, how)?;
    by_methods(alloc, methods, every, known)
}

/// Adds the texts for other services that are not the same in both files, and with `--commands` the lines that make the change. With
/// a check each such text fails.
fn add_services(
    alloc: Global,
    answered: &mut Answered,
    both: &BothFiles,
    left_out: &IndexSet<String>,
    arguments: CompareArguments<'_>,
) -> Result<(), OutOfMemory> {
    let (old, new, how) = (&both.old, &both.new, arguments.how);
    let changes = service_changes(alloc, old.services.as_slice(), new.services.as_slice())?;
    let (changes, printed) = (changes.as_slice(), &mut answered.printed);
    add_changes(alloc, &mut printed.text, changes, how.format)?;
    if arguments.commands {
        let lines = change_lines(alloc, old, new, changes, left_out)?;
        add_commands(alloc, &mut printed.text, lines.as_str(), how.format)?;
    }
    printed.fails = printed.fails || (how.check && !changes.is_empty());
    Ok(())
}

/// How the entities of two files differ. Each text is read once, and one that is the same in both is not read. An entity of which a
/// text is refused is left out where that is accepted.
fn compared_files(
    alloc: Global,
    rules: &Reader,
    both: &BothFiles,
    choice: Choice<'_>,
    arguments: CompareArguments<'_>,
) -> Result<Answered, OutOfMemory> {
    let old = both.old.entities.as_slice();
    let new = both.new.entities.as_slice();
    let mut pairs = read_pairs(alloc, rules, old, new)?;
    let left_out = accepted_names(alloc, choice, pairs.as_slice())?;
    pairs.retain(|pair| !left_out.contains(pair.name));
    let mut answered = compared_pairs(alloc, rules.rules(), pairs.as_slice(), arguments)?;
    add_services(alloc, &mut answered, both, &left_out, arguments)?;
    Ok(answered)
}

/// `osdgate compare`: what two texts, or the entities of two files, allow that the other denies.
pub(crate) fn compare<F: InputFiles, R: Read>(
    alloc: Global,
    matches: &ArgMatches<'_>,
    files: &F,
    reader: &mut R,
) -> Result<Answered, NoAnswer> {
    let arguments = CompareArguments::of(matches)?;
    let rules = reader_of(alloc, matches)?;
    match arguments.compared {
        Compared::Texts(old, new) => {
            Ok(compared_texts(alloc, &rules, old, new, arguments, files.screen())?)
        }
        Compared::Files(old, new) => {
            let known = KnownNames::of(alloc, files, reader, matches)?;
            let patterns = known.patterns(alloc)?;
            let choice = choice_knowing(matches, patterns.as_slice());
            let both = both_files(alloc, matches, files, reader, old, new)?;
            Ok(compared_files(alloc, &rules, &both, choice, arguments)?)
        }
    }
}
