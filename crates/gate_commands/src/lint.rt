//! `osdgate lint`.

use crate::ceph_tidy::tidy_ceph;
use crate::documents::tidied_answer;
use crate::known_changes::has_class;
use crate::known_lint::{KnownLint, ceph_grants, known_lines};
use crate::lint_document::{entities_document, entity_pieces, text_document, text_pieces};
use crate::service_lines::push_raising;
use clap::ArgMatches;
use command_steps::{
    Answered, BadWords, ChosenFile, Methods, NoAnswer, chosen_file_in, fault_note, format_of,
    known_calls, methods_line, methods_of, pools_given, reader_of, refused_text, value_of,
};
use common_types::OutOfMemory;
use gate_files::{InputFiles, Screen, ServiceText};
use lint_core::Pool;
use lint_text::{lint_read, lint_read_entities, tidy_read};
use rights_core::Rights;
use std::alloc::Global;
use std::io::Read;
use verdict_text::{Format, Printed, ReadEntity, ReadText, Reader, Rules, push_name};

/// What is asked of a text or of entities.
#[derive(Clone, Copy)]
pub(crate) struct LintArguments<'p> {
    /// The text without redundant grants is printed.
    tidy: bool,
    /// A redundant grant fails, and so does one that matches no pool.
    pub(crate) check: bool,
    pub(crate) methods: Methods,
    pub(crate) pools: Option<&'p [Pool]>,
    format: Format,
}

impl<'p> LintArguments<'p> {
    /// What the arguments ask.
    fn of(
        matches: &ArgMatches<'_>,
        pools: Option<&'p [Pool]>,
    ) -> Result<LintArguments<'p>, BadWords> {
        Ok(LintArguments {
            tidy: matches.get_flag("tidy"),
            check: matches.get_flag("check"),
            methods: methods_of(matches)?,
            pools,
            format: format_of(matches),
        })
    }
}

/// Refuses two files that are standard input.
fn refuse_two_inputs(matches: &ArgMatches<'_>) -> Result<(), BadWords> {
    if matches.get_str("auth") == Some("-") && matches.get_str("pools") == Some("-") {
        return Err(BadWords::OneInput);
    }
    Ok(())
}

/// What is printed over every class registry, and over the methods of Ceph's class table where these matter.
#[derive(Drop)]
pub(crate) struct Linted {
    pub(crate) every: Printed,
    pub(crate) known: Option<Printed>,
}

impl Linted {
    /// What is asked for, with a line on whether the two differ.
    fn answered(self, alloc: Global, methods: Methods) -> Result<Answered, OutOfMemory> {
        let Linted { every, known } = self;
        match known {
            None => Ok(Answered::of(alloc, every)),
            Some(known) => {
                let differs = known.text != every.text;
                let line = String::from_str(alloc, methods_line(methods, differs))?;
                let printed = if methods == Methods::Known {
                    known
                } else {
                    every
                };
                Ok(Answered::noted(alloc, printed, line))
            }
        }
    }
}

/// A text, or that nothing is redundant where it is empty.
fn or_nothing(alloc: Global, printed: Printed) -> Result<Printed, OutOfMemory> {
    if printed.text.is_empty() {
        return Ok(Printed {
            text: String::from_str(alloc, "nothing redundant\n")?,
            fails: printed.fails,
        });
    }
    Ok(printed)
}

/// What is found of a text that Ceph reads as these rights of `count` grants.
fn linted_caps(
    alloc: Global,
    reader: &Reader,
    text: &ReadText,
    (rights, count): (&Rights, usize),
    arguments: LintArguments<'_>,
) -> Result<Linted, OutOfMemory> {
    let every = lint_read(alloc, reader, text, arguments.pools, arguments.check)?;
    let calls = known_calls(alloc)?;
    let how = KnownLint {
        methods: arguments.methods,
        calls: calls.as_slice(),
        pools: arguments.pools,
        check: arguments.check,
    };
    let known = match known_lines(alloc, how, "", rights, count)? {
        Some(printed) => Some(or_nothing(alloc, printed)?),
        None => None,
    };
    Ok(Linted { every, known })
}

/// The text without redundant grants.
fn tidied_caps(
    alloc: Global,
    caps: &str,
    (rights, count): (&Rights, usize),
    arguments: LintArguments<'_>,
) -> Result<Linted, OutOfMemory> {
    let check = arguments.check;
    let every = tidy_ceph(alloc, caps, rights, count, Methods::Every, check)?;
    let known = if arguments.methods == Methods::Known || has_class(rights) {
        Some(tidy_ceph(alloc, caps, rights, count, Methods::Known, check)?)
    } else {
        None
    };
    Ok(Linted { every, known })
}

/// What is printed of a text by Ceph's rules.
fn ceph_answer(
    alloc: Global,
    reader: &Reader,
    text: &ReadText,
    arguments: LintArguments<'_>,
) -> Result<Answered, OutOfMemory> {
    let methods = arguments.methods;
    match ceph_grants(text) {
        None => {
            let printed = lint_read(alloc, reader, text, arguments.pools, arguments.check)?;
            Ok(Answered::of(alloc, printed))
        }
        Some(grants) if arguments.tidy => {
            tidied_caps(alloc, text.text(), grants, arguments)?.answered(alloc, methods)
        }
        Some(grants) => {
            linted_caps(alloc, reader, text, grants, arguments)?.answered(alloc, methods)
        }
    }
}

/// What is printed of a text by this project's rules.
fn project_printed(
    alloc: Global,
    reader: &Reader,
    text: &ReadText,
    arguments: LintArguments<'_>,
) -> Result<Printed, OutOfMemory> {
    if arguments.tidy {
        tidy_read(alloc, reader, text, arguments.check)
    } else {
        lint_read(alloc, reader, text, arguments.pools, arguments.check)
    }
}

/// What is printed of a text.
fn text_answer(
    alloc: Global,
    reader: &Reader,
    text: &ReadText,
    arguments: LintArguments<'_>,
) -> Result<Answered, OutOfMemory> {
    match text.rules() {
        Rules::Ceph => ceph_answer(alloc, reader, text, arguments),
        Rules::Project => Ok(Answered::of(alloc, project_printed(alloc, reader, text, arguments)?)),
    }
}

/// The lines on an entity over the methods of Ceph's class table, if these matter.
fn known_entity(
    alloc: Global,
    how: KnownLint<'_, '_>,
    entity: &ReadEntity,
) -> Result<Option<Printed>, OutOfMemory> {
    let Some((rights, count)) = ceph_grants(&entity.osd) else {
        return Ok(None);
    };
    let mut before = String::new(alloc);
    push_name(&mut before, entity.name.as_str())?;
    before.push_str(" ")?;
    known_lines(alloc, how, before.as_str(), rights, count)
}

/// Adds what is printed behind what is there.
pub(crate) fn push_printed(all: &mut Printed, printed: &Printed) -> Result<(), OutOfMemory> {
    all.text.push_str(printed.text.as_str())?;
    all.fails = all.fails || printed.fails;
    Ok(())
}

/// Nothing, which does not fail.
pub(crate) fn nothing(alloc: Global) -> Printed {
    Printed {
        text: String::new(alloc),
        fails: false,
    }
}

/// What is found of entities by Ceph's rules.
fn linted_ceph_entities(
    alloc: Global,
    reader: &Reader,
    entities: &[ReadEntity],
    arguments: LintArguments<'_>,
) -> Result<Linted, OutOfMemory> {
    let calls = known_calls(alloc)?;
    let how = KnownLint {
        methods: arguments.methods,
        calls: calls.as_slice(),
        pools: arguments.pools,
        check: arguments.check,
    };
    let mut every = nothing(alloc);
    let mut known = nothing(alloc);
    for one in entities.chunks(1) {
        let printed = lint_read_entities(alloc, reader, one, arguments.pools, arguments.check)?;
        push_printed(&mut every, &printed)?;
        let limited = match one.first() {
            Some(entity) => known_entity(alloc, how, entity)?,
            None => None,
        };
        match &limited {
            Some(limited) => push_printed(&mut known, limited)?,
            None => push_printed(&mut known, &printed)?,
        }
    }
    Ok(Linted {
        every,
        known: Some(known),
    })
}

/// What is printed of entities.
fn entities_answer(
    alloc: Global,
    reader: &Reader,
    entities: &[ReadEntity],
    arguments: LintArguments<'_>,
) -> Result<Answered, OutOfMemory> {
    match reader.rules() {
        Rules::Ceph => linted_ceph_entities(alloc, reader, entities, arguments)?.answered(
            alloc,
            arguments.methods,
        ),
        Rules::Project => {
            let (pools, check) = (arguments.pools, arguments.check);
            let printed = lint_read_entities(alloc, reader, entities, pools, check)?;
            Ok(Answered::of(alloc, printed))
        }
    }
}

/// The document of a text: of its redundant grants, or of the text without them.
fn document_answer(
    alloc: Global,
    reader: &Reader,
    text: &ReadText,
    arguments: LintArguments<'_>,
) -> Result<Answered, OutOfMemory> {
    match text_pieces(alloc, reader, text, arguments)? {
        Err(fault) => Ok(Answered::of(alloc, refused_text(alloc, fault)?)),
        Ok(_) if arguments.tidy => {
            let answered = text_answer(alloc, reader, text, arguments)?;
            tidied_answer(alloc, answered)
        }
        Ok(linted) => {
            let mut answered = linted.answered(alloc, arguments.methods)?;
            answered.printed.text = text_document(alloc, answered.printed.text.as_str())?;
            Ok(answered)
        }
    }
}

/// The redundant grants of a text, or the text without them.
fn linted_text(
    alloc: Global,
    rules: &Reader,
    caps: &str,
    arguments: LintArguments<'_>,
    screen: Screen,
) -> Result<Answered, OutOfMemory> {
    let text = ReadText::of(alloc, rules, String::from_str(alloc, caps)?, None)?;
    let answered = match arguments.format {
        Format::Text => text_answer(alloc, rules, &text, arguments)?,
        Format::Json => document_answer(alloc, rules, &text, arguments)?,
    };
    answered
        .with_note(fault_note(alloc, &text, screen))?
        .about_text(text)
}

/// The document of entities: their redundant grants, and what their monitor texts give.
fn entities_document_answer(
    alloc: Global,
    reader: &Reader,
    entities: &[ReadEntity],
    services: &[ServiceText],
    arguments: LintArguments<'_>,
) -> Result<Answered, OutOfMemory> {
    let linted = entity_pieces(alloc, reader, entities, arguments)?;
    let mut answered = linted.answered(alloc, arguments.methods)?;
    let pieces = answered.printed.text.as_str();
    answered.printed.text = entities_document(alloc, pieces, services)?;
    Ok(answered)
}

/// The lines of entities: their redundant grants, and what their monitor texts give.
fn entities_lines(
    alloc: Global,
    reader: &Reader,
    entities: &[ReadEntity],
    services: &[ServiceText],
    arguments: LintArguments<'_>,
) -> Result<Answered, OutOfMemory> {
    let mut answered = entities_answer(alloc, reader, entities, arguments)?;
    push_raising(&mut answered.printed.text, services)?;
    Ok(answered)
}

/// The redundant grants of entities, and those whose monitor texts let them change capabilities.
fn linted_entities(
    alloc: Global,
    file: &ChosenFile,
    arguments: LintArguments<'_>,
) -> Result<Answered, OutOfMemory> {
    let (reader, services) = (&file.rules, file.services.as_slice());
    let entities = file.chosen.entities();
    let answered = match arguments.format {
        Format::Text => entities_lines(alloc, reader, entities, services, arguments)?,
        Format::Json => entities_document_answer(alloc, reader, entities, services, arguments)?,
    };
    answered.about(alloc, &file.chosen)
}

/// `osdgate lint`: the redundant grants of a text or of the entities of a file.
pub(crate) fn lint<F: InputFiles, R: Read>(
    alloc: Global,
    matches: &ArgMatches<'_>,
    files: &F,
    reader: &mut R,
) -> Result<Answered, NoAnswer> {
    refuse_two_inputs(matches)?;
    let pools = pools_given(alloc, files, reader, matches)?;
    let pools = pools.as_ref().map(Vec::as_slice);
    let arguments = LintArguments::of(matches, pools)?;
    if matches.get_str("auth").is_some() {
        let file = chosen_file_in(alloc, files, reader, matches)?;
        return Ok(linted_entities(alloc, &file, arguments)?);
    }
    let rules = reader_of(alloc, matches)?;
    let caps = value_of(matches, "caps");
    Ok(linted_text(alloc, &rules, caps, arguments, files.screen())?)
}
