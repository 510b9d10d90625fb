//! `osdgate share`.

use crate::documents::refused_side;
use crate::limited::{limited_reading, limited_readings};
use clap::ArgMatches;
use command_steps::{
    Answered, BadWords, Methods, NoAnswer, chosen_in, first_fault_note, format_of, known_calls,
    methods_line, methods_of, pools_given, reader_of, rules_of,
};
use common_types::OutOfMemory;
use gate_files::{Chosen, InputFiles, Screen};
use share_core::Pool;
use share_text::{
    Detail, Holder, Strictness, everybody_entities, flow_document, flow_entities, holders_of,
    retag_entities, retag_rights, share_document, share_entities, share_read, writer_entities,
};
use std::alloc::Global;
use std::io::Read;
use verdict_text::{Format, Printed, ReadEntity, ReadText, Reader, Reading, Rules};

/// What is asked of the entities of a file, and how much of it is printed.
#[derive(Clone, Copy)]
enum Question {
    /// What each two of them both reach.
    Shared(Strictness, Detail),
    /// Where what each of them writes may flow to. With a check a line fails.
    Flows {
        check: bool,
        format: Format,
        detail: Detail,
    },
}

/// How two texts are looked at.
#[derive(Clone, Copy)]
struct TextsHow {
    check: bool,
    format: Format,
    methods: Methods,
}

/// The two texts of the arguments.
fn two_texts<'a>(texts: &[&'a str]) -> Result<(&'a str, &'a str), BadWords> {
    match texts {
        [first, second] => Ok((*first, *second)),
        _ => Err(BadWords::TwoTexts),
    }
}

/// How much is printed.
fn detail_of(matches: &ArgMatches<'_>) -> Detail {
    if matches.get_flag("all") {
        Detail::Whole
    } else {
        Detail::Brief
    }
}

/// What the arguments ask of the entities of a file. At most one file is standard input.
fn question_of(matches: &ArgMatches<'_>) -> Result<Question, BadWords> {
    if matches.get_str("auth") == Some("-") && matches.get_str("pools") == Some("-") {
        return Err(BadWords::OneInput);
    }
    let check = matches.get_flag("check");
    let format = format_of(matches);
    let detail = detail_of(matches);
    if matches.get_flag("flows") {
        return Ok(Question::Flows {
            check,
            format,
            detail,
        });
    }
    let how = Strictness {
        reads: matches.get_flag("reads"),
        check,
        format,
    };
    Ok(Question::Shared(how, detail))
}

/// A text that was read.
fn read_text(alloc: Global, rules: &Reader, text: &str) -> Result<ReadText, OutOfMemory> {
    ReadText::of(alloc, rules, String::from_str(alloc, text)?, None)
}

/// Two documents on a line as one, with the members of both.
fn joined(alloc: Global, front: &str, behind: &str) -> Result<String, OutOfMemory> {
    let front = front.strip_suffix("}\n").unwrap_or(front);
    let behind = behind.strip_prefix('{').unwrap_or(behind);
    format!(in alloc; "{front},{behind}")
}

/// What is printed, with lines behind it or members of a second document. It fails as the first one does.
fn with_more(
    alloc: Global,
    printed: Printed,
    more: &str,
    format: Format,
) -> Result<Printed, OutOfMemory> {
    let text = printed.text.as_str();
    Ok(Printed {
        text: match format {
            Format::Text => format!(in alloc; "{text}{more}")?,
            Format::Json => joined(alloc, text, more)?,
        },
        fails: printed.fails,
    })
}

/// What two texts that were read share, as lines or as a document.
fn shared_readings(
    alloc: Global,
    first: &Reading,
    second: &Reading,
    how: TextsHow,
) -> Result<Printed, OutOfMemory> {
    if how.format == Format::Text {
        return share_read(alloc, first, second, how.check);
    }
    match (first, second) {
        (Ok(ones), Ok(others)) => share_document(alloc, ones, others, how.check),
        (Err(fault), _) => refused_side(alloc, "first", *fault),
        (_, Err(fault)) => refused_side(alloc, "second", *fault),
    }
}

/// What is printed of two texts that were read: what they share, and what they share once a pool is tagged anew.
fn printed_texts(
    alloc: Global,
    first: &Reading,
    second: &Reading,
    how: TextsHow,
) -> Result<Printed, OutOfMemory> {
    let printed = shared_readings(alloc, first, second, how)?;
    match (first, second) {
        (Ok(ones), Ok(others)) => {
            let retags = retag_rights(alloc, ones, others, how.format)?;
            with_more(alloc, printed, retags.text.as_str(), how.format)
        }
        _ => Ok(printed),
    }
}

/// What is printed of two texts where requests call the methods of Ceph's class table alone.
fn known_texts(
    alloc: Global,
    first: &Reading,
    second: &Reading,
    how: TextsHow,
) -> Result<Printed, OutOfMemory> {
    let calls = known_calls(alloc)?;
    let first = limited_reading(alloc, first, calls.as_slice())?;
    let second = limited_reading(alloc, second, calls.as_slice())?;
    printed_texts(alloc, &first, &second, how)
}

/// Of what is printed over every registry and over the methods of Ceph's class table, that which is asked for, with a line on
/// whether they differ.
fn by_methods(
    alloc: Global,
    methods: Methods,
    every: Printed,
    known: Printed,
) -> Result<Answered, OutOfMemory> {
    let differs = every.text != known.text;
    let printed = if methods == Methods::Known {
        known
    } else {
        every
    };
    let line = String::from_str(alloc, methods_line(methods, differs))?;
    Ok(Answered::noted(alloc, printed, line))
}

/// What two texts both reach.
fn shared_texts(
    alloc: Global,
    rules: &Reader,
    texts: (&str, &str),
    how: TextsHow,
    screen: Screen,
) -> Result<Answered, OutOfMemory> {
    let first = read_text(alloc, rules, texts.0)?;
    let second = read_text(alloc, rules, texts.1)?;
    let every = printed_texts(alloc, first.read(), second.read(), how)?;
    let answered = match rules.rules() {
        Rules::Project => Answered::of(alloc, every),
        Rules::Ceph => {
            let known = known_texts(alloc, first.read(), second.read(), how)?;
            by_methods(alloc, how.methods, every, known)?
        }
    };
    answered
        .with_note(first_fault_note(alloc, &first, &second, screen))?
        .about_text(first)?
        .about_text(second)
}

/// Where what each entity writes may flow, and behind that who writes the same as another one whom it does not read.
fn printed_flows(
    alloc: Global,
    entities: &[Holder<'_>],
    pools: Option<&[Pool]>,
    check: bool,
    format: Format,
    detail: Detail,
) -> Result<Printed, OutOfMemory> {
    let flows = match format {
        Format::Text => flow_entities(alloc, entities, pools, detail, check)?,
        Format::Json => flow_document(alloc, entities, pools, detail, check)?,
    };
    let how = Strictness {
        reads: false,
        check,
        format,
    };
    let writers = writer_entities(alloc, entities, how, pools)?;
    let mut printed = with_more(alloc, flows, writers.text.as_str(), format)?;
    printed.fails = printed.fails || writers.fails;
    Ok(printed)
}

/// Which entities reach every object, whose pairs are left out, and behind that what each two entities share. It fails as the
/// pairs do.
fn printed_pairs(
    alloc: Global,
    entities: &[Holder<'_>],
    pools: Option<&[Pool]>,
    how: Strictness,
    detail: Detail,
) -> Result<Printed, OutOfMemory> {
    let shared = share_entities(alloc, entities, how, pools, detail)?;
    if detail == Detail::Whole {
        return Ok(shared);
    }
    let everybody = Printed {
        text: everybody_entities(alloc, entities, how.format)?,
        fails: shared.fails,
    };
    with_more(alloc, everybody, shared.text.as_str(), how.format)
}

/// What is printed of entities, of these pools alone if they are given.
fn printed_entities(
    alloc: Global,
    entities: &[Holder<'_>],
    pools: Option<&[Pool]>,
    question: Question,
) -> Result<Printed, OutOfMemory> {
    match question {
        Question::Flows {
            check,
            format,
            detail,
        } => printed_flows(alloc, entities, pools, check, format, detail),
        Question::Shared(how, detail) => {
            let shared = printed_pairs(alloc, entities, pools, how, detail)?;
            let retags = retag_entities(alloc, entities, how.format, pools)?;
            with_more(alloc, shared, retags.text.as_str(), how.format)
        }
    }
}

/// A line on the chains that may be missing, since each entity that could not be checked may be between any two.
fn missing_chains(alloc: Global, chosen: &Chosen) -> Result<String, OutOfMemory> {
    let line = match chosen.unchecked().len() {
        0 => return Ok(String::new(alloc)),
        1 => {
            "osdgate: a chain through the entity that is not checked may be missing, from any that writes to any that reads\n"
        }
        _ => {
            "osdgate: chains through the entities that are not checked may be missing, from any that writes to any that reads\n"
        }
    };
    String::from_str(alloc, line)
}

/// What is noted of an answer beside the entities that could not be checked.
fn question_note(
    alloc: Global,
    chosen: &Chosen,
    question: Question,
) -> Result<String, OutOfMemory> {
    match question {
        Question::Flows { .. } => missing_chains(alloc, chosen),
        Question::Shared(_, _) => Ok(String::new(alloc)),
    }
}

/// Entities with these readings in place of their own.
fn holders_with<'a>(
    alloc: Global,
    entities: &'a [ReadEntity],
    readings: &'a [Reading],
) -> Result<Vec<Holder<'a>>, OutOfMemory> {
    let mut holders = Vec::with_capacity(alloc, entities.len())?;
    for (entity, read) in entities.iter().zip(readings.iter()) {
        let name = entity.name.as_str();
        holders.push(Holder { name, read })?;
    }
    Ok(holders)
}

/// What the entities of a file share by these rules, of these pools alone if they are given.
fn shared_entities(
    alloc: Global,
    rules: Rules,
    chosen: &Chosen,
    pools: Option<&[Pool]>,
    question: Question,
    methods: Methods,
) -> Result<Answered, OutOfMemory> {
    let entities = chosen.entities();
    let holders = holders_of(alloc, entities)?;
    let every = printed_entities(alloc, holders.as_slice(), pools, question)?;
    let answered = match limited_readings(alloc, rules, entities)? {
        None => {
            let line = String::from_str(alloc, methods_line(methods, false))?;
            Answered::noted(alloc, every, line)
        }
        Some(readings) => {
            let holders = holders_with(alloc, entities, readings.as_slice())?;
            let known = printed_entities(alloc, holders.as_slice(), pools, question)?;
            by_methods(alloc, methods, every, known)?
        }
    };
    let answered = answered.with_note(question_note(alloc, chosen, question))?;
    answered.about(alloc, chosen)
}

/// What the entities of a file share.
fn shared_file<F: InputFiles, R: Read>(
    alloc: Global,
    matches: &ArgMatches<'_>,
    files: &F,
    reader: &mut R,
) -> Result<Answered, NoAnswer> {
    let question = question_of(matches)?;
    let methods = methods_of(matches)?;
    let pools = pools_given(alloc, files, reader, matches)?;
    let pools = pools.as_ref().map(Vec::as_slice);
    let chosen = chosen_in(alloc, files, reader, matches)?;
    let rules = rules_of(matches);
    Ok(shared_entities(alloc, rules, &chosen, pools, question, methods)?)
}

/// `osdgate share`: what two texts, or the entities of a file, both reach.
pub(crate) fn share<F: InputFiles, R: Read>(
    alloc: Global,
    matches: &ArgMatches<'_>,
    files: &F,
    reader: &mut R,
) -> Result<Answered, NoAnswer> {
    let Some(texts) = matches.get_strs("caps") else {
        return shared_file(alloc, matches, files, reader);
    };
    let texts = two_texts(texts)?;
    let how = TextsHow {
        check: matches.get_flag("check"),
        format: format_of(matches),
        methods: methods_of(matches)?,
    };
    let rules = reader_of(alloc, matches)?;
    Ok(shared_texts(alloc, &rules, texts, how, files.screen())?)
}
