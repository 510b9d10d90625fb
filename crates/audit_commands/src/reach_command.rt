//! `osdgate reach`.

use crate::reach_text::{reach_document, reach_lines};
use crate::reached_pools::{ReachedPool, named_pools, needs_tags, reached_pools, sorted_pools};
use clap::ArgMatches;
use command_steps::{
    Answered, BadWords, NoAnswer, caps_of, colours_of, fault_note, format_of, pools_given,
    reader_of, refused_text, value_of, with_rules_of,
};
use common_types::OutOfMemory;
use gate_files::{InputFiles, Screen};
use rights_core::Rights;
use share_core::Pool;
use std::alloc::Global;
use std::io::Read;
use verdict_text::{Format, Printed, ReadText, TextFault};

/// The note where a grant is for pools with a tag, and no pools are given.
const TAGS_NEEDED: &str = "osdgate: access depends on the pool's tags, give --pools\n";

/// What the arguments say, except the files.
#[derive(Clone, Copy)]
struct ReachArguments<'a> {
    entity: &'a str,
    format: Format,
}

impl<'a> ReachArguments<'a> {
    /// What the arguments say. At most one file is standard input.
    fn of(matches: &ArgMatches<'a>) -> Result<ReachArguments<'a>, BadWords> {
        if matches.get_str("auth") == Some("-") && matches.get_str("pools") == Some("-") {
            return Err(BadWords::OneInput);
        }
        Ok(ReachArguments {
            entity: value_of(matches, "entity"),
            format: format_of(matches),
        })
    }
}

/// What is printed of the pools that an entity reaches.
fn printed_pools(
    alloc: Global,
    arguments: ReachArguments<'_>,
    pools: &[ReachedPool<'_>],
) -> Result<String, OutOfMemory> {
    match arguments.format {
        Format::Text => reach_lines(alloc, pools),
        Format::Json => reach_document(alloc, arguments.entity, pools),
    }
}

/// The answer on rights in these pools.
fn reached_in(
    alloc: Global,
    arguments: ReachArguments<'_>,
    rights: &Rights,
    pools: &[Pool],
) -> Result<Answered, OutOfMemory> {
    let reached = reached_pools(alloc, rights, pools)?;
    let text = printed_pools(alloc, arguments, reached.as_slice())?;
    Ok(Answered::of_text(alloc, text))
}

/// The answer on rights in the pools that their grants name, and in one that none of them names. It fails if a grant is
/// for pools with a tag.
fn reached_by_name(
    alloc: Global,
    arguments: ReachArguments<'_>,
    rights: &Rights,
) -> Result<Answered, OutOfMemory> {
    let pools = named_pools(alloc, rights)?;
    let mut answered = reached_in(alloc, arguments, rights, pools.as_slice())?;
    if needs_tags(rights) {
        answered.printed.fails = true;
        answered.note.push_str(TAGS_NEEDED)?;
    }
    Ok(answered)
}

/// What is printed of a text that is refused, which fails.
fn refused(
    alloc: Global,
    arguments: ReachArguments<'_>,
    fault: TextFault,
) -> Result<Answered, OutOfMemory> {
    if arguments.format == Format::Json {
        return Ok(Answered::of(alloc, refused_text(alloc, fault)?));
    }
    let text = format!(in alloc; "refused {fault}\n")?;
    Ok(Answered::of(alloc, Printed { text, fails: true }))
}

/// The answer on a text that was read, in these pools if they are given.
fn reached(
    alloc: Global,
    arguments: ReachArguments<'_>,
    text: &ReadText,
    pools: Option<&[Pool]>,
) -> Result<Answered, OutOfMemory> {
    match (text.read(), pools) {
        (Ok(rights), Some(pools)) => {
            let pools = sorted_pools(alloc, pools)?;
            reached_in(alloc, arguments, rights, pools.as_slice())
        }
        (Ok(rights), None) => reached_by_name(alloc, arguments, rights),
        (Err(fault), _) => refused(alloc, arguments, *fault),
    }
}

/// The answer on a text, with its notes.
fn answered(
    alloc: Global,
    matches: &ArgMatches<'_>,
    caps: String,
    pools: Option<&[Pool]>,
    screen: Screen,
) -> Result<Answered, NoAnswer> {
    let arguments = ReachArguments::of(matches)?;
    let rules = reader_of(alloc, matches)?;
    let text = ReadText::of(alloc, &rules, caps, None)?;
    let answered = reached(alloc, arguments, &text, pools)?;
    let answered = answered.with_note(fault_note(alloc, &text, screen))?;
    let answered = with_rules_of(alloc, matches, answered)?;
    let answered = answered.documented(alloc, arguments.format)?;
    Ok(answered.coloured(alloc, arguments.format, colours_of(matches, screen))?)
}

/// `osdgate reach`: what an entity of a file reaches of each pool, and the grants that give it.
pub fn reach<F: InputFiles, R: Read>(
    alloc: Global,
    matches: &ArgMatches<'_>,
    files: &F,
    reader: &mut R,
) -> Result<Answered, NoAnswer> {
    let arguments = ReachArguments::of(matches)?;
    let pools = pools_given(alloc, files, reader, matches)?;
    let path = value_of(matches, "auth");
    let caps = caps_of(alloc, files, reader, path, arguments.entity)?;
    let pools = pools.as_ref().map(Vec::as_slice);
    answered(alloc, matches, caps, pools, files.screen())
}
