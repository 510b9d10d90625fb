//! Notes on standard error about requests: calls that the class registry lacks, and access that depends on a pool's tags.

use command_arguments::is_option;
use command_steps::{Answered, RequestWords, call_of, with_line};
use common_types::OutOfMemory;
use gate_files::{Choice, Chosen, taken_line};
use object_core::{NeedsFault, needs_of, registry};
use std::alloc::{AllocError, Global};
use std::fmt::Write;
use verdict_core::Condition;
use verdict_text::{Answer, Asked, ReadEntity, Verdict, answer_of, needs_asked, push_name};

/// The tick of each request that `who` answers.
pub(crate) const FIRST_TICK: u64 = 0;

/// The note where a grant is for pools with a tag, and nothing says which tags the pool has.
const TAGS_NEEDED: &str = "access depends on the pool's tags, give --pools or --tag";

/// Whether the class registry lacks the method of a call.
fn is_unknown(alloc: Global, word: &str) -> Result<bool, OutOfMemory> {
    let call = call_of(alloc, word)?;
    match needs_of(alloc, [call].as_slice()) {
        Ok(_) => Ok(false),
        Err(NeedsFault::OutOfMemory) => Err(AllocError),
        Err(_) => Ok(true),
    }
}

/// Adds the calls that the class registry has.
fn push_registry(line: &mut String, alloc: Global) -> Result<(), OutOfMemory> {
    for call in registry(alloc)?.as_slice() {
        write!(line, " {}.{}", call.class.as_str(), call.method.as_str())?;
    }
    Ok(())
}

/// Adds which call the class registry lacks, which it has, and what to do.
fn push_unknown(line: &mut String, alloc: Global, word: &str) -> Result<(), OutOfMemory> {
    line.push_str("the class registry has no ")?;
    push_name(line, word)?;
    line.push_str(", only")?;
    push_registry(line, alloc)?;
    line.push_str(
        "; a call of another one says what it does: --call CLASS.METHOD:r, :w or :rw, and :listed behind it where the class is on the default list",
    )
}

/// The note on a call that the class registry lacks. A word that is an option without its dashes is named so.
fn unknown_note(alloc: Global, word: &str) -> Result<String, OutOfMemory> {
    if is_option(word) {
        return format!(in alloc; "{word} is no call; the option is --{word}");
    }
    let mut note = String::new(alloc);
    push_unknown(&mut note, alloc, word)?;
    Ok(note)
}

/// The note on the first of some calls that the class registry lacks, empty if it has all.
fn unknown_call(alloc: Global, words: &[&str]) -> Result<String, OutOfMemory> {
    for word in words {
        if is_unknown(alloc, word)? {
            return unknown_note(alloc, word);
        }
    }
    Ok(String::new(alloc))
}

/// A line on the first call of a request that the class registry lacks, behind what names the request; empty if it has all.
pub(crate) fn calls_line(
    alloc: Global,
    request: &RequestWords<'_, '_>,
    before: &str,
) -> Result<String, OutOfMemory> {
    let note = unknown_call(alloc, request.call_words())?;
    if note.is_empty() {
        return Ok(note);
    }
    format!(in alloc; "osdgate: {before}{note}\n")
}

/// Whether the calls of a request are refused, whatever the text.
pub(crate) fn refuses_calls(alloc: Global, asked: &Asked<'_>) -> Result<bool, OutOfMemory> {
    match needs_asked(alloc, asked) {
        Ok(_) => Ok(false),
        Err(NeedsFault::OutOfMemory) => Err(AllocError),
        Err(_) => Ok(true),
    }
}

/// A line on the tags that a request takes of a file of pools, empty if it takes none.
pub(crate) fn tags_line(
    alloc: Global,
    request: &RequestWords<'_, '_>,
) -> Result<String, OutOfMemory> {
    match request.pool() {
        Some(pool) => taken_line(alloc, pool),
        None => Ok(String::new(alloc)),
    }
}

/// The lines on a request: the tags that it takes of a file of pools, and its first unknown call where its calls are refused.
pub(crate) fn request_lines(
    alloc: Global,
    request: &RequestWords<'_, '_>,
    calls_are_refused: bool,
) -> Result<String, OutOfMemory> {
    let lines = tags_line(alloc, request)?;
    if calls_are_refused {
        return with_line(lines, calls_line(alloc, request, ""));
    }
    Ok(lines)
}

/// Whether a request is denied by a grant that is for pools with a tag.
pub(crate) fn fails_by_tag(answer: &Answer) -> bool {
    match answer {
        Ok(Verdict::Denied(report)) => report.lines().iter().any(|line| line.1 == Condition::Tag),
        _ => false,
    }
}

/// The entities that may have a grant for pools with a tag. A text without the word has none.
pub(crate) fn tag_holders(alloc: Global, chosen: &Chosen) -> Result<Vec<&ReadEntity>, OutOfMemory> {
    let mut holders = Vec::new(alloc);
    for entity in chosen.entities() {
        if entity.osd.text().contains("tag") {
            holders.push(entity)?;
        }
    }
    Ok(holders)
}

/// The entities whose access depends on a pool's tags that are not known.
#[derive(Drop)]
pub(crate) struct TagNames {
    /// Their names, with commas between them.
    pub(crate) names: String,
    /// That is not accepted of one of them.
    pub(crate) fails: bool,
}

/// Those of some entities that are denied by a grant for pools with a tag.
fn tag_names(
    alloc: Global,
    holders: &[&ReadEntity],
    choice: Choice<'_>,
    asked: &Asked<'_>,
) -> Result<TagNames, OutOfMemory> {
    let mut names = String::new(alloc);
    let mut fails = false;
    for entity in holders {
        if fails_by_tag(&answer_of(alloc, entity.osd.read(), asked)?) {
            names.push_str(if names.is_empty() { "" } else { ", " })?;
            push_name(&mut names, entity.name.as_str())?;
            fails = fails || !choice.accepts(entity.name.as_str());
        }
    }
    Ok(TagNames { names, fails })
}

/// An answer with a line on entities whose access depends on tags, behind what names the request. It fails if that is not
/// accepted of one of them.
pub(crate) fn with_tag_names(
    alloc: Global,
    mut answered: Answered,
    found: TagNames,
    before: &str,
) -> Result<Answered, OutOfMemory> {
    if found.names.is_empty() {
        return Ok(answered);
    }
    answered.printed.fails = answered.printed.fails || found.fails;
    let names = found.names.as_str();
    answered.with_note(format!(in alloc; "osdgate: {before}{TAGS_NEEDED}: {names}\n"))
}

/// An answer with a line on those of some entities whose access depends on tags that the request does not know, behind what names
/// the request. Such an entity makes it fail, unless the choice accepts that.
pub(crate) fn with_unknown_tags(
    alloc: Global,
    answered: Answered,
    holders: &[&ReadEntity],
    choice: Choice<'_>,
    request: &RequestWords<'_, '_>,
    before: &str,
) -> Result<Answered, OutOfMemory> {
    if request.knows_tags() {
        return Ok(answered);
    }
    let found = tag_names(alloc, holders, choice, &request.asked(FIRST_TICK))?;
    with_tag_names(alloc, answered, found, before)
}

/// The line on a verdict that depends on tags that the request does not know.
pub(crate) fn verdict_tag_line(alloc: Global) -> Result<String, OutOfMemory> {
    format!(in alloc; "osdgate: {TAGS_NEEDED}\n")
}
