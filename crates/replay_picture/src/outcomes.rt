//! What decisions and answers say.

use crate::naming::push_id;
use crate::rights::Rights;
use common_types::{Name, OutOfMemory};
use entry_core::{Id, Reply};
use grant_core::Path;
use object_core::Bytes;
use picture_text::Outcome;
use script_text::push_quoted;
use std::alloc::Global;
use std::fmt::Write;
use verdict_core::Condition;

/// The largest number of lines of a report, of outputs or of names in a picture.
const MAX_LINES: usize = 12;

/// The largest number of bytes of each output or name in a picture.
const MAX_BYTES: usize = 32;

/// An id and what follows it.
fn headed(alloc: Global, id: Id, rest: &str) -> Result<String, OutOfMemory> {
    let mut text = String::new(alloc);
    push_id(&mut text, id)?;
    text.push_str(rest)?;
    Ok(text)
}

/// How many lines more there are.
fn push_rest(alloc: Global, lines: &mut Vec<String>, all: usize) -> Result<(), OutOfMemory> {
    let rest = all.saturating_sub(MAX_LINES);
    if rest > 0 {
        lines.push(format!(in alloc; "and {rest} more")?)?;
    }
    Ok(())
}

fn push_report(
    alloc: Global,
    lines: &mut Vec<String>,
    report: &[(Path, Condition)],
) -> Result<(), OutOfMemory> {
    for (path, condition) in report.iter().take(MAX_LINES) {
        lines.push(format!(in alloc; "- {path} {condition}")?)?;
    }
    push_rest(alloc, lines, report.len())
}

/// A line with the beginning of some bytes.
fn push_bytes(alloc: Global, lines: &mut Vec<String>, bytes: &[u8]) -> Result<(), OutOfMemory> {
    let mut text = String::from_str(alloc, "- ")?;
    let rest = bytes.len().saturating_sub(MAX_BYTES);
    let shown = bytes.len().saturating_sub(rest);
    push_quoted(&mut text, &bytes[..shown])?;
    if rest > 0 {
        text.push_str(" ..")?;
    }
    lines.push(text)?;
    Ok(())
}

fn push_outputs(
    alloc: Global,
    lines: &mut Vec<String>,
    outputs: &[Bytes],
) -> Result<(), OutOfMemory> {
    for output in outputs.iter().take(MAX_LINES) {
        push_bytes(alloc, lines, output.as_slice())?;
    }
    push_rest(alloc, lines, outputs.len())
}

fn push_names(alloc: Global, lines: &mut Vec<String>, names: &[Name]) -> Result<(), OutOfMemory> {
    for name in names.iter().take(MAX_LINES) {
        push_bytes(alloc, lines, name.as_str().as_bytes())?;
    }
    push_rest(alloc, lines, names.len())
}

/// What is said of a decision: the verdict, and the grant, or each grant's first failed condition.
pub(crate) fn decision(
    alloc: Global,
    rights: &Rights,
    id: Id,
    reply: &Reply,
) -> Result<Outcome, OutOfMemory> {
    let mut lines = Vec::new(alloc);
    match reply {
        Reply::Denied(report) => {
            lines.push(headed(alloc, id, " denied")?)?;
            push_report(alloc, &mut lines, report.lines())?;
        }
        _ => {
            let mut text = String::new(alloc);
            rights.push_allowed(&mut text, id)?;
            lines.push(text)?;
        }
    }
    Ok(Outcome {
        is_denied: is_denied(reply),
        lines,
    })
}

fn is_denied(reply: &Reply) -> bool {
    matches!(reply, Reply::Denied(_))
}

/// What is said of an answer behind its id and these words, with what it carries.
fn reply_lines(
    alloc: Global,
    id: Id,
    words: &str,
    reply: &Reply,
) -> Result<Vec<String>, OutOfMemory> {
    let mut head = headed(alloc, id, words)?;
    match reply {
        Reply::Denied(_) => head.push_str("denied")?,
        Reply::Done(_) => head.push_str("ok")?,
        Reply::Failed { place, number } => write!(head, "error {number} at {place}")?,
        Reply::Names(_) => head.push_str("names")?,
    }
    let mut lines = vec![in alloc; head]?;
    match reply {
        Reply::Done(outputs) => push_outputs(alloc, &mut lines, outputs.as_slice())?,
        Reply::Names(names) => push_names(alloc, &mut lines, names.as_slice())?,
        Reply::Denied(_) | Reply::Failed { .. } => (),
    }
    Ok(lines)
}

/// What is said of an answer.
pub(crate) fn answer(alloc: Global, id: Id, reply: &Reply) -> Result<Outcome, OutOfMemory> {
    Ok(Outcome {
        is_denied: is_denied(reply),
        lines: reply_lines(alloc, id, " answered: ", reply)?,
    })
}

/// What a script prints where it asks for an answer.
pub(crate) fn printed_answer(
    alloc: Global,
    id: Id,
    reply: Option<&Reply>,
) -> Result<Outcome, OutOfMemory> {
    let Some(reply) = reply else {
        return printed_line(alloc, headed(alloc, id, " waiting")?);
    };
    let mut lines = reply_lines(alloc, id, " ", reply)?;
    if let Reply::Denied(report) = reply {
        push_report(alloc, &mut lines, report.lines())?;
    }
    Ok(Outcome {
        is_denied: is_denied(reply),
        lines,
    })
}

/// A line that a script prints.
pub(crate) fn printed_line(alloc: Global, line: String) -> Result<Outcome, OutOfMemory> {
    Ok(Outcome {
        is_denied: false,
        lines: vec![in alloc; line]?,
    })
}
