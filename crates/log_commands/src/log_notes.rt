//! What is noted of a log.

use common_types::OutOfMemory;
use log_text::Counts;
use std::alloc::Global;
use std::fmt::Write;

/// Adds a line if there is something to count.
fn push_count(note: &mut String, count: u64, what: &str) -> Result<(), OutOfMemory> {
    if count == 0 {
        return Ok(());
    }
    write!(note, "osdgate: {what}: {count}\n")
}

/// Lines on a log: how many lines and decisions it has, and those that could not be used, by the reason.
pub(crate) fn count_lines(alloc: Global, counts: &Counts) -> Result<String, OutOfMemory> {
    let lines = counts.lines;
    let decisions = counts.decisions;
    let mut note = format!(in alloc; "osdgate: {lines} lines, {decisions} decisions\n")?;
    push_count(
        &mut note,
        counts.cut,
        "lines that tell of a request and lack a part",
    )?;
    push_count(&mut note, counts.not_text, "lines that are not UTF-8")?;
    push_count(
        &mut note,
        counts.without_entity,
        "decisions not checked, since the log lacks the session's beginning",
    )?;
    push_count(
        &mut note,
        counts.without_object,
        "decisions not checked, since the log lacks the operation",
    )?;
    push_count(
        &mut note,
        counts.unread,
        "decisions not checked, since Ceph 16.2.15 writes none like this",
    )?;
    Ok(note)
}

/// Why a log has no answer: it has no decision.
pub(crate) fn no_decision_line(alloc: Global, counts: &Counts) -> Result<String, OutOfMemory> {
    let lines = counts.lines;
    let mut line = String::new(alloc);
    if counts.of_osd == 0 {
        write!(
            line,
            "no log of an OSD: none of {lines} lines is one of an OSD's"
        )?;
    } else {
        write!(
            line,
            "the log has no decision in {lines} lines; `ceph config set osd debug_osd 20` makes OSDs log them"
        )?;
    }
    if counts.not_text > 0 {
        let count = counts.not_text;
        write!(line, "; {count} lines are not UTF-8")?;
    }
    Ok(line)
}
