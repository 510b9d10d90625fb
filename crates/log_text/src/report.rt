//! A logged request as lines.

use crate::agreement::Agreement;
use crate::decided::Decided;
use crate::reading::LoggedRequest;
use crate::sides::push_entry_failure;
use crate::standing::Standing;
use crate::words::push_words;
use common_types::OutOfMemory;
use log_core::Summary;
use rights_core::Rights;
use std::alloc::Global;
use std::fmt::Write;
use verdict_text::{Reading, push_name};

/// Adds the line of each grant of which a request fails a condition.
fn push_grants(
    text: &mut String,
    alloc: Global,
    rights: &Rights,
    decided: &Decided,
) -> Result<(), OutOfMemory> {
    let mut entries = rights.entries();
    while let Some((entry, others)) = entries.split_first() {
        push_entry_failure(text, alloc, &entry, decided)?;
        entries = others;
    }
    Ok(())
}

fn times(count: u64) -> &'static str {
    if count == 1 { "time" } else { "times" }
}

/// Adds the line on how often a request was decided so, and when.
fn push_summary(text: &mut String, allowed: bool, summary: &Summary) -> Result<(), OutOfMemory> {
    let word = if allowed { "allowed" } else { "denied" };
    let count = summary.count;
    let times = times(count);
    let first = summary.first.as_str();
    let last = summary.last.as_str();
    if count == 1 {
        write!(text, "  {word} 1 time, {first}\n")
    } else {
        write!(text, "  {word} {count} {times}, {first} to {last}\n")
    }
}

/// Adds the line on a text that does not decide as the OSD did.
fn push_standing(text: &mut String, standing: &Standing, allowed: bool) -> Result<(), OutOfMemory> {
    match standing {
        Standing::NoEntity => text.push_str("  the file has no such entity\n"),
        Standing::Refused(fault) => write!(text, "  the text grants nothing: {fault}\n"),
        Standing::Judged(Agreement::Agrees) => Ok(()),
        Standing::Judged(Agreement::Depends) => {
            text.push_str("  by the text it depends on the client's address\n")
        }
        Standing::Judged(Agreement::Differs) if allowed => {
            text.push_str("  differs: the text denies it\n")
        }
        Standing::Judged(Agreement::Differs) => text.push_str("  differs: the text allows it\n"),
    }
}

/// Adds why a text denies a request, or that it has no grant.
fn push_reasons(
    text: &mut String,
    alloc: Global,
    read: Option<&Reading>,
    decided: &Decided,
) -> Result<(), OutOfMemory> {
    match read {
        Some(Ok(rights)) if rights.is_empty() => text.push_str("  the text has no grant\n"),
        Some(Ok(rights)) => push_grants(text, alloc, rights, decided),
        Some(Err(_)) | None => Ok(()),
    }
}

/// Whether the reasons of the gate's denial are printed: where it denies, or may deny.
fn is_denied(standing: &Standing, allowed: bool) -> bool {
    match standing {
        Standing::Judged(Agreement::Agrees) => !allowed,
        Standing::Judged(Agreement::Differs) => allowed,
        Standing::Judged(Agreement::Depends) => true,
        Standing::NoEntity | Standing::Refused(_) => false,
    }
}

/// Adds the lines of a logged request: the entity and the request in words of `osdgate verdict`; what was decided, how often and
/// when; whether the gate decides otherwise; and for a denial of the gate each grant with both sides of the condition that
/// failed. The only error is out of memory.
pub fn push_report(
    text: &mut String,
    alloc: Global,
    request: &LoggedRequest,
    summary: &Summary,
    standing: &Standing,
    read: Option<&Reading>,
) -> Result<(), OutOfMemory> {
    let decided = &request.decided;
    push_name(text, request.entity.as_str())?;
    text.push_str(" ")?;
    push_words(text, alloc, decided)?;
    text.push_str("\n")?;
    push_summary(text, decided.allowed, summary)?;
    push_standing(text, standing, decided.allowed)?;
    if is_denied(standing, decided.allowed) {
        push_reasons(text, alloc, read, decided)?;
    }
    Ok(())
}
