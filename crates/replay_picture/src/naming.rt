//! The names of groups and of messages.

use crate::selection::Selection;
use common_types::OutOfMemory;
use entry_core::{GroupId, Id};
use group_messages::Party;
use peer_core::Body;
use picture_text::Topic;
use std::alloc::Global;
use std::fmt::Write;

/// What a picture is about.
pub(crate) fn title_of(
    alloc: Global,
    group: &Option<GroupId>,
    selection: Selection,
) -> Result<String, OutOfMemory> {
    let Some(group) = group else {
        return String::from_str(alloc, "A script without groups");
    };
    let pool = group.pool.as_str();
    let number = group.number;
    let mut title = format!(in alloc; "Group {pool} {number}")?;
    if let Some(id) = selection.request {
        title.push_str(", request ")?;
        push_id(&mut title, id)?;
    }
    if let Some((first, last)) = selection.lines {
        write!(title, ", lines {first} to {last}")?;
    }
    Ok(title)
}

/// Adds a request's session and its number there.
pub(crate) fn push_id(text: &mut String, id: Id) -> Result<(), OutOfMemory> {
    let session = id.session();
    let number = id.number();
    write!(text, "{session}.{number}")
}

fn of_interval(alloc: Global, kind: &str, interval: u64) -> Result<String, OutOfMemory> {
    format!(in alloc; "{kind} {interval}")
}

/// The name of a message with a daemon's log, which has `len` entries.
fn of_log(alloc: Global, kind: &str, interval: u64, len: usize) -> Result<String, OutOfMemory> {
    format!(in alloc; "{kind} {interval}, log {len}")
}

/// The name of a daemon's offer: the interval that its log began with, and how many entries that has.
fn of_offer(alloc: Global, interval: u64, base: u64, len: usize) -> Result<String, OutOfMemory> {
    format!(in alloc; "Info {interval}, base {base}, log {len}")
}

fn of_place(alloc: Global, kind: &str, interval: u64, place: usize) -> Result<String, OutOfMemory> {
    format!(in alloc; "{kind} {interval}, place {place}")
}

fn of_entry(alloc: Global, interval: u64, index: usize, id: Id) -> Result<String, OutOfMemory> {
    let mut text = of_place(alloc, "Append", interval, index)?;
    text.push_str(", ")?;
    push_id(&mut text, id)?;
    Ok(text)
}

fn of_request(alloc: Global, kind: &str, id: Id) -> Result<String, OutOfMemory> {
    let mut text = String::from_str(alloc, kind)?;
    text.push_str(" ")?;
    push_id(&mut text, id)?;
    Ok(text)
}

/// A message's kind, with its interval, its request or its place in the log.
pub(crate) fn name_of(alloc: Global, body: &Body) -> Result<String, OutOfMemory> {
    match body {
        Body::Interval(sets) => of_interval(alloc, "Interval", sets.len() as u64),
        Body::Query { interval, len, .. } => of_log(alloc, "Query", *interval, *len),
        Body::Info {
            interval,
            base,
            start,
            part,
        } => {
            let len = start.saturating_add(part.as_slice().len());
            of_offer(alloc, *interval, *base, len)
        }
        Body::Install {
            interval,
            start,
            part,
        } => {
            let len = start.saturating_add(part.as_slice().len());
            of_log(alloc, "Install", *interval, len)
        }
        Body::Installed { interval } => of_interval(alloc, "Installed", *interval),
        Body::Append {
            interval,
            index,
            request,
        } => of_entry(alloc, *interval, *index, request.id()),
        Body::Appended { interval, index } => of_place(alloc, "Appended", *interval, *index),
        Body::Request(request) => of_request(alloc, "Request", request.id()),
        Body::Reply { id, .. } => of_request(alloc, "Reply", *id),
        Body::NotHere(id) => of_request(alloc, "NotHere", *id),
    }
}

/// Who sends or takes a message, as a picture has it.
pub(crate) fn party_of(party: Party) -> picture_text::Party {
    match party {
        Party::Client => picture_text::Party::Client,
        Party::Osd(daemon) => picture_text::Party::Osd(daemon),
    }
}

/// What a message is about.
pub(crate) fn topic_of(body: &Body) -> Topic {
    match body {
        Body::Append { .. } | Body::Appended { .. } => Topic::Entries,
        Body::Request(_) | Body::Reply { .. } | Body::NotHere(_) => Topic::Requests,
        _ => Topic::Peering,
    }
}
