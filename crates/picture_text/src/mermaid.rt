//! A picture as a Mermaid sequence diagram.

use crate::escaping::push_mermaid;
use crate::happenings::{End, Happening, Message, Party, Row, ScriptLine, Story};
use crate::lanes::{parties, party_name};
use crate::notes::notes_of;
use place_core::{ActingSet, OutOfMemory};
use std::alloc::Global;
use std::fmt::Write;

/// The largest number of bytes of a diagram without the line that goes on in it. Mermaid draws 50,000 if it is not told otherwise.
const MAX_BYTES: usize = 48_000;

/// The largest number of bytes of a script's line in a diagram.
const MAX_LINE: usize = 208;

/// Adds a party's name in the diagram.
fn push_party(out: &mut String, party: Party) -> Result<(), OutOfMemory> {
    match party {
        Party::Client => out.push_str("client"),
        Party::Osd(daemon) => write!(out, "osd{daemon}"),
    }
}

/// Adds the parties, from left to right.
fn push_parties(alloc: Global, out: &mut String, lanes: &[Party]) -> Result<(), OutOfMemory> {
    for party in lanes {
        out.push_str("    participant ")?;
        push_party(out, *party)?;
        out.push_str(" as ")?;
        let name = party_name(alloc, *party)?;
        out.push_str(name.as_str())?;
        out.push_str("\n")?;
    }
    Ok(())
}

/// Adds a line of the script at its side. `continues` says that its first rows are left out.
fn push_line(out: &mut String, line: &ScriptLine, continues: bool) -> Result<(), OutOfMemory> {
    let number = line.number;
    write!(out, "    Note left of client: {number} ")?;
    let text = line.text.as_slice();
    let shown = text.len().min(MAX_LINE);
    push_mermaid(out, &text[..shown])?;
    out.push_str(if shown < text.len() { " .." } else { "" })?;
    out.push_str(if continues { ", continued\n" } else { "\n" })
}

/// Adds the line that the rows from one on continue, if its first rows are before them.
fn push_running_line(out: &mut String, rows: &[Row], first: usize) -> Result<(), OutOfMemory> {
    match rows.get(first) {
        Some(row) if row.line.is_none() => (),
        _ => return Ok(()),
    }
    for row in rows[..first.min(rows.len())].iter().rev() {
        if let Some(line) = &row.line {
            return push_line(out, line, true);
        }
    }
    Ok(())
}

/// Adds the beginning of an interval, over all parties.
fn push_interval(
    out: &mut String,
    lanes: &[Party],
    number: usize,
    acting: &ActingSet,
) -> Result<(), OutOfMemory> {
    out.push_str("    Note over client")?;
    if let Some(last) = lanes.last() {
        if *last != Party::Client {
            out.push_str(",")?;
            push_party(out, *last)?;
        }
    }
    write!(out, ": interval {number}, acting")?;
    for member in acting.as_slice() {
        write!(out, " {member}")?;
    }
    if acting.as_slice().is_empty() {
        out.push_str(" nobody")?;
    }
    out.push_str("\n")
}

/// The arrow of a message that ends so.
fn arrow(message: &Message, end: End) -> &'static str {
    match (end, message.repeated) {
        (End::Delivered, false) => "->>",
        (End::Delivered, true) => "-->>",
        (End::Lost | End::Unreachable, false) => "-x",
        (End::Lost | End::Unreachable, true) => "--x",
        (End::OnItsWay, false) => "-)",
        (End::OnItsWay, true) => "--)",
    }
}

/// Adds a message that ends.
fn push_message(out: &mut String, message: &Message, end: End) -> Result<(), OutOfMemory> {
    out.push_str("    ")?;
    push_party(out, message.from)?;
    out.push_str(arrow(message, end))?;
    push_party(out, message.to)?;
    out.push_str(": ")?;
    push_mermaid(out, message.name.as_bytes())?;
    out.push_str(match end {
        End::Delivered => "\n",
        End::Lost => ", lost\n",
        End::Unreachable => ", to a daemon that is down\n",
        End::OnItsWay => ", on its way\n",
    })
}

/// Adds the notes of a row at the last party's side.
fn push_notes(
    alloc: Global,
    out: &mut String,
    lanes: &[Party],
    row: &Row,
) -> Result<(), OutOfMemory> {
    let notes = notes_of(alloc, row)?;
    if notes.is_empty() {
        return Ok(());
    }
    out.push_str("    Note right of ")?;
    push_party(out, lanes.last().copied().unwrap_or(Party::Client))?;
    let mut between = ": ";
    for note in &notes {
        out.push_str(between)?;
        push_mermaid(out, note.text.as_bytes())?;
        between = "<br/>";
    }
    out.push_str("\n")
}

fn push_row(
    alloc: Global,
    out: &mut String,
    story: &Story,
    lanes: &[Party],
    row: &Row,
) -> Result<(), OutOfMemory> {
    if let Some(line) = &row.line {
        push_line(out, line, line.continues)?;
    }
    for happening in &row.happenings {
        match happening {
            Happening::Interval { number, acting } => push_interval(out, lanes, *number, acting)?,
            Happening::Ended { message, end } => {
                if let Some(message) = story.messages.get(*message) {
                    push_message(out, message, *end)?;
                }
            }
            _ => (),
        }
    }
    push_notes(alloc, out, lanes, row)
}

/// An interval and its acting set.
#[derive(Clone, Copy)]
struct Interval {
    number: usize,
    acting: ActingSet,
}

/// The last interval that begins in some rows, or this one.
fn last_interval(rows: &[Row], before: Interval) -> Interval {
    let mut last = before;
    for row in rows {
        for happening in &row.happenings {
            if let Happening::Interval { number, acting } = happening {
                last = Interval {
                    number: *number,
                    acting: *acting,
                };
            }
        }
    }
    last
}

/// What stands before the rows from one on: how many steps are left out, and the interval.
fn beginning_text(
    alloc: Global,
    story: &Story,
    lanes: &[Party],
    first: usize,
) -> Result<String, OutOfMemory> {
    let mut out = String::from_str(alloc, "sequenceDiagram\n")?;
    push_parties(alloc, &mut out, lanes)?;
    let left_out = story.left_out.saturating_add(first);
    if left_out > 0 {
        write!(
            out,
            "    Note over client: {left_out} steps before these are left out\n"
        )?;
    }
    let begins = Interval {
        number: story.beginning.interval,
        acting: story.beginning.acting,
    };
    let rows = story.rows.as_slice();
    let interval = last_interval(&rows[..first.min(rows.len())], begins);
    if interval.number > 0 {
        push_interval(&mut out, lanes, interval.number, &interval.acting)?;
    }
    Ok(out)
}

/// The messages that are on their way at the end.
fn waiting_text(alloc: Global, story: &Story) -> Result<String, OutOfMemory> {
    let mut out = String::new(alloc);
    for message in &story.waiting {
        if let Some(message) = story.messages.get(*message) {
            push_message(&mut out, message, End::OnItsWay)?;
        }
    }
    let more = story.waiting_left_out;
    if more > 0 {
        write!(
            out,
            "    Note over client: {more} more messages are on their way\n"
        )?;
    }
    Ok(out)
}

/// The rows as texts.
fn row_texts(alloc: Global, story: &Story, lanes: &[Party]) -> Result<Vec<String>, OutOfMemory> {
    let mut texts = Vec::new(alloc);
    for row in &story.rows {
        let mut text = String::new(alloc);
        push_row(alloc, &mut text, story, lanes, row)?;
        texts.push(text)?;
    }
    Ok(texts)
}

/// The first of the last rows that have room together.
fn first_with_room(texts: &[String], room: usize) -> usize {
    let mut left = texts.len();
    let mut taken: usize = 0;
    for text in texts.iter().rev() {
        taken = taken.saturating_add(text.len());
        if taken > room {
            break;
        }
        left = left.saturating_sub(1);
    }
    left
}

/// A story as a sequence diagram: a message stands where it ends.
///
/// A diagram has at most the last rows that Mermaid draws by default, and says how many it leaves out.
pub fn mermaid_of(alloc: Global, story: &Story) -> Result<String, OutOfMemory> {
    let lanes = parties(alloc, story)?;
    let texts = row_texts(alloc, story, lanes.as_slice())?;
    let waiting = waiting_text(alloc, story)?;
    // the longest beginning, with all rows left out, has room too
    let longest = beginning_text(alloc, story, lanes.as_slice(), texts.len())?;
    let room = MAX_BYTES
        .saturating_sub(waiting.len())
        .saturating_sub(longest.len());
    let first = first_with_room(texts.as_slice(), room);
    let mut out = beginning_text(alloc, story, lanes.as_slice(), first)?;
    push_running_line(&mut out, story.rows.as_slice(), first)?;
    for text in texts.iter().skip(first) {
        out.push_str(text.as_str())?;
    }
    out.push_str(waiting.as_str())?;
    Ok(out)
}
