//! The way out for a capability text with a fault: it was meant for another daemon, or uses an unknown profile, or what to
//! write in its place.

use cap_text::{CapFault, FaultKind};
use command_arguments::advice_line;
use common_types::OutOfMemory;
use gate_files::{Screen, fault_lines};
use grant_core::ExpandFault;
use std::alloc::Global;
use verdict_text::{ReadText, TextFault};

const KNOWN_PROFILES: &str =
    "osdgate: the profiles here are read-only, read-write, rbd-read-only and rbd; Ceph has others, and one that it does not know grants nothing there\n";

const OF_MONITORS: &str =
    "osdgate: `allow profile NAME` is for monitors and managers; for object stores it is `profile NAME`\n";

const COMMANDS: &str =
    "osdgate: commands are for monitors and managers; look for the text behind `osd`\n";

const OF_METADATA: &str =
    "osdgate: this is for metadata servers; for object stores a file system's pools are named as in `allow rw tag cephfs data=NAME`\n";

/// A kind of fault, the word at the fault, and the line to print.
type Row = (FaultKind, &'static str, &'static str);

const PASTED: &[Row; 9] = &[
    (FaultKind::BadAccess, "profile", OF_MONITORS),
    (FaultKind::BadAccess, "command", COMMANDS),
    (FaultKind::BadAccess, "service", COMMANDS),
    (FaultKind::BadAccess, "module", COMMANDS),
    (FaultKind::UnknownWord, "path", OF_METADATA),
    (FaultKind::UnknownWord, "fsname", OF_METADATA),
    (FaultKind::UnknownWord, "root_squash", OF_METADATA),
    (FaultKind::UnknownWord, "uid", OF_METADATA),
    (FaultKind::UnknownWord, "gids", OF_METADATA),
];

/// The line to print for a fault of a text, or the empty text.
fn way_out(caps: &str, fault: CapFault) -> &'static str {
    let behind = caps.get(fault.at..).unwrap_or("");
    PASTED
        .iter()
        .find(|row| fault.kind == row.0 && behind.starts_with(row.1))
        .map_or("", |row| row.2)
}

/// The line on a text with this fault: for which daemon it is, or else what to write in its place.
fn fault_line(alloc: Global, caps: &str, fault: CapFault) -> Result<String, OutOfMemory> {
    match way_out(caps, fault) {
        "" => advice_line(alloc, caps, fault),
        told => String::from_str(alloc, told),
    }
}

/// What standard error has on a text with a fault: the text with a caret below the fault's byte, and a line on the way out. It
/// is empty for a text without a fault.
pub fn fault_note(alloc: Global, text: &ReadText, screen: Screen) -> Result<String, OutOfMemory> {
    let Err(fault) = text.read() else {
        return Ok(String::new(alloc));
    };
    let mut note = fault_lines(alloc, text.text(), *fault, screen)?;
    match fault {
        TextFault::Spelling(fault) => {
            note.push_str(fault_line(alloc, text.text(), *fault)?.as_str())?;
        }
        TextFault::Expansion(ExpandFault::UnknownProfile(_)) => {
            note.push_str(KNOWN_PROFILES)?;
        }
        TextFault::Expansion(_) | TextFault::Unread(_) => {}
    }
    Ok(note)
}

/// What standard error has on the first of two texts that has a fault. It is empty where neither has one.
pub fn first_fault_note(
    alloc: Global,
    first: &ReadText,
    second: &ReadText,
    screen: Screen,
) -> Result<String, OutOfMemory> {
    if first.read().is_err() {
        fault_note(alloc, first, screen)
    } else {
        fault_note(alloc, second, screen)
    }
}
