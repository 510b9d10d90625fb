//! The front of a line of a log, and what a line is about.

use std::iter::Iterator;

/// A line of an OSD's log, in its parts.
#[derive(Clone, Copy)]
pub(crate) struct Fronted<'a> {
    pub(crate) time: &'a str,
    pub(crate) thread: &'a str,
    /// The daemon, such as `osd.3`.
    pub(crate) daemon: &'a str,
    /// What is behind the daemon.
    pub(crate) rest: &'a str,
}

/// Whether a word is a time as a log writes it, such as `2026-11-30T04:23:05.533+0000`.
fn is_time(word: &str) -> bool {
    match word.as_bytes() {
        [_, _, _, _, b'-', _, _, b'-', _, _, b'T', ..] => word.len() == 28,
        _ => false,
    }
}

/// The parts of a line that an OSD logged, or `None` for any other line.
pub(crate) fn front_of(line: &str) -> Option<Fronted<'_>> {
    let (time, rest) = line.split_once(' ')?;
    if !is_time(time) {
        return None;
    }
    let (thread, rest) = rest.split_once(' ')?;
    let (_level, rest) = rest.trim_start().split_once(' ')?;
    let (daemon, rest) = rest.split_once(' ')?;
    if !daemon.starts_with("osd.") {
        return None;
    }
    Some(Fronted {
        time,
        thread,
        daemon,
        rest,
    })
}

/// The depth of brackets behind a byte. An interval of a log has an opening bracket of one kind and a closing one of the
/// other, so both kinds count as one.
fn depth_behind(depth: usize, byte: u8) -> usize {
    match byte {
        b'[' | b'(' => depth.saturating_add(1),
        b']' | b')' => depth.saturating_sub(1),
        _ => depth,
    }
}

/// The index of the bracket that closes the first one of a text.
fn closing(text: &str) -> Option<usize> {
    let mut depth = 0;
    for (index, byte) in text.as_bytes().iter().enumerate() {
        let behind = depth_behind(depth, *byte);
        if depth == 1 && behind == 0 {
            return Some(index);
        }
        depth = behind;
    }
    None
}

/// What is behind the state of a placement group, as in `pg_epoch: 21 pg[1.1( .. ) .. active+clean] REST`. No name that a
/// client chooses is part of the state, so a request cannot imitate what is behind it.
pub(crate) fn behind_group(rest: &str) -> Option<&str> {
    let (_epoch, rest) = rest.strip_prefix("pg_epoch: ")?.split_once(' ')?;
    let rest = rest.strip_prefix("pg")?;
    let end = closing(rest)?;
    rest.get(end..)?.strip_prefix("] ")
}
