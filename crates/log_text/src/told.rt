//! What a line of a log tells of requests.

use crate::front::{Fronted, behind_group};
use crate::object::ObjectWords;

/// What a line tells of requests.
#[derive(Clone, Copy)]
pub(crate) enum Told<'a> {
    Nothing,
    /// Something, but a part of it is missing.
    Cut,
    /// A session of an entity begins.
    Session { session: &'a str, entity: &'a str },
    /// An operation on an object is taken up.
    Operation(ObjectWords<'a>),
    /// An operation of a session is decided, as the text says.
    Decision { session: &'a str, text: &'a str },
}

/// What is behind the words of a session's beginning.
fn begun(rest: &str) -> Option<&str> {
    let (_epoch, rest) = rest.split_once(' ')?;
    let rest = rest.strip_prefix("ms_handle_fast_authentication ")?;
    match rest.strip_prefix("new session ") {
        Some(rest) => Some(rest),
        None => rest.strip_prefix("existing session "),
    }
}

/// The session and the entity of a text such as `0x1 con 0x2 entity client.a addr ..`.
fn session_words(text: &str) -> Option<(&str, &str)> {
    let (session, rest) = text.split_once(" con ")?;
    let (_connection, rest) = rest.split_once(" entity ")?;
    let (entity, _address) = rest.split_once(" addr")?;
    Some((session, entity))
}

fn session_told(rest: &str) -> Told<'_> {
    let Some(text) = begun(rest) else {
        return Told::Nothing;
    };
    match session_words(text) {
        Some((session, entity)) => Told::Session { session, entity },
        None => Told::Cut,
    }
}

/// The object of a text such as `client.5.0:1 8.0 8:43af72f6:tenant-b::other:head [stat] ..`.
fn operation_words(text: &str) -> Option<ObjectWords<'_>> {
    let (_request, rest) = text.split_once(' ')?;
    let (_group, rest) = rest.split_once(' ')?;
    ObjectWords::of_operation(rest)
}

fn operation_told(text: &str) -> Told<'_> {
    match operation_words(text) {
        Some(object) => Told::Operation(object),
        None => Told::Cut,
    }
}

fn is_whole(text: &str) -> bool {
    text.ends_with("] -> yes") || text.ends_with("] -> NO")
}

fn decision_told(text: &str) -> Told<'_> {
    match text.split_once(' ') {
        Some((session, text)) if is_whole(text) => Told::Decision { session, text },
        _ => Told::Cut,
    }
}

/// What a placement group logged.
fn group_told(text: &str) -> Told<'_> {
    if let Some(text) = text.strip_prefix("do_op: op osd_op(") {
        return operation_told(text);
    }
    if let Some(text) = text.strip_prefix("op_has_sufficient_caps session=") {
        return decision_told(text);
    }
    Told::Nothing
}

/// What a line of an OSD tells.
pub(crate) fn told_by(front: Fronted<'_>) -> Told<'_> {
    match behind_group(front.rest) {
        Some(text) => group_told(text),
        None => session_told(front.rest),
    }
}

/// Whether a line that has no front of an OSD's has a decision: its front is cut off.
pub(crate) fn lacks_front(line: &str) -> bool {
    line.split_once("op_has_sufficient_caps session=").is_some()
}
