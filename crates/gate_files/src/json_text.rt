//! JSON texts, read token by token. No tree is made of a text: what is not needed is passed over.

use crate::file_fault::{FileFault, Place};
use common_types::OutOfMemory;
use json::{MAX_DEPTH, Reader, Scratch, Token, is_valid};
use std::alloc::Global;

/// The line and the column of a byte of a text, or of its last byte where it is not so long.
fn place_of(text: &str, offset: usize) -> Place {
    let last = text.len().saturating_sub(1);
    let front = text.as_bytes().get(..offset.min(last)).unwrap_or(&[]);
    let mut place = Place { line: 1, column: 1 };
    for byte in front {
        if *byte == b'\n' {
            place.line = place.line.saturating_add(1);
            place.column = 1;
        } else {
            place.column = place.column.saturating_add(1);
        }
    }
    place
}

/// Where a text that is no JSON value stops to be one: at its first bad token, or at what follows its value.
fn stops_at(text: &str, scratch: &mut Scratch) -> Result<usize, OutOfMemory> {
    let mut reader = Reader::new(text, scratch)?;
    let _ = reader.skip_value(MAX_DEPTH);
    Ok(reader.offset())
}

/// Refuses a text that is no JSON value.
pub(crate) fn refuse_other_text(text: &str, scratch: &mut Scratch) -> Result<(), FileFault> {
    if is_valid(text, scratch)? {
        return Ok(());
    }
    let offset = stops_at(text, scratch)?;
    Err(FileFault::NotJson(place_of(text, offset)))
}

/// The line of a byte of a text, from 1.
pub(crate) fn line_of(text: &str, offset: usize) -> usize {
    place_of(text, offset).line
}

/// Passes over the value that comes next.
pub(crate) fn skip(reader: &mut Reader<'_>) {
    let _ = reader.skip_value(MAX_DEPTH);
}

/// Passes over the rest of a value that begins with this token.
pub(crate) fn skip_rest(reader: &mut Reader<'_>, token: Token<'_>, most: usize) {
    let mut open = match token {
        Token::BeginObject | Token::BeginArray => 1usize,
        _ => 0,
    };
    for _ in 0..most {
        if open == 0 {
            return;
        }
        match reader.next() {
            Some(Token::BeginObject | Token::BeginArray) => open = open.saturating_add(1),
            Some(Token::EndObject | Token::EndArray) => open = open.saturating_sub(1),
            Some(_) => {}
            None => return,
        }
    }
}

/// The key that comes next of an object, or nothing at its end.
pub(crate) fn next_key<'t>(reader: &mut Reader<'t>) -> Option<&'t str> {
    match reader.next_key() {
        Ok(key) => key,
        Err(_) => None,
    }
}

/// The text that the value that comes next is, or nothing where it is another value, which is passed over.
pub(crate) fn next_text<'t>(reader: &mut Reader<'t>, most: usize) -> Option<&'t str> {
    match reader.next() {
        Some(Token::String(text)) => Some(text),
        Some(token) => {
            skip_rest(reader, token, most);
            None
        }
        None => None,
    }
}

/// Room for what is read of texts.
pub(crate) fn scratch_for(alloc: Global) -> Scratch {
    Scratch::new(alloc)
}
