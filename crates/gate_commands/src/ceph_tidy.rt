//! A capability text without its redundant grants, by Ceph's rules.

use command_steps::{Methods, known_calls, known_widening, rights_part};
use common_types::OutOfMemory;
use compare_core::Registry;
use compare_text::widening_from;
use rights_core::Rights;
use std::alloc::Global;
use verdict_core::ClassCall;
use verdict_text::Printed;

/// Where a character of a text that Ceph reads stands.
#[derive(Clone, Copy)]
enum Place {
    /// Outside of quotes.
    Open,
    /// Behind this quote.
    Quoted(char),
}

impl Place {
    /// The place behind a character.
    fn behind(self, character: char) -> Place {
        match self {
            Place::Open if character == '"' || character == '\'' => Place::Quoted(character),
            Place::Quoted(quote) if character == quote => Place::Open,
            place => place,
        }
    }

    /// Whether a character here separates two grants.
    fn is_separator(self, character: char) -> bool {
        matches!(self, Place::Open) && (character == ',' || character == ';')
    }
}

/// Adds a grant without the blanks around it.
fn push_piece(pieces: &mut Vec<String>, alloc: Global, piece: &str) -> Result<(), OutOfMemory> {
    let piece = String::from_str(alloc, piece.trim())?;
    pieces.push(piece)?;
    Ok(())
}

/// The grants of a text that Ceph reads, as they stand in it. Ceph takes no separator and no quote into a bare word.
fn pieces_of(alloc: Global, text: &str) -> Result<Vec<String>, OutOfMemory> {
    let mut pieces = Vec::new(alloc);
    let mut piece = String::new(alloc);
    let mut place = Place::Open;
    for character in text.chars() {
        if place.is_separator(character) {
            push_piece(&mut pieces, alloc, piece.as_str())?;
            piece.clear();
        } else {
            piece.push(character)?;
        }
        place = place.behind(character);
    }
    push_piece(&mut pieces, alloc, piece.as_str())?;
    Ok(pieces)
}

/// What grants must allow to stay a text's grants.
#[derive(Clone, Copy)]
struct Whole<'a> {
    rights: &'a Rights,
    methods: Methods,
    /// The methods that count, where they are not those of every class registry.
    calls: &'a [ClassCall],
}

impl Whole<'_> {
    /// Whether rights allow all of it.
    fn is_within(&self, alloc: Global, rights: &Rights) -> Result<bool, OutOfMemory> {
        let gained = if self.methods == Methods::Known {
            known_widening(alloc, self.calls, rights, self.rights)?
        } else {
            widening_from(alloc, Registry::Every, rights, self.rights)?
        };
        Ok(gained.is_empty())
    }
}

/// The numbers of the grants that go where each, from the last one to the first, goes if the others allow the whole. One grant stays
/// in any case: Ceph refuses a text without grants.
fn redundant(alloc: Global, count: usize, whole: Whole<'_>) -> Result<Vec<usize>, OutOfMemory> {
    // No grant has the number 0.
    let mut kept = rights_part(alloc, whole.rights, 0, false)?;
    let mut gone = Vec::new(alloc);
    for place in (0..count).rev() {
        let others = rights_part(alloc, &kept, place + 1, false)?;
        if gone.len() < count - 1 && whole.is_within(alloc, &others)? {
            gone.push(place + 1)?;
            kept = others;
        }
    }
    Ok(gone)
}

/// The text of the grants of a text whose numbers are not among these.
fn text_without(alloc: Global, text: &str, gone: &[usize]) -> Result<String, OutOfMemory> {
    let pieces = pieces_of(alloc, text)?;
    let mut kept = String::new(alloc);
    for (place, piece) in pieces.iter().enumerate() {
        if !gone.contains(&(place + 1)) {
            kept.push_str(if kept.is_empty() { "" } else { ", " })?;
            kept.push_str(piece.as_str())?;
        }
    }
    Ok(kept)
}

/// What is printed of a text that Ceph reads as these rights: its grants as they stand in it, without those that are redundant. With a
/// check it fails where a grant went.
pub(crate) fn tidy_ceph(
    alloc: Global,
    text: &str,
    rights: &Rights,
    count: usize,
    methods: Methods,
    check: bool,
) -> Result<Printed, OutOfMemory> {
    let calls = known_calls(alloc)?;
    let whole = Whole {
        rights,
        methods,
        calls: calls.as_slice(),
    };
    let gone = redundant(alloc, count, whole)?;
    let mut text = text_without(alloc, text, gone.as_slice())?;
    text.push_str("\n")?;
    Ok(Printed {
        text,
        fails: check && !gone.is_empty(),
    })
}
