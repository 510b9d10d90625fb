//! What clap says of words that it does not take.

use clap::Error;
use common_types::OutOfMemory;
use std::alloc::Global;

/// How a tip begins that makes of an option a value, which here would be a call.
const VALUE_TIP: &str = "  tip: to pass '";

/// Adds a text, a `?` for each control character of it, so that words from outside cannot move the cursor.
fn push_shown(kept: &mut String, text: &str) -> Result<(), OutOfMemory> {
    for letter in text.chars() {
        let moves = letter < ' ' || ('\u{7f}'..='\u{9f}').contains(&letter);
        kept.push(if moves { '?' } else { letter })?;
    }
    Ok(())
}

/// What clap says, without tips that make of an option a value, and without control characters of the words that it repeats.
pub fn complaint(alloc: Global, error: &Error) -> Result<String, OutOfMemory> {
    let said = format!(in alloc; "{error}")?;
    let mut kept = String::new(alloc);
    let mut left_out = false;
    for line in said.as_str().lines() {
        if line.starts_with(VALUE_TIP) {
            left_out = true;
        } else if left_out && line.is_empty() {
            left_out = false;
        } else {
            left_out = false;
            push_shown(&mut kept, line)?;
            kept.push_str("\n")?;
        }
    }
    Ok(kept)
}

/// What clap says first, on one line, without control characters of the words that it repeats.
pub fn first_words(alloc: Global, error: &Error) -> Result<String, OutOfMemory> {
    let said = format!(in alloc; "{error}")?;
    let mut words = String::new(alloc);
    for line in said.as_str().lines() {
        if line.is_empty() {
            break;
        }
        if !words.is_empty() {
            words.push_str(" ")?;
        }
        push_shown(
            &mut words,
            line.strip_prefix("error: ").unwrap_or(line.trim()),
        )?;
    }
    Ok(words)
}
