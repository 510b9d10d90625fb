//! Colours of what is printed, which are put on last.

use clap::ArgMatches;
use common_types::OutOfMemory;
use gate_files::Screen;
use std::alloc::Global;

/// What begins a denial or a fault, in red.
const RED: &str = "\x1b[31m";

/// What begins a caret, in bold.
const BOLD: &str = "\x1b[1m";

/// What ends a colour.
const PLAIN: &str = "\x1b[0m";

/// Which streams are coloured.
#[derive(Clone, Copy)]
pub struct Colours {
    /// Standard output.
    pub out: bool,
    /// Standard error.
    pub err: bool,
}

/// The colours of `--color`: if it is not given or is `auto`, the streams that the screen colours.
pub fn colours_of(matches: &ArgMatches<'_>, screen: Screen) -> Colours {
    match matches.get_str("color") {
        Some("always") => Colours {
            out: true,
            err: true,
        },
        Some("never") => Colours {
            out: false,
            err: false,
        },
        _ => Colours {
            out: screen.colours_out,
            err: screen.colours_err,
        },
    }
}

/// Whether this is the word of a denial or of a fault.
fn is_bad_word(word: &str) -> bool {
    matches!(word, "deny" | "refused")
}

/// Whether a line is of a denial or a fault: its first word says so, or the one behind an entity's name.
fn is_bad_line(line: &str) -> bool {
    let mut words = line.split(' ');
    let first = words.next().unwrap_or("");
    is_bad_word(first) || is_bad_word(words.next().unwrap_or(""))
}

/// Adds a line, between a colour and its end.
fn push_coloured(text: &mut String, colour: &str, line: &str) -> Result<(), OutOfMemory> {
    text.push_str(colour)?;
    text.push_str(line)?;
    text.push_str(PLAIN)
}

/// Adds a line of an answer, in red if it is of a denial or a fault.
fn push_answer_line(text: &mut String, line: &str) -> Result<(), OutOfMemory> {
    if is_bad_line(line) {
        push_coloured(text, RED, line)
    } else {
        text.push_str(line)
    }
}

/// Adds a line for standard error, where it is a caret in bold.
fn push_note_line(text: &mut String, line: &str) -> Result<(), OutOfMemory> {
    match line.strip_suffix('^') {
        Some(blanks) if blanks.trim_start().is_empty() => {
            text.push_str(blanks)?;
            push_coloured(text, BOLD, "^")
        }
        _ => text.push_str(line),
    }
}

/// The lines of an answer with its denials and faults in red. Each line of the text ends with a line feed.
pub(crate) fn coloured_answer(alloc: Global, text: &str) -> Result<String, OutOfMemory> {
    let mut coloured = String::new(alloc);
    for line in text.lines() {
        push_answer_line(&mut coloured, line)?;
        coloured.push_str("\n")?;
    }
    Ok(coloured)
}

/// The lines for standard error with their carets in bold. Each line of the text ends with a line feed.
pub(crate) fn coloured_notes(alloc: Global, text: &str) -> Result<String, OutOfMemory> {
    let mut coloured = String::new(alloc);
    for line in text.lines() {
        push_note_line(&mut coloured, line)?;
        coloured.push_str("\n")?;
    }
    Ok(coloured)
}
