//! Reports the lines of a script that are not commands at their place.

use crate::bad_line::slip_of;
use common_types::OutOfMemory;
use gate_files::{Screen, pointed_line};
use script_text::{Line, Lines};
use std::alloc::Global;
use std::fmt::Write;
use verdict_text::push_name;
use world_script::{Command, read_line};

const OSDS_FIRST: &str =
    "osdgate: a script's first command is `osds N`, which says how many daemons there are\n";

/// A script that is looked at.
#[derive(Clone, Copy)]
pub(crate) struct Looked<'a> {
    /// Its file, `-` for standard input.
    pub(crate) path: &'a str,
    pub(crate) script: &'a [u8],
    pub(crate) screen: Screen,
}

/// Adds a file's name as it is shown.
pub(crate) fn push_path(text: &mut String, path: &str) -> Result<(), OutOfMemory> {
    if path == "-" {
        return text.push_str("standard input");
    }
    push_name(text, path)
}

/// Adds the line and the column of something, what it is, and the line with a caret.
fn push_slip(
    told: &mut String,
    alloc: Global,
    looked: Looked<'_>,
    line: &Line<'_>,
    column: usize,
    what: &str,
) -> Result<(), OutOfMemory> {
    let number = line.number;
    told.push_str("osdgate: ")?;
    push_path(told, looked.path)?;
    write!(told, ":{number}:{column}: {what}\n")?;
    let at = column.saturating_sub(1);
    let shown = pointed_line(alloc, line.text, at, looked.screen)?;
    told.push_str(shown.as_str())
}

/// Adds the report on a line that is not blank, and returns whether the line is wrong. `has_begun`: the script began
/// before this line.
fn push_wrong(
    told: &mut String,
    alloc: Global,
    looked: Looked<'_>,
    line: &Line<'_>,
    has_begun: bool,
) -> Result<bool, OutOfMemory> {
    let command = read_line(alloc, line.text)?;
    let is_first = matches!(command, Some(Command::Osds(_)));
    if command.is_some() && is_first != has_begun {
        return Ok(false);
    }
    if command.is_none() {
        let slip = slip_of(alloc, line.text)?;
        push_slip(told, alloc, looked, line, slip.column, slip.text.as_str())?;
    } else if has_begun {
        push_slip(told, alloc, looked, line, 1, "the command osds comes once")?;
    }
    if !has_begun && !line.text.starts_with(b"osds ") {
        told.push_str(OSDS_FIRST)?;
    }
    Ok(true)
}

/// The report on the lines that are not commands at their place: on the line with this number, or on each line if no
/// number is given.
pub(crate) fn wrong_lines(
    alloc: Global,
    looked: Looked<'_>,
    number: Option<usize>,
) -> Result<String, OutOfMemory> {
    let mut told = String::new(alloc);
    let mut lines = Lines::new(looked.script);
    let mut has_begun = false;
    for _ in 0..=looked.script.len() {
        let Some(line) = lines.next_line() else {
            break;
        };
        if line.is_blank() {
            continue;
        }
        if number.is_none_or(|wanted| wanted == line.number) {
            push_wrong(&mut told, alloc, looked, &line, has_begun)?;
        }
        has_begun = true;
    }
    Ok(told)
}
