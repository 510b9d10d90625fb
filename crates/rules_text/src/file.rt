//! Files of rules.

ghost use Rattle.std.specs.Prelude.{◌≡◌, IfOk, OnOk};
ghost use Rattle.rules_text.specs.File as spec;
ghost use Rattle.rules_text.specs.Contents as inside;

use crate::content::{Content, SaidLine, read_line};
use crate::fault::{BadRule, LineFault, RuleFault};
use common_types::{Name, OutOfMemory};
use rules_core::Rule;
use rules_words::{Group, blanks_len};
use script_text::{Line, Lines};
use std::alloc::Global;
use verdict_text::{ReadEntity, Reader};

/// The most lines, blank lines and notes too.
const MAX_LINES: usize = 65_536;

/// The most rules.
const MAX_RULES: usize = 4_096;

/// A rule of a file.
#[derive(Debug)]
pub struct RuleLine {
    /// Its line, counted from 1.
    pub line: usize,
    /// The line as it is written.
    pub text: Name,
    pub rule: Rule,
}

impl Drop for RuleLine {
    fn drop(self) {
        let RuleLine {
            line: _,
            text: _,
            rule: _,
        } = self;
    }
}

/// The groups and the rules of the lines so far.
#[derive(Drop)]
pub(crate) struct Contents {
    groups: Vec<Group>,
    rules: Vec<RuleLine>,
}

/// Whether a line is blank, or a comment: the first byte behind its blanks is `#`.
fn is_note(line: &[u8]) -> bool
    ensures { result ≡ spec.is_note line.now }
{
    let (_, start) = line.split_at(blanks_len(line));
    match start {
        [] => true,
        [byte, ..] => *byte == b'#',
    }
}

/// Why a line is not read, whatever it says.
fn limit(number: usize, rules: &[RuleLine]) -> Option<RuleFault>
    ensures { result ≡ spec.limit number rules.now }
{
    if number > MAX_LINES {
        Some(RuleFault::TooManyLines)
    } else if rules.len() >= MAX_RULES {
        Some(RuleFault::TooManyRules)
    } else {
        None
    }
}

fn bad_rule(number: usize, why: LineFault) -> BadRule
    ensures { result ≡ spec.bad_rule number why }
{
    BadRule {
        line: number,
        at: why.at,
        fault: why.fault,
    }
}

/// Adds what a line says.
fn add(contents: &mut Contents, number: usize, said: SaidLine) -> Result<(), OutOfMemory>
    ensures { OnOk result (inside.Adds number said contents.old contents.new) }
{
    let SaidLine { text, content } = said;
    match content {
        Content::AGroup(group) => Ok(contents.groups.push(group)?),
        Content::ARule(rule) => Ok(
            contents.rules.push(RuleLine {
                line: number,
                text,
                rule,
            })?,
        ),
    }
}

/// Reads a line behind others, and adds what it says; or its fault, which leaves the contents unchanged.
fn read_next(
    alloc: Global,
    reader: &Reader,
    entities: &[ReadEntity],
    contents: &mut Contents,
    line: &Line<'_>,
) -> Result<Option<BadRule>, OutOfMemory>
    ensures { IfOk result (inside.IsNext reader.now entities.now line.now contents.old contents.new) }
{
    let number = line.number;
    if is_note(line.text) {
        return Ok(None);
    }
    if let Some(fault) = limit(number, contents.rules.as_slice()) {
        return Ok(Some(bad_rule(number, LineFault { at: 0, fault })));
    }
    match read_line(
        alloc,
        reader,
        entities,
        contents.groups.as_slice(),
        line.text,
    )? {
        Err(why) => Ok(Some(bad_rule(number, why))),
        Ok(said) => {
            add(contents, number, said)?;
            Ok(None)
        }
    }
}

/// Reads a file of rules: its rules in order, or its first fault.
///
/// A line is blank, a note that begins with `#`, or one of `group NAME MEMBER..`, `never WHO 'TEXT'`, `always WHO 'TEXT'` and
/// `apart A B`. WHO is `NAME.. except NAME..`, or without `except` and what is behind it. A NAME is that of an entity, that of a
/// group above, which means the group's members, or ends in `*`, which means each entity whose name begins with what is before
/// that. TEXT, in single or double quotes, is read by the reader's rules. No group has the name of one of the entities.
///
/// Lines end as those of scripts do. The only error is out of memory.
pub fn read_rules(
    alloc: Global,
    reader: &Reader,
    entities: &[ReadEntity],
    text: &str,
) -> Result<Result<Vec<RuleLine>, BadRule>, OutOfMemory>
    ensures { IfOk result (inside.IsRead reader.now entities.now text.now) }
{
    let mut contents = Contents {
        groups: Vec::new(alloc),
        rules: Vec::new(alloc),
    };
    let mut lines = Lines::new(text.as_bytes());
    while let Some(line) = lines.next_line() {
        let fault = read_next(alloc, reader, entities, &mut contents, &line)?;
        if let Some(bad) = fault {
            return Ok(Err(bad));
        }
    }
    let Contents { groups: _, rules } = contents;
    Ok(Ok(rules))
}
