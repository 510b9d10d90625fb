//! The file of rules, read into values, or what is wrong with it.

use command_steps::NoAnswer;
use common_types::OutOfMemory;
use gate_files::{FileFault, InputFiles, Screen, pointed_line, read_text, without_mark};
use rules_text::{BadRule, RuleLine, read_rules};
use std::alloc::Global;
use std::fmt::Write;
use std::io::Read;
use verdict_text::{ReadEntity, Reader, push_name};

/// The words for a file in front of what is wrong with it.
fn file_words(alloc: Global, path: &str) -> Result<String, OutOfMemory> {
    if path == "-" {
        return String::from_str(alloc, "standard input");
    }
    let mut words = String::from_str(alloc, "the rules file ")?;
    push_name(&mut words, path)?;
    Ok(words)
}

/// That a file is not what it is read for.
fn bad_file(alloc: Global, path: &str, fault: &FileFault) -> Result<NoAnswer, OutOfMemory> {
    if let FileFault::OutOfMemory = fault {
        return Ok(NoAnswer::OutOfMemory);
    }
    let mut line = file_words(alloc, path)?;
    write!(line, " {fault}")?;
    Ok(NoAnswer::Told(line))
}

/// The line of this number, counted from 1.
fn line_at(text: &str, number: usize) -> &str {
    text.lines().nth(number.saturating_sub(1)).unwrap_or("")
}

/// The first fault of a file: its line, the fault, what was expected, and the line with a caret under the byte.
fn bad_rule(
    alloc: Global,
    path: &str,
    text: &str,
    bad: &BadRule,
    screen: Screen,
) -> Result<NoAnswer, OutOfMemory> {
    let mut told = file_words(alloc, path)?;
    let number = bad.line;
    let fault = &bad.fault;
    write!(
        told,
        " line {number}: {fault}: expected {}\n",
        bad.fault.expected()
    )?;
    let line = line_at(text, number);
    let pointed = pointed_line(alloc, line.as_bytes(), bad.at, screen)?;
    told.push_str(
        pointed
            .as_str()
            .strip_suffix("\n")
            .unwrap_or(pointed.as_str()),
    )?;
    Ok(NoAnswer::Told(told))
}

/// The rules of a text. It has one at least.
fn rules_of_text(
    alloc: Global,
    path: &str,
    text: &str,
    entities: &[ReadEntity],
    by: &Reader,
    screen: Screen,
) -> Result<Vec<RuleLine>, NoAnswer> {
    match read_rules(alloc, by, entities, text)? {
        Err(bad) => Err(bad_rule(alloc, path, text, &bad, screen)?),
        Ok(rules) => {
            if rules.is_empty() {
                Err(bad_file(alloc, path, &FileFault::Empty)?)
            } else {
                Ok(rules)
            }
        }
    }
}

/// The rules of a file, or of standard input if the path is `-`.
pub(crate) fn rules_in<F: InputFiles, R: Read>(
    alloc: Global,
    files: &F,
    reader: &mut R,
    path: &str,
    entities: &[ReadEntity],
    by: &Reader,
) -> Result<Vec<RuleLine>, NoAnswer> {
    match read_text(alloc, files, reader, path) {
        Err(fault) => Err(bad_file(alloc, path, &fault)?),
        Ok(text) => {
            let text = without_mark(text.as_str());
            rules_of_text(alloc, path, text, entities, by, files.screen())
        }
    }
}
