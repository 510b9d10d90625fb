//! The calls of a request: methods of the class registry, or by Ceph's rules of its class table.

use crate::bad_words::{BadWords, NoRequest};
use crate::options::rules_of;
use crate::tag_words::{StatedWords, call_by, call_of, names_of, stated_words};
use clap::ArgMatches;
use class_table::{MethodFlags, RELEASE, default_list, find, is_listed};
use command_arguments::is_option;
use common_types::OutOfMemory;
use object_core::Op;
use std::alloc::Global;
use verdict_core::ClassCall;
use verdict_text::{Rules, push_name};

/// Where methods are looked up, and which classes are listed.
#[derive(Clone, Copy)]
pub struct CallRules<'a> {
    rules: Rules,
    /// The names of `--listed`, with commas between them, if it is given.
    listed: Option<&'a str>,
}

impl<'a> CallRules<'a> {
    /// Those of `--rules` and `--listed`.
    pub fn of(matches: &ArgMatches<'a>) -> Result<CallRules<'a>, BadWords> {
        let rules = rules_of(matches);
        let listed = matches.get_str("listed");
        if listed.is_some() && rules == Rules::Project {
            return Err(BadWords::ListedByProject);
        }
        Ok(CallRules { rules, listed })
    }

    /// Whether flags cover calls of a class.
    fn lists(&self, class: &str) -> bool {
        match self.listed {
            None => is_listed(class.as_bytes(), default_list()),
            Some(names) => names.split(',').any(|name| name.trim() == class),
        }
    }
}

/// What a method does, in words.
fn does(flags: MethodFlags) -> &'static str {
    match (flags.reads, flags.writes) {
        (true, true) => "reads and writes",
        (true, false) => "reads",
        (false, true) => "writes",
        (false, false) => "neither reads nor writes",
    }
}

/// Whether a word begins as the names of entities do.
fn is_entity(word: &str) -> bool {
    ["client.", "osd.", "mon.", "mgr.", "mds."]
        .iter()
        .any(|front| word.starts_with(front))
}

/// That Ceph's class table lacks a method, and how to state a call of it.
fn lacked(alloc: Global, word: &str) -> Result<NoRequest, OutOfMemory> {
    let mut line = String::new(alloc);
    if is_option(word) {
        line = format!(in alloc; "{word} is no call; the option is --{word}")?;
        return Ok(NoRequest::Told(line));
    }
    push_name(&mut line, word)?;
    if is_entity(word) {
        line.push_str(" is no call; an entity stands behind the = of an option, as in --known=")?;
        push_name(&mut line, word)?;
        return Ok(NoRequest::Told(line));
    }
    line.push_str(" is not in the class table of Ceph ")?;
    line.push_str(RELEASE)?;
    line.push_str("; a call of it says what it does: --call CLASS.METHOD:r, :w or :rw")?;
    Ok(NoRequest::Told(line))
}

/// That a method does something else than a call of it states.
fn stated_wrong(
    alloc: Global,
    words: StatedWords<'_>,
    flags: MethodFlags,
) -> Result<NoRequest, OutOfMemory> {
    let mut line = String::new(alloc);
    push_name(&mut line, words.class)?;
    line.push_str(".")?;
    push_name(&mut line, words.method)?;
    line.push_str(" ")?;
    line.push_str(does(flags))?;
    line.push_str(" in Ceph ")?;
    line.push_str(RELEASE)?;
    line.push_str("; its name alone is enough")?;
    Ok(NoRequest::Told(line))
}

/// A call of Ceph's class table by its name.
fn table_call(alloc: Global, rules: CallRules<'_>, word: &str) -> Result<ClassCall, NoRequest> {
    let Some((class, method)) = names_of(word) else {
        return Err(lacked(alloc, word)?);
    };
    let Some(flags) = find(class.as_bytes(), method.as_bytes()) else {
        return Err(lacked(alloc, word)?);
    };
    let words = StatedWords {
        class,
        method,
        reads: flags.reads,
        writes: flags.writes,
        listed: rules.lists(class),
    };
    Ok(call_by(alloc, words)?)
}

/// A call that says what its method does, by Ceph's rules: what the table has of the method is so.
fn ceph_stated(
    alloc: Global,
    rules: CallRules<'_>,
    words: StatedWords<'_>,
) -> Result<ClassCall, NoRequest> {
    if let Some(flags) = find(words.class.as_bytes(), words.method.as_bytes()) {
        if flags.reads != words.reads || flags.writes != words.writes {
            return Err(stated_wrong(alloc, words, flags)?);
        }
    }
    let listed = words.listed || rules.lists(words.class);
    Ok(call_by(alloc, StatedWords { listed, ..words })?)
}

/// The call of a text of `--call`.
fn stated_call(alloc: Global, rules: CallRules<'_>, text: &str) -> Result<ClassCall, NoRequest> {
    let words = stated_words(text).ok_or(NoRequest::Words(BadWords::Call))?;
    match rules.rules {
        Rules::Project => Ok(call_by(alloc, words)?),
        Rules::Ceph => ceph_stated(alloc, rules, words),
    }
}

/// The calls that say themselves what their methods do, and by Ceph's rules also those of its class table.
pub(crate) fn stated_calls(
    alloc: Global,
    rules: CallRules<'_>,
    matches: &ArgMatches<'_>,
) -> Result<Vec<ClassCall>, NoRequest> {
    let mut calls = Vec::new(alloc);
    if rules.rules == Rules::Ceph {
        for word in matches.get_strs("calls").unwrap_or(&[]) {
            calls.push(table_call(alloc, rules, word)?)?;
        }
    }
    for text in matches.get_strs("call").unwrap_or(&[]) {
        calls.push(stated_call(alloc, rules, text)?)?;
    }
    Ok(calls)
}

/// The calls of the class registry, as they are given. By Ceph's rules the list is empty.
pub(crate) fn registry_words<'a>(
    alloc: Global,
    rules: CallRules<'_>,
    matches: &ArgMatches<'a>,
) -> Result<Vec<&'a str>, OutOfMemory> {
    let mut words = Vec::new(alloc);
    if rules.rules == Rules::Project {
        for word in matches.get_strs("calls").unwrap_or(&[]) {
            words.push(*word)?;
        }
    }
    Ok(words)
}

/// The calls of these words.
pub(crate) fn registry_calls(alloc: Global, words: &[&str]) -> Result<Vec<Op>, OutOfMemory> {
    let mut calls = Vec::new(alloc);
    for word in words {
        calls.push(call_of(alloc, word)?)?;
    }
    Ok(calls)
}
