//! Options that several commands have, as values.

use crate::bad_words::BadWords;
use clap::ArgMatches;
use common_types::OutOfMemory;
use compare_core::Registry;
use gate_files::Choice;
use std::alloc::Global;
use verdict_text::{Format, Reader, Rules};

/// The value of an option, empty if it is not given.
pub fn value_of<'a>(matches: &ArgMatches<'a>, name: &str) -> &'a str {
    matches.get_str(name).unwrap_or("")
}

/// A number in decimal digits alone.
pub fn number_of(text: &str) -> Option<u64> {
    if !text.as_bytes().iter().all(|byte| byte.is_ascii_digit()) {
        return None;
    }
    text.parse::<u64>().ok()
}

/// The format of `--format`, text if it is not given.
pub fn format_of(matches: &ArgMatches<'_>) -> Format {
    match matches.get_str("format") {
        Some("json") => Format::Json,
        _ => Format::Text,
    }
}

/// Which methods requests call.
#[derive(Clone, Copy, Debug, PartialEq, Eq)]
pub enum Methods {
    /// Those of every class registry.
    Every,
    /// Those of this project's registry.
    Own,
    /// Those of Ceph's class table.
    Known,
}

/// The methods of `--registry`, those of every class registry if it is not given.
pub fn methods_of(matches: &ArgMatches<'_>) -> Result<Methods, BadWords> {
    match matches.get_str("registry") {
        Some("known") if rules_of(matches) == Rules::Project => Err(BadWords::KnownByProject),
        Some("known") => Ok(Methods::Known),
        Some("own") => Ok(Methods::Own),
        _ => Ok(Methods::Every),
    }
}

/// The line on which methods an answer is over, and whether it is another one over the others, by Ceph's rules.
pub fn methods_line(methods: Methods, differs: bool) -> &'static str {
    match (methods, differs) {
        (Methods::Known, true) => {
            "osdgate: over the methods of Ceph 16.2.15 alone; over every class registry the answer differs\n"
        }
        (Methods::Known, false) => {
            "osdgate: over the methods of Ceph 16.2.15 alone; over every class registry the answer is the same\n"
        }
        (Methods::Every, true) => {
            "osdgate: over every class registry; over the methods of Ceph 16.2.15 alone the answer differs, give --registry known\n"
        }
        (Methods::Every | Methods::Own, _) => "",
    }
}

/// The class registry of `--registry`, every one if it is not given.
pub fn registry_of(matches: &ArgMatches<'_>) -> Registry {
    match matches.get_str("registry") {
        Some("own") => Registry::Own,
        _ => Registry::Every,
    }
}

/// The rules of `--rules`. If it is not given, they are Ceph's for files of entities, which come from Ceph, and this project's
/// for texts.
pub fn rules_of(matches: &ArgMatches<'_>) -> Rules {
    match matches.get_str("rules") {
        Some("ceph") => Rules::Ceph,
        Some(_) => Rules::Project,
        None if matches.get_strs("auth").is_some() => Rules::Ceph,
        None => Rules::Project,
    }
}

/// The reader of a run, by the rules of `--rules`. A run makes one.
pub fn reader_of(alloc: Global, matches: &ArgMatches<'_>) -> Result<Reader, OutOfMemory> {
    Reader::of(alloc, rules_of(matches))
}

/// The values of an option that may be repeated.
fn values_of<'m>(matches: &'m ArgMatches<'_>, option: &str) -> &'m [&'m str] {
    matches.get_strs(option).unwrap_or(&[])
}

/// The entities that `--only`, `--without` and `--known` choose.
pub fn choice_of<'m>(matches: &'m ArgMatches<'_>) -> Choice<'m> {
    Choice {
        only: values_of(matches, "only"),
        without: values_of(matches, "without"),
        known: values_of(matches, "known"),
    }
}

/// When grants end, and when a request comes.
#[derive(Clone, Copy)]
pub struct Times {
    /// The first tick at which the grants no longer hold, if there is one.
    pub until: Option<u64>,
    pub tick: u64,
}

/// The times of `--until` and `--tick`, or nothing where one is no number.
pub fn times_of(matches: &ArgMatches<'_>) -> Option<Times> {
    let until = match matches.get_str("until") {
        None => None,
        Some(text) => Some(number_of(text)?),
    };
    let tick = match matches.get_str("tick") {
        None => 0,
        Some(text) => number_of(text)?,
    };
    Some(Times { until, tick })
}
