//! By whose rules an answer holds, and whether Ceph's differ.

use crate::answered::Answered;
use crate::options::{format_of, rules_of};
use clap::ArgMatches;
use common_types::OutOfMemory;
use compare_core::Registry;
use compare_text::widening_from;
use rights_core::Rights;
use std::alloc::Global;
use verdict_text::{Format, ReadText, Rules, read_ceph_rights, with_rules};

/// The line on an answer by Ceph's rules.
const BY_CEPH: &str = "osdgate: by the rules of Ceph 16.2.15\n";

/// The line on an answer of a file by this project's rules.
const BY_PROJECT: &str = "osdgate: by this project's rules, which are not Ceph's\n";

/// The line on an answer of texts by this project's rules where Ceph's differ.
const DIFFERS: &str =
    "osdgate: by this project's rules; Ceph reads the text otherwise, give --rules ceph\n";

/// Whether rights allow the same, over every class registry and at every address.
fn allow_same(alloc: Global, first: &Rights, second: &Rights) -> Result<bool, OutOfMemory> {
    let gained = widening_from(alloc, Registry::Every, first, second)?;
    let lost = widening_from(alloc, Registry::Every, second, first)?;
    Ok(gained.is_empty() && lost.is_empty())
}

/// Whether Ceph's rules grant by a text what it grants as it was read. A text that is refused grants nothing.
fn is_read_alike(alloc: Global, text: &ReadText) -> Result<bool, OutOfMemory> {
    match (text.read(), &read_ceph_rights(alloc, text.text())?) {
        (Ok(rights), Ok(by_ceph)) => allow_same(alloc, rights, &by_ceph.rights),
        (Ok(rights), Err(_)) => Ok(rights.is_empty()),
        (Err(_), Ok(by_ceph)) => Ok(by_ceph.rights.is_empty()),
        (Err(_), Err(_)) => Ok(true),
    }
}

/// Whether Ceph's rules grant something else by one of these texts, which were read by this project's.
fn texts_differ(alloc: Global, texts: &[ReadText]) -> Result<bool, OutOfMemory> {
    for text in texts {
        if !is_read_alike(alloc, text)? {
            return Ok(true);
        }
    }
    Ok(false)
}

/// The line on the rules of an answer of a file.
pub fn rules_note(rules: Rules) -> &'static str {
    match rules {
        Rules::Ceph => BY_CEPH,
        Rules::Project => BY_PROJECT,
    }
}

/// The line on the rules of an answer. An answer on texts by this project's rules has none where Ceph's are the same.
fn rules_line(
    alloc: Global,
    matches: &ArgMatches<'_>,
    texts: &[ReadText],
) -> Result<&'static str, OutOfMemory> {
    let rules = rules_of(matches);
    if rules == Rules::Ceph || matches.get_strs("auth").is_some() {
        return Ok(rules_note(rules));
    }
    Ok(if texts_differ(alloc, texts)? {
        DIFFERS
    } else {
        ""
    })
}

/// The answer with its rules: a line on standard error, and the member `rules` of a JSON document.
pub fn with_rules_of(
    alloc: Global,
    matches: &ArgMatches<'_>,
    answered: Answered,
) -> Result<Answered, OutOfMemory> {
    let mut answered = answered;
    let line = rules_line(alloc, matches, answered.texts())?;
    answered.note.push_str(line)?;
    if format_of(matches) == Format::Json {
        let text = with_rules(alloc, answered.printed.text.as_str(), rules_of(matches))?;
        answered.printed.text = text;
    }
    Ok(answered)
}
