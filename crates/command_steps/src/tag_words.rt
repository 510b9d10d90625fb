//! Tags and calls as arguments.

use common_types::{AppTags, Name, OutOfMemory, Pairs};
use object_core::{Bytes, Op};
use std::alloc::Global;
use verdict_core::ClassCall;

/// The pairs of a tag that has one.
fn one_pair(alloc: Global, key: &str, value: &str) -> Result<Pairs, OutOfMemory> {
    let mut pairs = Vec::new(alloc);
    pairs.push((Name::new(alloc, key)?, Name::new(alloc, value)?))?;
    Ok(Pairs::from_vec(pairs))
}

fn app_tags(alloc: Global, application: &str, pairs: Pairs) -> Result<AppTags, OutOfMemory> {
    Ok(AppTags {
        application: Name::new(alloc, application)?,
        pairs,
    })
}

/// A text without a quote in front, and that quote, `"` or `'`.
fn behind_quote(text: &str) -> Option<(&str, char)> {
    if let Some(behind) = text.strip_prefix('"') {
        return Some((behind, '"'));
    }
    text.strip_prefix('\'').map(|behind| (behind, '\''))
}

/// The name in front of a separator, and what is behind that, if it is there. A name may be between quotes, and then has
/// the separator itself; behind the second one the separator or nothing follows.
fn name_before(text: &str, separator: char) -> Option<(&str, Option<&str>)> {
    let Some((quoted, quote)) = behind_quote(text) else {
        return Some(match text.split_once(separator) {
            Some((name, behind)) => (name, Some(behind)),
            None => (text, None),
        });
    };
    let (name, behind) = quoted.split_once(quote)?;
    if behind.is_empty() {
        return Some((name, None));
    }
    Some((name, Some(behind.strip_prefix(separator)?)))
}

/// A value, which may be between quotes.
fn value_in(text: &str) -> &str {
    match behind_quote(text) {
        Some((behind, quote)) => behind.strip_suffix(quote).unwrap_or(text),
        None => text,
    }
}

/// An application tag: an application, or `APPLICATION:KEY=VALUE`, each of them bare or between quotes. A text with a
/// `:` and no `=` behind it is invalid, and gives `None`.
pub(crate) fn tag_of(alloc: Global, text: &str) -> Result<Option<AppTags>, OutOfMemory> {
    let Some((application, pair)) = name_before(text, ':') else {
        return Ok(None);
    };
    let Some(pair) = pair else {
        let none = Pairs::from_vec(Vec::new(alloc));
        return Ok(Some(app_tags(alloc, application, none)?));
    };
    match name_before(pair, '=') {
        Some((key, Some(value))) => {
            let pairs = one_pair(alloc, key, value_in(value))?;
            Ok(Some(app_tags(alloc, application, pairs)?))
        }
        _ => Ok(None),
    }
}

/// A call without input: a word is cut at its first `.`, and one without it is a class with an empty method.
pub fn call_of(alloc: Global, word: &str) -> Result<Op, OutOfMemory> {
    let (class, method) = word.split_once('.').unwrap_or((word, ""));
    Ok(Op::Call {
        class: Name::new(alloc, class)?,
        method: Name::new(alloc, method)?,
        input: Bytes::from_vec(Vec::new(alloc)),
    })
}

/// What a stated call's method does: whether it reads, and whether it writes.
fn kind_of(text: &str) -> Option<(bool, bool)> {
    match text {
        "r" => Some((true, false)),
        "w" => Some((false, true)),
        "rw" => Some((true, true)),
        _ => None,
    }
}

/// A class and a method, neither of them empty. A class may stand between quotes; else it ends at the first `.`.
pub(crate) fn names_of(text: &str) -> Option<(&str, &str)> {
    let (class, method) = if let Some(behind) = text.strip_prefix('"') {
        behind.split_once("\".")?
    } else if let Some(behind) = text.strip_prefix('\'') {
        behind.split_once("'.")?
    } else {
        text.split_once('.')?
    };
    if class.is_empty() || method.is_empty() {
        return None;
    }
    Some((class, method))
}

/// What `--call` says: `CLASS.METHOD`, what the method does, and whether the class is on the default list.
#[derive(Clone, Copy)]
pub(crate) struct StatedWords<'a> {
    pub(crate) class: &'a str,
    pub(crate) method: &'a str,
    pub(crate) reads: bool,
    pub(crate) writes: bool,
    pub(crate) listed: bool,
}

/// What a text says as `--call` takes it, or nothing where it does not.
pub(crate) fn stated_words(text: &str) -> Option<StatedWords<'_>> {
    let (front, listed) = match text.strip_suffix(":listed") {
        Some(front) => (front, true),
        None => (text, false),
    };
    let (names, kind) = front.rsplit_once(':')?;
    let (reads, writes) = kind_of(kind)?;
    let (class, method) = names_of(names)?;
    Some(StatedWords {
        class,
        method,
        reads,
        writes,
        listed,
    })
}

pub(crate) fn call_by(alloc: Global, words: StatedWords<'_>) -> Result<ClassCall, OutOfMemory> {
    Ok(ClassCall {
        class: Name::new(alloc, words.class)?,
        method: Name::new(alloc, words.method)?,
        class_reads: words.reads,
        class_writes: words.writes,
        listed: words.listed,
    })
}
