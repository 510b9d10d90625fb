//! What to write in place of a capability text that is refused, in words: the advice of docs/guide/FAULTS.md.

use crate::near::nearest;
use cap_text::{CapFault, FaultKind};
use common_types::OutOfMemory;
use std::alloc::Global;
use std::fmt::Write;

/// Words that begin a clause.
const CLAUSES: &[&str; 5] = &["pool", "namespace", "object_prefix", "tag", "class"];

/// Words for a clause that other programs have, and the clause.
const SYNONYMS: &[(&str, &str); 4] = &[
    ("ns", "namespace"),
    ("nspace", "namespace"),
    ("prefix", "object_prefix"),
    ("objprefix", "object_prefix"),
];

/// Words that begin a grant.
const GRANTS: &[&str; 2] = &["allow", "profile"];

/// The accesses that are words.
const ACCESSES: &[&str; 4] = &["class", "class-read", "class-write", "all"];

const AN_ACCESS: &str =
    "an access is `*`, letters such as `rw`, `class NAME`, `class-read` or `class-write`";

const CLAUSE_ORDER: &str =
    "each clause comes once, in the order pool, namespace, object_prefix, or namespace, tag";

const A_CLAUSE: &str =
    "a grant goes on with pool=, namespace=, object_prefix or tag, and ends with a comma";

/// Whether a byte is part of a word.
fn is_of_word(letter: char) -> bool {
    letter.is_ascii_alphanumeric() || matches!(letter, '_' | '-')
}

/// The word that a text begins with, empty where it begins with another byte.
fn first_word(text: &str) -> &str {
    text.split_once(|letter: char| !is_of_word(letter))
        .map_or(text, |parts| parts.0)
}

/// The last part of a text that has no blank, comma or semicolon.
fn last_part(text: &str) -> &str {
    text.rsplit_once([' ', ',', ';', '\t'])
        .map_or(text, |parts| parts.1)
}

/// Whether a grant begins behind this.
fn begins_grant(front: &str) -> bool {
    let front = front.trim_end();
    front.is_empty() || front.ends_with(',') || front.ends_with(';')
}

/// The clause that a word was meant to be.
fn clause_meant(word: &str) -> Option<&'static str> {
    match SYNONYMS.iter().find(|row| row.0 == word) {
        Some(row) => Some(row.1),
        None => nearest(word, CLAUSES),
    }
}

/// A line that asks whether a word was meant.
fn push_meant(line: &mut String, meant: &str) -> Result<(), OutOfMemory> {
    write!(line, "did you mean `{meant}`?")
}

/// Adds the advice on a word that begins no grant.
fn push_no_grant(line: &mut String, word: &str) -> Result<(), OutOfMemory> {
    match nearest(word, GRANTS) {
        Some(meant) => push_meant(line, meant),
        None if word == "deny" => {
            line.push_str("there is no `deny`: what no grant allows is denied")
        }
        None => line.push_str("a grant begins with `allow` or `profile`"),
    }
}

/// Adds the advice on a word after a grant's parts.
fn push_no_clause(line: &mut String, front: &str, behind: &str) -> Result<(), OutOfMemory> {
    let part = last_part(front);
    let word = first_word(behind);
    let is_star = behind.starts_with('*') || front.ends_with('*');
    if is_star && part.starts_with("pool=") {
        return line.push_str("the name of a pool takes no `*`; leave `pool=` out for every pool");
    }
    if is_star && part.starts_with("namespace=") {
        return line.push_str("a namespace takes a `*` as its last letter alone");
    }
    if GRANTS.iter().any(|grant| *grant == word) {
        return line.push_str("write a comma between grants");
    }
    match clause_meant(word) {
        Some("object_prefix") => line.push_str("did you mean `object_prefix NAME`?"),
        Some("tag") => line.push_str("did you mean `tag APPLICATION KEY=VALUE`?"),
        Some("class") => line.push_str("`allow class NAME` is an access, and a grant has one"),
        Some(meant) => write!(line, "did you mean `{meant}=`?"),
        None => line.push_str(A_CLAUSE),
    }
}

/// The letters `r`, `w` and `x` of a word in their order, or nothing where it has others or is too long.
fn ordered_letters(word: &str) -> Option<&'static str> {
    let has = |wanted: char| word
        .chars()
        .any(|letter| letter.eq_ignore_ascii_case(&wanted));
    if word.len() > 6 || !word.chars().all(|letter| "rwxRWX".contains(letter)) {
        return None;
    }
    match (has('r'), has('w'), has('x')) {
        (true, true, true) => Some("rwx"),
        (true, true, false) => Some("rw"),
        (true, false, true) => Some("rx"),
        (false, true, true) => Some("wx"),
        (true, false, false) => Some("r"),
        (false, true, false) => Some("w"),
        (false, false, true) => Some("x"),
        (false, false, false) => None,
    }
}

/// Adds the advice on a word that is no access.
fn push_no_access(line: &mut String, word: &str) -> Result<(), OutOfMemory> {
    if let Some(letters) = ordered_letters(word) {
        line.push_str("letters come in the order r, w, x, each once: ")?;
        return push_meant(line, letters);
    }
    match word {
        "read" => return push_meant(line, "r"),
        "write" => return push_meant(line, "w"),
        "any" => return push_meant(line, "*"),
        _ => {}
    }
    if let Some("pool" | "namespace" | "tag") = clause_meant(word) {
        return line.push_str(
            "did you mean `pool=NAME`, `namespace=NAME` or `tag`? The access follows it",
        );
    }
    match nearest(word, ACCESSES) {
        Some(meant) => push_meant(line, meant),
        None => line.push_str(AN_ACCESS),
    }
}

/// Adds the advice on a clause that is not allowed.
fn push_no_match(line: &mut String, word: &str) -> Result<(), OutOfMemory> {
    line.push_str(if CLAUSES.iter().any(|clause| *clause == word) {
        CLAUSE_ORDER
    } else {
        "a tag is written `tag APPLICATION KEY=VALUE`, or `tag APPLICATION KEY=*`"
    })
}

/// Adds the advice for where a name is missing.
fn push_no_name(line: &mut String, front: &str, behind: &str) -> Result<(), OutOfMemory> {
    if let Some(value) = behind.strip_prefix('=') {
        if last_part(front) == "object_prefix" {
            let value = first_word(value);
            return write!(line, "write `object_prefix {value}`, without `=`");
        }
    }
    line.push_str(match behind.chars().next() {
        Some('"' | '\'') => "a quote is not closed, or nothing is between its quotes",
        Some(letter) if !(' '..='~').contains(&letter) => {
            "a name has bytes 32 to 126 alone, and one with blanks is between quotes"
        }
        Some(_) =>
            "a name is missing, or a byte may not come here; put a name with other bytes than letters, digits, `_`, `-`, `.` between quotes",
        None => "a name is missing at the end",
    })
}

fn push_advice(
    line: &mut String,
    kind: FaultKind,
    front: &str,
    behind: &str,
) -> Result<(), OutOfMemory> {
    let word = first_word(behind);
    match kind {
        FaultKind::TooLong => line.push_str("write fewer or shorter grants, or use a profile"),
        FaultKind::TooManyGrants => line.push_str(
            "put what belongs together into one grant: `namespace=a*` is many namespaces, and `object_prefix a` many objects",
        ),
        FaultKind::UnknownWord if begins_grant(front) => push_no_grant(line, word),
        FaultKind::UnknownWord => push_no_clause(line, front, behind),
        FaultKind::BadAccess => push_no_access(line, word),
        FaultKind::BadMatch => push_no_match(line, word),
        FaultKind::BadWord => push_no_name(line, front, behind),
        FaultKind::NetworkClause => line.push_str(
            "sessions have no address here; leave the clause out, if the grant may hold for every address",
        ),
        FaultKind::OutOfMemory => line.push_str("memory is out"),
    }
}

/// The line that says what to write in place of a text with this fault.
pub fn advice_line(alloc: Global, caps: &str, fault: CapFault) -> Result<String, OutOfMemory> {
    let (front, behind) = match (caps.get(..fault.at), caps.get(fault.at..)) {
        (Some(front), Some(behind)) => (front, behind),
        _ => (caps, ""),
    };
    let mut line = String::from_str(alloc, "osdgate: ")?;
    push_advice(&mut line, fault.kind, front, behind)?;
    line.push_str("\n")?;
    Ok(line)
}
