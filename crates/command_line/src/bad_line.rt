//! Describes what is wrong with a line of a script that is not a command. The proofs about scripts state only that
//! the line is not a command. The descriptions here come from a table of the commands, and are tested.

use command_arguments::nearest;
use common_types::OutOfMemory;
use std::alloc::Global;
use std::fmt::Write;

/// How each command is written: words in small letters are its own.
const FORMS: &[&str; 28] = &[
    "osds N",
    "osd pool create POOL PG SIZE MIN",
    "osd pool application enable POOL APP",
    "osd pool application set POOL APP KEY VALUE",
    "osd pool application rm POOL APP KEY",
    "osd up N",
    "osd down N",
    "osd restart N",
    "osd map POOL NAMESPACE OBJECT",
    "auth add NAME [TYPE TEXT]..",
    "auth caps NAME [TYPE TEXT]..",
    "auth get-or-create NAME [TYPE TEXT]..",
    "auth del NAME",
    "auth get NAME",
    "auth ls",
    "open NAME [until T]",
    "renew S [until T]",
    "close S",
    "tick T",
    "do S POOL NAMESPACE OBJECT OP [+ OP]..",
    "ls S POOL NAMESPACE",
    "deliver POOL GROUP K",
    "lose POOL GROUP K",
    "repeat POOL GROUP K",
    "settle",
    "lose-all",
    "kick",
    "ready POOL GROUP",
];

/// The forms of the commands whose first operand has a point inside.
const ANSWERS: &[&str; 2] = &["answer S.Q", "listing S.Q"];

/// How each operation is written.
const OPERATIONS: &[&str; 13] = &[
    "read OFFSET LENGTH",
    "stat",
    "write OFFSET DATA",
    "writefull DATA",
    "append DATA",
    "truncate SIZE",
    "remove",
    "create",
    "create-exclusive",
    "getxattr NAME",
    "setxattr NAME VALUE",
    "rmxattr NAME",
    "call CLASS METHOD INPUT",
];

/// The longest line, in bytes.
const MAX_LENGTH: usize = 8192;

/// What is wrong with a line, and at which column, counted from 1.
#[derive(Drop)]
pub(crate) struct Slip {
    pub(crate) column: usize,
    pub(crate) text: String,
}

/// A word of a line, and where it begins, counted from 0.
type Word<'a> = (usize, &'a str);

/// The words of a line, a quoted one with its quotes.
fn words_of<'a>(alloc: Global, line: &'a str) -> Result<Vec<Word<'a>>, OutOfMemory> {
    let mut words = Vec::new(alloc);
    let mut begin: Option<usize> = None;
    let mut quote: Option<char> = None;
    for (at, letter) in line.char_indices() {
        match (begin, quote) {
            (None, _) if letter != ' ' => {
                begin = Some(at);
                quote = Some(letter).filter(|it| *it == '\'' || *it == '"');
            }
            (Some(_), Some(open)) if letter == open => quote = None,
            (Some(first), None) if letter == ' ' => {
                words.push((first, line.get(first..at).unwrap_or("")))?;
                begin = None;
            }
            _ => {}
        }
    }
    if let Some(first) = begin {
        words.push((first, line.get(first..).unwrap_or("")))?;
    }
    Ok(words)
}

/// The word of a form at an index, where it is one of the command's own.
fn own_word(form: &'static str, index: usize) -> Option<&'static str> {
    form.split(' ').nth(index).filter(|word| word.starts_with(
        |letter: char| letter.is_ascii_lowercase(),
    ))
}

/// Whether the words of a line begin as the own words of a form, up to this index.
fn begins_so(form: &'static str, words: &[Word<'_>], count: usize) -> bool {
    words
        .iter()
        .take(count)
        .enumerate()
        .all(|(index, word)| own_word(form, index) == Some(word.1))
}

/// The own words at this index of the forms that begin as a line does.
fn known_words(
    alloc: Global,
    words: &[Word<'_>],
    index: usize,
) -> Result<Vec<&'static str>, OutOfMemory> {
    let mut known = Vec::new(alloc);
    for form in FORMS.iter().chain(ANSWERS.iter()) {
        if begins_so(form, words, index) {
            if let Some(word) = own_word(form, index) {
                known.push(word)?;
            }
        }
    }
    Ok(known)
}

/// Reports that a word is not one of the known ones, and which of these was meant.
fn unknown(
    alloc: Global,
    what: &str,
    word: Word<'_>,
    known: &[&'static str],
) -> Result<Slip, OutOfMemory> {
    let shown = word.1;
    let mut text = format!(in alloc; "no {what} '{shown}'")?;
    if let Some(meant) = nearest(shown, known) {
        write!(text, "; did you mean '{meant}'?")?;
    }
    Ok(Slip {
        column: word.0.saturating_add(1),
        text,
    })
}

/// The form whose own words a line begins with, the longest of them.
fn form_of(words: &[Word<'_>]) -> Option<&'static str> {
    let mut found = None;
    for form in FORMS.iter().chain(ANSWERS.iter()) {
        let own = form
            .split(' ')
            .take_while(|word| word.starts_with(|letter: char| letter.is_ascii_lowercase()))
            .count();
        if own <= words.len() && begins_so(form, words, own) {
            found = Some(*form);
        }
    }
    found
}

/// The first word of `do` where an operation must be and none is.
fn bad_operation(alloc: Global, words: &[Word<'_>]) -> Result<Option<Slip>, OutOfMemory> {
    let mut known = Vec::new(alloc);
    for form in OPERATIONS {
        known.push(form.split(' ').next().unwrap_or(""))?;
    }
    let mut must_be = true;
    for word in words.iter().skip(5) {
        if must_be && !known.contains(&word.1) {
            return Ok(Some(unknown(alloc, "operation", *word, known.as_slice())?));
        }
        must_be = word.1 == "+";
    }
    Ok(None)
}

/// What is wrong with the words of a line that begins with a command's own words.
fn bad_operands(
    alloc: Global,
    form: &'static str,
    words: &[Word<'_>],
) -> Result<Slip, OutOfMemory> {
    if form.starts_with("do ") {
        if let Some(slip) = bad_operation(alloc, words)? {
            return Ok(slip);
        }
    }
    Ok(Slip {
        column: words.first().map_or(1, |word| word.0.saturating_add(1)),
        text: format!(in alloc; "the command is written '{form}'")?,
    })
}

/// What is wrong with the words of a line that is no command.
fn bad_words(alloc: Global, words: &[Word<'_>]) -> Result<Slip, OutOfMemory> {
    if let Some(form) = form_of(words) {
        return bad_operands(alloc, form, words);
    }
    for (index, word) in words.iter().enumerate() {
        let known = known_words(alloc, words, index)?;
        if !known.as_slice().contains(&word.1) {
            return unknown(alloc, "command", *word, known.as_slice());
        }
    }
    let text = String::from_str(
        alloc,
        "the command goes on: docs/reference/SCRIPTS.md has its words",
    )?;
    Ok(Slip { column: 1, text })
}

/// The column of the first byte that no line may have.
fn bad_byte(line: &[u8]) -> Option<usize> {
    line.iter().position(|byte| !(32..=126).contains(byte))
}

/// What is wrong with a line that is no command.
pub(crate) fn slip_of(alloc: Global, line: &[u8]) -> Result<Slip, OutOfMemory> {
    if line.len() > MAX_LENGTH {
        let text = String::from_str(alloc, "a line has at most 8192 bytes")?;
        return Ok(Slip {
            column: MAX_LENGTH,
            text,
        });
    }
    if let Some(at) = bad_byte(line) {
        let text = String::from_str(alloc, "a line has bytes 32 to 126 alone")?;
        return Ok(Slip {
            column: at.saturating_add(1),
            text,
        });
    }
    match str::from_utf8(line) {
        Ok(text) => bad_words(alloc, words_of(alloc, text)?.as_slice()),
        Err(_) => Ok(Slip {
            column: 1,
            text: String::from_str(alloc, "a line has bytes 32 to 126 alone")?,
        }),
    }
}
