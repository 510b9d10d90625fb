//! The words of a line.

ghost use Rattle.std.specs.Prelude.{◌≡◌, ◌≤◌, ◌<◌, length, take, drop, IfOk};
ghost use Rattle.std.specs.List.{prefix_len};
ghost use Rattle.std.specs.Str.{IsAscii};
ghost use Rattle.rules_words.specs.Words as spec;
ghost use Rattle.rules_words.specs.Cutting as inside;

use common_types::OutOfMemory;
use std::alloc::Global;
use std::str;

/// The most bytes that a line may have.
const LINE_LIMIT: usize = 8_192;

/// A word of a line.
#[derive(Drop)]
pub struct Word<'a> {
    /// The position of its first byte in the line, counted from 0.
    pub at: usize,
    /// The quote around it, if there is one.
    pub quote: Option<u8>,
    /// Its text, without the quotes.
    pub text: &'a str,
}

/// A line that has words.
#[derive(Drop)]
pub struct CutLine<'a> {
    pub text: &'a str,
    pub words: Vec<Word<'a>>,
}

/// Why a line has no words. Positions count from 0.
#[derive(Clone, Copy, Debug, PartialEq, Eq, Drop)]
pub enum BadWord {
    /// The quote at this position is not closed.
    OpenQuote(usize),
    /// A word goes on at this position, with a quote or behind one.
    StrayQuote(usize),
    /// The byte at this position is neither a tab nor from 32 to 126.
    BadByte(usize),
    /// The line has more than 8,192 bytes.
    TooLong,
}

/// What the rest of a line begins with.
#[derive(Drop)]
pub(crate) enum FirstWord<'a> {
    /// Nothing but blanks.
    End,
    /// A word, and what is behind it.
    Word(Word<'a>, &'a str),
    /// No word.
    Bad(BadWord),
}

fn is_blank(byte: u8) -> bool
    ensures { result ≡ spec.is_blank byte }
{
    byte == b' ' || byte == b'\t'
}

fn is_quote(byte: u8) -> bool
    ensures { result ≡ spec.is_quote byte }
{
    byte == b'"' || byte == b'\''
}

fn is_plain(byte: u8) -> bool
    ensures { result ≡ spec.is_plain byte }
{
    (32 <= byte && byte <= 126) || byte == b'\t'
}

/// How many spaces and tabs a text begins with.
pub fn blanks_len(bytes: &[u8]) -> usize
    ensures { result ≡ prefix_len spec.is_blank bytes.now }
{
    bytes.iter().take_while(|b| is_blank(**b)).count()
}

fn bare_len(bytes: &[u8]) -> usize
    ensures { result ≡ prefix_len spec.is_bare bytes.now }
{
    bytes
        .iter()
        .take_while(|b| !(is_blank(**b) || is_quote(**b)))
        .count()
}

fn quoted_len(quote: u8, bytes: &[u8]) -> usize
    ensures { result ≡ prefix_len (spec.is_inside quote) bytes.now }
{
    bytes.iter().take_while(|b| **b != quote).count()
}

fn plain_len(bytes: &[u8]) -> usize
    ensures { result ≡ prefix_len spec.is_plain bytes.now }
{
    bytes.iter().take_while(|b| is_plain(**b)).count()
}

/// Cuts an ASCII text behind this many bytes.
fn cut(text: &str, len: usize) -> (&str, &str)
    requires within { len ≤ length text.now }
    requires ascii { IsAscii text.now }
    ensures front { result.0.now ≡ take len text.now }
    ensures back { result.1.now ≡ drop len text.now }
{
    text.split_at(len)
}

/// Whether a word may end before these bytes.
fn ends(rest: &[u8]) -> bool
    ensures { result ≡ spec.ends rest.now }
{
    rest.is_empty() || is_blank(rest[0])
}

/// A word and what is behind it, where the word may end there, or else that it goes on.
fn ended<'a>(size: usize, word: Word<'a>, behind: &'a str) -> FirstWord<'a>
    requires { length behind.now ≤ size }
    ensures { inside.IsEnded size word.entry behind.now result }
{
    if ends(behind.as_bytes()) {
        FirstWord::Word(word, behind)
    } else {
        FirstWord::Bad(BadWord::StrayQuote(size - behind.len()))
    }
}

/// The word without quotes that a text begins with.
fn bare_word<'a>(size: usize, text: &'a str) -> FirstWord<'a>
    requires ascii { IsAscii text.now }
    requires within { length text.now ≤ size }
    requires bare { 0 < prefix_len spec.is_bare text.now }
    ensures { inside.IsFirst size text.now result }
{
    let (word, behind) = cut(text, bare_len(text.as_bytes()));
    let word = Word {
        at: size - text.len(),
        quote: None,
        text: word,
    };
    ended(size, word, behind)
}

/// The word in quotes that a text begins with.
fn quoted_word<'a>(size: usize, quote: u8, text: &'a str) -> FirstWord<'a>
    requires ascii { IsAscii text.now }
    requires within { length text.now ≤ size }
    requires quote { inside.IsQuoted quote text.now }
    ensures { inside.IsFirst size text.now result }
{
    let at = size - text.len();
    let (_, inner) = cut(text, 1);
    let len = quoted_len(quote, inner.as_bytes());
    if len == inner.len() {
        return FirstWord::Bad(BadWord::OpenQuote(at));
    }
    let (word, closed) = cut(inner, len);
    let (_, behind) = cut(closed, 1);
    let word = Word {
        at,
        quote: Some(quote),
        text: word,
    };
    ended(size, word, behind)
}

/// What the last bytes of a line of this size begin with.
fn first_word<'a>(size: usize, text: &'a str) -> FirstWord<'a>
    requires ascii { IsAscii text.now }
    requires within { length text.now ≤ size }
    ensures { inside.IsFirst size text.now result }
{
    let (_, start) = cut(text, blanks_len(text.as_bytes()));
    if start.is_empty() {
        return FirstWord::End;
    }
    let first = start.as_bytes()[0];
    if is_quote(first) {
        quoted_word(size, first, start)
    } else {
        bare_word(size, start)
    }
}

/// The words of an ASCII text, or why it has none.
fn all_words<'a>(
    alloc: Global,
    text: &'a str,
) -> Result<Result<Vec<Word<'a>>, BadWord>, OutOfMemory>
    requires { IsAscii text.now }
    ensures { IfOk result (inside.AreWords text.now) }
{
    let mut words = Vec::new(alloc);
    let mut rest = text;
    while rest.len() > 0 {
        match first_word(text.len(), rest) {
            FirstWord::End => return Ok(Ok(words)),
            FirstWord::Bad(bad) => return Ok(Err(bad)),
            FirstWord::Word(word, behind) => {
                words.push(word)?;
                rest = behind;
            }
        }
    }
    Ok(Ok(words))
}

/// The words of a line, or its first fault.
///
/// Spaces and tabs separate words. A word either has no quotes, or is between two quotes of one kind, `'` or `"`.
pub fn words_of<'a>(
    alloc: Global,
    line: &'a [u8],
) -> Result<Result<CutLine<'a>, BadWord>, OutOfMemory>
    ensures { IfOk result (inside.IsRead line.now) }
{
    if line.len() > LINE_LIMIT {
        return Ok(Err(BadWord::TooLong));
    }
    let plain = plain_len(line);
    if plain < line.len() {
        return Ok(Err(BadWord::BadByte(plain)));
    }
    match str::from_utf8(line) {
        Err(_) => Ok(Err(BadWord::BadByte(plain))),
        Ok(text) => match all_words(alloc, text)? {
            Ok(words) => Ok(Ok(CutLine { text, words })),
            Err(bad) => Ok(Err(bad)),
        },
    }
}
