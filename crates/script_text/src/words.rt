//! The words of a line.

ghost use Rattle.std.specs.Prelude.{◌≡◌, ◌+◌, ◌<◌, ◌≤◌, ◌==◌, ◌∷◌, [], length, take, drop, option_map, option_copied, is_some, MatchOption};
ghost use Rattle.std.specs.List.{prefix_len, list_all};
ghost use Rattle.std.specs.Str.{IsAscii};
ghost use Rattle.script_text.specs.Words as spec;
ghost use Rattle.script_text.specs.Words.{words_of, words_from, is_quote, Bare, Quoted, Behind, Between, one_of, two_of, three_of, four_of, whole_of};
ghost use Rattle.script_text.specs.Inside.{is_space, is_bare, is_inside, ends_word, words_by, GoesOn, IsShorter};

use std::marker::Model;
use std::str;

/// The most bytes that a line may have.
const MAX_LINE_BYTES: usize = 8_192;

/// What a text begins with: no word where one must stand, nothing, or a word and what is behind it.
#[derive(Drop)]
pub(crate) enum FirstWord<'a> {
    Bad,
    End,
    Word(&'a str, &'a str),
}

fn is_printable(byte: u8) -> bool
    ensures { result ≡ spec.is_printable byte }
{
    32 <= byte && byte <= 126
}

fn are_printable(bytes: &[u8]) -> bool
    ensures { result ≡ list_all spec.is_printable bytes.now }
{
    bytes.iter().all(|byte| is_printable(*byte))
}

fn is_quote(byte: u8) -> bool
    ensures { result ≡ is_quote byte }
{
    byte == b'"' || byte == b'\''
}

fn spaces_len(bytes: &[u8]) -> usize
    ensures { result ≡ prefix_len is_space bytes.now }
{
    bytes.iter().take_while(|b| **b == b' ').count()
}

fn bare_len(bytes: &[u8]) -> usize
    ensures { result ≡ prefix_len is_bare bytes.now }
{
    bytes
        .iter()
        .take_while(|b| !(**b == b' ' || is_quote(**b)))
        .count()
}

fn quoted_len(quote: u8, bytes: &[u8]) -> usize
    ensures { result ≡ prefix_len (is_inside quote) bytes.now }
{
    bytes.iter().take_while(|b| **b != quote).count()
}

/// Cuts an ASCII text behind this many bytes.
fn cut(text: &str, len: usize) -> (&str, &str)
    requires within { len ≤ length text.now }
    requires ascii { IsAscii text.now }
    ensures front { result.0.now ≡ take len text.now }
    ensures back { result.1.now ≡ drop len text.now }
{
    text.split_at(len)
}

/// Whether a word may end before these bytes: none, or a space first.
fn ends_word(rest: &[u8]) -> bool
    ensures { result ≡ ends_word rest.now }
{
    rest.is_empty() || rest[0] == b' '
}

/// A word and what is behind it, where the word may end there.
fn ended<'a>(word: &'a str, rest: &'a str) -> FirstWord<'a>
    ensures words { words_by result ≡ option_map (λ ws. word.now ∷ ws) (words_from Behind rest.now) }
    ensures rest { GoesOn rest.now result }
{
    if ends_word(rest.as_bytes()) {
        FirstWord::Word(word, rest)
    } else {
        FirstWord::Bad
    }
}

/// The bare word that a text begins with.
fn bare_word(text: &str) -> FirstWord<'_>
    requires { IsAscii text.now }
    ensures words { words_by result ≡ words_from Bare text.now }
    ensures rest { GoesOn (drop (prefix_len is_bare text.now) text.now) result }
{
    let (word, rest) = cut(text, bare_len(text.as_bytes()));
    ended(word, rest)
}

/// The word that ends at the first quote of this kind.
fn quoted_word(quote: u8, text: &str) -> FirstWord<'_>
    requires { IsAscii text.now }
    ensures words { words_by result ≡ words_from (Quoted quote) text.now }
    ensures rest { GoesOn (drop (prefix_len (is_inside quote) text.now + 1) text.now) result }
{
    let len = quoted_len(quote, text.as_bytes());
    if len == text.len() {
        return FirstWord::Bad;
    }
    let (word, behind) = cut(text, len);
    ended(word, cut(behind, 1).1)
}

/// The word that a text begins with, behind spaces.
fn first_word(text: &str) -> FirstWord<'_>
    requires { IsAscii text.now }
    ensures words { words_by result ≡ words_from Between text.now }
    ensures rest { IsShorter text.now result }
{
    let (_, start) = cut(text, spaces_len(text.as_bytes()));
    if start.is_empty() {
        return FirstWord::End;
    }
    let first = start.as_bytes()[0];
    if is_quote(first) {
        quoted_word(first, cut(start, 1).1)
    } else {
        bare_word(start)
    }
}

/// Whether a text can be cut into words.
fn are_words(text: &str) -> bool
    requires { IsAscii text.now }
    ensures { result ≡ is_some (words_from Between text.now) }
{
    let mut rest = text;
    while rest.len() > 0 {
        match first_word(rest) {
            FirstWord::Bad => return false,
            FirstWord::End => return true,
            FirstWord::Word(_, behind) => rest = behind,
        }
    }
    true
}

/// The words of a line that are left, which borrow it. Contracts see them as the list of their bytes.
///
/// Words are parted by spaces. A word is bare, of bytes 33 to 126 other than quotes, or it stands whole between
/// two quotes of one kind, `'` or `"`. Nothing tells a quoted word from the bare one of the same bytes.
#[derive(Drop)]
pub struct Words<'a> {
    rest: &'a str,
}

impl<'a> Model for Words<'a> {
    ghost use Rattle.std.specs.Prelude.{◌≡◌, List, ℕ, true, is_some};
    ghost use Rattle.std.specs.Str.{IsAscii};
    ghost use Rattle.script_text.specs.Words.{words_from, Between};
    ghost use Rattle.script_text.specs.Left.{words_left};

    ghost Value = { List (List ℕ) };

    ghost view = { λ w. words_left w.rest.now };

    ghost invariant = { λ w. IsAscii w.rest.now × (is_some (words_from Between w.rest.now) ≡ true) };
}

impl<'a> Words<'a> {
    /// The words of a line, or nothing where the line is bad.
    ///
    /// A line is bad that has more than 8,192 bytes, a byte outside 32 to 126, a quote that is not closed, or a quote
    /// at or inside another word. Nothing is copied.
    pub fn of(line: &'a [u8]) -> Option<Words<'a>>
        ensures { result ≡ words_of line.now }
    {
        if line.len() > MAX_LINE_BYTES || !are_printable(line) {
            return None;
        }
        match str::from_utf8(line) {
            Err(_) => None,
            Ok(text) => {
                if are_words(text) {
                    Some(Words { rest: text })
                } else {
                    None
                }
            }
        }
    }

    /// Whether no word is left.
    pub fn is_empty(&self) -> bool
        ensures { result ≡ (length self.now == 0) }
    {
        match first_word(self.rest) {
            FirstWord::End => true,
            _ => false,
        }
    }

    /// Takes the next word, if one is left.
    pub fn next_word(&mut self) -> Option<&'a str>
        ensures { MatchOption result ((self.old ≡ []) × (self.new ≡ [])) (λ word. self.old ≡ word.now ∷ self.new) }
    {
        match first_word(self.rest) {
            FirstWord::Word(word, behind) => {
                self.rest = behind;
                Some(word)
            }
            _ => None,
        }
    }

    /// What was read, where no word is left behind it.
    pub fn whole<T: Drop>(&self, found: Option<T>) -> Option<T>
        ensures { result ≡ whole_of self.now found }
    {
        if self.is_empty() { found } else { None }
    }

    /// The word that is left, where it is the only one.
    pub fn exactly_one(mut self) -> Option<&'a str>
        ensures { option_copied result ≡ one_of self.entry }
    {
        let word = self.next_word()?;
        if self.is_empty() { Some(word) } else { None }
    }

    /// The two words that are left, where there are just two.
    pub fn exactly_two(mut self) -> Option<(&'a str, &'a str)>
        ensures { option_map (λ r. (r.0.now, r.1.now)) result ≡ two_of self.entry }
    {
        let first = self.next_word()?;
        let second = self.exactly_one()?;
        Some((first, second))
    }

    /// The three words that are left, where there are just three.
    pub fn exactly_three(mut self) -> Option<(&'a str, &'a str, &'a str)>
        ensures { option_map (λ r. (r.0.now, r.1.now, r.2.now)) result ≡ three_of self.entry }
    {
        let first = self.next_word()?;
        let (second, third) = self.exactly_two()?;
        Some((first, second, third))
    }

    /// The four words that are left, where there are just four.
    pub fn exactly_four(mut self) -> Option<(&'a str, &'a str, &'a str, &'a str)>
        ensures { option_map (λ r. (r.0.now, r.1.now, r.2.now, r.3.now)) result ≡ four_of self.entry }
    {
        let first = self.next_word()?;
        let (second, third, fourth) = self.exactly_three()?;
        Some((first, second, third, fourth))
    }
}
