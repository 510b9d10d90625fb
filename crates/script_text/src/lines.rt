//! The lines of a script.

ghost use Rattle.std.specs.Prelude.{◌≡◌, ◌+◌, ◌<◌, ◌∷◌, [], ℕ, MatchOption, length};
ghost use Rattle.script_text.specs.Lines as spec;
ghost use Rattle.script_text.specs.Lines.{script_lines};
ghost use Rattle.script_text.specs.Inside.{first_line, after_line};

use std::marker::Model;

/// A line of a script, without its end.
#[derive(Drop)]
pub struct Line<'a> {
    /// Its number, counted from 1. Blank lines count too.
    pub number: usize,
    /// Its bytes, without the byte 10 that ends it and one byte 13 before that or before the end of the script.
    pub text: &'a [u8],
}

impl Line<'_> {
    /// Whether the line is empty or a note, which begins with `#`: it prints nothing, whatever it holds.
    pub fn is_blank(&self) -> bool
        ensures { result ≡ spec.is_blank self.now.text.now }
    {
        match self.text.first() {
            None => true,
            Some(byte) => *byte == b'#',
        }
    }
}

/// The lines of a script that are left, which borrow it.
#[derive(Drop)]
pub struct Lines<'a> {
    rest: &'a [u8],
    taken: usize,
}

impl<'a> Model for Lines<'a> {
    ghost use Rattle.std.specs.Prelude.{◌+◌, ◌<◌, ◌^◌, length};
    ghost use Rattle.script_text.specs.Lines.{LinesLeft, script_lines};

    ghost Value = { LinesLeft };

    ghost view = { λ l. record { taken = l.taken; lines = script_lines l.rest.now } };

    ghost invariant = { λ l. l.taken + length l.rest.now < 2 ^ 64 };
}

/// The first line without its byte 10, and what is behind it.
fn cut_line(text: &[u8]) -> (&[u8], &[u8])
    ensures line { result.0.now ≡ first_line text.now }
    ensures rest { result.1.now ≡ after_line text.now }
    ensures shorter { 0 < length text.now → length result.1.now < length text.now }
{
    for (i, byte) in text.iter().enumerate() {
        if *byte == b'\n' {
            return (&text[..i], &text[i + 1..]);
        }
    }
    (text, &[])
}

/// A line without one byte 13 at its end.
fn trimmed(line: &[u8]) -> &[u8]
    ensures { result.now ≡ spec.trimmed line.now }
{
    if line.is_empty() {
        return line;
    }
    let last = line.len() - 1;
    if line[last] == b'\r' {
        &line[..last]
    } else {
        line
    }
}

impl<'a> Lines<'a> {
    /// All lines of a script.
    pub fn new(script: &'a [u8]) -> Lines<'a>
        ensures lines { result.lines ≡ script_lines script.now }
        ensures taken { result.taken ≡ 0 }
    {
        let _len = script.len();
        Lines {
            rest: script,
            taken: 0,
        }
    }

    /// Takes the next line, if one is left. Nothing is copied.
    pub fn next_line(&mut self) -> Option<Line<'a>>
        ensures lines { MatchOption result ((self.old.lines ≡ []) × (self.new ≡ self.old)) (λ line. self.old.lines ≡ line.text.now ∷ self.new.lines) }
        ensures number { MatchOption result (self.new ≡ self.old) (λ line. (line.number ≡ self.old.taken + 1) × (self.new.taken ≡ line.number)) }
    {
        if self.rest.is_empty() {
            return None;
        }
        let (line, rest) = cut_line(self.rest);
        self.rest = rest;
        self.taken += 1;
        Some(Line {
            number: self.taken,
            text: trimmed(line),
        })
    }
}
