//! A line's words, as a POSIX shell splits it where nothing is expanded.

use common_types::OutOfMemory;
use std::alloc::Global;

/// In what a character stands.
#[derive(Clone, Copy, PartialEq, Eq)]
enum Inside {
    Nothing,
    SingleQuotes,
    DoubleQuotes,
}

/// The words so far, and what goes on.
#[derive(Drop)]
struct Splitter {
    alloc: Global,
    words: Vec<String>,
    /// The word that goes on, if one does.
    word: Option<String>,
    inside: Inside,
    /// A backslash stands before.
    escaped: bool,
}

impl Splitter {
    /// Adds a character to the word that goes on, which begins here if none does.
    fn push(&mut self, letter: char) -> Result<(), OutOfMemory> {
        let mut word = self.word.take().unwrap_or(String::new(self.alloc));
        word.push(letter)?;
        self.word = Some(word);
        Ok(())
    }

    /// A word goes on or begins, with nothing more in it.
    fn begin(&mut self) {
        let word = self.word.take().unwrap_or(String::new(self.alloc));
        self.word = Some(word);
    }

    fn end_word(&mut self) -> Result<(), OutOfMemory> {
        if let Some(word) = self.word.take() {
            self.words.push(word)?;
        }
        Ok(())
    }

    fn quote(&mut self, inside: Inside) {
        self.begin();
        self.inside = inside;
    }

    /// Takes a character outside of quotes.
    fn take_bare(&mut self, letter: char) -> Result<(), OutOfMemory> {
        match letter {
            '\'' => self.quote(Inside::SingleQuotes),
            '"' => self.quote(Inside::DoubleQuotes),
            '\\' => self.escaped = true,
            ' ' | '\t' | '\r' => return self.end_word(),
            _ => return self.push(letter),
        }
        Ok(())
    }

    /// Takes a character behind a backslash. Between double quotes the backslash stands for itself before most.
    fn take_escaped(&mut self, letter: char) -> Result<(), OutOfMemory> {
        self.escaped = false;
        let stands = self.inside == Inside::DoubleQuotes
            && !matches!(letter, '"' | '\\' | '$' | '`');
        if stands {
            self.push('\\')?;
        }
        self.push(letter)
    }

    fn take(&mut self, letter: char) -> Result<(), OutOfMemory> {
        if self.escaped {
            return self.take_escaped(letter);
        }
        match (self.inside, letter) {
            (Inside::SingleQuotes, '\'') | (Inside::DoubleQuotes, '"') => {
                self.inside = Inside::Nothing;
                Ok(())
            }
            (Inside::DoubleQuotes, '\\') => {
                self.escaped = true;
                Ok(())
            }
            (Inside::Nothing, _) => self.take_bare(letter),
            _ => self.push(letter),
        }
    }

    /// Takes a line; whether no quote is open behind it, nor a backslash ends it.
    fn take_line(&mut self, line: &str) -> Result<bool, OutOfMemory> {
        for letter in line.chars() {
            self.take(letter)?;
        }
        if self.escaped || self.inside != Inside::Nothing {
            return Ok(false);
        }
        self.end_word()?;
        Ok(true)
    }
}

/// The words of a line, or nothing where a quote is not closed or a backslash ends the line.
pub fn split_words(alloc: Global, line: &str) -> Result<Option<Vec<String>>, OutOfMemory> {
    let mut splitter = Splitter {
        alloc,
        words: Vec::new(alloc),
        word: None,
        inside: Inside::Nothing,
        escaped: false,
    };
    if !splitter.take_line(line)? {
        return Ok(None);
    }
    Ok(Some(splitter.words))
}
