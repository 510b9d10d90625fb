//! Keys that an object of a JSON text has twice. A reader that keeps the last one would lose an entity or a grant.

use crate::file_fault::{DoubledKey, FileFault};
use crate::json_text::line_of;
use common_types::OutOfMemory;
use indexmap::IndexSet;
use json::{Reader, Scratch, Token};
use std::alloc::Global;
use std::fmt::Write;
use verdict_text::push_name;

/// How many keys of an object are compared with a key one by one. Those behind them are hashed.
const FEW: usize = 16;

/// An object or a list that is open.
struct Open<'t> {
    is_object: bool,
    /// Where its first keys begin among those of all that is open.
    first: usize,
    /// Its other keys, if it has more.
    others: Option<IndexSet<String>>,
    /// Its last key.
    last: &'t str,
    /// How many items of a list are over.
    index: usize,
}

impl Drop for Open<'_> {
    fn drop(self) {
        let Open {
            is_object: _,
            first: _,
            others: _,
            last: _,
            index: _,
        } = self;
    }
}

/// The objects and lists of a JSON text that are open.
struct Nesting<'t> {
    alloc: Global,
    open: Vec<Open<'t>>,
    /// The first keys of each.
    keys: Vec<&'t str>,
}

impl Drop for Nesting<'_> {
    fn drop(self) {
        let Nesting {
            alloc: _,
            open: _,
            keys: _,
        } = self;
    }
}

/// Adds the way to what is open inside of this.
fn push_step(path: &mut String, open: &Open<'_>) -> Result<(), OutOfMemory> {
    if !open.is_object {
        let index = open.index;
        return write!(path, "[{index}]");
    }
    if !path.is_empty() {
        path.push_str(".")?;
    }
    push_name(path, open.last)
}

impl<'t> Nesting<'t> {
    /// The way to the object that is open last.
    fn path(&self) -> Result<String, OutOfMemory> {
        let mut path = String::new(self.alloc);
        if let Some((_, outer)) = self.open.as_slice().split_last() {
            for open in outer {
                push_step(&mut path, open)?;
            }
        }
        Ok(path)
    }

    fn begin(&mut self, is_object: bool) -> Result<(), OutOfMemory> {
        self.open.push(Open {
            is_object,
            first: self.keys.len(),
            others: None,
            last: "",
            index: 0,
        })?;
        Ok(())
    }

    /// A value is over.
    fn end_value(&mut self) {
        if let Some(open) = self.open.last_mut() {
            open.index = open.index.saturating_add(1);
        }
    }

    fn end(&mut self) {
        if let Some(open) = self.open.pop() {
            self.keys.truncate(open.first);
        }
        self.end_value();
    }

    /// Takes a key of the object that is open last. Returns whether the object had it.
    fn take_key(&mut self, key: &'t str) -> Result<bool, OutOfMemory> {
        let Some(open) = self.open.last_mut() else {
            return Ok(false);
        };
        let first = self.keys.get(open.first..).unwrap_or(&[]);
        if first.iter().any(|other| *other == key) {
            return Ok(true);
        }
        open.last = key;
        if first.len() < FEW {
            self.keys.push(key)?;
            return Ok(false);
        }
        let mut others = open.others.take().unwrap_or(IndexSet::new(self.alloc));
        let is_new = others.insert(String::from_str(self.alloc, key)?)?;
        open.others = Some(others);
        Ok(!is_new)
    }

    /// Takes a token. Returns the key that an object has twice, if it is one.
    fn take(&mut self, token: Token<'t>) -> Result<Option<&'t str>, OutOfMemory> {
        match token {
            Token::BeginObject => self.begin(true)?,
            Token::BeginArray => self.begin(false)?,
            Token::EndObject | Token::EndArray => self.end(),
            Token::Key(key) => {
                if self.take_key(key)? {
                    return Ok(Some(key));
                }
            }
            _ => self.end_value(),
        }
        Ok(None)
    }
}

/// The fault of a key that the object that is open last has twice.
fn doubled(
    alloc: Global,
    nesting: &Nesting<'_>,
    key: &str,
    line: usize,
) -> Result<FileFault, OutOfMemory> {
    let mut shown = String::new(alloc);
    push_name(&mut shown, key)?;
    Ok(FileFault::DoubledKey(DoubledKey {
        key: shown,
        path: nesting.path()?,
        line,
    }))
}

/// Refuses what a reader of this text has, if an object has a key twice.
fn refuse_read<'t>(alloc: Global, text: &str, reader: &mut Reader<'t>) -> Result<(), FileFault> {
    let mut nesting: Nesting<'t> = Nesting {
        alloc,
        open: Vec::new(alloc),
        keys: Vec::new(alloc),
    };
    for _ in 0..=text.len() {
        let at = reader.offset();
        let Some(token) = reader.next() else {
            break;
        };
        if let Some(key) = nesting.take(token)? {
            return Err(doubled(alloc, &nesting, key, line_of(text, at))?);
        }
    }
    Ok(())
}

/// Refuses a text, which is JSON, in which an object has a key twice.
pub(crate) fn refuse_doubled_keys(
    alloc: Global,
    text: &str,
    scratch: &mut Scratch,
) -> Result<(), FileFault> {
    let mut reader = Reader::new(text, scratch)?;
    refuse_read(alloc, text, &mut reader)
}
