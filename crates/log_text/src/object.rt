//! Objects as a log writes them.

ghost use Rattle.std.specs.Prelude.{◌≡◌, ◌++◌, ◌<◌, true, IfOk, IfSome, IsTrue, OnOk, string_bytes};
ghost use Rattle.common_types.specs.Escapes as escapes;
ghost use Rattle.log_text.specs.Object as spec;

use common_types::{Name, OutOfMemory};
use std::alloc::Global;

/// The words of an operation's object: the number of its pool, and its namespace, locator and name with escapes.
#[derive(Clone, Copy)]
pub(crate) struct ObjectWords<'a> {
    pub(crate) pool: &'a str,
    pub(crate) namespace: &'a str,
    /// The locator, empty where none is given.
    pub(crate) key: &'a str,
    pub(crate) name: &'a str,
}

impl<'a> ObjectWords<'a> {
    /// The object in front of a text such as `1:9503f1ef:tenant-a::data.1:head [stat] ..`. A colon inside of a name is escaped.
    pub(crate) fn of_operation(text: &'a str) -> Option<ObjectWords<'a>> {
        let (pool, rest) = text.split_once(':')?;
        let (_hash, rest) = rest.split_once(':')?;
        let (words, rest) = rest.split_once(':')?;
        let (key, rest) = rest.split_once(':')?;
        let (name, _snap) = rest.split_once(':')?;
        Some(ObjectWords {
            pool,
            namespace: words,
            key,
            name,
        })
    }

    /// What capabilities see of the words, as one text.
    pub(crate) fn joined(&self, alloc: Global) -> Result<Name, OutOfMemory> {
        let mut text = String::from_str(alloc, self.pool)?;
        for part in [self.namespace, self.seen_name()] {
            text.push_str(":")?;
            text.push_str(part)?;
        }
        Ok(Name::from_string(text))
    }

    /// The words of a text that `joined` made.
    pub(crate) fn of_joined(text: &'a str) -> Option<ObjectWords<'a>> {
        let (pool, rest) = text.split_once(':')?;
        let (namespace, name) = rest.split_once(':')?;
        Some(ObjectWords {
            pool,
            namespace,
            key: "",
            name,
        })
    }

    /// The name that capabilities look at: the locator if one is given, and else the name.
    pub(crate) fn seen_name(&self) -> &'a str
        ensures { result.now ≡ spec.seen_name self.now.key.now self.now.name.now }
    {
        if self.key.is_empty() {
            self.name
        } else {
            self.key
        }
    }
}

/// The value of a lower hexadecimal digit.
fn hex_value(byte: u8) -> Option<u8>
    ensures { IfSome result (λ value. value < 16) }
{
    match byte {
        b'0'..=b'9' => Some(byte - b'0'),
        b'a'..=b'f' => Some(byte - b'a' + 10),
        _ => None,
    }
}

/// Adds what is behind a `%`: a byte by its two digits, and the rest. Returns whether there are two digits.
fn push_unescaped(bytes: &mut Vec<u8>, part: &[u8]) -> Result<bool, OutOfMemory> {
    let [high, low, rest @ ..] = part else {
        return Ok(false);
    };
    let Some(high) = hex_value(*high) else {
        return Ok(false);
    };
    let Some(low) = hex_value(*low) else {
        return Ok(false);
    };
    bytes.push(high * 16 + low)?;
    bytes.extend_from_slice(rest)?;
    Ok(true)
}

/// The name that a text with escapes writes, or `None` where an escape is cut or the name is not UTF-8.
pub(crate) fn unescaped(alloc: Global, text: &str) -> Result<Option<Name>, OutOfMemory> {
    let mut bytes = Vec::new(alloc);
    for (index, part) in text.split('%').enumerate() {
        if index == 0 {
            bytes.extend_from_slice(part.as_bytes())?;
        } else if !push_unescaped(&mut bytes, part.as_bytes())? {
            return Ok(None);
        }
    }
    match String::from_utf8(bytes) {
        Ok(name) => Ok(Some(Name::from_string(name))),
        Err(_) => Ok(None),
    }
}

/// Whether a log writes a byte as it is.
fn is_plain(byte: u8) -> bool
    ensures plain { result ≡ spec.is_plain byte }
    ensures ascii { IsTrue result → byte < 128 }
{
    32 <= byte && byte <= 126 && byte != b'%' && byte != b':' && byte != b'/'
}

/// A number below 16 as a hexadecimal digit.
fn hex_digit(number: u8) -> char
    requires { number < 16 }
    ensures { result ≡ escapes.hex_digit number }
{
    if number < 10 {
        char::from(b'0' + number)
    } else {
        char::from(b'a' + (number - 10))
    }
}

/// Adds a byte by its number.
fn push_number(text: &mut String, byte: u8) -> Result<(), OutOfMemory>
    ensures { OnOk result (string_bytes text.new ≡ string_bytes text.old ++ spec.numbered byte) }
{
    text.push_str("%")?;
    text.push(hex_digit(byte / 16))?;
    text.push(hex_digit(byte % 16))
}

/// Adds a byte as a log writes it.
fn push_escaped_byte(text: &mut String, byte: u8) -> Result<(), OutOfMemory>
    ensures { OnOk result (string_bytes text.new ≡ string_bytes text.old ++ spec.escaped_byte byte) }
{
    if is_plain(byte) {
        text.push(char::from(byte))
    } else {
        push_number(text, byte)
    }
}

/// Adds a name as a log writes it.
fn push_escaped(text: &mut String, name: &[u8]) -> Result<(), OutOfMemory>
    ensures { OnOk result (string_bytes text.new ≡ string_bytes text.old ++ spec.escaped name.now) }
{
    for byte in name {
        push_escaped_byte(text, *byte)?;
    }
    Ok(())
}

/// Whether two texts are the same.
#[tactic(auto, using(compare_core::proofs::Fronts::same_text))]
pub(crate) fn is_same(written: &str, text: &str) -> bool
    ensures { result ≡ true → text.now ≡ written.now }
{
    written == text
}

/// Whether a log writes a name as this text.
pub(crate) fn is_written_as(alloc: Global, name: &Name, text: &str) -> Result<bool, OutOfMemory>
    ensures { IfOk result (λ is. is ≡ true → text.now ≡ spec.escaped name.now) }
{
    let mut written = String::new(alloc);
    push_escaped(&mut written, name.as_str().as_bytes())?;
    Ok(is_same(written.as_str(), text))
}
