//! Whom words of a line name.

ghost use Rattle.std.specs.Prelude.{◌≡◌, ◌++◌, IfOk, OnOk, option_copied};
ghost use Rattle.std.specs.List.{find, prefix_len};
ghost use Rattle.std.specs.Str.{bytes_eq};
ghost use Rattle.rules_words.specs.Naming as spec;
ghost use Rattle.rules_words.specs.Named as inside;

use crate::words::Word;
use common_types::{Name, OutOfMemory};
use std::alloc::Global;

/// The most names on one side of a rule, and in a group.
const MAX_NAMES: usize = 4_096;

/// Why words name nobody.
#[derive(Clone, Copy, Debug, PartialEq, Eq, Drop)]
pub enum NameFault {
    /// No name where one must be.
    NoEntities,
    /// A group has the name of an earlier one.
    DoubledGroup,
    /// `*` is not the last byte of a name, or is in the name of a group.
    StarInside,
    /// More than 4,096 names, groups counted by their members.
    TooManyNames,
    /// `except` where a name must be.
    BadExcept,
    /// A name in quotes.
    QuotedName,
}

/// A fault, and the position of its byte in the line, counted from 0.
#[derive(Clone, Copy, Debug, PartialEq, Eq, Drop)]
pub struct NamesFault {
    pub at: usize,
    pub fault: NameFault,
}

/// Names, and those that are taken out.
#[derive(Debug)]
pub struct WhoNames {
    pub names: Vec<Name>,
    pub except: Vec<Name>,
}

impl Drop for WhoNames {
    fn drop(self) {
        let WhoNames {
            names: _,
            except: _,
        } = self;
    }
}

impl WhoNames {
    /// The names, and those that are taken out.
    pub fn into_parts(self) -> (Vec<Name>, Vec<Name>)
        ensures names { result.0 ≡ self.names }
        ensures except { result.1 ≡ self.except }
    {
        let WhoNames { names, except } = self;
        (names, except)
    }
}

/// A group of entities.
#[derive(Debug)]
pub struct Group {
    pub name: Name,
    /// The names of its members. One that ends in `*` means each name that begins with what is before that.
    pub members: Vec<Name>,
}

impl Drop for Group {
    fn drop(self) {
        let Group {
            name: _,
            members: _,
        } = self;
    }
}

fn is_named(word: &Word<'_>) -> bool
    ensures { result ≡ spec.is_named word.now }
{
    word.quote.is_none()
}

fn is_other(word: &Word<'_>) -> bool
    ensures { result ≡ spec.is_other word.now }
{
    word.quote.is_some() || word.text != "except"
}

/// How many words in front are without quotes.
fn named_len(words: &[Word<'_>]) -> usize
    ensures { result ≡ prefix_len spec.is_named words.now }
{
    words.iter().take_while(|word| is_named(*word)).count()
}

/// How many words are before `except`.
fn others_len(words: &[Word<'_>]) -> usize
    ensures { result ≡ prefix_len spec.is_other words.now }
{
    words.iter().take_while(|word| is_other(*word)).count()
}

/// The words in front that are without quotes, and those from the first one in quotes on.
pub fn quoted_from<'w, 'a>(words: &'w [Word<'a>]) -> (&'w [Word<'a>], &'w [Word<'a>])
    ensures front { result.0.now ≡ spec.front spec.is_named words.now }
    ensures rest { result.1.now ≡ spec.rest spec.is_named words.now }
{
    words.split_at(named_len(words))
}

/// The words before `except`, and the others.
fn at_except<'w, 'a>(words: &'w [Word<'a>]) -> (&'w [Word<'a>], &'w [Word<'a>])
    ensures front { result.0.now ≡ spec.front spec.is_other words.now }
    ensures rest { result.1.now ≡ spec.rest spec.is_other words.now }
{
    words.split_at(others_len(words))
}

/// The words behind `except`, if there is one.
fn excepted<'w, 'a>(words: &'w [Word<'a>]) -> &'w [Word<'a>]
    ensures { result.now ≡ spec.excepted words.now }
{
    match words {
        [] => words,
        [_, behind @ ..] => behind,
    }
}

fn fault_at(at: usize, fault: Option<NameFault>) -> Option<NamesFault>
    ensures { result ≡ spec.fault_at at fault }
{
    match fault {
        None => None,
        Some(fault) => Some(NamesFault { at, fault }),
    }
}

/// The position of the first word, or that where one is missing.
fn place(end: usize, words: &[Word<'_>]) -> usize
    ensures { result ≡ spec.place end words.now }
{
    match words {
        [] => end,
        [word, ..] => word.at,
    }
}

fn has_star(text: &[u8]) -> bool
    ensures { result ≡ spec.has_star text.now }
{
    text.iter().any(|byte| *byte == b'*')
}

/// Whether `*` is in a name before its last byte.
fn has_star_inside(text: &str) -> bool
    ensures { result ≡ spec.has_star_inside text.now }
{
    let bytes = text.as_bytes();
    match bytes {
        [] => false,
        [front @ .., _] => has_star(front),
    }
}

fn name_fault(word: &Word<'_>) -> Option<NameFault>
    ensures { result ≡ spec.name_fault word.now }
{
    if word.quote.is_some() {
        Some(NameFault::QuotedName)
    } else if word.text == "except" {
        Some(NameFault::BadExcept)
    } else if has_star_inside(word.text) {
        Some(NameFault::StarInside)
    } else {
        None
    }
}

/// The fault of the first word that has one.
fn names_fault(words: &[Word<'_>]) -> Option<NamesFault>
    ensures { result ≡ spec.names_fault words.now }
{
    for word in words {
        let fault = fault_at(word.at, name_fault(word));
        if fault.is_some() {
            return fault;
        }
    }
    None
}

/// The fault of names, of which one must be there.
fn some_fault(end: usize, words: &[Word<'_>]) -> Option<NamesFault>
    ensures { result ≡ spec.some_fault end words.now }
{
    if words.is_empty() {
        Some(NamesFault {
            at: end,
            fault: NameFault::NoEntities,
        })
    } else {
        names_fault(words)
    }
}

/// The fault of what is from `except` on, if there is one.
fn except_fault(end: usize, words: &[Word<'_>]) -> Option<NamesFault>
    ensures { result ≡ spec.except_fault end words.now }
{
    match words {
        [] => None,
        [_, behind @ ..] => some_fault(end, behind),
    }
}

/// The group of a name.
fn group_of<'g>(groups: &'g [Group], name: &str) -> Option<&'g Group>
    ensures { option_copied result ≡ find (λ group. bytes_eq group.name name.now) groups.now }
{
    groups.iter().find(|group| group.name.as_str() == name)
}

fn push_members(names: &mut Vec<Name>, members: &[Name]) -> Result<(), OutOfMemory>
    ensures { OnOk result (names.new.items ≡ names.old.items ++ members.now) }
{
    for member in members {
        names.push(member.copy()?)?;
    }
    Ok(())
}

/// Adds a group's members, or else the name itself.
fn push_named(
    names: &mut Vec<Name>,
    alloc: Global,
    groups: &[Group],
    name: &str,
) -> Result<(), OutOfMemory>
    ensures { OnOk result (names.new.items ≡ names.old.items ++ spec.named groups.now name.now) }
{
    match group_of(groups, name) {
        Some(group) => push_members(names, group.members.as_slice()),
        None => Ok(names.push(Name::new(alloc, name)?)?),
    }
}

/// The names of some words, or nothing where they are too many.
fn names_of(
    alloc: Global,
    groups: &[Group],
    words: &[Word<'_>],
) -> Result<Option<Vec<Name>>, OutOfMemory>
    ensures { IfOk result (inside.AreNames groups.now words.now) }
{
    let mut names = Vec::new(alloc);
    for word in words {
        push_named(&mut names, alloc, groups, word.text)?;
        if names.len() > MAX_NAMES {
            return Ok(None);
        }
    }
    Ok(Some(names))
}

/// The names of some words, or that they are too many.
fn names_or_fault(
    alloc: Global,
    groups: &[Group],
    end: usize,
    words: &[Word<'_>],
) -> Result<Result<Vec<Name>, NamesFault>, OutOfMemory>
    ensures { IfOk result (inside.AreNamesOr groups.now end words.now) }
{
    match names_of(alloc, groups, words)? {
        Some(names) => Ok(Ok(names)),
        None => Ok(Err(NamesFault {
            at: place(end, words),
            fault: NameFault::TooManyNames,
        })),
    }
}

/// The names that `NAME.. except NAME..` stands for, given these groups, or the first fault of the words.
///
/// `end` is the position behind the words, where a missing name is reported. The outer `Err` is out of memory.
pub fn who_from(
    alloc: Global,
    groups: &[Group],
    end: usize,
    words: &[Word<'_>],
) -> Result<Result<WhoNames, NamesFault>, OutOfMemory>
    ensures { IfOk result (inside.IsWhoOr groups.now end words.now) }
{
    let (front, rest) = at_except(words);
    if let Some(fault) = some_fault(place(end, rest), front) {
        return Ok(Err(fault));
    }
    if let Some(fault) = except_fault(end, rest) {
        return Ok(Err(fault));
    }
    let names = match names_or_fault(alloc, groups, end, front)? {
        Ok(names) => names,
        Err(fault) => return Ok(Err(fault)),
    };
    match names_or_fault(alloc, groups, end, excepted(rest))? {
        Ok(except) => Ok(Ok(WhoNames { names, except })),
        Err(fault) => Ok(Err(fault)),
    }
}

fn is_group(groups: &[Group], name: &str) -> bool
    ensures { result ≡ spec.is_group groups.now name.now }
{
    groups.iter().any(|group| group.name.as_str() == name)
}

fn group_name_fault(groups: &[Group], word: &Word<'_>) -> Option<NameFault>
    ensures { result ≡ spec.group_name_fault groups.now word.now }
{
    if word.quote.is_some() {
        Some(NameFault::QuotedName)
    } else if word.text == "except" {
        Some(NameFault::BadExcept)
    } else if has_star(word.text.as_bytes()) {
        Some(NameFault::StarInside)
    } else if is_group(groups, word.text) {
        Some(NameFault::DoubledGroup)
    } else {
        None
    }
}

/// The group of a name and its members, given the groups above it, or the first fault of the words.
///
/// `end` is the position behind the words, where a missing name is reported. The outer `Err` is out of memory.
pub fn group_from(
    alloc: Global,
    groups: &[Group],
    end: usize,
    word: &Word<'_>,
    members: &[Word<'_>],
) -> Result<Result<Group, NamesFault>, OutOfMemory>
    ensures { IfOk result (inside.IsGroupOr groups.now end word.now members.now) }
{
    if let Some(fault) = fault_at(word.at, group_name_fault(groups, word)) {
        return Ok(Err(fault));
    }
    if let Some(fault) = some_fault(end, members) {
        return Ok(Err(fault));
    }
    match names_or_fault(alloc, groups, end, members)? {
        Err(fault) => Ok(Err(fault)),
        Ok(members) => Ok(Ok(Group {
            name: Name::new(alloc, word.text)?,
            members,
        })),
    }
}
