//! What a line says.

ghost use Rattle.std.specs.Prelude.{◌≡◌, IfOk};
ghost use Rattle.rules_text.specs.Grammar as spec;
ghost use Rattle.rules_text.specs.Said as inside;

use crate::fault::{LineFault, RuleFault};
use common_types::{Name, OutOfMemory};
use rights_core::Rights;
use rules_core::{Demand, Rule, Who};
use rules_words::{
    BadWord, CutLine, Group, NameFault, NamesFault, Word, group_from, quoted_from, who_from,
    words_of,
};
use std::alloc::Global;
use verdict_text::{ReadEntity, Reader, Reading, TextFault};

/// The most groups.
const MAX_GROUPS: usize = 1_024;

/// The first word of a line.
#[derive(Clone, Copy, Drop)]
pub(crate) enum Keyword {
    Group,
    Never,
    Always,
    Apart,
}

/// What a line says.
#[derive(Debug, Drop)]
pub(crate) enum Content {
    AGroup(Group),
    ARule(Rule),
}

/// What a line says, or its first fault.
pub(crate) type ReadLine = Result<Content, LineFault>;

fn keyword_of(text: &str) -> Option<Keyword>
    ensures { result ≡ spec.keyword_of text.now }
{
    if text == "group" {
        Some(Keyword::Group)
    } else if text == "never" {
        Some(Keyword::Never)
    } else if text == "always" {
        Some(Keyword::Always)
    } else if text == "apart" {
        Some(Keyword::Apart)
    } else {
        None
    }
}

fn name_fault(fault: NameFault) -> RuleFault
    ensures { result ≡ spec.rule_fault fault }
{
    match fault {
        NameFault::NoEntities => RuleFault::NoEntities,
        NameFault::DoubledGroup => RuleFault::DoubledGroup,
        NameFault::StarInside => RuleFault::StarInside,
        NameFault::TooManyNames => RuleFault::TooManyNames,
        NameFault::BadExcept => RuleFault::BadExcept,
        NameFault::QuotedName => RuleFault::QuotedName,
    }
}

fn names_fault(why: NamesFault) -> LineFault
    ensures { result ≡ spec.line_fault why }
{
    LineFault {
        at: why.at,
        fault: name_fault(why.fault),
    }
}

/// Whom words name.
fn who_of(
    alloc: Global,
    groups: &[Group],
    end: usize,
    words: &[Word<'_>],
) -> Result<Result<Who, LineFault>, OutOfMemory>
    ensures { IfOk result (inside.IsWhoRead groups.now end words.now) }
{
    match who_from(alloc, groups, end, words)? {
        Err(why) => Ok(Err(names_fault(why))),
        Ok(who) => {
            let (names, except) = who.into_parts();
            Ok(Ok(Who { names, except }))
        }
    }
}

fn first_keyword(word: &Word<'_>) -> Option<Keyword>
    ensures { result ≡ spec.keyword word.now }
{
    if word.quote.is_some() {
        None
    } else {
        keyword_of(word.text)
    }
}

/// The position of a byte of a text in its line.
fn position_in(word: &Word<'_>, byte: Option<usize>) -> usize
    ensures { result ≡ spec.position_in word.now byte }
{
    match byte {
        None => word.at,
        Some(byte) => word.at.saturating_add(1).saturating_add(byte),
    }
}

fn text_fault(word: &Word<'_>, why: TextFault) -> LineFault
    ensures { result ≡ spec.text_fault word.now why }
{
    LineFault {
        at: position_in(word, why.byte()),
        fault: RuleFault::BadText(why),
    }
}

/// The region of a text in quotes.
fn region_of(
    alloc: Global,
    reader: &Reader,
    word: &Word<'_>,
) -> Result<Result<Rights, LineFault>, OutOfMemory>
    ensures { IfOk result (spec.IsRegion reader.now word.now) }
{
    let read: Reading = reader.read(alloc, word.text, None)?;
    match read {
        Err(why) => Ok(Err(text_fault(word, why))),
        Ok(region) => {
            if region.len() == 0 {
                Ok(Err(LineFault {
                    at: word.at,
                    fault: RuleFault::NoText,
                }))
            } else {
                Ok(Ok(region))
            }
        }
    }
}

fn each_of(
    alloc: Global,
    reader: &Reader,
    groups: &[Group],
    demand: Demand,
    words: &[Word<'_>],
    text: &Word<'_>,
) -> Result<ReadLine, OutOfMemory>
    ensures { IfOk result (spec.IsEachOf reader.now groups.now demand words.now text.now) }
{
    let who: Who = match who_of(alloc, groups, text.at, words)? {
        Ok(who) => who,
        Err(fault) => return Ok(Err(fault)),
    };
    match region_of(alloc, reader, text)? {
        Err(fault) => Ok(Err(fault)),
        Ok(region) => Ok(Ok(Content::ARule(Rule::Each {
            demand,
            who,
            region,
        }))),
    }
}

/// What `never` or `always` says behind its first word: the words before the first one in quotes, and from that one on.
fn each(
    alloc: Global,
    reader: &Reader,
    groups: &[Group],
    end: usize,
    demand: Demand,
    words: &[Word<'_>],
    quoted: &[Word<'_>],
) -> Result<ReadLine, OutOfMemory>
    ensures { IfOk result (spec.IsEach reader.now groups.now end demand words.now quoted.now) }
{
    match quoted {
        [] => Ok(Err(LineFault {
            at: end,
            fault: RuleFault::NoText,
        })),
        [text] => each_of(alloc, reader, groups, demand, words, text),
        [_, extra, ..] => Ok(Err(LineFault {
            at: extra.at,
            fault: RuleFault::ExtraWord,
        })),
    }
}

fn apart_of<'a>(
    alloc: Global,
    groups: &[Group],
    end: usize,
    one: &[Word<'a>],
    other: &[Word<'a>],
) -> Result<ReadLine, OutOfMemory>
    ensures { IfOk result (spec.AreApartOf groups.now end one.now other.now) }
{
    let ones: Who = match who_of(alloc, groups, end, one)? {
        Ok(ones) => ones,
        Err(fault) => return Ok(Err(fault)),
    };
    match who_of(alloc, groups, end, other)? {
        Err(fault) => Ok(Err(fault)),
        Ok(others) => Ok(Ok(Content::ARule(Rule::Apart { ones, others }))),
    }
}

/// What `apart` says behind its first word.
fn apart(
    alloc: Global,
    groups: &[Group],
    end: usize,
    words: &[Word<'_>],
) -> Result<ReadLine, OutOfMemory>
    ensures { IfOk result (spec.IsApart groups.now end words.now) }
{
    match words {
        [] | [_] => Ok(Err(LineFault {
            at: end,
            fault: RuleFault::NoEntities,
        })),
        [_, _] => {
            let (one, other) = words.split_at(1);
            apart_of(alloc, groups, end, one, other)
        }
        [_, _, extra, ..] => Ok(Err(LineFault {
            at: extra.at,
            fault: RuleFault::ExtraWord,
        })),
    }
}

fn is_entity(entities: &[ReadEntity], name: &str) -> bool
    ensures { result ≡ spec.is_entity entities.now name.now }
{
    entities.iter().any(|entity| entity.name.as_str() == name)
}

/// Why there may be no group of this name behind these groups.
fn group_refusal(entities: &[ReadEntity], groups: &[Group], name: &str) -> Option<RuleFault>
    ensures { result ≡ spec.group_refusal entities.now groups.now name.now }
{
    if is_entity(entities, name) {
        Some(RuleFault::GroupIsEntity)
    } else if groups.len() >= MAX_GROUPS {
        Some(RuleFault::TooManyGroups)
    } else {
        None
    }
}

/// The group of a name and its members, which has the name of no entity.
fn group_of(
    alloc: Global,
    entities: &[ReadEntity],
    groups: &[Group],
    end: usize,
    name: &Word<'_>,
    members: &[Word<'_>],
) -> Result<ReadLine, OutOfMemory>
    ensures { IfOk result (spec.IsGroupOf entities.now groups.now end name.now members.now) }
{
    let group = match group_from(alloc, groups, end, name, members)? {
        Ok(group) => group,
        Err(why) => return Ok(Err(names_fault(why))),
    };
    match group_refusal(entities, groups, name.text) {
        Some(fault) => Ok(Err(LineFault { at: name.at, fault })),
        None => Ok(Ok(Content::AGroup(group))),
    }
}

/// What `group` says behind its first word.
fn a_group(
    alloc: Global,
    entities: &[ReadEntity],
    groups: &[Group],
    end: usize,
    words: &[Word<'_>],
) -> Result<ReadLine, OutOfMemory>
    ensures { IfOk result (spec.IsGroup entities.now groups.now end words.now) }
{
    match words {
        [] => Ok(Err(LineFault {
            at: end,
            fault: RuleFault::NoEntities,
        })),
        [name, members @ ..] => group_of(alloc, entities, groups, end, name, members),
    }
}

/// What a line says that begins with this word.
fn begun(
    alloc: Global,
    reader: &Reader,
    entities: &[ReadEntity],
    groups: &[Group],
    end: usize,
    word: &Word<'_>,
    words: &[Word<'_>],
) -> Result<ReadLine, OutOfMemory>
    ensures { IfOk result (spec.IsBegun reader.now entities.now groups.now end word.now words.now (spec.keyword word.now)) }
{
    let (named, quoted) = quoted_from(words);
    match first_keyword(word) {
        None => Ok(Err(LineFault {
            at: word.at,
            fault: RuleFault::UnknownWord,
        })),
        Some(Keyword::Group) => a_group(alloc, entities, groups, end, words),
        Some(Keyword::Never) => each(alloc, reader, groups, end, Demand::Never, named, quoted),
        Some(Keyword::Always) => each(alloc, reader, groups, end, Demand::Always, named, quoted),
        Some(Keyword::Apart) => apart(alloc, groups, end, words),
    }
}

/// What the words of a line of this many bytes say.
fn content_of(
    alloc: Global,
    reader: &Reader,
    entities: &[ReadEntity],
    groups: &[Group],
    end: usize,
    words: &[Word<'_>],
) -> Result<ReadLine, OutOfMemory>
    ensures { IfOk result (spec.IsContent reader.now entities.now groups.now end words.now) }
{
    match words {
        [] => Ok(Err(LineFault {
            at: end,
            fault: RuleFault::UnknownWord,
        })),
        [word, behind @ ..] => begun(alloc, reader, entities, groups, end, word, behind),
    }
}

fn word_fault(bad: BadWord) -> LineFault
    ensures { result ≡ spec.word_fault bad }
{
    match bad {
        BadWord::OpenQuote(at) => LineFault {
            at,
            fault: RuleFault::OpenQuote,
        },
        BadWord::StrayQuote(at) => LineFault {
            at,
            fault: RuleFault::StrayQuote,
        },
        BadWord::BadByte(at) => LineFault {
            at,
            fault: RuleFault::BadByte,
        },
        BadWord::TooLong => LineFault {
            at: 8_192,
            fault: RuleFault::LineTooLong,
        },
    }
}

/// A line that says something, and its text.
#[derive(Drop)]
pub(crate) struct SaidLine {
    pub(crate) text: Name,
    pub(crate) content: Content,
}

/// What a line says that was cut into words.
fn said(
    alloc: Global,
    reader: &Reader,
    entities: &[ReadEntity],
    groups: &[Group],
    cut: &CutLine<'_>,
) -> Result<Result<SaidLine, LineFault>, OutOfMemory>
    ensures { IfOk result (inside.IsSaidBy reader.now entities.now groups.now cut.now) }
{
    let words = cut.words.as_slice();
    match content_of(alloc, reader, entities, groups, cut.text.len(), words)? {
        Err(fault) => Ok(Err(fault)),
        Ok(content) => Ok(Ok(SaidLine {
            text: Name::new(alloc, cut.text)?,
            content,
        })),
    }
}

/// What a line says behind these groups.
pub(crate) fn read_line(
    alloc: Global,
    reader: &Reader,
    entities: &[ReadEntity],
    groups: &[Group],
    line: &[u8],
) -> Result<Result<SaidLine, LineFault>, OutOfMemory>
    ensures { IfOk result (inside.IsSaid reader.now entities.now groups.now line.now) }
{
    match words_of(alloc, line)? {
        Ok(cut) => said(alloc, reader, entities, groups, &cut),
        Err(bad) => Ok(Err(word_fault(bad))),
    }
}
