//! The grammar, token by token.

ghost use Rattle.std.specs.Prelude.{◌≡◌, Ok};
ghost use Rattle.cap_text.specs.Grammar.{namespace_of, part_of};
ghost use Rattle.cap_grants.specs.declared.grant.Access.TheVariants as accesses;
ghost use Rattle.cap_grants.specs.Gives.{Gives, GivesIn, GivesTo};
ghost use Rattle.cap_text.specs.Kept.{GivesAt, stage_at};
ghost use Rattle.cap_text.specs.Assembly.{ended};
ghost use Rattle.cap_text.specs.Machine.{accessed, clause_word, access_word, clauses, letters_step, class_read_word, class_read_step, method_step, value_of, value_step, filled, namespace_stage, namespace_step, namespace_word_step, part_at, key_step, key_value_step, start_step, step, close};

use crate::draft::GrantBuilder;
use crate::keyword::{
    AT_CLAUSE, AT_START, BEHIND_CLASS, BEHIND_CLASS_READ, BEHIND_LETTERS, Keyword, keyword_of,
};
use crate::stage::{ClauseSet, Next, ValueFor};
use crate::token::Token;
use cap_grants::{Access, FaultKind, Flags, Grants, NsMatch, Part, Tag};
use common_types::Name;
use std::alloc::Global;

const EVERY: ClauseSet = ClauseSet {
    pool: true,
    namespace: true,
    prefix: true,
    tag: true,
};

const OF_PROFILE: ClauseSet = ClauseSet {
    pool: true,
    namespace: true,
    prefix: false,
    tag: false,
};

fn accessed(sheet: &mut GrantBuilder, access: Access) -> Next
    ensures { stage_at result sheet.new ≡ accessed sheet.old.may sheet.old.draft access }
{
    sheet.set_access(access);
    sheet.pass_access();
    Next::Clauses
}

#[inline(always)]
fn access_word<const AT: u8>(sheet: &mut GrantBuilder, keyword: Keyword) -> Result<Next, FaultKind>
    ensures { GivesAt result sheet.new (access_word sheet.old.may sheet.old.draft keyword) }
{
    let none = Flags {
        read: false,
        write: false,
        class_read: false,
        class_write: false,
    };
    match keyword {
        Keyword::All => Ok(accessed(sheet, Access::All)),
        Keyword::Class => {
            sheet.set_slot(ValueFor::Class);
            Ok(Next::Value)
        }
        Keyword::Letters(read, write, execute) => {
            sheet.set_flags(Flags {
                read,
                write,
                class_read: execute,
                class_write: execute,
            });
            Ok(Next::Letters)
        }
        Keyword::ClassRead => {
            let class_read = true;
            sheet.set_flags(Flags { class_read, ..none });
            Ok(Next::ClassRead)
        }
        Keyword::ClassWrite => {
            let class_write = true;
            Ok(accessed(
                sheet,
                Access::Flags(Flags {
                    class_write,
                    ..none
                }),
            ))
        }
        _ => Err(FaultKind::BadAccess),
    }
}

/// What a clause's word says of the value behind it.
#[inline(always)]
fn for_value(sheet: &mut GrantBuilder, slot: ValueFor, next: Next) -> Result<Next, FaultKind>
    ensures { GivesAt result sheet.new (Ok (stage_at next (record sheet.old { slot = slot }))) }
{
    sheet.set_slot(slot);
    Ok(next)
}

#[inline(always)]
fn clause_word<const AT: u8>(sheet: &mut GrantBuilder, keyword: Keyword) -> Result<Next, FaultKind>
    ensures { GivesAt result sheet.new (clause_word sheet.old.may sheet.old.draft keyword) }
{
    match keyword {
        Keyword::Pool if sheet.may().pool => for_value(sheet, ValueFor::Pool, Next::Assigned),
        Keyword::Namespace if sheet.may().namespace => Ok(Next::Namespace),
        Keyword::ObjectPrefix if sheet.may().prefix => {
            for_value(sheet, ValueFor::Prefix, Next::Value)
        }
        Keyword::Tag if sheet.may().tag => for_value(sheet, ValueFor::Application, Next::Value),
        Keyword::Pool | Keyword::Namespace | Keyword::ObjectPrefix | Keyword::Tag => {
            Err(FaultKind::BadMatch)
        }
        Keyword::Network => Err(FaultKind::NetworkClause),
        _ if sheet.wants_access() => access_word::<AT>(sheet, keyword),
        _ => Err(FaultKind::UnknownWord),
    }
}

#[inline(never)]
fn clauses(sheet: &mut GrantBuilder, token: &Token<'_>) -> Result<Next, FaultKind>
    ensures { GivesAt result sheet.new (clauses sheet.old.may sheet.old.draft token.now) }
{
    match token {
        Token::Word(word) => {
            clause_word::<AT_CLAUSE>(sheet, keyword_of::<AT_CLAUSE>(word.as_str()))
        }
        Token::Star(_) if sheet.wants_access() => Ok(accessed(sheet, Access::All)),
        _ if sheet.wants_access() => Err(FaultKind::BadAccess),
        _ => Err(FaultKind::UnknownWord),
    }
}

#[inline(never)]
fn letters(sheet: &mut GrantBuilder, token: &Token<'_>) -> Result<Next, FaultKind>
    ensures { GivesAt result sheet.new (letters_step sheet.old.flags sheet.old.may sheet.old.draft token.now) }
{
    match token {
        Token::Word(word) => match keyword_of::<BEHIND_LETTERS>(word.as_str()) {
            Keyword::ClassRead => {
                let class_read = true;
                let flags = sheet.flags();
                sheet.set_flags(Flags {
                    class_read,
                    ..flags
                });
                Ok(Next::ClassRead)
            }
            keyword => class_read_word::<BEHIND_LETTERS>(sheet, keyword),
        },
        _ => Err(FaultKind::UnknownWord),
    }
}

#[inline(always)]
fn class_read_word<const AT: u8>(
    sheet: &mut GrantBuilder,
    keyword: Keyword,
) -> Result<Next, FaultKind>
    ensures { GivesAt result sheet.new (class_read_word sheet.old.flags sheet.old.may sheet.old.draft keyword) }
{
    let flags = sheet.flags();
    match keyword {
        Keyword::ClassWrite => {
            let class_write = true;
            Ok(accessed(
                sheet,
                Access::Flags(Flags {
                    class_write,
                    ..flags
                }),
            ))
        }
        keyword => {
            sheet.set_access(Access::Flags(flags));
            sheet.pass_access();
            clause_word::<AT>(sheet, keyword)
        }
    }
}

#[inline(never)]
fn class_read(sheet: &mut GrantBuilder, token: &Token<'_>) -> Result<Next, FaultKind>
    ensures { GivesAt result sheet.new (class_read_step sheet.old.flags sheet.old.may sheet.old.draft token.now) }
{
    match token {
        Token::Word(word) => class_read_word::<BEHIND_CLASS_READ>(
            sheet,
            keyword_of::<BEHIND_CLASS_READ>(word.as_str()),
        ),
        _ => Err(FaultKind::UnknownWord),
    }
}

fn name_of(alloc: Global, text: &str) -> Result<Name, FaultKind>
    ensures { GivesTo result text.now }
{
    Ok(Name::new(alloc, text)?)
}

fn class_of(class: Name, method: Option<Name>) -> Access
    ensures { result ≡ accesses.Class class method }
{
    Access::Class { class, method }
}

#[inline(never)]
fn method(alloc: Global, sheet: &mut GrantBuilder, token: &Token<'_>) -> Result<Next, FaultKind>
    ensures { GivesAt result sheet.new (method_step sheet.old.word sheet.old.may sheet.old.draft token.now) }
{
    let class = sheet.take_word(alloc);
    match token {
        Token::Word(word) => match keyword_of::<BEHIND_CLASS>(word.as_str()) {
            keyword @ (Keyword::Pool
            | Keyword::Namespace
            | Keyword::ObjectPrefix
            | Keyword::Tag
            | Keyword::Network) => {
                sheet.set_access(class_of(class, None));
                sheet.pass_access();
                clause_word::<BEHIND_CLASS>(sheet, keyword)
            }
            _ => {
                let method = name_of(alloc, word.as_str())?;
                Ok(accessed(sheet, class_of(class, Some(method))))
            }
        },
        Token::Quoted(quoted) => {
            if quoted.as_str().is_empty() {
                return Err(FaultKind::BadWord);
            }
            let method = name_of(alloc, quoted.as_str())?;
            Ok(accessed(sheet, class_of(class, Some(method))))
        }
        _ => Err(FaultKind::UnknownWord),
    }
}

fn value(alloc: Global, token: &Token<'_>) -> Result<Name, FaultKind>
    ensures { Gives result (value_of token.now) }
{
    match token {
        Token::Word(word) => name_of(alloc, word.as_str()),
        Token::Quoted(quoted) if !quoted.as_str().is_empty() => name_of(alloc, quoted.as_str()),
        _ => Err(FaultKind::BadWord),
    }
}

/// Writes a value into the sheet, and answers what may come behind it.
fn filled(sheet: &mut GrantBuilder, value: Name) -> Next
    ensures { stage_at result sheet.new ≡ filled sheet.old.slot sheet.old.may sheet.old.draft value }
{
    match sheet.slot() {
        ValueFor::Profile => {
            sheet.set_profile(value);
            Next::Clauses
        }
        ValueFor::Class => {
            sheet.hold_word(value);
            Next::Method
        }
        ValueFor::Pool => {
            sheet.set_pool(value);
            sheet.pass_pool();
            Next::Clauses
        }
        ValueFor::Prefix => {
            sheet.set_prefix(value);
            sheet.pass_last();
            Next::Clauses
        }
        ValueFor::Application => {
            sheet.hold_word(value);
            Next::Key
        }
    }
}

#[inline(never)]
fn filled_by(alloc: Global, sheet: &mut GrantBuilder, token: &Token<'_>) -> Result<Next, FaultKind>
    ensures { GivesAt result sheet.new (value_step sheet.old.slot sheet.old.may sheet.old.draft token.now) }
{
    let value = value(alloc, token)?;
    Ok(filled(sheet, value))
}

fn namespace_of(alloc: Global, text: &str) -> Result<NsMatch, FaultKind>
    ensures { GivesTo result (namespace_of text.now) }
{
    let bytes = text.as_bytes();
    if bytes.is_empty() || bytes[bytes.len() - 1] != b'*' {
        return Ok(NsMatch::Exact(name_of(alloc, text)?));
    }
    let (front, _) = text.split_at(text.len() - 1);
    Ok(NsMatch::Prefix(name_of(alloc, front)?))
}

fn in_namespace(sheet: &mut GrantBuilder, namespace: NsMatch) -> Next
    ensures { stage_at result sheet.new ≡ namespace_stage sheet.old.may sheet.old.draft namespace }
{
    sheet.set_namespace(namespace);
    sheet.pass_namespace();
    Next::Clauses
}

#[inline(never)]
fn namespace(alloc: Global, sheet: &mut GrantBuilder, token: &Token<'_>) -> Result<Next, FaultKind>
    ensures { GivesAt result sheet.new (namespace_step sheet.old.may sheet.old.draft token.now) }
{
    match token {
        Token::Word(word) => {
            sheet.hold_word(name_of(alloc, word.as_str())?);
            Ok(Next::NamespaceWord)
        }
        Token::Quoted(quoted) => {
            let namespace = namespace_of(alloc, quoted.as_str())?;
            Ok(in_namespace(sheet, namespace))
        }
        Token::Star(_) => {
            let namespace = NsMatch::Prefix(name_of(alloc, "")?);
            Ok(in_namespace(sheet, namespace))
        }
        _ => Err(FaultKind::BadWord),
    }
}

#[inline(never)]
fn behind_namespace(
    alloc: Global,
    sheet: &mut GrantBuilder,
    token: &Token<'_>,
) -> Result<Next, FaultKind>
    ensures { GivesAt result sheet.new (namespace_word_step sheet.old.word sheet.old.may sheet.old.draft token.now) }
{
    let name = sheet.take_word(alloc);
    match token {
        Token::Star(true) => Ok(in_namespace(sheet, NsMatch::Prefix(name))),
        token => {
            sheet.set_namespace(NsMatch::Exact(name));
            sheet.pass_namespace();
            clauses(sheet, token)
        }
    }
}

fn part_of(name: Name) -> Part
    ensures { result ≡ part_of name }
{
    if name.as_str() == "*" {
        Part::Any
    } else {
        Part::Is(name)
    }
}

/// One side of a tag's pair.
fn part(alloc: Global, token: &Token<'_>) -> Result<Part, FaultKind>
    ensures { Gives result (part_at token.now) }
{
    match token {
        Token::Star(_) => Ok(Part::Any),
        token => {
            let value = value(alloc, token)?;
            Ok(part_of(value))
        }
    }
}

#[inline(never)]
fn key(alloc: Global, sheet: &mut GrantBuilder, token: &Token<'_>) -> Result<Next, FaultKind>
    ensures { GivesAt result sheet.new (key_step sheet.old.word sheet.old.draft token.now) }
{
    sheet.hold_key(part(alloc, token)?);
    Ok(Next::KeyEquals)
}

#[inline(never)]
fn key_value(alloc: Global, sheet: &mut GrantBuilder, token: &Token<'_>) -> Result<Next, FaultKind>
    ensures { GivesAt result sheet.new (key_value_step sheet.old.word sheet.old.key sheet.old.draft token.now) }
{
    let value = part(alloc, token)?;
    let tag = Tag {
        application: sheet.take_word(alloc),
        key: sheet.take_key(),
        value,
    };
    sheet.set_tag(tag);
    sheet.pass_last();
    Ok(Next::Clauses)
}

#[inline(never)]
fn start(sheet: &mut GrantBuilder, token: &Token<'_>) -> Result<Next, FaultKind>
    ensures { GivesAt result sheet.new (start_step token.now) }
{
    sheet.clear();
    match token {
        Token::Word(word) => match keyword_of::<AT_START>(word.as_str()) {
            Keyword::Allow => {
                sheet.set_may(EVERY);
                Ok(Next::Clauses)
            }
            Keyword::Profile => {
                sheet.set_may(OF_PROFILE);
                for_value(sheet, ValueFor::Profile, Next::Assigned)
            }
            _ => Err(FaultKind::UnknownWord),
        },
        _ => Err(FaultKind::UnknownWord),
    }
}

/// What may come behind a token that is no separator.
///
/// What it calls is never inlined: it would set all their slots to zero at each token.
#[tactic(auto, unfolding(crate::specs::Machine::step))]
pub(crate) fn step(
    alloc: Global,
    next: Next,
    sheet: &mut GrantBuilder,
    token: &Token<'_>,
) -> Result<Next, FaultKind>
    ensures { GivesAt result sheet.new (step (stage_at next sheet.old) token.now) }
{
    match next {
        Next::Start | Next::Separator => start(sheet, token),
        Next::Clauses => clauses(sheet, token),
        Next::Letters => letters(sheet, token),
        Next::ClassRead => class_read(sheet, token),
        Next::Method => method(alloc, sheet, token),
        Next::Assigned => match token {
            Token::Equals => Ok(Next::Value),
            token => filled_by(alloc, sheet, token),
        },
        Next::Value => filled_by(alloc, sheet, token),
        Next::Namespace => match token {
            Token::Equals => Ok(Next::NamespaceEquals),
            token => namespace(alloc, sheet, token),
        },
        Next::NamespaceEquals => namespace(alloc, sheet, token),
        Next::NamespaceWord => behind_namespace(alloc, sheet, token),
        Next::Key => key(alloc, sheet, token),
        Next::KeyEquals => match token {
            Token::Equals => Ok(Next::KeyValue),
            _ => Err(FaultKind::BadMatch),
        },
        Next::KeyValue => key_value(alloc, sheet, token),
    }
}

/// Puts the grant that is whole here behind the others. It is not inlined, since room for a grant would be made at
/// each token then.
#[inline(never)]
pub(crate) fn close(
    alloc: Global,
    next: Next,
    sheet: &mut GrantBuilder,
    done: &mut Grants,
) -> Result<(), FaultKind>
    ensures { GivesIn result done.new (ended done.old (close (stage_at next sheet.old))) }
{
    match next {
        Next::Clauses => sheet.end_in(alloc, done),
        Next::Letters | Next::ClassRead => {
            let flags = sheet.flags();
            sheet.set_access(Access::Flags(flags));
            sheet.end_in(alloc, done)
        }
        Next::Method => {
            let class = sheet.take_word(alloc);
            sheet.set_access(class_of(class, None));
            sheet.end_in(alloc, done)
        }
        Next::NamespaceWord => {
            let name = sheet.take_word(alloc);
            sheet.set_namespace(NsMatch::Exact(name));
            sheet.end_in(alloc, done)
        }
        Next::Start | Next::Separator => Err(FaultKind::UnknownWord),
        Next::KeyEquals => Err(FaultKind::BadMatch),
        _ => Err(FaultKind::BadWord),
    }
}
