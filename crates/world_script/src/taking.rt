//! The words of a line, one after another, as parts of commands.

ghost use Rattle.std.specs.Prelude.{IfOk, ◌≤◌, length};
ghost use Rattle.world_script.specs.Command.{a_word, a_number, an_id, a_daemon, a_group, an_end};
ghost use Rattle.world_script.specs.TakenWords.{Takes};

use common_types::{Name, OutOfMemory};
use entry_core::{GroupId, Id};
use object_core::Bytes;
use script_text::{Words, number_of, pair_of};
use std::alloc::Global;

/// The next word, as a name.
pub(crate) fn name(alloc: Global, words: &mut Words<'_>) -> Result<Option<Name>, OutOfMemory>
    ensures takes { IfOk result (Takes a_word words.old words.new) }
    ensures shorter { length words.new ≤ length words.old }
{
    match words.next_word() {
        None => Ok(None),
        Some(word) => Ok(Some(Name::new(alloc, word)?)),
    }
}

/// The next word, as bytes.
pub(crate) fn bytes(alloc: Global, words: &mut Words<'_>) -> Result<Option<Bytes>, OutOfMemory>
    ensures takes { IfOk result (Takes a_word words.old words.new) }
    ensures shorter { length words.new ≤ length words.old }
{
    match words.next_word() {
        None => Ok(None),
        Some(word) => Ok(Some(Bytes::from_slice(alloc, word.as_bytes())?)),
    }
}

/// The next word, as a number.
pub(crate) fn number(words: &mut Words<'_>) -> Option<u32>
    ensures takes { Takes a_number words.old words.new result }
    ensures shorter { length words.new ≤ length words.old }
{
    let word = words.next_word()?;
    number_of(word)
}

/// The next word, as the id of a request: its session and its number there, with a dot between them.
pub(crate) fn id(words: &mut Words<'_>) -> Option<Id>
    ensures { Takes an_id words.old words.new result }
{
    let word = words.next_word()?;
    let (session, number) = pair_of(word)?;
    Some(Id::new(session, number))
}

/// The next word, as the number of a daemon. Numbers above 255 are read as 255, since no cluster has that many daemons.
pub(crate) fn daemon(words: &mut Words<'_>) -> Option<u8>
    ensures { Takes a_daemon words.old words.new result }
{
    let number = number(words)?;
    Some(number.min(255) as u8)
}

/// The next two words, as a group.
pub(crate) fn group(alloc: Global, words: &mut Words<'_>) -> Result<Option<GroupId>, OutOfMemory>
    ensures { IfOk result (Takes a_group words.old words.new) }
{
    let Some(pool) = name(alloc, words)? else {
        return Ok(None);
    };
    match number(words) {
        None => Ok(None),
        Some(number) => Ok(Some(GroupId { pool, number })),
    }
}

/// No words, or `until` and a tick.
pub(crate) fn end(words: &mut Words<'_>) -> Option<Option<u64>>
    ensures { Takes an_end words.old words.new result }
{
    match words.next_word() {
        None => Some(None),
        Some("until") => {
            let tick = number(words)?;
            Some(Some(u64::from(tick)))
        }
        Some(_) => None,
    }
}
