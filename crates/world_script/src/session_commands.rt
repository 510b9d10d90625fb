//! Commands on sessions, requests and messages, as words.

ghost use Rattle.std.specs.Prelude.{IfOk};
ghost use Rattle.world_script.specs.Command as spec;
ghost use Rattle.world_script.specs.TakenWords.{Takes};

use crate::command::Command;
use crate::operations::ops;
use crate::taking::{end, group, id, name, number};
use common_types::OutOfMemory;
use entry_core::GroupId;
use script_text::Words;
use std::alloc::Global;
use world_front::Event;

pub(crate) fn open(alloc: Global, words: &mut Words<'_>) -> Result<Option<Command>, OutOfMemory>
    ensures { IfOk result (Takes spec.open_session words.old words.new) }
{
    let Some(entity) = name(alloc, words)? else {
        return Ok(None);
    };
    match end(words) {
        None => Ok(None),
        Some(until) => Ok(Some(Command::Happens(Event::Open { entity, until }))),
    }
}

pub(crate) fn renew(words: &mut Words<'_>) -> Option<Command>
    ensures { Takes spec.renew_session words.old words.new result }
{
    let session = number(words)?;
    let until = end(words)?;
    Some(Command::Happens(Event::Renew { session, until }))
}

pub(crate) fn close(words: &mut Words<'_>) -> Option<Command>
    ensures { Takes spec.close_session words.old words.new result }
{
    let session = number(words)?;
    Some(Command::Happens(Event::Close { session }))
}

pub(crate) fn tick(words: &mut Words<'_>) -> Option<Command>
    ensures { Takes spec.set_tick words.old words.new result }
{
    let tick = number(words)?;
    Some(Command::Tick(u64::from(tick)))
}

pub(crate) fn submit(alloc: Global, words: &mut Words<'_>) -> Result<Option<Command>, OutOfMemory>
    ensures { IfOk result (Takes spec.submit words.old words.new) }
{
    let Some(session) = number(words) else {
        return Ok(None);
    };
    let Some(pool) = name(alloc, words)? else {
        return Ok(None);
    };
    let Some(namespace) = name(alloc, words)? else {
        return Ok(None);
    };
    let Some(object) = name(alloc, words)? else {
        return Ok(None);
    };
    match ops(alloc, words)? {
        None => Ok(None),
        Some(ops) => Ok(Some(Command::Submit {
            session,
            pool,
            namespace,
            object,
            ops,
        })),
    }
}

pub(crate) fn list_names(
    alloc: Global,
    words: &mut Words<'_>,
) -> Result<Option<Command>, OutOfMemory>
    ensures { IfOk result (Takes spec.list_names words.old words.new) }
{
    let Some(session) = number(words) else {
        return Ok(None);
    };
    let Some(pool) = name(alloc, words)? else {
        return Ok(None);
    };
    match name(alloc, words)? {
        None => Ok(None),
        Some(namespace) => Ok(Some(Command::List {
            session,
            pool,
            namespace,
        })),
    }
}

/// A message, by its group and its place on the wire.
fn message(alloc: Global, words: &mut Words<'_>) -> Result<Option<(GroupId, usize)>, OutOfMemory>
    ensures { IfOk result (Takes spec.a_message words.old words.new) }
{
    let Some(group) = group(alloc, words)? else {
        return Ok(None);
    };
    match number(words) {
        None => Ok(None),
        Some(place) => Ok(Some((group, place as usize))),
    }
}

pub(crate) fn deliver(alloc: Global, words: &mut Words<'_>) -> Result<Option<Command>, OutOfMemory>
    ensures { IfOk result (Takes spec.deliver words.old words.new) }
{
    match message(alloc, words)? {
        None => Ok(None),
        Some((group, place)) => Ok(Some(Command::Happens(Event::Deliver { group, place }))),
    }
}

pub(crate) fn lose(alloc: Global, words: &mut Words<'_>) -> Result<Option<Command>, OutOfMemory>
    ensures { IfOk result (Takes spec.lose words.old words.new) }
{
    match message(alloc, words)? {
        None => Ok(None),
        Some((group, place)) => Ok(Some(Command::Happens(Event::Lose { group, place }))),
    }
}

pub(crate) fn send_again(
    alloc: Global,
    words: &mut Words<'_>,
) -> Result<Option<Command>, OutOfMemory>
    ensures { IfOk result (Takes spec.send_again words.old words.new) }
{
    match message(alloc, words)? {
        None => Ok(None),
        Some((group, place)) => Ok(Some(Command::Happens(Event::Repeat { group, place }))),
    }
}

pub(crate) fn answer(words: &mut Words<'_>) -> Option<Command>
    ensures { Takes spec.answer words.old words.new result }
{
    let id = id(words)?;
    Some(Command::Answer(id))
}

pub(crate) fn listing(words: &mut Words<'_>) -> Option<Command>
    ensures { Takes spec.listing words.old words.new result }
{
    let id = id(words)?;
    Some(Command::Listing(id))
}

pub(crate) fn ready(alloc: Global, words: &mut Words<'_>) -> Result<Option<Command>, OutOfMemory>
    ensures { IfOk result (Takes spec.ready words.old words.new) }
{
    match group(alloc, words)? {
        None => Ok(None),
        Some(group) => Ok(Some(Command::Ready(group))),
    }
}
