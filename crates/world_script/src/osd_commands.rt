//! Commands on the map, as words.

ghost use Rattle.std.specs.Prelude.{◌≡◌, IfOk};
ghost use Rattle.world_script.specs.Command as spec;
ghost use Rattle.world_script.specs.TakenWords.{Takes};

use crate::command::Command;
use crate::taking::{daemon, name, number};
use common_types::OutOfMemory;
use map_core::MapCommand;
use script_text::Words;
use std::alloc::Global;
use world_front::Event;

fn enable_application(
    alloc: Global,
    words: &mut Words<'_>,
) -> Result<Option<MapCommand>, OutOfMemory>
    ensures { IfOk result (Takes spec.enable_application words.old words.new) }
{
    let Some(pool) = name(alloc, words)? else {
        return Ok(None);
    };
    match name(alloc, words)? {
        None => Ok(None),
        Some(app) => Ok(Some(MapCommand::AppEnable { pool, app })),
    }
}

fn set_application(alloc: Global, words: &mut Words<'_>) -> Result<Option<MapCommand>, OutOfMemory>
    ensures { IfOk result (Takes spec.set_application words.old words.new) }
{
    let Some(pool) = name(alloc, words)? else {
        return Ok(None);
    };
    let Some(app) = name(alloc, words)? else {
        return Ok(None);
    };
    let Some(key) = name(alloc, words)? else {
        return Ok(None);
    };
    match name(alloc, words)? {
        None => Ok(None),
        Some(value) => Ok(Some(MapCommand::AppSet {
            pool,
            app,
            key,
            value,
        })),
    }
}

fn remove_application(
    alloc: Global,
    words: &mut Words<'_>,
) -> Result<Option<MapCommand>, OutOfMemory>
    ensures { IfOk result (Takes spec.remove_application words.old words.new) }
{
    let Some(pool) = name(alloc, words)? else {
        return Ok(None);
    };
    let Some(app) = name(alloc, words)? else {
        return Ok(None);
    };
    match name(alloc, words)? {
        None => Ok(None),
        Some(key) => Ok(Some(MapCommand::AppRm { pool, app, key })),
    }
}

fn application(alloc: Global, words: &mut Words<'_>) -> Result<Option<MapCommand>, OutOfMemory>
    ensures { IfOk result (Takes spec.application words.old words.new) }
{
    let Some(word) = words.next_word() else {
        return Ok(None);
    };
    match word {
        "enable" => enable_application(alloc, words),
        "set" => set_application(alloc, words),
        "rm" => remove_application(alloc, words),
        _ => Ok(None),
    }
}

fn create_pool(alloc: Global, words: &mut Words<'_>) -> Result<Option<MapCommand>, OutOfMemory>
    ensures { IfOk result (Takes spec.create_pool words.old words.new) }
{
    let Some(name) = name(alloc, words)? else {
        return Ok(None);
    };
    let Some(pg_num) = number(words) else {
        return Ok(None);
    };
    let Some(size) = number(words) else {
        return Ok(None);
    };
    match number(words) {
        None => Ok(None),
        Some(min_size) => Ok(Some(MapCommand::PoolCreate {
            name,
            pg_num,
            size,
            min_size,
        })),
    }
}

fn pool(alloc: Global, words: &mut Words<'_>) -> Result<Option<MapCommand>, OutOfMemory>
    ensures { IfOk result (Takes spec.pool words.old words.new) }
{
    let Some(word) = words.next_word() else {
        return Ok(None);
    };
    match word {
        "create" => create_pool(alloc, words),
        "application" => application(alloc, words),
        _ => Ok(None),
    }
}

fn up(words: &mut Words<'_>) -> Option<MapCommand>
    ensures { Takes spec.up words.old words.new result }
{
    let daemon = daemon(words)?;
    Some(MapCommand::OsdUp(daemon))
}

fn down(words: &mut Words<'_>) -> Option<MapCommand>
    ensures { Takes spec.down words.old words.new result }
{
    let daemon = daemon(words)?;
    Some(MapCommand::OsdDown(daemon))
}

fn restart(words: &mut Words<'_>) -> Option<MapCommand>
    ensures { Takes spec.restart words.old words.new result }
{
    let daemon = daemon(words)?;
    Some(MapCommand::OsdRestart(daemon))
}

/// Where an object is.
fn locate(alloc: Global, words: &mut Words<'_>) -> Result<Option<Command>, OutOfMemory>
    ensures { IfOk result (Takes spec.locate words.old words.new) }
{
    let Some(pool) = name(alloc, words)? else {
        return Ok(None);
    };
    let Some(namespace) = name(alloc, words)? else {
        return Ok(None);
    };
    match name(alloc, words)? {
        None => Ok(None),
        Some(object) => Ok(Some(Command::Locate {
            pool,
            namespace,
            object,
        })),
    }
}

/// The command that changes the map.
fn change(command: Option<MapCommand>) -> Option<Command>
    ensures { result ≡ spec.changing command }
{
    match command {
        None => None,
        Some(command) => Some(Command::Happens(Event::Map(command))),
    }
}

/// What stands behind `osd`.
pub(crate) fn osd(alloc: Global, words: &mut Words<'_>) -> Result<Option<Command>, OutOfMemory>
    ensures { IfOk result (Takes spec.osd words.old words.new) }
{
    let Some(word) = words.next_word() else {
        return Ok(None);
    };
    match word {
        "pool" => Ok(change(pool(alloc, words)?)),
        "up" => Ok(change(up(words))),
        "down" => Ok(change(down(words))),
        "restart" => Ok(change(restart(words))),
        "map" => locate(alloc, words),
        _ => Ok(None),
    }
}
