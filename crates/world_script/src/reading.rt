//! Lines of a script as commands.

ghost use Rattle.std.specs.Prelude.{◌≡◌, IfOk};
ghost use Rattle.world_script.specs.Command as spec;
ghost use Rattle.world_script.specs.Command.{read_line};
ghost use Rattle.world_script.specs.TakenWords.{Takes};

use crate::command::Command;
use crate::osd_commands::osd;
use crate::session_commands::{
    answer, close, deliver, list_names, listing, lose, open, ready, renew, send_again, submit, tick,
};
use crate::taking::number;
use crate::user_commands::auth;
use common_types::OutOfMemory;
use script_text::Words;
use std::alloc::Global;

/// 1 to 16 daemons.
fn daemons(words: &mut Words<'_>) -> Option<Command>
    ensures { Takes spec.daemons words.old words.new result }
{
    let count = number(words)?;
    if 1 <= count && count <= 16 {
        Some(Command::Osds(count as u8))
    } else {
        None
    }
}

/// The command of this name on messages, or what is asked, with what it takes.
fn wire_command_named(
    alloc: Global,
    word: &str,
    words: &mut Words<'_>,
) -> Result<Option<Command>, OutOfMemory>
    ensures { IfOk result (Takes (spec.wire_command_named word.now) words.old words.new) }
{
    match word {
        "deliver" => deliver(alloc, words),
        "lose" => lose(alloc, words),
        "repeat" => send_again(alloc, words),
        "settle" => Ok(Some(Command::Settle)),
        "kick" => Ok(Some(Command::KickAll)),
        "lose-all" => Ok(Some(Command::LoseAll)),
        "answer" => Ok(answer(words)),
        "listing" => Ok(listing(words)),
        "ready" => ready(alloc, words),
        _ => Ok(None),
    }
}

/// The command of this name, with what it takes.
fn command_named(
    alloc: Global,
    word: &str,
    words: &mut Words<'_>,
) -> Result<Option<Command>, OutOfMemory>
    ensures { IfOk result (Takes (spec.command_named word.now) words.old words.new) }
{
    match word {
        "osds" => Ok(daemons(words)),
        "osd" => osd(alloc, words),
        "auth" => auth(alloc, words),
        "open" => open(alloc, words),
        "renew" => Ok(renew(words)),
        "close" => Ok(close(words)),
        "tick" => Ok(tick(words)),
        "do" => submit(alloc, words),
        "ls" => list_names(alloc, words),
        _ => wire_command_named(alloc, word, words),
    }
}

fn command(alloc: Global, words: &mut Words<'_>) -> Result<Option<Command>, OutOfMemory>
    ensures { IfOk result (Takes spec.command words.old words.new) }
{
    let Some(word) = words.next_word() else {
        return Ok(None);
    };
    command_named(alloc, word, words)
}

/// The command of a line that is not blank, or `None` where the line is bad.
pub fn read_line(alloc: Global, line: &[u8]) -> Result<Option<Command>, OutOfMemory>
    ensures { IfOk result (λ found. found ≡ read_line line.now) }
{
    let Some(mut words) = Words::of(line) else {
        return Ok(None);
    };
    let found = command(alloc, &mut words)?;
    Ok(words.whole(found))
}
