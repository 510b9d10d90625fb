//! Commands on the users, as words.

ghost use Rattle.std.specs.Prelude.{◌≡◌, IfOk};
ghost use Rattle.world_script.specs.Command as spec;
ghost use Rattle.world_script.specs.TakenWords.{Takes};

use crate::command::Command;
use crate::taking::name;
use crate::texts::texts;
use auth_db::Caps;
use common_types::{Name, OutOfMemory};
use script_text::Words;
use std::alloc::Global;
use world_front::{AuthCommand, Event};

/// A name and its texts.
fn user(alloc: Global, words: &mut Words<'_>) -> Result<Option<(Name, Caps)>, OutOfMemory>
    ensures { IfOk result (Takes spec.a_user words.old words.new) }
{
    let Some(name) = name(alloc, words)? else {
        return Ok(None);
    };
    match texts(alloc, words)? {
        None => Ok(None),
        Some(caps) => Ok(Some((name, caps))),
    }
}

fn add(alloc: Global, words: &mut Words<'_>) -> Result<Option<AuthCommand>, OutOfMemory>
    ensures { IfOk result (Takes spec.add_user words.old words.new) }
{
    match user(alloc, words)? {
        None => Ok(None),
        Some((name, caps)) => Ok(Some(AuthCommand::Add { name, caps })),
    }
}

fn set_caps(alloc: Global, words: &mut Words<'_>) -> Result<Option<AuthCommand>, OutOfMemory>
    ensures { IfOk result (Takes spec.set_caps words.old words.new) }
{
    match user(alloc, words)? {
        None => Ok(None),
        Some((name, caps)) => Ok(Some(AuthCommand::SetCaps { name, caps })),
    }
}

fn get_or_create(alloc: Global, words: &mut Words<'_>) -> Result<Option<AuthCommand>, OutOfMemory>
    ensures { IfOk result (Takes spec.get_or_create words.old words.new) }
{
    match user(alloc, words)? {
        None => Ok(None),
        Some((name, caps)) => Ok(Some(AuthCommand::GetOrCreate { name, caps })),
    }
}

fn delete(alloc: Global, words: &mut Words<'_>) -> Result<Option<AuthCommand>, OutOfMemory>
    ensures { IfOk result (Takes spec.delete_user words.old words.new) }
{
    match name(alloc, words)? {
        None => Ok(None),
        Some(name) => Ok(Some(AuthCommand::Delete { name })),
    }
}

fn show(alloc: Global, words: &mut Words<'_>) -> Result<Option<Command>, OutOfMemory>
    ensures { IfOk result (Takes spec.show_user words.old words.new) }
{
    match name(alloc, words)? {
        None => Ok(None),
        Some(name) => Ok(Some(Command::ShowUser(name))),
    }
}

/// The command that changes the users.
fn change(command: Option<AuthCommand>) -> Option<Command>
    ensures { result ≡ spec.changing_users command }
{
    match command {
        None => None,
        Some(command) => Some(Command::Happens(Event::Auth(command))),
    }
}

/// What stands behind `auth`.
pub(crate) fn auth(alloc: Global, words: &mut Words<'_>) -> Result<Option<Command>, OutOfMemory>
    ensures { IfOk result (Takes spec.auth words.old words.new) }
{
    let Some(word) = words.next_word() else {
        return Ok(None);
    };
    match word {
        "add" => Ok(change(add(alloc, words)?)),
        "caps" => Ok(change(set_caps(alloc, words)?)),
        "get-or-create" => Ok(change(get_or_create(alloc, words)?)),
        "del" => Ok(change(delete(alloc, words)?)),
        "get" => show(alloc, words),
        "ls" => Ok(Some(Command::ListUsers)),
        _ => Ok(None),
    }
}
