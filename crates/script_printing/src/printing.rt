//! What lines of a script print.

ghost use Rattle.std.specs.Prelude.{◌≡◌, ◌++◌, OnOk, string_bytes, codes, decimal, flat_map, length, option_copied};
ghost use Rattle.script_text.specs.Text.{line, numeral};
ghost use Rattle.script_printing.specs.Text as spec;

use auth_db::Caps;
use common_types::{Name, OutOfMemory};
use entry_core::{Id, Reply};
use grant_core::Path;
use object_core::Bytes;
use script_text::{Count, push_count, push_item, push_number, push_quoted};
use std::fmt::Write;
use verdict_core::Condition;
use world_front::{Told, WorldFault};

/// Adds a request's session and its number there.
fn push_id(text: &mut String, id: Id) -> Result<(), OutOfMemory>
    ensures { OnOk result (string_bytes text.new ≡ string_bytes text.old ++ spec.id_text id) }
{
    push_number(text, u64::from(id.session()))?;
    text.push_str(".")?;
    push_number(text, u64::from(id.number()))
}

/// Adds a line with a word and a number, in decimal digits and with nothing between them.
///
/// Where memory runs out, a beginning of it may have been added.
pub fn push_counted(text: &mut String, word: &str, number: u64) -> Result<(), OutOfMemory>
    ensures { OnOk result (string_bytes text.new ≡ string_bytes text.old ++ line (word.now ++ decimal number)) }
{
    text.push_str(word)?;
    push_number(text, number)?;
    text.push_str("\n")
}

/// Adds a line that says how many messages were delivered. The number has no limit.
///
/// Where memory runs out, a beginning of it may have been added.
pub fn push_settled(text: &mut String, count: &Count) -> Result<(), OutOfMemory>
    ensures { OnOk result (string_bytes text.new ≡ string_bytes text.old ++ line (codes "settled " ++ numeral count.now)) }
{
    text.push_str("settled ")?;
    push_count(text, count)?;
    text.push_str("\n")
}

/// Adds the line that says what an event tells.
///
/// Where memory runs out, a beginning of it may have been added.
pub fn push_told(text: &mut String, told: Told) -> Result<(), OutOfMemory>
    ensures { OnOk result (string_bytes text.new ≡ string_bytes text.old ++ line (spec.told_text told)) }
{
    match told {
        Told::Done => text.push_str("ok\n"),
        Told::Made => text.push_str("made\n"),
        Told::There => text.push_str("there\n"),
        Told::Epoch(epoch) => push_counted(text, "epoch ", u64::from(epoch)),
        Told::Session(session) => push_counted(text, "session ", u64::from(session)),
        Told::Request(id) => push_request(text, id),
        Told::List { first, count } => push_list(text, first, count),
    }
}

fn push_request(text: &mut String, id: Id) -> Result<(), OutOfMemory>
    ensures { OnOk result (string_bytes text.new ≡ string_bytes text.old ++ line (codes "request " ++ spec.id_text id)) }
{
    text.push_str("request ")?;
    push_id(text, id)?;
    text.push_str("\n")
}

fn push_list(text: &mut String, first: Id, count: u32) -> Result<(), OutOfMemory>
    ensures { OnOk result (string_bytes text.new ≡ string_bytes text.old ++ line (codes "list " ++ (spec.id_text first ++ (codes " " ++ decimal count)))) }
{
    text.push_str("list ")?;
    push_id(text, first)?;
    push_counted(text, " ", u64::from(count))
}

/// Adds the line that says why a command is refused: the number of the fault, its name and what it carries.
///
/// Where memory runs out, a beginning of it may have been added.
pub fn push_refused(text: &mut String, fault: WorldFault) -> Result<(), OutOfMemory>
    ensures { OnOk result (string_bytes text.new ≡ string_bytes text.old ++ spec.refused_text fault) }
{
    text.push_str("refused ")?;
    write!(text, "{fault}")?;
    text.push_str("\n")
}

/// Adds a line with a request's number and what follows it.
fn push_headed(text: &mut String, id: Id, rest: &str) -> Result<(), OutOfMemory>
    ensures { OnOk result (string_bytes text.new ≡ string_bytes text.old ++ line (spec.id_text id ++ rest.now)) }
{
    push_id(text, id)?;
    text.push_str(rest)?;
    text.push_str("\n")
}

fn push_outputs(text: &mut String, outputs: &[Bytes]) -> Result<(), OutOfMemory>
    ensures { OnOk result (string_bytes text.new ≡ string_bytes text.old ++ flat_map spec.quoted_item outputs.now) }
{
    for output in outputs {
        push_item(text, output.as_slice())?;
    }
    Ok(())
}

fn push_names(text: &mut String, names: &[Name]) -> Result<(), OutOfMemory>
    ensures { OnOk result (string_bytes text.new ≡ string_bytes text.old ++ flat_map spec.quoted_item names.now) }
{
    for name in names {
        push_item(text, name.as_str().as_bytes())?;
    }
    Ok(())
}

fn push_denied(text: &mut String, path: &Path, condition: Condition) -> Result<(), OutOfMemory>
    ensures { OnOk result (string_bytes text.new ≡ string_bytes text.old ++ spec.denied_item (path.now, condition)) }
{
    text.push_str("- ")?;
    write!(text, "{path}")?;
    text.push_str(" ")?;
    write!(text, "{condition}")?;
    text.push_str("\n")
}

fn push_report(text: &mut String, entries: &[(Path, Condition)]) -> Result<(), OutOfMemory>
    ensures { OnOk result (string_bytes text.new ≡ string_bytes text.old ++ flat_map spec.denied_item entries.now) }
{
    for entry in entries {
        push_denied(text, &entry.0, entry.1)?;
    }
    Ok(())
}

fn push_failed(text: &mut String, id: Id, place: usize, number: u32) -> Result<(), OutOfMemory>
    ensures { OnOk result (string_bytes text.new ≡ string_bytes text.old
        ++ line (spec.id_text id ++ (codes " error " ++ (decimal number ++ (codes " at " ++ decimal place))))) }
{
    push_id(text, id)?;
    text.push_str(" error ")?;
    push_number(text, u64::from(number))?;
    push_counted(text, " at ", place as u64)
}

fn push_reply(text: &mut String, id: Id, reply: &Reply) -> Result<(), OutOfMemory>
    ensures { OnOk result (string_bytes text.new ≡ string_bytes text.old ++ spec.reply_text (spec.id_text id) reply.now) }
{
    match reply {
        Reply::Denied(report) => {
            push_headed(text, id, " denied")?;
            push_report(text, report.lines())
        }
        Reply::Done(outputs) => {
            push_headed(text, id, " ok")?;
            push_outputs(text, outputs.as_slice())
        }
        Reply::Failed { place, number } => push_failed(text, id, *place, *number),
        Reply::Names(names) => {
            push_headed(text, id, " names")?;
            push_names(text, names.as_slice())
        }
    }
}

/// Adds what came to a request or a list, behind its number, or that it is waited for: one line, and one for each output or name,
/// or for each grant that denied it.
///
/// Where memory runs out, a beginning of it may have been added.
pub fn push_answer(text: &mut String, id: Id, answer: Option<&Reply>) -> Result<(), OutOfMemory>
    ensures { OnOk result (string_bytes text.new ≡ string_bytes text.old ++ spec.answer_text (spec.id_text id) (option_copied answer.entry)) }
{
    match answer {
        None => push_headed(text, id, " waiting"),
        Some(reply) => push_reply(text, id, reply),
    }
}

fn push_text(text: &mut String, kind: &str, given: &Option<Name>) -> Result<(), OutOfMemory>
    ensures { OnOk result (string_bytes text.new ≡ string_bytes text.old ++ spec.text_item kind.now given.now) }
{
    match given {
        None => Ok(()),
        Some(given) => {
            text.push_str("- ")?;
            text.push_str(kind)?;
            text.push_str(" ")?;
            push_quoted(text, given.as_str().as_bytes())?;
            text.push_str("\n")
        }
    }
}

/// Adds a line with a user's name, and one for each text that it has, behind the type of daemon.
///
/// Where memory runs out, a beginning of it may have been added.
pub fn push_user(text: &mut String, name: &Name, caps: &Caps) -> Result<(), OutOfMemory>
    ensures { OnOk result (string_bytes text.new ≡ string_bytes text.old ++ spec.user_text name.now caps.now) }
{
    text.push_str(name.as_str())?;
    text.push_str("\n")?;
    push_text(text, "mon", &caps.mon)?;
    push_text(text, "mgr", &caps.mgr)?;
    push_text(text, "mds", &caps.mds)?;
    push_text(text, "osd", &caps.osd)
}

/// Adds a line that says how many users there are, and one with each name.
///
/// Where memory runs out, a beginning of it may have been added.
pub fn push_users(text: &mut String, names: &[Name]) -> Result<(), OutOfMemory>
    ensures { OnOk result (string_bytes text.new
        ≡ string_bytes text.old ++ (line (codes "users " ++ decimal (length names.now)) ++ flat_map spec.quoted_item names.now)) }
{
    push_counted(text, "users ", names.len() as u64)?;
    push_names(text, names)
}

fn push_members(text: &mut String, members: &[u8]) -> Result<(), OutOfMemory>
    ensures { OnOk result (string_bytes text.new ≡ string_bytes text.old ++ flat_map (λ member. codes " " ++ decimal member) members.now) }
{
    for member in members {
        text.push_str(" ")?;
        push_number(text, u64::from(*member))?;
    }
    Ok(())
}

/// Adds the line with the number of a group and those of the daemons of its acting set, in their order.
///
/// Where memory runs out, a beginning of it may have been added.
pub fn push_located(text: &mut String, group: u32, members: &[u8]) -> Result<(), OutOfMemory>
    ensures { OnOk result (string_bytes text.new ≡ string_bytes text.old ++ spec.located_text group members.now) }
{
    text.push_str("group ")?;
    push_number(text, u64::from(group))?;
    text.push_str(" acting")?;
    push_members(text, members)?;
    text.push_str("\n")
}

/// Adds the line that says whether a group is ready, `yes` or `no`.
///
/// Where memory runs out, a beginning of it may have been added.
pub fn push_ready(text: &mut String, ready: bool) -> Result<(), OutOfMemory>
    ensures { OnOk result (string_bytes text.new ≡ string_bytes text.old ++ spec.ready_text ready) }
{
    if ready {
        text.push_str("yes\n")
    } else {
        text.push_str("no\n")
    }
}
