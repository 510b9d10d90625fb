//! Texts of a user, as words.

ghost use Rattle.std.specs.Prelude.{◌≡◌, IfOk, Some, None, is_none, if◌then◌else◌};
ghost use Rattle.world_script.specs.Command as spec;
ghost use Rattle.world_script.specs.Command.{with_text, if_new};
ghost use Rattle.world_script.specs.TakenWords.{Takes};

use auth_db::Caps;
use common_types::{Name, OutOfMemory};
use script_text::Words;
use std::alloc::Global;

/// Sets a text if it is not set yet. Returns whether it did.
fn set_new(slot: &mut Option<Name>, text: Name) -> bool
    ensures set { result ≡ is_none slot.old }
    ensures text { slot.new ≡ if result then Some text else slot.old }
{
    if slot.is_some() {
        return false;
    }
    *slot = Some(text);
    true
}

/// Adds the text of a type that has none, and says whether it did.
fn add_text(caps: &mut Caps, kind: &str, text: Name) -> bool
    ensures { with_text kind.now text caps.old ≡ if result then Some caps.new else None }
{
    match kind {
        "mon" => set_new(&mut caps.mon, text),
        "mgr" => set_new(&mut caps.mgr, text),
        "mds" => set_new(&mut caps.mds, text),
        "osd" => set_new(&mut caps.osd, text),
        _ => false,
    }
}

/// Types of daemons, each with its text, up to the end of the line.
pub(crate) fn texts(alloc: Global, words: &mut Words<'_>) -> Result<Option<Caps>, OutOfMemory>
    ensures { IfOk result (Takes spec.texts words.old words.new) }
{
    let mut caps = Caps::none();
    while !words.is_empty() {
        let Some(kind) = words.next_word() else {
            return Ok(None);
        };
        let Some(text) = words.next_word() else {
            return Ok(None);
        };
        let text = Name::new(alloc, text)?;
        if !add_text(&mut caps, kind, text) {
            return Ok(None);
        }
    }
    Ok(Some(caps))
}
