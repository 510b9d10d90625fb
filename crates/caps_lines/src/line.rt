//! The line that gives an entity its texts, or removes it.

ghost use Rattle.std.specs.Prelude.{◌≡◌, ◌∷◌, [], ◌++◌, OnOk, codes, string_bytes};
ghost use Rattle.caps_lines.specs.Lines as spec;
ghost use Rattle.caps_lines.specs.Shell.{line_of, more_words};

use crate::words::push_shell_word;
use common_types::OutOfMemory;
use gate_files::ServiceText;

/// What a line does with an entity.
#[derive(Clone, Copy, Debug, PartialEq, Eq)]
pub enum Verb {
    /// The entity is made, with a new key.
    Add,
    /// All of its texts are replaced.
    Replace,
    /// The entity is removed, with its key.
    Remove,
}

impl Verb {
    /// The word of the command in front of the entity's name.
    fn word(self) -> &'static str
        ensures { result.now ≡ spec.verb_word self }
    {
        match self {
            Verb::Add => "add",
            Verb::Replace => "caps",
            Verb::Remove => "rm",
        }
    }
}

/// Adds a blank and a word.
fn push_more(line: &mut String, word: &str) -> Result<(), OutOfMemory>
    ensures { OnOk result (string_bytes line.new ≡ string_bytes line.old ++ more_words (word.now ∷ [])) }
{
    line.push_str(" ")?;
    push_shell_word(line, word)
}

/// Adds a service and its text.
fn push_text(line: &mut String, service: &str, text: &str) -> Result<(), OutOfMemory>
    ensures { OnOk result (string_bytes line.new ≡ string_bytes line.old ++ more_words (service.now ∷ text.now ∷ [])) }
{
    push_more(line, service)?;
    push_more(line, text)
}

/// Adds services and their texts.
fn push_texts(line: &mut String, texts: &[&ServiceText]) -> Result<(), OutOfMemory>
    ensures { OnOk result (string_bytes line.new ≡ string_bytes line.old ++ more_words (spec.text_words texts.now)) }
{
    for one in texts {
        push_text(line, one.service.name(), one.text.as_str())?;
    }
    Ok(())
}

/// Adds the text for object stores, if there is one.
fn push_osd(line: &mut String, osd: &str) -> Result<(), OutOfMemory>
    ensures { OnOk result (string_bytes line.new ≡ string_bytes line.old ++ more_words (spec.osd_words osd.now)) }
{
    if osd.is_empty() {
        return Ok(());
    }
    push_text(line, "osd", osd)
}

/// Adds a line that gives an entity these texts, and an end of line. An empty text for object stores is left out, as `ceph`
/// refuses it.
///
/// # Errors
///
/// Out of memory: the line has a beginning of what it would get.
pub fn push_line(
    line: &mut String,
    verb: Verb,
    entity: &str,
    services: &[&ServiceText],
    osd: &str,
) -> Result<(), OutOfMemory>
    ensures { OnOk result (string_bytes line.new ≡ string_bytes line.old ++ (line_of (spec.command verb entity.now services.now osd.now) ++ codes "\n")) }
{
    line.push_str("ceph auth")?;
    push_text(line, verb.word(), entity)?;
    push_texts(line, services)?;
    push_osd(line, osd)?;
    line.push_str("\n")
}
