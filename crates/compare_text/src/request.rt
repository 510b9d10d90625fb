//! Requests as the words of a shell.

ghost use Rattle.std.specs.Prelude.{◌≡◌, ◌++◌, string_bytes, OnOk};
ghost use Rattle.std.specs.List.{flat_map};
ghost use Rattle.compare_text.specs.Calls.{call_words};
ghost use Rattle.compare_text.specs.Request.{addressed_words, example_line, example_lines, from_words, indented_lines, needs_words, namespace_words, pair_words, request_words, tag_part, target_words, tag_words};
ghost use Rattle.compare_text.specs.Words.{flag_words, quoted, quoted_byte, shell_word};

use crate::call_words::{push_call, push_quoted_class};
use crate::widening::AddressedExample;
use common_types::{AppTags, Name, OutOfMemory, are_word_bytes};
use compare_core::{Example, OwnedTarget};
use network_core::Address;
use std::fmt::Write;
use verdict_core::{ClassCall, Needs};

/// Adds a text's bytes as they stand between single quotes.
pub(crate) fn push_inside(line: &mut String, text: &str) -> Result<(), OutOfMemory>
    ensures { OnOk result (string_bytes line.new ≡ string_bytes line.old ++ flat_map quoted_byte text.now) }
{
    let mut rest = text;
    while let Some((front, behind)) = rest.split_once('\'') {
        line.push_str(front)?;
        line.push_str("'\\''")?;
        rest = behind;
    }
    line.push_str(rest)
}

fn push_quoted(line: &mut String, text: &str) -> Result<(), OutOfMemory>
    ensures { OnOk result (string_bytes line.new ≡ string_bytes line.old ++ quoted text.now) }
{
    line.push_str("'")?;
    push_inside(line, text)?;
    line.push_str("'")
}

/// Adds a word that a shell reads as the name.
pub(crate) fn push_word(line: &mut String, name: &Name) -> Result<(), OutOfMemory>
    ensures { OnOk result (string_bytes line.new ≡ string_bytes line.old ++ shell_word name.now) }
{
    let text = name.as_str();
    if !text.is_empty() && are_word_bytes(text.as_bytes()) {
        line.push_str(text)
    } else {
        push_quoted(line, text)
    }
}

/// Adds an option and its value.
fn push_option(line: &mut String, option: &str, value: &Name) -> Result<(), OutOfMemory>
    ensures { OnOk result (string_bytes line.new ≡ string_bytes line.old ++ (option.now ++ shell_word value.now)) }
{
    line.push_str(option)?;
    push_word(line, value)
}

/// Adds a name of a tag: bare if a shell and the option read it as it is, else between quotes as in a capability text, and all
/// that between a shell's.
fn push_tag_part(line: &mut String, name: &Name) -> Result<(), OutOfMemory>
    ensures { OnOk result (string_bytes line.new ≡ string_bytes line.old ++ tag_part name.now) }
{
    let text = name.as_str();
    if !text.is_empty() && are_word_bytes(text.as_bytes()) {
        line.push_str(text)
    } else {
        push_quoted_class(line, name)
    }
}

/// Adds words in front of a name of a tag, and the name.
fn push_tag_option(line: &mut String, option: &str, name: &Name) -> Result<(), OutOfMemory>
    ensures { OnOk result (string_bytes line.new ≡ string_bytes line.old ++ (option.now ++ tag_part name.now)) }
{
    line.push_str(option)?;
    push_tag_part(line, name)
}

/// Adds the option of a pair of an application.
fn push_pair(line: &mut String, application: &Name, pair: &(Name, Name)) -> Result<(), OutOfMemory>
    ensures { OnOk result (string_bytes line.new ≡ string_bytes line.old ++ pair_words application.now pair.now) }
{
    push_tag_option(line, " --tag ", application)?;
    push_tag_option(line, ":", &pair.0)?;
    push_tag_option(line, "=", &pair.1)
}

fn push_pairs(
    line: &mut String,
    application: &Name,
    pairs: &[(Name, Name)],
) -> Result<(), OutOfMemory>
    ensures { OnOk result (string_bytes line.new ≡ string_bytes line.old ++ flat_map (pair_words application.now) pairs.now) }
{
    for pair in pairs {
        push_pair(line, application, pair)?;
    }
    Ok(())
}

/// Adds the options of an application: one for each pair, since an option takes one alone.
fn push_tag(line: &mut String, app: &AppTags) -> Result<(), OutOfMemory>
    ensures { OnOk result (string_bytes line.new ≡ string_bytes line.old ++ tag_words app.now) }
{
    if app.pairs.as_slice().is_empty() {
        push_tag_option(line, " --tag ", &app.application)
    } else {
        push_pairs(line, &app.application, app.pairs.as_slice())
    }
}

fn push_tags(line: &mut String, tags: &[AppTags]) -> Result<(), OutOfMemory>
    ensures { OnOk result (string_bytes line.new ≡ string_bytes line.old ++ flat_map tag_words tags.now) }
{
    for app in tags {
        push_tag(line, app)?;
    }
    Ok(())
}

fn push_namespace(line: &mut String, namespace: &Name) -> Result<(), OutOfMemory>
    ensures { OnOk result (string_bytes line.new ≡ string_bytes line.old ++ namespace_words namespace.now) }
{
    if namespace.is_empty() {
        return Ok(());
    }
    push_option(line, " --namespace ", namespace)
}

/// Adds a target as arguments of `osdgate verdict`, quoted for a shell. They are `--pool`, `--namespace` if it is not
/// empty, `--object`, and a `--tag` for each pair of an application, or for an application without pairs. The form of
/// the arguments is this project's profile. An `Err` leaves a beginning of them behind the line.
///
/// A name of a tag that has both kinds of quotes is printed, but `--tag` is cut at the second quote.
pub fn push_target(line: &mut String, target: &OwnedTarget) -> Result<(), OutOfMemory>
    ensures { OnOk result (string_bytes line.new ≡ string_bytes line.old ++ target_words target.now) }
{
    line.push_str("--pool ")?;
    push_word(line, &target.pool)?;
    push_namespace(line, &target.namespace)?;
    line.push_str(" --object ")?;
    push_word(line, &target.object)?;
    push_tags(line, target.tags.as_slice())
}

fn push_calls(line: &mut String, calls: &[ClassCall]) -> Result<(), OutOfMemory>
    ensures { OnOk result (string_bytes line.new ≡ string_bytes line.old ++ flat_map call_words calls.now) }
{
    for call in calls {
        push_call(line, call)?;
    }
    Ok(())
}

/// Adds a word where it is set.
pub(crate) fn push_flag(line: &mut String, set: bool, word: &str) -> Result<(), OutOfMemory>
    ensures { OnOk result (string_bytes line.new ≡ string_bytes line.old ++ flag_words set word.now) }
{
    if set { line.push_str(word) } else { Ok(()) }
}

fn push_needs(line: &mut String, needs: &Needs) -> Result<(), OutOfMemory>
    ensures { OnOk result (string_bytes line.new ≡ string_bytes line.old ++ needs_words needs.now) }
{
    push_flag(line, needs.reads, " --read")?;
    push_flag(line, needs.writes, " --write")?;
    push_calls(line, needs.calls.as_slice())
}

/// Adds the option of an address, if there is one.
fn push_from(line: &mut String, from: &Option<Address>) -> Result<(), OutOfMemory>
    ensures { OnOk result (string_bytes line.new ≡ string_bytes line.old ++ from_words from.now) }
{
    match from {
        Some(address) => write!(line, " --from {address}"),
        None => Ok(()),
    }
}

/// Adds the request of an example in words of a shell: its target, as [`push_target`] writes it, `--read` and `--write`, and its
/// calls, by their names or by the option `--call`. An `Err` is out of memory alone, and leaves a front of them behind the line.
pub fn push_request(line: &mut String, example: &Example) -> Result<(), OutOfMemory>
    ensures { OnOk result (string_bytes line.new ≡ string_bytes line.old ++ request_words example.now) }
{
    push_target(line, &example.target)?;
    push_needs(line, &example.needs)
}

/// Adds the request of an example, as [`push_request`] writes it, and the address that it comes from, if it has one.
pub(crate) fn push_addressed(line: &mut String, found: &AddressedExample) -> Result<(), OutOfMemory>
    ensures { OnOk result (string_bytes line.new ≡ string_bytes line.old ++ addressed_words found.now) }
{
    push_request(line, &found.example)?;
    push_from(line, &found.from)
}

/// Adds the line of an example: the sign, the grant's path, and the request in words of a shell, as [`push_addressed`]
/// writes it, and a line feed.
fn push_example(line: &mut String, sign: &str, found: &AddressedExample) -> Result<(), OutOfMemory>
    ensures { OnOk result (string_bytes line.new ≡ string_bytes line.old ++ example_line sign.now found.now) }
{
    line.push_str(sign)?;
    let path = &found.example.path;
    write!(line, "{path}")?;
    line.push_str(" ")?;
    push_addressed(line, found)?;
    line.push_str("\n")
}

fn push_examples(
    text: &mut String,
    sign: &str,
    examples: &[AddressedExample],
) -> Result<(), OutOfMemory>
    ensures { OnOk result (string_bytes text.new ≡ string_bytes text.old ++ flat_map (example_line sign.now) examples.now) }
{
    for example in examples {
        push_example(text, sign, example)?;
    }
    Ok(())
}

/// Adds the lines of a comparison's examples: `+ PATH REQUEST` for each of what only the new grants allow, and then
/// `- PATH REQUEST` for each of what only the old ones did, where REQUEST is as [`push_addressed`] writes it. An `Err` is out
/// of memory alone, and leaves a front of them behind the text.
pub fn push_example_lines(
    text: &mut String,
    gained: &[AddressedExample],
    lost: &[AddressedExample],
) -> Result<(), OutOfMemory>
    ensures { OnOk result (string_bytes text.new ≡ string_bytes text.old ++ example_lines gained.now lost.now) }
{
    push_examples(text, "+ ", gained)?;
    push_examples(text, "- ", lost)
}

/// Adds the same lines as [`push_example_lines`], indented by two blanks. An `Err` is out of memory alone, and leaves a
/// front of them behind the text.
pub fn push_indented_lines(
    text: &mut String,
    gained: &[AddressedExample],
    lost: &[AddressedExample],
) -> Result<(), OutOfMemory>
    ensures { OnOk result (string_bytes text.new ≡ string_bytes text.old ++ indented_lines gained.now lost.now) }
{
    push_examples(text, "  + ", gained)?;
    push_examples(text, "  - ", lost)
}
