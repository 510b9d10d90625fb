//! Calls as the words of a shell.

ghost use Rattle.std.specs.Prelude.{◌≡◌, ◌++◌, ◌==◌, [], ◌∷◌, string_bytes, OnOk};
ghost use Rattle.std.specs.List.{list_any};
ghost use Rattle.cap_text.specs.Printed as cap;
ghost use Rattle.compare_text.specs.Calls as spec;
ghost use Rattle.compare_text.specs.Calls.{call_words, class_words, kind_words, known_words, stated_words};

use crate::request::{push_flag, push_inside, push_word};
use common_types::{Name, OutOfMemory, are_word_bytes};
use verdict_core::ClassCall;

/// Whether the class registry has the call's method, and says of it what the call does.
fn is_known(call: &ClassCall) -> bool
    ensures { result ≡ spec.is_known call.now }
{
    let class = call.class.as_str();
    let method = call.method.as_str();
    if class == "counter" && method == "get" {
        call.class_reads && !call.class_writes && call.listed
    } else if class == "counter" && method == "add" {
        call.class_reads && call.class_writes && call.listed
    } else if class == "vault" && method == "peek" {
        call.class_reads && !call.class_writes && !call.listed
    } else {
        false
    }
}

fn has_full_stop(bytes: &[u8]) -> bool
    ensures { result ≡ list_any (λ byte. byte == 46) bytes.now }
{
    bytes.iter().any(|byte| *byte == b'.')
}

fn has_double_quote(bytes: &[u8]) -> bool
    ensures { result ≡ list_any (λ byte. byte == 34) bytes.now }
{
    bytes.iter().any(|byte| *byte == b'"')
}

/// Whether a class stands bare in a call.
fn is_bare(class: &Name) -> bool
    ensures { result ≡ spec.is_bare class.now }
{
    let bytes = class.as_str().as_bytes();
    !class.is_empty() && are_word_bytes(bytes) && !has_full_stop(bytes)
}

/// The kind of quotes that a class is put between.
fn quote_for(class: &Name) -> &'static str
    ensures { result.now ≡ cap.quote_for class.now ∷ [] }
{
    if has_double_quote(class.as_str().as_bytes()) {
        "'"
    } else {
        "\""
    }
}

/// Adds a class between quotes as in a capability text, and all that between a shell's.
pub(crate) fn push_quoted_class(line: &mut String, class: &Name) -> Result<(), OutOfMemory>
    ensures { OnOk result (string_bytes line.new ≡ string_bytes line.old ++ spec.quoted_class class.now) }
{
    let quote = quote_for(class);
    line.push_str("'")?;
    push_inside(line, quote)?;
    push_inside(line, class.as_str())?;
    push_inside(line, quote)?;
    line.push_str("'")
}

fn push_class(line: &mut String, class: &Name) -> Result<(), OutOfMemory>
    ensures { OnOk result (string_bytes line.new ≡ string_bytes line.old ++ class_words class.now) }
{
    if is_bare(class) {
        line.push_str(class.as_str())
    } else {
        push_quoted_class(line, class)
    }
}

/// Adds what a call's method does, and whether its class is on the default list.
fn push_kind(line: &mut String, call: &ClassCall) -> Result<(), OutOfMemory>
    ensures { OnOk result (string_bytes line.new ≡ string_bytes line.old ++ kind_words call.now) }
{
    line.push_str(":")?;
    push_flag(line, call.class_reads, "r")?;
    push_flag(line, call.class_writes, "w")?;
    push_flag(line, call.listed, ":listed")
}

fn push_known(line: &mut String, call: &ClassCall) -> Result<(), OutOfMemory>
    ensures { OnOk result (string_bytes line.new ≡ string_bytes line.old ++ known_words call.now) }
{
    line.push_str(" ")?;
    push_word(line, &call.class)?;
    line.push_str(".")?;
    push_word(line, &call.method)
}

fn push_stated(line: &mut String, call: &ClassCall) -> Result<(), OutOfMemory>
    ensures { OnOk result (string_bytes line.new ≡ string_bytes line.old ++ stated_words call.now) }
{
    line.push_str(" --call ")?;
    push_class(line, &call.class)?;
    line.push_str(".")?;
    push_word(line, &call.method)?;
    push_kind(line, call)
}

/// Adds a call: by its names where the class registry has it so, and else by the option that says what it does.
pub(crate) fn push_call(line: &mut String, call: &ClassCall) -> Result<(), OutOfMemory>
    ensures { OnOk result (string_bytes line.new ≡ string_bytes line.old ++ call_words call.now) }
{
    if is_known(call) {
        push_known(line, call)
    } else {
        push_stated(line, call)
    }
}
