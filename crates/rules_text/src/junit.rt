//! Checked rules as a JUnit document.

ghost use Rattle.std.specs.Prelude.{◌≡◌, ◌++◌, ◌<◌, ◌&&◌, nat_le, IfOk, IsTrue, OnOk, flat_map, string_bytes};
ghost use Rattle.rules_text.specs.Junit as spec;

use crate::checked::{CheckedRule, kept_count};
use crate::file::RuleLine;
use crate::report::push_founds;
use common_types::{OutOfMemory, push_escape};
use rules_core::Outcome;
use std::alloc::Global;
use std::fmt::Write;
use verdict_text::{ReadEntity, Rules, rules_word};

/// Whether a byte is from 32 to 126.
fn is_shown(byte: u8) -> bool
    ensures shown { result ≡ (nat_le 32 byte && nat_le byte 126) }
    ensures ascii { IsTrue result → byte < 128 }
{
    32 <= byte && byte <= 126
}

fn push_other(text: &mut String, byte: u8) -> Result<(), OutOfMemory>
    ensures { OnOk result (string_bytes text.new ≡ string_bytes text.old ++ spec.other_glyph byte) }
{
    if is_shown(byte) {
        text.push(char::from(byte))
    } else {
        push_escape(text, byte)
    }
}

/// Adds a byte as XML has it.
fn push_glyph(text: &mut String, byte: u8) -> Result<(), OutOfMemory>
    ensures { OnOk result (string_bytes text.new ≡ string_bytes text.old ++ spec.glyph byte) }
{
    if byte == b'&' {
        text.push_str("&amp;")
    } else if byte == b'<' {
        text.push_str("&lt;")
    } else if byte == b'>' {
        text.push_str("&gt;")
    } else if byte == b'"' {
        text.push_str("&quot;")
    } else if byte == b'\n' {
        text.push_str("\n")
    } else {
        push_other(text, byte)
    }
}

/// Adds bytes as XML has them.
fn push_glyphs(text: &mut String, bytes: &[u8]) -> Result<(), OutOfMemory>
    ensures { OnOk result (string_bytes text.new ≡ string_bytes text.old ++ spec.escaped bytes.now) }
{
    for byte in bytes {
        push_glyph(text, *byte)?;
    }
    Ok(())
}

/// Adds a text as XML has it.
fn push_escaped(text: &mut String, more: &str) -> Result<(), OutOfMemory>
    ensures { OnOk result (string_bytes text.new ≡ string_bytes text.old ++ spec.escaped more.now) }
{
    push_glyphs(text, more.as_bytes())
}

fn push_failure(text: &mut String, message: &str, body: &str) -> Result<(), OutOfMemory>
    ensures { OnOk result (string_bytes text.new ≡ string_bytes text.old ++ spec.failure message.now body.now) }
{
    text.push_str("<failure message=\"")?;
    text.push_str(message)?;
    text.push_str("\">")?;
    push_escaped(text, body)?;
    text.push_str("</failure>\n")
}

/// Adds why a rule fails, if it does.
fn push_outcome(
    text: &mut String,
    alloc: Global,
    entities: &[ReadEntity],
    line: &RuleLine,
    outcome: &Outcome,
) -> Result<(), OutOfMemory>
    ensures { OnOk result (string_bytes text.new ≡ string_bytes text.old ++ spec.outcome_body entities.now line.now outcome.now) }
{
    match outcome {
        Outcome::Nobody => push_failure(text, "names nobody", ""),
        Outcome::Kept => Ok(()),
        Outcome::Broken(founds) => {
            let mut body = String::new(alloc);
            push_founds(&mut body, entities, &line.rule, founds.as_slice())?;
            push_failure(text, "fails", body.as_str())
        }
    }
}

/// Adds the first line of a rule.
fn push_case_head(text: &mut String, line: &RuleLine) -> Result<(), OutOfMemory>
    ensures { OnOk result (string_bytes text.new ≡ string_bytes text.old ++ spec.case_head line.now) }
{
    let number = line.line;
    text.push_str("<testcase classname=\"rules\" name=\"")?;
    write!(text, "{number}")?;
    text.push_str(" ")?;
    push_escaped(text, line.text.as_str())?;
    text.push_str("\">\n")
}

/// Adds the case of a rule.
fn push_case(
    text: &mut String,
    alloc: Global,
    entities: &[ReadEntity],
    one: &CheckedRule<'_>,
) -> Result<(), OutOfMemory>
    ensures { OnOk result (string_bytes text.new ≡ string_bytes text.old ++ spec.case_of entities.now one.now) }
{
    push_case_head(text, one.line)?;
    push_outcome(text, alloc, entities, one.line, &one.outcome)?;
    text.push_str("</testcase>\n")
}

fn push_cases(
    text: &mut String,
    alloc: Global,
    entities: &[ReadEntity],
    all: &[CheckedRule<'_>],
) -> Result<(), OutOfMemory>
    ensures { OnOk result (string_bytes text.new ≡ string_bytes text.old ++ flat_map (spec.case_of entities.now) all.now) }
{
    for one in all {
        push_case(text, alloc, entities, one)?;
    }
    Ok(())
}

/// Adds the beginning of the test suite, which says by which rules capability texts are read.
fn push_suite(text: &mut String, by: Rules) -> Result<(), OutOfMemory>
    ensures { OnOk result (string_bytes text.new ≡ string_bytes text.old ++ spec.suite by) }
{
    text.push_str("<?xml version=\"1.0\" encoding=\"UTF-8\"?>\n<testsuites>\n")?;
    text.push_str("<testsuite name=\"osdgate check --rules ")?;
    text.push_str(rules_word(by))
}

/// Adds how many rules there are, and how many of them fail.
fn push_counts(text: &mut String, all: &[CheckedRule<'_>]) -> Result<(), OutOfMemory>
    ensures { OnOk result (string_bytes text.new ≡ string_bytes text.old ++ spec.counts all.now) }
{
    let count = all.len();
    let failed = count.saturating_sub(kept_count(all));
    write!(text, "\" tests=\"{count}\" failures=\"{failed}\">\n")
}

fn push_head(text: &mut String, by: Rules, all: &[CheckedRule<'_>]) -> Result<(), OutOfMemory>
    ensures { OnOk result (string_bytes text.new ≡ string_bytes text.old ++ spec.head by all.now) }
{
    push_suite(text, by)?;
    push_counts(text, all)
}

/// Checked rules as a JUnit document: a test suite, whose name says by which rules capability texts are read, with a case for
/// each rule. A rule that fails or names nobody has a failure, with the lines of [`crate::check_report`] below the rule's.
///
/// Bytes outside 32 to 126 are shown as `\x` and two hexadecimal digits, except the ends of lines. The only error is out of memory.
pub fn check_junit(
    alloc: Global,
    by: Rules,
    entities: &[ReadEntity],
    all: &[CheckedRule<'_>],
) -> Result<String, OutOfMemory>
    ensures { IfOk result (λ text. string_bytes text ≡ spec.document by entities.now all.now) }
{
    let mut text = String::new(alloc);
    push_head(&mut text, by, all)?;
    push_cases(&mut text, alloc, entities, all)?;
    text.push_str("</testsuite>\n</testsuites>\n")?;
    Ok(text)
}
