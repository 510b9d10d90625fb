//! Checked rules as a text.

ghost use Rattle.std.specs.Prelude.{◌≡◌, ◌++◌, IfOk, OnOk, flat_map, option_copied, slice_get, string_bytes};
ghost use Rattle.compare_text.specs.Request.{addressed_words, from_words};
ghost use Rattle.rules_text.specs.Report as spec;

use crate::checked::{CheckedRule, broken_count, kept_count};
use crate::file::RuleLine;
use common_types::OutOfMemory;
use compare_text::{AddressedExample, push_request};
use network_core::Address;
use rules_core::{Demand, Finding, Found, Outcome, Rule};
use std::alloc::Global;
use std::fmt::Write;
use verdict_text::{ReadEntity, push_name, push_shown_text};

/// The name of the entity at an index.
pub(crate) fn name_at(entities: &[ReadEntity], place: usize) -> &str
    ensures { result.now ≡ spec.name_at entities.now place }
{
    match entities.get(place) {
        Some(entity) => entity.name.as_str(),
        None => "",
    }
}

/// Adds why the text of the entity at an index is refused.
pub(crate) fn push_fault_of(
    text: &mut String,
    entities: &[ReadEntity],
    place: usize,
) -> Result<(), OutOfMemory>
    ensures { OnOk result (string_bytes text.new ≡ string_bytes text.old ++ spec.fault_of entities.now place) }
{
    let Some(entity) = entities.get(place) else {
        return Ok(());
    };
    match entity.osd.read() {
        Ok(_) => Ok(()),
        Err(fault) => write!(text, "{fault}"),
    }
}

fn demand_words(demand: Demand) -> &'static str
    ensures { result.now ≡ spec.demand_words demand }
{
    match demand {
        Demand::Never => " is allowed by its grant ",
        Demand::Always => " is denied, by the rule's grant ",
    }
}

/// Whose grant a request shows that breaks the rule.
fn rule_words(rule: &Rule) -> &'static str
    ensures { result.now ≡ spec.rule_words rule.now }
{
    match rule {
        Rule::Each { demand, .. } => demand_words(*demand),
        Rule::Apart { .. } => demand_words(Demand::Never),
    }
}

/// Adds the option of an address, if there is one.
fn push_from(text: &mut String, from: &Option<Address>) -> Result<(), OutOfMemory>
    ensures { OnOk result (string_bytes text.new ≡ string_bytes text.old ++ from_words from.now) }
{
    match from {
        Some(address) => write!(text, " --from {address}"),
        None => Ok(()),
    }
}

/// Adds a request in words of `osdgate verdict`.
pub(crate) fn push_addressed(text: &mut String, found: &AddressedExample) -> Result<(), OutOfMemory>
    ensures { OnOk result (string_bytes text.new ≡ string_bytes text.old ++ addressed_words found.now) }
{
    push_request(text, &found.example)?;
    push_from(text, &found.from)
}

/// Adds the line of an entity, a grant and a request.
fn push_request_line(
    text: &mut String,
    words: &str,
    name: &str,
    found: &AddressedExample,
) -> Result<(), OutOfMemory>
    ensures { OnOk result (string_bytes text.new ≡ string_bytes text.old ++ spec.request_line words.now name.now found.now) }
{
    text.push_str("  ")?;
    push_name(text, name)?;
    text.push_str(words)?;
    let path = &found.example.path;
    write!(text, "{path}")?;
    text.push_str(": ")?;
    push_addressed(text, found)?;
    text.push_str("\n")
}

/// Adds the line of an entity that is not checked.
fn push_unread_line(
    text: &mut String,
    entities: &[ReadEntity],
    place: usize,
) -> Result<(), OutOfMemory>
    ensures { OnOk result (string_bytes text.new ≡ string_bytes text.old ++ spec.unread_line (spec.name_at entities.now place) (spec.fault_of entities.now place)) }
{
    text.push_str("  ")?;
    push_name(text, name_at(entities, place))?;
    text.push_str(" is not checked: ")?;
    push_fault_of(text, entities, place)?;
    text.push_str("\n")
}

/// Adds the lines of what is found of the entity at an index.
fn push_finding(
    text: &mut String,
    entities: &[ReadEntity],
    rule: &Rule,
    place: usize,
    finding: &Finding,
) -> Result<(), OutOfMemory>
    ensures { OnOk result (string_bytes text.new ≡ string_bytes text.old ++ spec.finding_lines entities.now rule.now place finding.now) }
{
    let words = rule_words(rule);
    match finding {
        Finding::Unread => push_unread_line(text, entities, place),
        Finding::Breach(found) => {
            push_request_line(text, words, name_at(entities, place), found)
        }
        Finding::Crossed(other, crossing) => {
            push_request_line(text, words, name_at(entities, place), &crossing.one)?;
            push_request_line(text, words, name_at(entities, *other), &crossing.other)
        }
    }
}

/// Adds the lines of what is found of each entity that breaks a rule.
pub(crate) fn push_founds(
    text: &mut String,
    entities: &[ReadEntity],
    rule: &Rule,
    founds: &[Found],
) -> Result<(), OutOfMemory>
    ensures { OnOk result (string_bytes text.new ≡ string_bytes text.old ++ spec.found_lines entities.now rule.now founds.now) }
{
    for found in founds {
        push_finding(text, entities, rule, found.place, &found.finding)?;
    }
    Ok(())
}

pub(crate) fn outcome_word(outcome: &Outcome) -> &'static str
    ensures { result.now ≡ spec.outcome_word outcome.now }
{
    match outcome {
        Outcome::Nobody => "nobody",
        Outcome::Kept => "holds",
        Outcome::Broken(_) => "fails",
    }
}

/// Adds the line of a rule.
fn push_rule_line(text: &mut String, outcome: &Outcome, line: &RuleLine) -> Result<(), OutOfMemory>
    ensures { OnOk result (string_bytes text.new ≡ string_bytes text.old ++ spec.rule_line outcome.now line.now) }
{
    text.push_str(outcome_word(outcome))?;
    let number = line.line;
    write!(text, " {number} ")?;
    push_shown_text(text, line.text.as_str())?;
    text.push_str("\n")
}

/// Adds the lines of a rule.
fn push_outcome(
    text: &mut String,
    entities: &[ReadEntity],
    quiet: bool,
    line: &RuleLine,
    outcome: &Outcome,
) -> Result<(), OutOfMemory>
    ensures { OnOk result (string_bytes text.new ≡ string_bytes text.old ++ spec.outcome_lines entities.now quiet line.now outcome.now) }
{
    match outcome {
        Outcome::Nobody => push_rule_line(text, outcome, line),
        Outcome::Kept => {
            if quiet {
                Ok(())
            } else {
                push_rule_line(text, outcome, line)
            }
        }
        Outcome::Broken(founds) => {
            push_rule_line(text, outcome, line)?;
            push_founds(text, entities, &line.rule, founds.as_slice())
        }
    }
}

/// Adds the lines of each rule.
fn push_all(
    text: &mut String,
    entities: &[ReadEntity],
    quiet: bool,
    all: &[CheckedRule<'_>],
) -> Result<(), OutOfMemory>
    ensures { OnOk result (string_bytes text.new ≡ string_bytes text.old ++ flat_map (spec.checked_lines entities.now quiet) all.now) }
{
    for one in all {
        push_outcome(text, entities, quiet, one.line, &one.outcome)?;
    }
    Ok(())
}

/// Adds the last line: how many rules there are, how many of them hold, do not hold, and name nobody.
fn push_last_line(text: &mut String, all: &[CheckedRule<'_>]) -> Result<(), OutOfMemory>
    ensures { OnOk result (string_bytes text.new ≡ string_bytes text.old ++ spec.last_line all.now) }
{
    let count = all.len();
    let kept = kept_count(all);
    let broken = broken_count(all);
    let others = count.saturating_sub(kept).saturating_sub(broken);
    write!(
        text,
        "rules {count}, hold {kept}, fail {broken}, name nobody {others}\n"
    )
}

/// What is printed of checked rules: a line for each, `holds`, `fails` or `nobody`, its line in the file and its text; below one
/// that fails a line for each entity that breaks it, with the grant and a request in the arguments of `osdgate verdict`; and a
/// last line with counts. With `quiet` a rule that holds has no line.
///
/// The only error is out of memory.
pub fn check_report(
    alloc: Global,
    entities: &[ReadEntity],
    quiet: bool,
    all: &[CheckedRule<'_>],
) -> Result<String, OutOfMemory>
    ensures { IfOk result (λ text. string_bytes text ≡ spec.report entities.now quiet all.now) }
{
    let mut text = String::new(alloc);
    push_all(&mut text, entities, quiet, all)?;
    push_last_line(&mut text, all)?;
    Ok(text)
}
