//! Answers with the grants for which they hold.

ghost use Rattle.std.specs.Prelude.{◌≡◌, ◌++◌, None, Some, IfOk, OnOk, flat_map, string_bytes};
ghost use Rattle.rights_core.specs.Reports.{report_from};
ghost use Rattle.verdict_text.specs.Asked.{calls_fault};
ghost use Rattle.verdict_text.specs.Reasons as spec;

use crate::asked::{Asked, needs_asked};
use crate::caret::push_shown_text;
use crate::format::Format;
use crate::reading::{Reading, Rules};
use crate::reasons_json::{allowed_json, denied_json};
use crate::verdict::{Answer, Verdict, text_of};
use cap_text::{AllowGrant, push_allow};
use ceph_text::push_ceph_grant;
use common_types::OutOfMemory;
use grant_core::Path;
use network_core::Network;
use object_core::NeedsFault;
use rights_core::{Entry, Rights};
use std::alloc::{AllocError, Global};
use std::fmt::Write;
use std::marker::Model;
use verdict_core::{Condition, Needs, Report};

/// How an answer is printed.
#[derive(Clone, Copy, Debug)]
pub struct Printing {
    /// The rules by which the capability text was read. Its grants are written for them.
    pub rules: Rules,
    /// Whether the grants that allow a request are printed.
    pub why: bool,
    pub format: Format,
}

/// A grant of rights, and the first condition of it that a request fails, if it fails one.
#[derive(Debug, Drop)]
pub(crate) struct Reason<'a> {
    pub grant: Entry<'a>,
    pub condition: Option<Condition>,
}

impl<'a> Model for Reason<'a> {
    ghost use Rattle.verdict_text.specs.Reasons as seen;

    ghost Value = { seen.Reason };

    ghost view = { λ r. record { grant = r.grant; condition = r.condition } };
}

/// The condition that the first line gives if it is of this path, and the lines of the grants behind.
fn split_at_path<'a>(
    lines: &'a [(Path, Condition)],
    path: &Path,
) -> (Option<Condition>, &'a [(Path, Condition)])
    ensures condition { result.0 ≡ spec.condition_at path.now lines.now }
    ensures behind { result.1.now ≡ spec.lines_behind path.now lines.now }
{
    match lines.split_first() {
        Some((line, behind)) if path.as_slice() == line.0.as_slice() => (Some(line.1), behind),
        _ => (None, lines),
    }
}

/// Each grant of rights with its condition in a report.
fn reasons<'a>(
    alloc: Global,
    rights: &'a Rights,
    report: &Report,
) -> Result<Vec<Reason<'a>>, OutOfMemory>
    ensures { IfOk result (λ found. found.items ≡ spec.reasons rights.now.grants report.now) }
{
    let mut found = Vec::new(alloc);
    let mut lines = report.lines();
    let mut entries = rights.entries();
    while let Some((grant, others)) = entries.split_first() {
        let (condition, behind) = split_at_path(lines, grant.path);
        found.push(Reason { grant, condition })?;
        lines = behind;
        entries = others;
    }
    Ok(found)
}

/// Adds a grant as texts are written for these rules.
fn push_form(text: &mut String, rules: Rules, grant: &AllowGrant) -> Result<(), OutOfMemory>
    ensures { OnOk result (string_bytes text.new ≡ string_bytes text.old ++ spec.grant_form rules grant.now) }
{
    match rules {
        Rules::Project => push_allow(text, grant),
        Rules::Ceph => push_ceph_grant(text, grant),
    }
}

/// Adds the clause of a network, if there is one.
fn push_network(text: &mut String, network: &Option<Network>) -> Result<(), OutOfMemory>
    ensures { OnOk result (string_bytes text.new ≡ string_bytes text.old ++ spec.network_form network.now) }
{
    match network {
        None => Ok(()),
        Some(Network::Never) => text.push_str(" network never"),
        Some(Network::Range(base, length)) => write!(text, " network {base}/{length}"),
    }
}

/// The text of a grant.
pub(crate) fn grant_text_of(
    alloc: Global,
    rules: Rules,
    entry: &Entry<'_>,
) -> Result<String, OutOfMemory>
    ensures { IfOk result (λ text. string_bytes text ≡ spec.grant_text rules entry.now) }
{
    let mut text = String::new(alloc);
    push_form(&mut text, rules, entry.grant)?;
    push_network(&mut text, &entry.network)?;
    Ok(text)
}

/// Adds a grant at the end of its line.
fn push_grant_behind(
    text: &mut String,
    alloc: Global,
    rules: Rules,
    entry: &Entry<'_>,
) -> Result<(), OutOfMemory>
    ensures { OnOk result (string_bytes text.new ≡ string_bytes text.old ++ spec.grant_behind rules entry.now) }
{
    let grant = grant_text_of(alloc, rules, entry)?;
    text.push_str("   ")?;
    push_shown_text(text, grant.as_str())?;
    text.push_str("\n")
}

/// Adds the line of a grant that denies: its path, its condition, and the grant.
fn push_failed_line(
    text: &mut String,
    alloc: Global,
    rules: Rules,
    entry: &Entry<'_>,
    condition: &Condition,
) -> Result<(), OutOfMemory>
    ensures { OnOk result (string_bytes text.new ≡ string_bytes text.old ++ spec.failed_line rules entry.now (Some condition.now)) }
{
    let path = entry.path;
    write!(text, "{path} {condition}")?;
    push_grant_behind(text, alloc, rules, entry)
}

/// Adds the line of a grant, if it denies.
fn push_denied_line(
    text: &mut String,
    alloc: Global,
    rules: Rules,
    reason: &Reason<'_>,
) -> Result<(), OutOfMemory>
    ensures { OnOk result (string_bytes text.new ≡ string_bytes text.old ++ spec.denied_line rules reason.now) }
{
    match &reason.condition {
        Some(condition) => push_failed_line(text, alloc, rules, &reason.grant, condition),
        None => Ok(()),
    }
}

/// Adds the line of a grant that allows: its path, and the grant.
fn push_allowing_line(
    text: &mut String,
    alloc: Global,
    rules: Rules,
    entry: &Entry<'_>,
) -> Result<(), OutOfMemory>
    ensures { OnOk result (string_bytes text.new ≡ string_bytes text.old ++ spec.allowing_line rules entry.now None) }
{
    let path = entry.path;
    write!(text, "{path}")?;
    push_grant_behind(text, alloc, rules, entry)
}

/// Adds the line of a grant, if it allows.
fn push_allowed_line(
    text: &mut String,
    alloc: Global,
    rules: Rules,
    reason: &Reason<'_>,
) -> Result<(), OutOfMemory>
    ensures { OnOk result (string_bytes text.new ≡ string_bytes text.old ++ spec.allowed_line rules reason.now) }
{
    match &reason.condition {
        Some(_) => Ok(()),
        None => push_allowing_line(text, alloc, rules, &reason.grant),
    }
}

/// Adds the line of each grant that denies.
fn push_denied_lines(
    text: &mut String,
    alloc: Global,
    rules: Rules,
    reasons: &[Reason<'_>],
) -> Result<(), OutOfMemory>
    ensures { OnOk result (string_bytes text.new ≡ string_bytes text.old ++ flat_map (spec.denied_line rules) reasons.now) }
{
    for reason in reasons {
        push_denied_line(text, alloc, rules, reason)?;
    }
    Ok(())
}

/// Adds the line of each grant that allows.
fn push_allowed_lines(
    text: &mut String,
    alloc: Global,
    rules: Rules,
    reasons: &[Reason<'_>],
) -> Result<(), OutOfMemory>
    ensures { OnOk result (string_bytes text.new ≡ string_bytes text.old ++ flat_map (spec.allowed_line rules) reasons.now) }
{
    for reason in reasons {
        push_allowed_line(text, alloc, rules, reason)?;
    }
    Ok(())
}

/// The lines of a denial.
fn denied_text(alloc: Global, rules: Rules, reasons: &[Reason<'_>]) -> Result<String, OutOfMemory>
    ensures { IfOk result (λ text. string_bytes text ≡ spec.denied_text rules reasons.now) }
{
    let mut text = String::from_str(alloc, "deny\n")?;
    push_denied_lines(&mut text, alloc, rules, reasons)?;
    Ok(text)
}

/// The lines of an answer that allows.
fn allowed_text(alloc: Global, rules: Rules, reasons: &[Reason<'_>]) -> Result<String, OutOfMemory>
    ensures { IfOk result (λ text. string_bytes text ≡ spec.allowed_text rules reasons.now) }
{
    let mut text = String::from_str(alloc, "allow\n")?;
    push_allowed_lines(&mut text, alloc, rules, reasons)?;
    Ok(text)
}

/// A denial, as a text or as a document.
fn denied_by(alloc: Global, how: Printing, reasons: &[Reason<'_>]) -> Result<String, OutOfMemory>
    ensures { IfOk result (λ text. string_bytes text ≡ spec.denied_by how.format how.rules reasons.now) }
{
    match how.format {
        Format::Text => denied_text(alloc, how.rules, reasons),
        Format::Json => denied_json(alloc, how.rules, reasons),
    }
}

/// An answer that allows, as a text or as a document.
fn allowed_by(alloc: Global, how: Printing, reasons: &[Reason<'_>]) -> Result<String, OutOfMemory>
    ensures { IfOk result (λ text. string_bytes text ≡ spec.allowed_by how.format how.rules reasons.now) }
{
    match how.format {
        Format::Text => allowed_text(alloc, how.rules, reasons),
        Format::Json => allowed_json(alloc, how.rules, reasons),
    }
}

/// A denial with each grant of the rights.
fn denied(
    alloc: Global,
    how: Printing,
    rights: &Rights,
    report: &Report,
) -> Result<String, OutOfMemory>
    ensures { IfOk result (λ text. string_bytes text ≡ spec.denied_by how.format how.rules (spec.reasons rights.now.grants report.now)) }
{
    let reasons = reasons(alloc, rights, report)?;
    denied_by(alloc, how, reasons.as_slice())
}

/// An answer that allows, with the grants that do.
fn allowed(
    alloc: Global,
    how: Printing,
    rights: &Rights,
    asked: &Asked<'_>,
    needs: &Needs,
) -> Result<String, OutOfMemory>
    ensures { IfOk result (λ text. string_bytes text ≡ spec.allowed_by how.format how.rules
        (spec.reasons rights.now.grants (report_from rights.now asked.now.target needs.now asked.now.tick asked.now.from))) }
{
    let report = rights.report(alloc, &asked.target, needs, asked.tick, &asked.from)?;
    let reasons = reasons(alloc, rights, &report)?;
    allowed_by(alloc, how, reasons.as_slice())
}

/// An answer that allows, with the grants that do.
fn why_allowed(
    alloc: Global,
    how: Printing,
    rights: &Rights,
    asked: &Asked<'_>,
) -> Result<String, OutOfMemory>
    ensures { IfOk result (λ text. string_bytes text ≡ spec.why_allowed how rights.now asked.now (calls_fault asked.now)) }
{
    match needs_asked(alloc, asked) {
        Ok(needs) => allowed(alloc, how, rights, asked, &needs),
        Err(NeedsFault::OutOfMemory) => Err(AllocError),
        Err(_) => text_of(alloc, &Ok(Verdict::Allowed), how.format),
    }
}

/// The answer of rights.
fn judged_by(
    alloc: Global,
    how: Printing,
    rights: &Rights,
    asked: &Asked<'_>,
    answer: &Answer,
) -> Result<String, OutOfMemory>
    ensures { IfOk result (λ text. string_bytes text ≡ spec.judged_by how rights.now asked.now answer.now) }
{
    match answer {
        Ok(Verdict::Allowed) if how.why => why_allowed(alloc, how, rights, asked),
        Ok(Verdict::Denied(report)) => denied(alloc, how, rights, report),
        _ => text_of(alloc, answer, how.format),
    }
}

/// What is printed of the answer of a text that was read: as a text `allow`; or `deny` and a line `PATH CONDITION   GRANT` for
/// each grant; or `depends` and a line `allow --from ADDRESS` and a line `deny --from ADDRESS`; or a line `refused FAULT`. With
/// `why` there is a line `PATH   GRANT` below `allow` for each grant that allows the request by itself.
///
/// As a document it has the member `verdict`; `report` at a denial, with `path`, `condition` and `grant` of each grant; `grants`
/// with `path` and `grant` where it says why it allows; and `fault` at a refusal, and `byte` where one is at fault.
///
/// A grant is written as it is read by the rules of `how`. Bytes outside 32 to 126 are shown as `\x` and two hexadecimal digits
/// in lines. The only error is out of memory.
pub fn verdict_by(
    alloc: Global,
    how: Printing,
    read: &Reading,
    asked: &Asked<'_>,
    answer: &Answer,
) -> Result<String, OutOfMemory>
    ensures { IfOk result (λ text. string_bytes text ≡ spec.printed_by how read.now asked.now answer.now) }
{
    match read {
        Ok(rights) => judged_by(alloc, how, rights, asked, answer),
        Err(_) => text_of(alloc, answer, how.format),
    }
}
