//! The answer of a capability text to a request, as a value and as a text.

ghost use Rattle.std.specs.Prelude.{◌≡◌, IfOk, None, Some, false, string_bytes};
ghost use Rattle.rights_core.specs.Reports.{report_from};
ghost use Rattle.verdict_text.specs.Answer as spec;
ghost use Rattle.verdict_text.specs.Answer.{IsAnswer, IsAnswerOf, IsJudged, IsNeeded};
ghost use Rattle.verdict_text.specs.Asked.{calls_fault};
ghost use Rattle.verdict_text.specs.Documents.{answer_by};
ghost use Rattle.verdict_text.specs.Reasons.{IsVerdictText};
ghost use Rattle.verdict_text.specs.Text as printed;
ghost use Rattle.verdict_text.specs.declared.format.Format.TheVariants as formats;
ghost use Rattle.verdict_text.specs.declared.verdict.Verdict.TheVariants.{Denied};

use crate::asked::{Asked, needs_asked};
use crate::document::answer_json;
use crate::format::Format;
use crate::reading::{Reader, Reading, Rules, TextFault};
use crate::reasons::{Printing, verdict_by};
use common_types::OutOfMemory;
use network_core::Address;
use object_core::NeedsFault;
use rights_core::{Everywhere, Rights, judge_at, judge_everywhere};
use std::alloc::{AllocError, Global};
use std::error::Error;
use std::fmt;
use verdict_core::{Needs, Report};

/// What a request gets. It prints `allow`, or `deny` and a line `PATH CONDITION` for each grant, or `depends` and a line `allow
/// --from ADDRESS` and a line `deny --from ADDRESS`; every line ends with a line feed.
#[derive(Debug)]
pub enum Verdict {
    Allowed,
    Denied(Report),
    /// No address is given, and it is allowed from the one and denied from the other.
    Depends { allowed: Address, denied: Address },
}

impl Drop for Verdict {
    fn drop(self) {
        match self {
            Verdict::Allowed
            | Verdict::Denied(_)
            | Verdict::Depends {
                allowed: _,
                denied: _,
            } => (),
        }
    }
}

/// Why there is no verdict. It prints as the fault that it is.
#[derive(Debug, Drop)]
pub enum VerdictFault {
    /// The capability text grants nothing.
    Text(TextFault),
    /// The calls are refused.
    Calls(NeedsFault),
}

/// A verdict, or the fault that prevents one.
pub type Answer = Result<Verdict, VerdictFault>;

impl fmt::Display for Verdict {
    ghost use Rattle.std.specs.Prelude.{Some};
    ghost use Rattle.verdict_text.specs.Text as printed;

    ghost output = { λ verdict. Some (printed.verdict_text verdict) };

    fn fmt<W: fmt::Write>(&self, f: &mut fmt::Formatter<W>) -> fmt::Result {
        match self {
            Verdict::Allowed => write!(f, "allow\n"),
            Verdict::Denied(report) => write!(f, "deny\n{report}"),
            Verdict::Depends { allowed, denied } => {
                write!(f, "depends\nallow --from {allowed}\ndeny --from {denied}\n")
            }
        }
    }
}

impl fmt::Display for VerdictFault {
    ghost use Rattle.std.specs.Prelude.{Some};
    ghost use Rattle.verdict_text.specs.Text as printed;

    ghost output = { λ fault. Some (printed.fault_text fault) };

    fn fmt<W: fmt::Write>(&self, f: &mut fmt::Formatter<W>) -> fmt::Result {
        match self {
            VerdictFault::Text(fault) => write!(f, "{fault}"),
            VerdictFault::Calls(fault) => write!(f, "{fault}"),
        }
    }
}

impl Error for VerdictFault {}

impl Verdict {
    /// The word for it alone, as it stands in a table: `allow` or `deny`.
    pub fn word(&self) -> &'static str
        ensures { result.now ≡ printed.verdict_word self.now }
    {
        match self {
            Verdict::Allowed => "allow",
            Verdict::Denied(_) => "deny",
            Verdict::Depends { .. } => "depends",
        }
    }
}

/// Denied, with the report.
fn denied(
    alloc: Global,
    rights: &Rights,
    asked: &Asked<'_>,
    needs: &Needs,
) -> Result<Verdict, OutOfMemory>
    ensures { IfOk result (λ verdict. verdict ≡ Denied (report_from rights.now asked.now.target needs.now asked.now.tick asked.now.from)) }
{
    let report = rights.report(alloc, &asked.target, needs, asked.tick, &asked.from)?;
    Ok(Verdict::Denied(report))
}

/// The verdict on a request that comes from an address.
fn judged_at(
    alloc: Global,
    rights: &Rights,
    asked: &Asked<'_>,
    needs: &Needs,
    address: &Address,
) -> Result<Verdict, OutOfMemory>
    requires { asked.now.from ≡ Some address.now }
    ensures { IfOk result (λ verdict. verdict ≡ spec.judged_at rights.now asked.now.target needs.now asked.now.tick address.now) }
{
    if judge_at(alloc, rights, address, &asked.target, needs, asked.tick)? {
        return Ok(Verdict::Allowed);
    }
    denied(alloc, rights, asked, needs)
}

/// The verdict on a request whose address is not given.
fn judged_everywhere(
    alloc: Global,
    rights: &Rights,
    asked: &Asked<'_>,
    needs: &Needs,
) -> Result<Verdict, OutOfMemory>
    requires { asked.now.from ≡ None }
    ensures { IfOk result (IsJudged rights.now asked.now.target needs.now asked.now.tick None) }
{
    match judge_everywhere(alloc, rights, &asked.target, needs, asked.tick)? {
        Everywhere::Allowed => Ok(Verdict::Allowed),
        Everywhere::Denied => denied(alloc, rights, asked, needs),
        Everywhere::Depends { allowed, denied } => Ok(Verdict::Depends { allowed, denied }),
    }
}

/// The verdict of rights on a request.
fn judged(
    alloc: Global,
    rights: &Rights,
    asked: &Asked<'_>,
    needs: &Needs,
) -> Result<Verdict, OutOfMemory>
    ensures { IfOk result (IsJudged rights.now asked.now.target needs.now asked.now.tick asked.now.from) }
{
    match &asked.from {
        Some(address) => judged_at(alloc, rights, asked, needs, address),
        None => judged_everywhere(alloc, rights, asked, needs),
    }
}

/// The answer of rights, which is a verdict if the calls are not refused.
fn answer_rights(alloc: Global, rights: &Rights, asked: &Asked<'_>) -> Result<Answer, OutOfMemory>
    ensures { IfOk result (IsNeeded (calls_fault asked.now) rights.now asked.now) }
{
    match needs_asked(alloc, asked) {
        Ok(needs) => Ok(Ok(judged(alloc, rights, asked, &needs)?)),
        Err(NeedsFault::OutOfMemory) => Err(AllocError),
        Err(fault) => Ok(Err(VerdictFault::Calls(fault))),
    }
}

/// The answer of a text that was read: the fault of the text; or a fault of the calls; or the verdict of its rights. An `Err`
/// is out of memory alone.
pub fn answer_of(alloc: Global, read: &Reading, asked: &Asked<'_>) -> Result<Answer, OutOfMemory>
    ensures { IfOk result (IsAnswerOf read.now asked.now) }
{
    match read {
        Ok(rights) => answer_rights(alloc, rights, asked),
        Err(fault) => Ok(Err(VerdictFault::Text(*fault))),
    }
}

/// Reads a capability text by this project's rules, and answers the request by it as [`answer_of`] does. Its rights end at
/// tick `until`, if at any.
pub fn answer(
    alloc: Global,
    caps: &str,
    until: Option<u64>,
    asked: &Asked<'_>,
) -> Result<Answer, OutOfMemory>
    ensures { IfOk result (IsAnswer Rules.Project caps.now until asked.now) }
{
    let reader = Reader::of(alloc, Rules::Project)?;
    let read = reader.read(alloc, caps, until)?;
    answer_of(alloc, &read, asked)
}

/// The text of an answer: the verdict's, or a line `refused FAULT`.
fn lines_of(alloc: Global, answer: &Answer) -> Result<String, OutOfMemory>
    ensures { IfOk result (λ text. string_bytes text ≡ printed.answer_text answer.now) }
{
    match answer {
        Ok(verdict) => format!(in alloc; "{verdict}"),
        Err(fault) => format!(in alloc; "refused {fault}\n"),
    }
}

/// An answer without the grants for which it holds: as a text the verdict's, or a line `refused FAULT`. As a document it has the
/// member `verdict`; `report` at a denial, with `path` and `condition` of each grant; and `fault` at a refusal, and `byte` where
/// one is at fault.
pub fn text_of(alloc: Global, answer: &Answer, format: Format) -> Result<String, OutOfMemory>
    ensures { IfOk result (λ text. string_bytes text ≡ answer_by format answer.now) }
{
    match format {
        Format::Text => lines_of(alloc, answer),
        Format::Json => answer_json(alloc, answer),
    }
}

/// How the program prints the answer by this project's rules where the arguments do not say it.
const USUAL: Printing = Printing {
    rules: Rules::Project,
    why: false,
    format: Format::Text,
};

/// The whole text that the program prints for a capability text and a request: that of their answer, as [`verdict_by`] gives it.
pub fn verdict_text(
    alloc: Global,
    caps: &str,
    until: Option<u64>,
    asked: &Asked<'_>,
) -> Result<String, OutOfMemory>
    ensures { IfOk result (λ text. IsVerdictText (record { rules = Rules.Project; why = false; format = formats.Text }) caps.now until asked.now (string_bytes text)) }
{
    let reader = Reader::of(alloc, Rules::Project)?;
    let read = reader.read(alloc, caps, until)?;
    let answer = answer_of(alloc, &read, asked)?;
    verdict_by(alloc, USUAL, &read, asked, &answer)
}
