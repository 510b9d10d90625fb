//! Why requests are denied.

ghost use Rattle.std.specs.Prelude.{◌≡◌, [], false, string_bytes, IfOk};
ghost use Rattle.request_types.specs.Text.{report_text};
ghost use Rattle.rights_core.specs.Reports.{report_from};
ghost use Rattle.rights_core.specs.Rights.{with_networks};
ghost use Rattle.verdict_core.specs.Verdict.{is_allowed, report_of};
ghost use Rattle.gate_calls.specs.Answers as spec;
ghost use Rattle.gate_calls.specs.declared.answering.Origin.TheVariants as origins;

use crate::answering::{Origin, origin_for};
use crate::caps::{Caps, Grants};
use crate::limited::LimitedRights;
use crate::request::{SigApplication, SigCall, SigRequest, Trouble, names_of, needs_of, tags_of};
use common_types::OutOfMemory;
use network_core::Address;
use rights_core::{Everywhere, Rights, judge_at, judge_everywhere};
use std::alloc::Global;
use verdict_core::{IndexedTicket, Needs, Target};

/// What a ticket answers to a request, with a report.
#[derive(Drop)]
pub(crate) enum Reported {
    Allowed,
    /// The report.
    Denied(String),
    /// An address that is allowed and one that is denied.
    Depends(String),
    BadAddress,
}

/// The report of a ticket that is that of every address.
fn ticket_report(
    alloc: Global,
    ticket: &IndexedTicket,
    target: &Target<'_>,
    needs: &Needs,
    tick: u64,
) -> Result<String, OutOfMemory>
    requires { is_allowed ticket.now target.now needs.now tick ≡ false }
    ensures { IfOk result (λ text. string_bytes text ≡ report_text (report_of ticket.now target.now needs.now tick)) }
{
    let report = ticket.report(alloc, target, needs, tick)?;
    format!(in alloc; "{report}")
}

fn plain_report(
    alloc: Global,
    ticket: &IndexedTicket,
    target: &Target<'_>,
    needs: &Needs,
    tick: u64,
) -> Result<Reported, OutOfMemory>
    ensures { IfOk result (spec.IsReportedAt (record { grants = with_networks ticket.now.grants []; until = ticket.now.until }) target.now needs.now tick origins.Anywhere) }
{
    if ticket.judge(target, needs, tick) {
        return Ok(Reported::Allowed);
    }
    Ok(Reported::Denied(ticket_report(alloc, ticket, target, needs, tick)?))
}

/// The report of rights, from an address or from every one.
fn rights_report(
    alloc: Global,
    rights: &Rights,
    target: &Target<'_>,
    needs: &Needs,
    tick: u64,
    from: Option<Address>,
) -> Result<String, OutOfMemory>
    ensures { IfOk result (λ text. string_bytes text ≡ report_text (report_from rights.now target.now needs.now tick from)) }
{
    let report = rights.report(alloc, target, needs, tick, &from)?;
    format!(in alloc; "{report}")
}

fn report_at(
    alloc: Global,
    rights: &Rights,
    address: Address,
    target: &Target<'_>,
    needs: &Needs,
    tick: u64,
) -> Result<Reported, OutOfMemory>
    ensures { IfOk result (spec.IsReportedAt rights.now target.now needs.now tick (origins.At address)) }
{
    if judge_at(alloc, rights, &address, target, needs, tick)? {
        return Ok(Reported::Allowed);
    }
    let text = rights_report(alloc, rights, target, needs, tick, Some(address))?;
    Ok(Reported::Denied(text))
}

fn report_everywhere(
    alloc: Global,
    rights: &Rights,
    target: &Target<'_>,
    needs: &Needs,
    tick: u64,
) -> Result<Reported, OutOfMemory>
    ensures { IfOk result (spec.IsReportedAt rights.now target.now needs.now tick origins.Anywhere) }
{
    match judge_everywhere(alloc, rights, target, needs, tick)? {
        Everywhere::Allowed => Ok(Reported::Allowed),
        Everywhere::Denied => {
            let text = rights_report(alloc, rights, target, needs, tick, None)?;
            Ok(Reported::Denied(text))
        }
        Everywhere::Depends { allowed, denied } => {
            let text = format!(in alloc; "allow --from {allowed}\ndeny --from {denied}\n")?;
            Ok(Reported::Depends(text))
        }
    }
}

fn limited_report(
    alloc: Global,
    limited: &LimitedRights,
    origin: Origin,
    target: &Target<'_>,
    needs: &Needs,
    tick: u64,
) -> Result<Reported, OutOfMemory>
    ensures { IfOk result (spec.IsReportedAt limited.now target.now needs.now tick origin) }
{
    let rights = limited.as_rights();
    match origin {
        Origin::Anywhere => report_everywhere(alloc, rights, target, needs, tick),
        Origin::At(address) => report_at(alloc, rights, address, target, needs, tick),
        Origin::Unreadable => Ok(Reported::BadAddress),
    }
}

/// The answer to a request, with a report if it is denied, and with two addresses if it depends on the address.
pub(crate) fn report_on(
    alloc: Global,
    caps: &Caps,
    request: &SigRequest<'_>,
    applications: &[SigApplication<'_>],
    calls: &[SigCall<'_>],
) -> Result<Reported, Trouble>
    ensures { IfOk result (spec.IsReported caps.now request.now applications.now calls.now) }
{
    let tags = tags_of(alloc, applications)?;
    let needs = needs_of(alloc, request, calls)?;
    let (pool, namespace, object) = names_of(request);
    let target = Target {
        pool,
        tags: &tags,
        namespace,
        object,
    };
    match caps.grants() {
        Grants::Plain(ticket) => Ok(plain_report(alloc, ticket, &target, &needs, request.tick)?),
        Grants::Limited(limited) => {
            let origin = origin_for(limited, request.from);
            Ok(limited_report(alloc, limited, origin, &target, &needs, request.tick)?)
        }
    }
}
