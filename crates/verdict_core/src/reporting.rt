//! Why a request is denied.

ghost use Rattle.std.specs.Prelude.{◌≡◌, ◌++◌, false, map, IfOk, OnOk};
ghost use Rattle.std.specs.Option.{option_map, option_to_list};
ghost use Rattle.verdict_core.specs.Verdict.{is_allowed, report_of};

use crate::matching::first_failure;
use crate::ticket::{Report, Ticket};
use common_types::OutOfMemory;
use grant_core::Path;
use request_types::{Condition, Needs, Target};
use std::alloc::Global;

/// Adds the line of a grant, if the request fails a condition of it.
fn push_line(
    lines: &mut Vec<(Path, Condition)>,
    path: &Path,
    condition: Option<Condition>,
) -> Result<(), OutOfMemory>
    ensures { OnOk result
        (lines.new.items ≡ lines.old.items ++ option_to_list (option_map (λ why. (path.now, why)) condition)) }
{
    match condition {
        None => Ok(()),
        Some(condition) => {
            lines.push((path.copy()?, condition))?;
            Ok(())
        }
    }
}

/// Why a request that is denied at a tick is denied: a line for each grant, in the ticket's order, with the
/// first condition of the grant that the request fails. No object is looked at.
pub fn report(
    alloc: Global,
    ticket: &Ticket,
    target: &Target<'_>,
    needs: &Needs,
    tick: u64,
) -> Result<Report, OutOfMemory>
    requires { is_allowed ticket.now target.now needs.now tick ≡ false }
    ensures report { IfOk result (λ report. report ≡ report_of ticket.now target.now needs.now tick) }
    ensures paths { IfOk result (λ report. map (λ line. line.0) report ≡ map (λ entry. entry.0) ticket.now.grants) }
{
    let expired = ticket.is_expired(tick);
    let mut lines = Vec::new(alloc);
    for entry in ticket.grants() {
        let condition = first_failure(expired, &entry.1, target, needs);
        push_line(&mut lines, &entry.0, condition)?;
    }
    Ok(Report::from_lines(lines))
}
