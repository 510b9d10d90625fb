//! A list without its redundant grants.

ghost use Rattle.std.specs.Prelude.{◌≡◌, IfOk, None};
ghost use Rattle.common_types.specs.Refused.{RefusedFirst};
ghost use Rattle.grant_core.specs.Flat.{flat};
ghost use Rattle.grant_core.specs.Refusal.{expand_refusal};
ghost use Rattle.lint_core.specs.Lint.{IsTidied};
ghost use Rattle.lint_core.specs.Parts.{CanExpand, IsTidyFrom};

use crate::tickets::{parts_allow_all, whole_ticket};
use cap_text::{CapList, Grant};
use common_types::OutOfMemory;
use grant_core::{ExpandFault, ProfileTable};
use std::alloc::Global;
use verdict_core::Ticket;

/// The grants that are left where each, from the last one to the first, goes if those before it and those that were kept
/// behind it allow all that the whole list does.
fn kept_grants(
    alloc: Global,
    table: &ProfileTable,
    grants: &[Grant],
    whole: &Ticket,
) -> Result<Vec<Grant>, OutOfMemory>
    requires expands { CanExpand table.now grants.now }
    requires whole { whole.now.grants ≡ flat table.now grants.now }
    ensures { IfOk result (λ kept. IsTidyFrom table.now grants.now 0 kept.items) }
{
    let mut kept = Vec::new(alloc);
    for place in (0..grants.len()).rev() {
        if !parts_allow_all(alloc, table, &grants[..place], &kept, whole)? {
            kept.insert(0, grants[place].copy()?)?;
        }
    }
    Ok(kept)
}

/// The list without redundant grants: some of its grants, in its order, which allow the same as all. Each of them is
/// needed among them. Of grants that could each be removed it keeps the earlier ones, so that a text keeps its
/// beginning (this project's profile).
///
/// The error is the first fault of a list that cannot be expanded, or out of memory. Both leave table and list as they
/// are. The time is that of as many comparisons of the whole list as it has grants, at most 64.
#[tactic(auto, using(crate::proofs::Steps::tidied_all))]
pub fn tidied(alloc: Global, table: &ProfileTable, list: &CapList) -> Result<CapList, ExpandFault>
    ensures tidied { IfOk result (λ tidied. IsTidied table.now list.now tidied) }
    ensures refused { RefusedFirst (expand_refusal table.now list.now) ExpandFault.OutOfMemory result }
{
    let whole = whole_ticket(alloc, table, list)?;
    let kept = kept_grants(alloc, table, list.grants(), &whole)?;
    Ok(CapList::from_vec(kept))
}
