//! How each grant of a list stands to the others.

ghost use Rattle.std.specs.Prelude.{◌≡◌, ℕ, ◌<◌, length, IfOk, MatchOption};
ghost use Rattle.common_types.specs.Refused.{RefusedFirst};
ghost use Rattle.grant_core.specs.Refusal.{expand_refusal};
ghost use Rattle.lint_core.specs.Lint.{AreStandings, Covers, IsFirstCover, IsStanding};
ghost use Rattle.lint_core.specs.Parts.{CanExpand};

use crate::tickets::{allows_all, part_ticket, parts_allow_rest, whole_ticket};
use cap_text::{CapList, Grant};
use common_types::OutOfMemory;
use grant_core::{ExpandFault, ProfileTable};
use std::alloc::Global;

/// How a grant of a list stands to the others.
#[derive(Clone, Copy, Debug)]
pub enum Standing {
    /// Without it the list allows less.
    Needed,
    /// Without it the list allows the same, though no other grant alone allows all that it allows.
    CoveredTogether,
    /// Without it the list allows the same. The grant of this number, counted from 1, is the first other one that alone
    /// allows all that it allows.
    Covered(usize),
}

/// The number of the first other grant that alone allows all that the grant at a place allows.
fn first_cover(
    alloc: Global,
    table: &ProfileTable,
    grants: &[Grant],
    place: usize,
) -> Result<Option<usize>, OutOfMemory>
    requires expands { CanExpand table.now grants.now }
    requires within { place < length grants.now }
    ensures { IfOk result (λ found. MatchOption found
        ((other : ℕ) → other < length grants.now → ¬ Covers table.now grants.now place other)
        (IsFirstCover table.now grants.now place)) }
{
    let own = part_ticket(alloc, table, &[], &grants[place..place + 1])?;
    for other in 0..grants.len() {
        let ticket = part_ticket(alloc, table, &[], &grants[other..other + 1])?;
        if other != place && allows_all(alloc, &ticket, &own)? {
            return Ok(Some(other + 1));
        }
    }
    Ok(None)
}

/// How the grant at a place of a list stands to the others.
fn standing_at(
    alloc: Global,
    table: &ProfileTable,
    grants: &[Grant],
    place: usize,
) -> Result<Standing, OutOfMemory>
    requires expands { CanExpand table.now grants.now }
    requires within { place < length grants.now }
    ensures { IfOk result (λ standing. IsStanding table.now grants.now place standing) }
{
    let (front, behind) = (&grants[..place], &grants[place + 1..]);
    let own = &grants[place..place + 1];
    if !parts_allow_rest(alloc, table, front, own, behind)? {
        return Ok(Standing::Needed);
    }
    match first_cover(alloc, table, grants, place)? {
        None => Ok(Standing::CoveredTogether),
        Some(number) => Ok(Standing::Covered(number)),
    }
}

/// How each grant stands to the others.
fn standings(
    alloc: Global,
    table: &ProfileTable,
    grants: &[Grant],
) -> Result<Vec<Standing>, OutOfMemory>
    requires { CanExpand table.now grants.now }
    ensures { IfOk result (λ standings. AreStandings table.now grants.now standings.items) }
{
    let mut standings = Vec::new(alloc);
    for place in 0..grants.len() {
        standings.push(standing_at(alloc, table, grants, place)?)?;
    }
    Ok(standings)
}

/// How each grant of a list stands to the others, in the list's order: whether the list without it allows the same, and
/// which other grant alone allows all that it allows. A use of a profile is one grant (this project's profile).
///
/// What is allowed is compared over all targets, all reads and writes, and all calls of every class registry. Each
/// grant is checked alone: of two equal grants each is redundant, but only one can be removed. [`crate::tidied`] keeps
/// one of them.
///
/// The error is the first fault of a list that cannot be expanded, or out of memory. Both leave table and list as they
/// are. The time is that of one comparison of the whole list, and for a redundant grant a comparison with each other
/// grant alone.
pub fn redundancy(
    alloc: Global,
    table: &ProfileTable,
    list: &CapList,
) -> Result<Vec<Standing>, ExpandFault>
    ensures exact { IfOk result (λ standings. AreStandings table.now list.now standings.items) }
    ensures refused { RefusedFirst (expand_refusal table.now list.now) ExpandFault.OutOfMemory result }
{
    let _whole = whole_ticket(alloc, table, list)?;
    Ok(standings(alloc, table, list.grants())?)
}
