//! The grants of a list, and how they stand to one another.

ghost use Rattle.std.specs.Prelude.{◌≡◌, None, IfOk, IfSome, option_copied};
ghost use Rattle.grant_core.specs.BuiltIn.{built_in};
ghost use Rattle.grant_core.specs.Refusal.{expand_refusal};
ghost use Rattle.lint_text.specs.Judged.{IsExpanded, IsJudged, IsKept, IsListIn};
ghost use Rattle.lint_text.specs.Linted.{SpellsList, poolless_by};
ghost use Rattle.verdict_text.specs.declared.reading.Rules.TheVariants as by;

use cap_text::{CapFault, CapList, FaultKind, parse};
use common_types::OutOfMemory;
use grant_core::{ExpandFault, ProfileTable, expand};
use lint_core::{Pool, Standing, redundancy, tidied, without_pool};
use std::alloc::{AllocError, Global};
use verdict_text::{ReadText, Spelled, TextFault};

/// How the grants of a list stand to one another, and to the pools.
pub(crate) struct Judged {
    pub(crate) standings: Vec<Standing>,
    /// Whether each matches no pool, where pools are given.
    pub(crate) without: Vec<bool>,
}

impl Drop for Judged {
    fn drop(self) {
        let Judged {
            standings: _,
            without: _,
        } = self;
    }
}

/// A list, if the built-in profiles expand it, or why they do not. An `Err` is out of memory alone.
fn expanded(
    alloc: Global,
    profiles: &ProfileTable,
    list: CapList,
) -> Result<Result<CapList, TextFault>, OutOfMemory>
    requires { profiles.now ≡ built_in }
    ensures { IfOk result (IsExpanded list) }
{
    match expand(alloc, profiles, &list) {
        Ok(_) => Ok(Ok(list)),
        Err(ExpandFault::OutOfMemory) => Err(AllocError),
        Err(fault) => Ok(Err(TextFault::Expansion(fault))),
    }
}

/// Reads a text: the list that it spells, or its first fault, by the built-in profiles. An `Err` is out of memory alone.
pub(crate) fn list_of(
    alloc: Global,
    profiles: &ProfileTable,
    caps: &str,
) -> Result<Result<CapList, TextFault>, OutOfMemory>
    requires { profiles.now ≡ built_in }
    ensures { IfOk result (IsListIn caps.now) }
{
    match parse(alloc, caps) {
        Ok(list) => expanded(alloc, profiles, list),
        Err(
            CapFault {
                kind: FaultKind::OutOfMemory,
                ..
            },
        ) => Err(AllocError),
        Err(fault) => Ok(Err(TextFault::Spelling(fault))),
    }
}

/// The list of a text that was read by this project's rules, if it is kept.
#[tactic(auto, using(crate::proofs::KeptLists::listed))]
pub(crate) fn listed(text: &ReadText) -> Option<&CapList>
    requires { text.now.rules ≡ by.Project }
    ensures { IfSome result (λ list. SpellsList text.now.text list.now) }
{
    match text.spelled() {
        Spelled::Listed(list) => Some(list),
        Spelled::Nothing | Spelled::Counted(_) => None,
    }
}

/// For each grant of a list that can be expanded, whether it matches no pool, by the built-in profiles. If no pools are
/// given, each answer is `false`.
fn without_pools(
    alloc: Global,
    profiles: &ProfileTable,
    list: &CapList,
    pools: Option<&[Pool]>,
) -> Result<Vec<bool>, OutOfMemory>
    requires { profiles.now ≡ built_in }
    ensures { IfOk result (λ without. without.items ≡ poolless_by (option_copied pools.entry) list.now) }
{
    match pools {
        None => Ok(vec![in alloc; false; list.grants().len()]?),
        Some(pools) => match without_pool(alloc, profiles, list, pools) {
            Ok(without) => Ok(without),
            Err(_) => Err(AllocError),
        },
    }
}

/// How the grants of a list that can be expanded stand to one another and to the pools. An `Err` is out of memory alone.
#[tactic(auto, using(crate::proofs::Stepped::poolless_length))]
pub(crate) fn judged_of(
    alloc: Global,
    profiles: &ProfileTable,
    list: &CapList,
    pools: Option<&[Pool]>,
) -> Result<Judged, OutOfMemory>
    requires profiles { profiles.now ≡ built_in }
    requires expands { expand_refusal built_in list.now ≡ None }
    ensures { IfOk result (IsJudged (option_copied pools.entry) list.now) }
{
    match redundancy(alloc, profiles, list) {
        Ok(standings) => Ok(Judged {
            standings,
            without: without_pools(alloc, profiles, list, pools)?,
        }),
        Err(_) => Err(AllocError),
    }
}

/// Those grants of a list that can be expanded which are kept. An `Err` is out of memory alone.
pub(crate) fn kept_of(
    alloc: Global,
    profiles: &ProfileTable,
    list: &CapList,
) -> Result<CapList, OutOfMemory>
    requires profiles { profiles.now ≡ built_in }
    requires expands { expand_refusal built_in list.now ≡ None }
    ensures { IfOk result (IsKept list.now) }
{
    match tidied(alloc, profiles, list) {
        Ok(kept) => Ok(kept),
        Err(_) => Err(AllocError),
    }
}
