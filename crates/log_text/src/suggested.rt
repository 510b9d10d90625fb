//! A suggested text as Ceph reads it.

ghost use Rattle.std.specs.Prelude.{◌≡◌, ◌++◌, true, IfOk, MatchResult, OnOk, flat_map, string_bytes};
ghost use Rattle.suggest_core.specs.Outcome.{IsOutcome};
ghost use Rattle.suggest_core.specs.declared.suggesting.Suggestion.TheVariants.{LeftOut};
ghost use Rattle.compare_text.specs.Compared.{AreCompared};
ghost use Rattle.log_text.specs.Suggested as spec;
ghost use Rattle.log_text.specs.Suggested.{AllowsEach, IsSuggestedText};

use crate::decided::Decided;
use cap_text::{AllowGrant, Tag};
use ceph_text::push_ceph_grant;
use common_types::{OutOfMemory, TryClone};
use compare_core::{OwnedTarget, Registry};
use compare_text::{Comparison, compare_read};
use grant_core::Path;
use rights_core::{Everywhere, Rights, judge_everywhere};
use std::alloc::Global;
use suggest_core::{Grain, Seen, suggest};
use verdict_core::Needs;
use verdict_text::{Format, Printed, Reading};

/// The request of a decision, for a suggestion. The only error is out of memory.
pub fn seen_of(decided: &Decided) -> Result<Seen, OutOfMemory>
    ensures { IfOk result (λ seen. seen ≡ record { target = decided.now.target; needs = decided.now.needs }) }
{
    let target = &decided.target;
    Ok(Seen {
        target: OwnedTarget {
            pool: target.pool.copy()?,
            tags: target.tags.copy()?,
            namespace: target.namespace.copy()?,
            object: target.object.copy()?,
        },
        needs: Needs {
            reads: decided.needs.reads,
            writes: decided.needs.writes,
            calls: decided.needs.calls.copy()?,
        },
    })
}

/// The tags of rights, in order. The only error is out of memory.
pub fn tags_of(alloc: Global, rights: &Rights) -> Result<Vec<Tag>, OutOfMemory> {
    let mut tags = Vec::new(alloc);
    let mut entries = rights.entries();
    while let Some((entry, others)) = entries.split_first() {
        if let Some(tag) = &entry.grant.tag {
            tags.push(tag.copy()?)?;
        }
        entries = others;
    }
    Ok(tags)
}

/// Adds a grant behind a comma.
fn push_piece(text: &mut String, grant: &AllowGrant) -> Result<(), OutOfMemory>
    ensures { OnOk result (string_bytes text.new ≡ string_bytes text.old ++ spec.grant_piece grant.now) }
{
    text.push_str(", ")?;
    push_ceph_grant(text, grant)
}

fn push_pieces(text: &mut String, grants: &[(Path, AllowGrant)]) -> Result<(), OutOfMemory>
    ensures { OnOk result (string_bytes text.new ≡ string_bytes text.old ++ flat_map spec.other_piece grants.now) }
{
    for entry in grants {
        push_piece(text, &entry.1)?;
    }
    Ok(())
}

/// The text of some grants, with commas between them.
fn text_of(alloc: Global, grants: &[(Path, AllowGrant)]) -> Result<String, OutOfMemory>
    ensures { IfOk result (λ text. string_bytes text ≡ spec.grants_text grants.now) }
{
    let mut text = String::new(alloc);
    if let Some((first, others)) = grants.split_first() {
        push_ceph_grant(&mut text, &first.1)?;
        push_pieces(&mut text, others)?;
    }
    Ok(text)
}

/// The least text of a grain that allows all requests seen, in the form that Ceph reads; or the index of the first request for
/// which nothing is suggested. The only error is out of memory.
pub fn suggested_text(
    alloc: Global,
    grain: &Grain,
    allow_all: bool,
    seen: &[Seen],
) -> Result<Result<String, usize>, OutOfMemory>
    ensures { IfOk result (λ suggested. MatchResult suggested (λ text. IsSuggestedText grain.now allow_all seen.now (string_bytes text)) (λ index. IsOutcome grain.now allow_all seen.now (LeftOut index))) }
{
    match suggest(alloc, grain, allow_all, seen)?.into_text() {
        Ok(grants) => Ok(Ok(text_of(alloc, grants.as_slice())?)),
        Err(index) => Ok(Err(index)),
    }
}

/// Whether rights allow a request from every address.
fn allows(alloc: Global, rights: &Rights, request: &Seen) -> Result<bool, OutOfMemory>
    ensures { IfOk result (λ allows. allows ≡ true → spec.Allows rights.now request.now) }
{
    let target = request.target.as_target();
    match judge_everywhere(alloc, rights, &target, &request.needs, 0)? {
        Everywhere::Allowed => Ok(true),
        Everywhere::Denied | Everywhere::Depends { .. } => Ok(false),
    }
}

/// Whether rights allow each request seen, from every address. The only error is out of memory.
pub fn allows_each(alloc: Global, rights: &Rights, seen: &[Seen]) -> Result<bool, OutOfMemory>
    ensures { IfOk result (λ all. all ≡ true → AllowsEach rights.now seen.now) }
{
    for request in seen {
        if !allows(alloc, rights, request)? {
            return Ok(false);
        }
    }
    Ok(true)
}

/// How a suggested text stands to the present one, as `osdgate compare --check` prints it. It fails if the suggested text allows
/// something that the present one denies. The only error is out of memory.
pub fn compared_with_present(
    alloc: Global,
    present: &Reading,
    suggested: &Reading,
) -> Result<Printed, OutOfMemory>
    ensures { IfOk result (λ printed. AreCompared spec.checked present.now suggested.now (string_bytes printed.text) printed.fails) }
{
    let how = Comparison {
        registry: Registry::Every,
        check: true,
        format: Format::Text,
    };
    compare_read(alloc, present, suggested, how)
}
