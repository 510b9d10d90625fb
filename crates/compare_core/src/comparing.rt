//! What one ticket allows that another denies.

ghost use Rattle.std.specs.Prelude.{◌≡◌, ◌↔◌, [], ◌∷◌, IfOk, MatchOption};
ghost use Rattle.std.specs.List.{All};
ghost use Rattle.compare_core.specs.Questions.{IsListed};
ghost use Rattle.compare_core.specs.Widening.{Answers, AnswersBy, IsExampleBy, IsGained, IsGainedBy, Widens, WidensBy, request_of};

use crate::best::best_target;
use crate::owned_target::OwnedTarget;
use crate::question::{asks_to_read, questions, shown_needs, shows};
use crate::registry::Registry;
use cap_text::AllowGrant;
use common_types::OutOfMemory;
use grant_core::Path;
use std::alloc::Global;
use verdict_core::{Needs, Ticket};

/// A request that a grant of the new ticket allows by itself, and that the old ticket denies.
#[derive(Debug)]
pub struct Example {
    /// The grant's path.
    pub path: Path,
    pub target: OwnedTarget,
    pub needs: Needs,
}

impl Drop for Example {
    fn drop(self) {
        let Example {
            path: _,
            target: _,
            needs: _,
        } = self;
    }
}

/// One grant alone.
fn alone(
    alloc: Global,
    path: &Path,
    grant: &AllowGrant,
) -> Result<Vec<(Path, AllowGrant)>, OutOfMemory>
    ensures { IfOk result (λ grants. grants.items ≡ (path.now, grant.now) ∷ []) }
{
    let mut grants = Vec::new(alloc);
    grants.push((path.copy()?, grant.copy()?))?;
    Ok(grants)
}

/// An example of a listing, of which new grants allow the reading where the old ticket denies it, if so.
fn listing_example(
    alloc: Global,
    path: &Path,
    old: &Ticket,
    new: &[(Path, AllowGrant)],
    target: OwnedTarget,
) -> Result<Option<Example>, OutOfMemory>
    ensures { IfOk result (λ found. IsListed old.now.grants new.now path.now target found) }
{
    let target = target.into_listing(alloc);
    let needs = asks_to_read(alloc);
    if !shows(old, new, &target, &needs) {
        return Ok(None);
    }
    Ok(Some(Example {
        path: path.copy()?,
        target,
        needs,
    }))
}

/// An example of what a grant by itself allows and the old ticket denies, if there is anything. The requests are those of
/// [`widening_by`], and the only error is out of memory.
pub fn example_of(
    alloc: Global,
    registry: Registry,
    old: &Ticket,
    path: &Path,
    grant: &AllowGrant,
) -> Result<Option<Example>, OutOfMemory>
    ensures { IfOk result (λ found. MatchOption found
        (¬ WidensBy registry old.now.grants ((path.now, grant.now) ∷ []))
        (λ example. IsExampleBy registry old.now.grants (path.now, grant.now) example)) }
{
    let _old_grants = old.grants();
    let questions = questions(alloc, registry, grant, old)?;
    let target = best_target(alloc, grant, old)?;
    let entry = alone(alloc, path, grant)?;
    let new = entry.as_slice();
    match shown_needs(&questions, old, new, &target)? {
        None => listing_example(alloc, path, old, new, target),
        Some(needs) => Ok(Some(Example {
            path: path.copy()?,
            target,
            needs,
        })),
    }
}

/// For each grant of `new`, in order, that by itself allows some request which `old` denies: its path and one such
/// request. Without such a grant, `new` allows nothing that `old` denies.
///
/// The requests are all possible ones: of all pools, of all tags that a pool can have, of all namespaces and all
/// objects. Each asks for something, by at most 16 calls of the registry. They include the listings, which only read.
/// The end of a ticket is ignored. A ticket has at most `verdict_core::MAX_GRANTS` grants, so characters are left for
/// names that `old` does not use.
pub fn widening_by(
    alloc: Global,
    registry: Registry,
    old: &Ticket,
    new: &Ticket,
) -> Result<Vec<Example>, OutOfMemory>
    ensures answers { IfOk result (λ examples. AnswersBy registry old.now.grants new.now.grants examples.items) }
    ensures gained { IfOk result (λ examples. All (λ example. IsGainedBy registry old.now.grants new.now.grants (request_of example)) examples.items) }
    ensures empty { IfOk result (λ examples. (examples.items ≡ []) ↔ ¬ WidensBy registry old.now.grants new.now.grants) }
{
    let mut examples = Vec::new(alloc);
    for entry in new.grants() {
        if let Some(example) = example_of(alloc, registry, old, &entry.0, &entry.1)? {
            examples.push(example)?;
        }
    }
    Ok(examples)
}

/// Compares as [`widening_by`] does, over every class registry: the requests have calls of any class and any method, on
/// the default list or not. Each call reads, writes or both.
pub fn widening(alloc: Global, old: &Ticket, new: &Ticket) -> Result<Vec<Example>, OutOfMemory>
    ensures answers { IfOk result (λ examples. Answers old.now.grants new.now.grants examples.items) }
    ensures gained { IfOk result (λ examples. All (λ example. IsGained old.now.grants new.now.grants (request_of example)) examples.items) }
    ensures empty { IfOk result (λ examples. (examples.items ≡ []) ↔ ¬ Widens old.now.grants new.now.grants) }
{
    widening_by(alloc, Registry::Every, old, new)
}
