//! Whether two tickets reach a common object.

ghost use Rattle.std.specs.Prelude.{◌≡◌, ◌≢◌, ◌↔◌, ◌++◌, [], map, IfOk, OnOk, IsTrue, true, ◌&&◌};
ghost use Rattle.std.specs.List.{All, list_any, filter_map};
ghost use Rattle.share_core.specs.Meeting.{reach, example_of};
ghost use Rattle.share_core.specs.Sharing.{Answers, IsSharedObject, Share, pairs};

use crate::giving::gives;
use crate::meetings::meet;
use crate::targets::common;
use crate::touches::Touch;
use cap_text::AllowGrant;
use common_types::OutOfMemory;
use compare_core::OwnedTarget;
use grant_core::Path;
use std::alloc::Global;
use verdict_core::Ticket;

/// Two grants, one of each ticket, and a target at which each gives its touch. The target is an object, and no listing.
#[derive(Debug)]
pub struct Shared {
    /// The path of the first ticket's grant.
    pub path: Path,
    /// The path of the other ticket's grant.
    pub other_path: Path,
    pub target: OwnedTarget,
}

impl Drop for Shared {
    fn drop(self) {
        let Shared {
            path: _,
            other_path: _,
            target: _,
        } = self;
    }
}

/// Whether two grants give the touches at a common target.
fn reaches(g: &AllowGrant, one: &Touch, h: &AllowGrant, other: &Touch) -> bool
    ensures { result ≡ reach one.now other.now g.now h.now }
{
    gives(&g.access, one) && gives(&h.access, other) && meet(g, h)
}

/// Whether a grant and some grant of a ticket give the touches at a common target.
fn meets_some(g: &AllowGrant, one: &Touch, others: &Ticket, other: &Touch) -> bool
    ensures { result ≡ list_any (λ theirs. reach one.now other.now g.now theirs.1) others.now.grants }
{
    others
        .grants()
        .iter()
        .any(|theirs| reaches(g, one, &theirs.1, other))
}

/// Whether some grant of each ticket gives its touch at a common target.
fn some_reach(ones: &Ticket, one: &Touch, others: &Ticket, other: &Touch) -> bool
    ensures { result ≡ list_any (λ mine. list_any (λ theirs. reach one.now other.now mine.1 theirs.1) others.now.grants) ones.now.grants }
{
    ones.grants()
        .iter()
        .any(|mine| meets_some(&mine.1, one, others, other))
}

/// Whether there is a target at which the one ticket allows a touch and the other another one. It takes no memory, and some
/// comparisons of names for each pair of grants.
///
/// The targets are those of all pools, of all tags that a pool can have, of all namespaces and of all objects, and the
/// listings; names are any bytes. When a ticket ends is not looked at (this project's profile).
pub fn share(ones: &Ticket, one: &Touch, others: &Ticket, other: &Touch) -> bool
    ensures { IsTrue result ↔ Share ones.now.grants one.now others.now.grants other.now }
{
    some_reach(ones, one, others, other)
}

/// An example for two grants, if there is one.
fn example_for(
    alloc: Global,
    mine: &(Path, AllowGrant),
    one: &Touch,
    theirs: &(Path, AllowGrant),
    other: &Touch,
) -> Result<Option<Shared>, OutOfMemory>
    ensures { IfOk result (λ found. found ≡ example_of one.now other.now (mine.now, theirs.now)) }
{
    if !reaches(&mine.1, one, &theirs.1, other) {
        return Ok(None);
    }
    Ok(Some(Shared {
        path: mine.0.copy()?,
        other_path: theirs.0.copy()?,
        target: common(alloc, &mine.1, &theirs.1)?,
    }))
}

/// Adds the examples of one grant with each of the others.
fn push_shared(
    examples: &mut Vec<Shared>,
    alloc: Global,
    mine: &(Path, AllowGrant),
    one: &Touch,
    others: &[(Path, AllowGrant)],
    other: &Touch,
) -> Result<(), OutOfMemory>
    ensures { OnOk result (examples.new.items ≡ examples.old.items
        ++ filter_map (example_of one.now other.now) (map (λ theirs. (mine.now, theirs)) others.now)) }
{
    for theirs in others {
        if let Some(example) = example_for(alloc, mine, one, theirs, other)? {
            examples.push(example)?;
        }
    }
    Ok(())
}

/// The examples of all pairs of grants, in order.
fn examples(
    alloc: Global,
    ones: &[(Path, AllowGrant)],
    one: &Touch,
    others: &[(Path, AllowGrant)],
    other: &Touch,
) -> Result<Vec<Shared>, OutOfMemory>
    ensures { IfOk result (λ examples. examples.items ≡ filter_map (example_of one.now other.now) (pairs ones.now others.now)) }
{
    let mut examples = Vec::new(alloc);
    for mine in ones {
        push_shared(&mut examples, alloc, mine, one, others, other)?;
    }
    Ok(examples)
}

/// The pairs of a grant of the one ticket and a grant of the other, in order, that by themselves allow the one touch
/// and the other one at a common target. Each pair has its paths and such a target, which is an object and no listing.
/// If there is no such pair, the tickets share nothing. The only error is out of memory, which leaves both as they are.
pub fn sharing(
    alloc: Global,
    ones: &Ticket,
    one: &Touch,
    others: &Ticket,
    other: &Touch,
) -> Result<Vec<Shared>, OutOfMemory>
    ensures answers { IfOk result (λ examples. Answers one.now other.now (pairs ones.now.grants others.now.grants) examples.items) }
    ensures shared { IfOk result (λ examples. All (λ example. IsSharedObject ones.now.grants one.now others.now.grants other.now example.target) examples.items) }
    ensures empty { IfOk result (λ examples. (examples.items ≡ []) ↔ ¬ Share ones.now.grants one.now others.now.grants other.now) }
{
    examples(alloc, ones.grants(), one, others.grants(), other)
}
