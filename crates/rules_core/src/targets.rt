//! Targets at which two tickets allow their touches.

ghost use Rattle.std.specs.Prelude.{◌≡◌, ◌≢◌, [], false, IfOk, MatchOption, Some, None, option_copied};
ghost use Rattle.request_types.specs.Target.{Target as TargetSeen};
ghost use Rattle.rules_core.specs.Touches.{Meets};

use common_types::{OutOfMemory, TryClone};
use compare_core::OwnedTarget;
use share_core::{Pool, Touch, example_in, share, share_in, sharing};
use std::alloc::Global;
use verdict_core::Ticket;

/// An equal target.
pub(crate) fn copy_target(target: &OwnedTarget) -> Result<OwnedTarget, OutOfMemory>
    ensures { IfOk result (λ copy. copy ≡ target.now) }
{
    Ok(OwnedTarget {
        pool: target.pool.copy()?,
        tags: target.tags.copy()?,
        namespace: target.namespace.copy()?,
        object: target.object.copy()?,
    })
}

/// Whether `ones` allows `one` and `others` allows `other` at a common target, in one of `pools` if they are given. It takes no
/// memory.
pub(crate) fn meet(
    pools: Option<&[Pool]>,
    ones: &Ticket,
    one: &Touch,
    others: &Ticket,
    other: &Touch,
) -> bool
    ensures { result ≡ false → (target : TargetSeen) → ¬ Meets (option_copied pools.entry) ones.now.grants one.now others.now.grants other.now target }
{
    match pools {
        None => share(ones, one, others, other),
        Some(pools) => share_in(ones, one, others, other, pools),
    }
}

/// An object of any pool at which the one ticket allows a touch and the other another one.
fn common_anywhere(
    alloc: Global,
    ones: &Ticket,
    one: &Touch,
    others: &Ticket,
    other: &Touch,
) -> Result<Option<OwnedTarget>, OutOfMemory>
    ensures { IfOk result (λ found. MatchOption found
        ((target : TargetSeen) → ¬ Meets None ones.now.grants one.now others.now.grants other.now target)
        (λ target. Meets None ones.now.grants one.now others.now.grants other.now target × (target.object ≢ []))) }
{
    if !share(ones, one, others, other) {
        return Ok(None);
    }
    let examples = sharing(alloc, ones, one, others, other)?;
    match examples.first() {
        None => Ok(None),
        Some(shared) => Ok(Some(copy_target(&shared.target)?)),
    }
}

/// An object of the first of some pools at which they do so.
fn common_in(
    alloc: Global,
    pools: &[Pool],
    ones: &Ticket,
    one: &Touch,
    others: &Ticket,
    other: &Touch,
) -> Result<Option<OwnedTarget>, OutOfMemory>
    ensures { IfOk result (λ found. MatchOption found
        ((target : TargetSeen) → ¬ Meets (Some pools.now) ones.now.grants one.now others.now.grants other.now target)
        (λ target. Meets (Some pools.now) ones.now.grants one.now others.now.grants other.now target × (target.object ≢ []))) }
{
    if !share_in(ones, one, others, other, pools) {
        return Ok(None);
    }
    let found = example_in(alloc, ones, one, others, other, pools)?;
    Ok(found)
}

/// An object at which `ones` allows `one` and `others` allows `other`, in one of `pools` if they are given. Without
/// such an object they share no listing either, and no memory is allocated.
pub(crate) fn common_target(
    alloc: Global,
    pools: Option<&[Pool]>,
    ones: &Ticket,
    one: &Touch,
    others: &Ticket,
    other: &Touch,
) -> Result<Option<OwnedTarget>, OutOfMemory>
    ensures { IfOk result (λ found. MatchOption found
        ((target : TargetSeen) → ¬ Meets (option_copied pools.entry) ones.now.grants one.now others.now.grants other.now target)
        (λ target. Meets (option_copied pools.entry) ones.now.grants one.now others.now.grants other.now target × (target.object ≢ []))) }
{
    match pools {
        None => common_anywhere(alloc, ones, one, others, other),
        Some(pools) => common_in(alloc, pools, ones, one, others, other),
    }
}
