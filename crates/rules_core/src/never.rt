//! Requests that two tickets both allow.

ghost use Rattle.std.specs.Prelude.{◌≡◌, All, IfOk, None, false, option_copied};
ghost use Rattle.share_core.specs.Sharing.{May};
ghost use Rattle.rules_core.specs.Breaking.{IsBrokenAmong, IsBrokenBy, IsPlain, IsTouchShown};

use crate::demand::Demand;
use crate::requests::giver;
use crate::targets::{common_target, meet};
use crate::touches::{needs_of, touches};
use common_types::OutOfMemory;
use compare_core::{Example, OwnedTarget};
use share_core::{Pool, Touch};
use std::alloc::Global;
use verdict_core::Ticket;

/// The request that is a touch, at a target where the entity's ticket allows it.
fn touch_shown(
    alloc: Global,
    entity: &Ticket,
    touch: &Touch,
    target: OwnedTarget,
) -> Result<Option<Example>, OutOfMemory>
    requires plain { IsPlain touch.now }
    requires allowed { May entity.now.grants target touch.now }
    ensures { IfOk result (IsTouchShown entity.now.grants touch.now target) }
{
    let needs = needs_of(alloc, touch)?;
    match giver(entity.grants(), &target, &needs) {
        None => Ok(None),
        Some(entry) => Ok(Some(Example {
            path: entry.0.copy()?,
            target,
            needs,
        })),
    }
}

/// The first of some touches that both tickets allow at a common target, as a request.
fn common_among(
    alloc: Global,
    pools: Option<&[Pool]>,
    region: &Ticket,
    entity: &Ticket,
    touches: &[Touch],
) -> Result<Option<Example>, OutOfMemory>
    requires { All IsPlain touches.now }
    ensures { IfOk result (IsBrokenAmong (option_copied pools.entry) region.now.grants entity.now.grants touches.now) }
{
    for touch in touches {
        if let Some(target) = common_target(alloc, pools, region, touch, entity, touch)? {
            let shown = touch_shown(alloc, entity, touch, target)?;
            return Ok(shown);
        }
    }
    Ok(None)
}

/// Whether both tickets read, or both write, at a common target. Else they allow no common request.
fn may_meet(pools: Option<&[Pool]>, region: &Ticket, entity: &Ticket) -> bool
    ensures { result ≡ false → IsBrokenBy Demand.Never (option_copied pools.entry) region.now.grants entity.now.grants None }
{
    meet(pools, region, &Touch::AnyRead, entity, &Touch::AnyRead)
        || meet(pools, region, &Touch::AnyWrite, entity, &Touch::AnyWrite)
}

/// A request that both tickets allow, in some of the pools where they are given, with the path of the entity's grant.
pub(crate) fn common_request(
    alloc: Global,
    pools: Option<&[Pool]>,
    region: &Ticket,
    entity: &Ticket,
) -> Result<Option<Example>, OutOfMemory>
    ensures { IfOk result (IsBrokenBy Demand.Never (option_copied pools.entry) region.now.grants entity.now.grants) }
{
    if !may_meet(pools, region, entity) {
        return Ok(None);
    }
    let touches = touches(alloc, region, entity)?;
    let found = common_among(alloc, pools, region, entity, touches.as_slice())?;
    Ok(found)
}
