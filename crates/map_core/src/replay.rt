//! A pool as it was at an earlier epoch.

ghost use Rattle.std.specs.Prelude.{◌≡◌, IfOk, OnErr, is_some, fold, None, Some, true};
ghost use Rattle.std.specs.Option.{option_map};
ghost use Rattle.map_core.specs.Map.{pool_in, view_of};
ghost use Rattle.common_types.specs.Refused.{RefusedFirst};
ghost use Rattle.map_core.specs.Replay.{pool_step, no_pool};

use crate::command::MapCommand;
use crate::edits::{change_pool, create};
use crate::fault::MapFault;
use crate::pool::{Epoch, Pool, PoolView, find_pool};
use common_types::{Name, OutOfMemory};
use std::alloc::Global;

// What a command leaves of the pool of this name.
fn replay_command(
    alloc: Global,
    found: Option<Pool>,
    name: &Name,
    command: &MapCommand,
) -> Result<Option<Pool>, OutOfMemory>
    ensures ok { IfOk result (λ pool. pool ≡ pool_step name.now found command.now) }
    ensures err { OnErr result (is_some (pool_step name.now found command.now) ≡ true) }
{
    match command {
        MapCommand::PoolCreate {
            name: created,
            pg_num,
            size,
            min_size,
        } => {
            if found.is_some() || !created.equals(name) {
                return Ok(found);
            }
            Ok(Some(create(alloc, created, *pg_num, *size, *min_size)?))
        }
        MapCommand::AppEnable { pool: changed, .. }
        | MapCommand::AppSet { pool: changed, .. }
        | MapCommand::AppRm { pool: changed, .. } => match found {
            Some(mut pool) if changed.equals(name) => {
                change_pool(alloc, &mut pool, command)?;
                Ok(Some(pool))
            }
            found => Ok(found),
        },
        MapCommand::OsdUp(_) | MapCommand::OsdDown(_) | MapCommand::OsdRestart(_) => Ok(found),
    }
}

// The pool of this name after commands, from no pool on.
pub(crate) fn replay(
    alloc: Global,
    name: &Name,
    commands: &[MapCommand],
) -> Result<Option<Pool>, OutOfMemory>
    ensures ok { IfOk result (λ pool. pool ≡ fold (pool_step name.now) None commands.now) }
    ensures err { OnErr result (is_some (fold (pool_step name.now) None commands.now) ≡ true) }
{
    let mut found = None;
    for command in commands {
        found = replay_command(alloc, found, name, command)?;
    }
    Ok(found)
}

/// The view at this epoch of the pool of this name that stands among these.
///
/// An error is M2 where there is no such pool, or M8 where a growth was refused.
pub fn view_now(pools: &[Pool], name: &Name, epoch: Epoch) -> Result<PoolView, MapFault>
    ensures view { IfOk result (λ view. option_map (view_of epoch) (pool_in pools.now name.now) ≡ Some view) }
    ensures refused { RefusedFirst (no_pool (pool_in pools.now name.now)) MapFault.OutOfMemory result }
{
    match find_pool(pools, name) {
        None => Err(MapFault::NoPool),
        Some(found) => {
            let view = found.to_view(epoch)?;
            Ok(view)
        }
    }
}

/// The view at this epoch of the pool of this name as commands leave it, from no pool on.
///
/// An error is M2 where they leave no such pool, or M8 where a growth was refused.
pub fn view_then(
    alloc: Global,
    commands: &[MapCommand],
    name: &Name,
    epoch: Epoch,
) -> Result<PoolView, MapFault>
    ensures view { IfOk result (λ view. option_map (view_of epoch) (fold (pool_step name.now) None commands.now) ≡ Some view) }
    ensures refused { RefusedFirst (no_pool (fold (pool_step name.now) None commands.now)) MapFault.OutOfMemory result }
{
    let found = replay(alloc, name, commands)?;
    match found {
        None => Err(MapFault::NoPool),
        Some(found) => Ok(found.into_view(epoch)),
    }
}
