//! Acting sets by the sizes of pools.

ghost use Rattle.std.specs.Prelude.{◌≡◌, ◌≤◌, All, IfSome};
ghost use Rattle.place_core.specs.Placement.{acting_of, numbers_of};
ghost use Rattle.map_core.specs.Map.{pools_after};
ghost use Rattle.map_core.specs.Intervals as spec;
ghost use Rattle.map_core.specs.PoolLimits.{IsPool};

use crate::command::MapCommand;
use crate::pool::{Pool, find_pool};
use common_types::Name;
use place_core::{ActingSet, DaemonSet};

/// The acting set of a group in a pool whose sets have `size` daemons. It takes no memory.
pub fn set_of_size(pool: &Name, group: u32, up: &DaemonSet, size: u32) -> ActingSet
    requires { size ≤ 5 }
    ensures { result ≡ acting_of pool.now group (numbers_of up.now) size }
{
    place_core::acting_set(pool.as_str(), group, up, size)
}

/// How large the acting sets of the pool of this name are, or `None` where there is no such pool.
#[tactic(auto, unfolding(crate::specs::Intervals::size_in))]
pub fn size_in(pools: &[Pool], name: &Name) -> Option<u32>
    requires { All IsPool pools.now }
    ensures value { result ≡ spec.size_in pools.now name.now }
    ensures small { IfSome result (λ size. size ≤ 5) }
{
    match find_pool(pools, name) {
        Some(pool) => Some(pool.size),
        None => None,
    }
}

// How large the acting sets are of the pool of this name that a command creates.
fn size_made(command: &MapCommand, name: &Name) -> Option<u32>
    ensures { result ≡ spec.size_made command.now name.now }
{
    match command {
        MapCommand::PoolCreate {
            name: created,
            size,
            ..
        } => {
            if created.equals(name) {
                Some(*size)
            } else {
                None
            }
        }
        _ => None,
    }
}

/// How large the acting sets of the pool of this name are after a command, or `None` where there is no such pool then.
pub fn size_after(pools: &[Pool], command: &MapCommand, name: &Name) -> Option<u32>
    requires now { All IsPool pools.now }
    requires then { All IsPool (pools_after command.now pools.now) }
    ensures value { result ≡ spec.size_in (pools_after command.now pools.now) name.now }
    ensures small { IfSome result (λ size. size ≤ 5) }
{
    match size_in(pools, name) {
        Some(size) => Some(size),
        None => size_made(command, name),
    }
}
