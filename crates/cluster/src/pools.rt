//! The pool that a request names, as a pass reads it from the published map.

ghost use Rattle.std.specs.Prelude.{◌≡◌, IfOk, IfErr, MatchOption};
ghost use Rattle.map_core.specs.Map.{map_of};
ghost use Rattle.map_core.specs.Refusal as tests;
ghost use Rattle.cluster.specs.Asks.{IsPassOf};
ghost use Rattle.cluster.specs.Pools.{KnowsTheSame, HasSeen, IsUnseen};
ghost use Rattle.cluster.specs.ToAsk.{fault_of_view, HasAnswered};

use crate::cluster::Cluster;
use crate::fault::ClusterFault;
use crate::pass::Pass;
use common_types::Name;
use map_core::{ClusterMap, MapFault, PoolView};
use published_map::view;
use world_core::WorldFault;

// Whether a map has a pool of this name.
fn has_pool(map: &ClusterMap, name: &Name) -> bool
    ensures { result ≡ tests.has_pool (map_of map.now).pools name.now }
{
    map.pool(name).is_some()
}

// Why a pool is not seen: K3 if memory ran out, else W2.
fn of_view(fault: MapFault) -> ClusterFault
    ensures { result ≡ fault_of_view fault }
{
    match fault {
        MapFault::OutOfMemory => ClusterFault::OutOfMemory,
        _ => ClusterFault::World(WorldFault::NoPool),
    }
}

impl Cluster {
    // What the published map says of a pool now, by one reading, if there is one.
    fn read_pool(&self, pass: &mut Pass, pool: &Name) -> Option<Result<PoolView, MapFault>>
        requires { IsPassOf self.now pass.old }
        ensures pass { IsPassOf self.now pass.new }
        ensures read { MatchOption result (KnowsTheSame pass.old pass.new) (λ answer. HasAnswered self.now.start pool.now answer pass.old pass.new) }
    {
        view(&mut pass.reader, pool)
    }

    // A pool as it is now, by one reading of the map: K4, K3, and W2 where the map has no such pool, or the cluster began without it.
    pub(crate) fn see_pool(&self, pass: &mut Pass, pool: &Name) -> Result<PoolView, ClusterFault>
        requires { IsPassOf self.now pass.old }
        ensures pass { IsPassOf self.now pass.new }
        ensures ok { IfOk result (λ view. HasSeen self.now.start pool.now view pass.old pass.new) }
        ensures err { IfErr result (λ fault. IsUnseen self.now.start pool.now fault pass.old pass.new) }
    {
        match self.read_pool(pass, pool) {
            None => Err(ClusterFault::NoReader),
            Some(Err(fault)) => Err(of_view(fault)),
            Some(Ok(view)) => {
                if has_pool(&self.start, pool) {
                    Ok(view)
                } else {
                    Err(ClusterFault::World(WorldFault::NoPool))
                }
            }
        }
    }
}
