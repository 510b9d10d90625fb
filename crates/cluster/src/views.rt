//! What a pass sees of the published map, and what its sessions may do.

ghost use Rattle.std.specs.Prelude.{◌≡◌, ◌&&◌, Ok, Err, MatchOption};
ghost use Rattle.verdict_core.specs.Verdict.{is_allowed};
ghost use Rattle.world_events.specs.declared.fault.WorldFault.TheVariants.{NoSession};
ghost use Rattle.world_front.specs.ControlPlane as front;
ghost use Rattle.cluster.specs.declared.fault.ClusterFault.TheVariants as faults;
ghost use Rattle.cluster.specs.Asks.{IsPassOf, known_by, sessions_of};
ghost use Rattle.published_map.specs.Answers.{IsLocated};
ghost use Rattle.cluster.specs.Views.{fault_of_map, told_by, LooksBy, IsView, pool_refusal, place_refusal, OnlyLooked};
ghost use Rattle.cluster.specs.Sessions.{own_session};

use crate::cluster::Cluster;
use crate::fault::ClusterFault;
use crate::numbering::find_own;
use crate::pass::Pass;
use cluster_locks::judge_by;
use common_types::Name;
use map_core::{MapFault, PoolView};
use published_map::{Located, locate, view};
use verdict_core::Needs;
use world_core::{WorldFault, are_names};

// The cluster's fault for a fault of the map; out of memory is the cluster's own.
fn of_map(fault: MapFault) -> ClusterFault
    ensures { result ≡ fault_of_map fault }
{
    match fault {
        MapFault::OutOfMemory => ClusterFault::OutOfMemory,
        fault => ClusterFault::World(WorldFault::Map(fault)),
    }
}

// An answer by the map, or `NoReader` if the map gave no answer.
fn told<T>(found: Option<Result<T, MapFault>>) -> Result<T, ClusterFault>
    ensures { result ≡ told_by found }
{
    match found {
        None => Err(ClusterFault::NoReader),
        Some(Ok(value)) => Ok(value),
        Some(Err(fault)) => Err(of_map(fault)),
    }
}

// Where an object of a good name is.
fn locate_named(
    pass: &mut Pass,
    pool: &Name,
    namespace: &Name,
    object: &Name,
) -> Result<Located, ClusterFault>
    ensures same { OnlyLooked pass.old pass.new }
    ensures located { LooksBy (pool_refusal pool.now) (λ map located. IsLocated map pool.now namespace.now object.now located) (known_by pass.old) (known_by pass.new) result }
{
    let found = locate(&mut pass.reader, pool, namespace.as_str(), object.as_str());
    told(found)
}

// A pool.
fn view_of(pass: &mut Pass, pool: &Name) -> Result<PoolView, ClusterFault>
    ensures same { OnlyLooked pass.old pass.new }
    ensures viewed { LooksBy (pool_refusal pool.now) (IsView pool.now) (known_by pass.old) (known_by pass.new) result }
{
    told(view(&mut pass.reader, pool))
}

impl Cluster {
    /// A pool at the present epoch of one published map, which extends every map that this pass has seen or learned
    /// of. It waits for nobody.
    ///
    /// M9: the pool's name is not valid. M2: there is no such pool. `NoReader`: there was no reading, and the pass
    /// has seen nothing; the call can be made again. K3: out of memory for the copy.
    pub fn view(&self, pass: &mut Pass, pool: &Name) -> Result<PoolView, ClusterFault>
        requires { IsPassOf self.now pass.old }
        ensures pass { IsPassOf self.now pass.new }
        ensures same { OnlyLooked pass.old pass.new }
        ensures viewed { LooksBy (pool_refusal pool.now) (IsView pool.now) (known_by pass.old) (known_by pass.new) result }
    {
        view_of(pass, pool)
    }

    /// Where an object is by one published map, which extends every map that this pass has seen or learned of. It
    /// waits for nobody.
    ///
    /// M9 and M2 as in `view`, and then W3: the object's name or the namespace is not valid. `NoReader`: there was no
    /// reading, and the pass has seen nothing; the call can be made again. K3: out of memory.
    pub fn locate(
        &self,
        pass: &mut Pass,
        pool: &Name,
        namespace: &Name,
        object: &Name,
    ) -> Result<Located, ClusterFault>
        requires { IsPassOf self.now pass.old }
        ensures pass { IsPassOf self.now pass.new }
        ensures same { OnlyLooked pass.old pass.new }
        ensures located { LooksBy (place_refusal pool.now (front.is_object_name object.now && front.is_namespace namespace.now)) (λ map located. IsLocated map pool.now namespace.now object.now located) (known_by pass.old) (known_by pass.new) result }
    {
        if are_names(object, namespace) {
            return locate_named(pass, pool, namespace, object);
        }
        match view_of(pass, pool) {
            Ok(_) | Err(ClusterFault::OutOfMemory) => {
                Err(ClusterFault::World(WorldFault::BadObjectName))
            }
            Err(fault) => Err(fault),
        }
    }

    /// Whether the ticket of a session of this pass allows at a tick what is needed of an object, by the view in hand. It takes no memory and
    /// waits for nobody.
    ///
    /// W1 (`NoSession`): the pass has no session of this number.
    pub fn judge(
        &self,
        pass: &Pass,
        session: u32,
        view: &PoolView,
        namespace: &str,
        object: &str,
        needs: &Needs,
        tick: u64,
    ) -> Result<bool, ClusterFault>
        ensures { MatchOption (own_session (sessions_of pass.now) session) (result ≡ Err (faults.World NoSession)) (λ own. result ≡ Ok (is_allowed own.ticket (record { pool = view.now.pool; tags = view.now.tags; namespace = namespace.now; object = object.now }) needs.now tick)) }
    {
        let Some(own) = find_own(pass.sessions.as_slice(), session) else {
            return Err(ClusterFault::World(WorldFault::NoSession));
        };
        Ok(judge_by(own, view, namespace, object, needs, tick))
    }
}
