//! Deliveries, and looks for answers.

ghost use Rattle.std.specs.Prelude.{◌≡◌, ◌<◌, Option, None, Some, Ok, Err};
ghost use Rattle.map_core.specs.Refusal.{acting_refusal};
ghost use Rattle.map_core.specs.declared.fault.MapFault as map;
ghost use Rattle.world_events.specs.declared.fault.WorldFault.TheVariants.{NoRequest, Map as OfMap};
ghost use Rattle.cluster.specs.declared.fault.ClusterFault.TheVariants as faults;
ghost use Rattle.cluster.specs.Passes.{group_count, start_of};
ghost use Rattle.cluster.specs.Asks.{IsPassOf};
ghost use Rattle.cluster.specs.Deliveries.{fault_of_group, fault_of_answer, WorksAt, WorksOn, LooksAt, LooksIn};

use crate::asking::Submitted;
use crate::cluster::Cluster;
use crate::fault::ClusterFault;
use crate::pass::Pass;
use cluster_locks::{AnswerFault, AnswerOf, Work, Worked};
use entry_core::{GroupId, Id, Reply};
use group_messages::GroupFault;
use std::sync::Wait;
use world_core::{WorldFault, place_of};

// The cluster's fault for a fault of a group; out of memory is the cluster's own.
pub(crate) fn of_group(fault: GroupFault) -> ClusterFault
    ensures { result ≡ fault_of_group fault }
{
    match fault {
        GroupFault::OutOfMemory => ClusterFault::OutOfMemory,
        fault => ClusterFault::World(WorldFault::Group(fault)),
    }
}

// Why no answer is looked for.
fn of_answer(fault: AnswerFault) -> ClusterFault
    ensures { result ≡ fault_of_answer fault }
{
    match fault {
        AnswerFault::NoRequest => ClusterFault::World(WorldFault::NoRequest),
        AnswerFault::OutOfMemory => ClusterFault::OutOfMemory,
    }
}

impl Cluster {
    // Delivers message 0 of the group at a place.
    pub(crate) fn work_at<R: Wait>(
        &self,
        rt: &R,
        pass: &mut Pass,
        place: usize,
    ) -> Result<Worked, ClusterFault>
        requires pass { IsPassOf self.now pass.old }
        requires place { place < group_count self.now }
        ensures pass { IsPassOf self.now pass.new }
        ensures worked { WorksAt self.now place pass.old pass.new result }
    {
        match self.turn(rt, &mut pass.seats, place, Work) {
            Ok(worked) => Ok(worked),
            Err(fault) => Err(of_group(fault)),
        }
    }

    /// Delivers message 0 of a group: the one that was sent first of those on their way. It returns `Idle` if no
    /// message is on its way. It waits for the group's turn.
    ///
    /// M9, M2 or M10: the cluster has no such group, and nothing changed. P2: the message was to a daemon that is
    /// down, and is dropped. K3: out of memory, and the message stays.
    pub fn work<R: Wait>(
        &self,
        rt: &R,
        pass: &mut Pass,
        group: &GroupId,
    ) -> Result<Worked, ClusterFault>
        requires { IsPassOf self.now pass.old }
        ensures pass { IsPassOf self.now pass.new }
        ensures refused { (fault : map.MapFault) → acting_refusal (start_of self.now) group.now.pool group.now.number ≡ Some fault → (result ≡ Err (faults.World (OfMap fault))) × (pass.new ≡ pass.old) }
        ensures worked { acting_refusal (start_of self.now) group.now.pool group.now.number ≡ None → WorksOn self.now group.now pass.old pass.new result }
    {
        match place_of(&self.start, group) {
            Ok(place) => self.work_at(rt, pass, place),
            Err(fault) => Err(ClusterFault::World(fault)),
        }
    }

    // Looks for the reply to a request in the group at a place.
    fn answer_at<R: Wait>(
        &self,
        rt: &R,
        pass: &mut Pass,
        place: usize,
        id: Id,
    ) -> Result<Option<Reply>, ClusterFault>
        requires pass { IsPassOf self.now pass.old }
        requires place { place < group_count self.now }
        ensures pass { IsPassOf self.now pass.new }
        ensures looked { LooksAt self.now place id pass.old pass.new result }
    {
        match self.turn(rt, &mut pass.seats, place, AnswerOf(id)) {
            Ok(reply) => Ok(reply),
            Err(fault) => Err(of_answer(fault)),
        }
    }

    /// A copy of the reply to a request, or `None` where it has none yet. It waits for the group's turn.
    ///
    /// W5: the cluster has no such group, or the group no request of this id. K3: memory was wanting for the copy. Nothing changes in
    /// either case, but that the pass has seen the group's turns.
    pub fn answer<R: Wait>(
        &self,
        rt: &R,
        pass: &mut Pass,
        submitted: &Submitted,
    ) -> Result<Option<Reply>, ClusterFault>
        requires { IsPassOf self.now pass.old }
        ensures pass { IsPassOf self.now pass.new }
        ensures missing { (fault : map.MapFault) → acting_refusal (start_of self.now) submitted.now.group.pool submitted.now.group.number ≡ Some fault → (result ≡ Err (faults.World NoRequest)) × (pass.new ≡ pass.old) }
        ensures looked { acting_refusal (start_of self.now) submitted.now.group.pool submitted.now.group.number ≡ None → LooksIn self.now submitted.now.group submitted.now.id pass.old pass.new result }
    {
        match place_of(&self.start, &submitted.group) {
            Ok(place) => self.answer_at(rt, pass, place, submitted.id),
            Err(_) => Err(ClusterFault::World(WorldFault::NoRequest)),
        }
    }
}
