//! Requests, each submitted by one turn on its group.

ghost use Rattle.std.specs.Prelude.{◌≡◌, ◌⊎◌, ◌<◌, ◌≤◌, ◌+◌, Ok, None, Some, IfOk, IfErr, IfSome, length};
ghost use Rattle.std.specs.Option.{option_map};
ghost use Rattle.object_core.specs.Needs.{needs_fault};
ghost use Rattle.world_events.specs.declared.fault.WorldFault.{WorldFault as Fault};
ghost use Rattle.world_events.specs.declared.fault.WorldFault.TheVariants.{Needs as OfNeeds};
ghost use Rattle.world_front.specs.ControlPlane.{error_of, vector_of, asks_more};
ghost use Rattle.common_types.specs.Refused.{RefusedExactly};
ghost use Rattle.cluster.specs.declared.fault.ClusterFault.TheVariants as faults;
ghost use Rattle.cluster.specs.Sessions.{own_session_at, next_of};
ghost use Rattle.cluster.specs.Asks.{IsPassOf, sessions_of};
ghost use Rattle.cluster.specs.Pools.{IsPoolOf};
ghost use Rattle.cluster.specs.Asking as spec;
ghost use Rattle.cluster.specs.Asking.{own_place, session_by, numbered_from, HasSubmitted, IsNotSubmitted, IsPiece, IsNoPiece, ArePieces, IsCutShort, IsSubmitted, SubmitFails, IsListed, ListFails};
ghost use Rattle.cluster.specs.ToAsk.{IsToAsk, IsVectorSubmitted, IsVectorRefused, FitsOneMore};

use crate::cluster::Cluster;
use crate::deliveries::of_group;
use crate::fault::ClusterFault;
use crate::pass::{OwnSession, Pass};
use cluster_locks::{Submission, count_request, next_piece};
use common_types::Name;
use entry_core::{GroupId, Id, Sealed};
use map_core::PoolView;
use std::alloc::Global;
use std::sync::Wait;
use world_core::{Ask, Ops, Session, WorldFault, are_names, is_namespace, place_of, seal_vector};

/// Which session requests, when, and where. The request names the epoch of the map that the pass reads.
#[derive(Debug, Drop)]
pub struct NewRequest {
    /// The session's number, from 1 on.
    pub session: u32,
    /// The stamp of the request, by which its ticket is judged. Its unit is the caller's.
    pub tick: u64,
    /// The pool's name.
    pub pool: Name,
    /// The namespace, at most 64 bytes of 33 to 126; empty for the default one.
    pub namespace: Name,
}

/// A request that was submitted: its id, and the group that has it.
#[derive(Debug)]
pub struct Submitted {
    pub id: Id,
    pub group: GroupId,
}

impl Drop for Submitted {
    fn drop(self) {
        let Submitted { id: _, group: _ } = self;
    }
}

// Where the session of a number stands.
fn find_session(own: &[OwnSession], number: u32) -> Option<usize>
    ensures place { result ≡ own_place own.now number }
    ensures inside { IfSome result (λ k. k < length own.now) }
{
    own.iter().position(|session| session.number == number)
}

// Where the session stands that asks: W1 and W9.
fn asking_session(own: &[OwnSession], new_request: &NewRequest) -> Result<usize, WorldFault>
    ensures found { IfOk result (λ k. own_place own.now new_request.now.session ≡ Some k) }
    ensures refused { RefusedExactly (error_of (session_by own.now new_request.now)) result }
{
    match find_session(own, new_request.session) {
        None => Err(WorldFault::NoSession),
        Some(k) => {
            if new_request.tick < own[k].session.tick {
                Err(WorldFault::StaleTick)
            } else {
                Ok(k)
            }
        }
    }
}

// The question, with the epoch of the pool's view.
fn ask_by(new_request: NewRequest, view: &PoolView) -> Ask
    ensures { result ≡ spec.ask_by new_request view.now }
{
    let NewRequest {
        session,
        tick,
        pool,
        namespace,
    } = new_request;
    Ask {
        session,
        epoch: view.epoch,
        tick,
        pool,
        namespace,
    }
}

// A session has asked for one request more.
fn move_on(own: &mut Vec<OwnSession>, k: usize, ask: &Ask)
    requires place { own_place own.old.items ask.now.session ≡ Some k }
    requires room { FitsOneMore own.old.items ask.now.session }
    ensures { own.new.items ≡ own_session_at own.old.items ask.now.session (asks_more ask.now 1) }
{
    count_request(&mut own[k].session, ask);
}

// The request of a vector under the next number of a session. It returns K3 also if the session's numbers are used
// up: no group has room for that many requests.
fn seal_next(
    alloc: Global,
    ask: &Ask,
    session: &Session,
    view: PoolView,
    object: Name,
    ops: Ops,
) -> Result<Sealed, ClusterFault>
    requires { 1 ≤ view.pg_num }
    ensures sealed { IfOk result (λ request. (request ≡ vector_of ask.now (record { session = session.now; view = view }) object ops) × (needs_fault ops ≡ None)) }
    ensures room { IfOk result (λ request. session.now.next + 1 < 4294967296) }
    ensures err { IfErr result (λ fault. (fault ≡ faults.OutOfMemory) ⊎ ((why : Fault) × (fault ≡ faults.World why) × (option_map OfNeeds (needs_fault ops) ≡ Some why))) }
{
    if session.next == u32::MAX {
        return Err(ClusterFault::OutOfMemory);
    }
    match seal_vector(alloc, ask, session, view, object, ops) {
        Ok(request) => Ok(request),
        Err(WorldFault::OutOfMemory) => Err(ClusterFault::OutOfMemory),
        Err(fault) => Err(ClusterFault::World(fault)),
    }
}

impl Cluster {
    // Submits a sealed request by one turn on its group, and moves its session on.
    fn put<R: Wait>(
        &self,
        rt: &R,
        pass: &mut Pass,
        k: usize,
        ask: &Ask,
        request: Sealed,
    ) -> Result<Submitted, ClusterFault>
        requires pass { IsPassOf self.now pass.old }
        requires place { own_place pass.old.sessions.items ask.now.session ≡ Some k }
        requires asks { IsToAsk self.now.start pass.old.sessions.items ask.now request }
        ensures pass { IsPassOf self.now pass.new }
        ensures ok { IfOk result (λ submitted. HasSubmitted self.now ask.now request submitted pass.old pass.new) }
        ensures err { IfErr result (λ fault. IsNotSubmitted self.now request fault pass.old pass.new) }
    {
        let id = request.id();
        let Ok(group) = request.group() else {
            return Err(ClusterFault::OutOfMemory);
        };
        match place_of(&self.start, &group) {
            Err(_) => unreachable!(),
            Ok(place) => match self.turn(rt, &mut pass.seats, place, Submission(Some(request))) {
                Err(fault) => Err(of_group(fault)),
                Ok(()) => {
                    move_on(&mut pass.sessions, k, ask);
                    Ok(Submitted { id, group })
                }
            },
        }
    }

    // Submits a vector on a pool that was read: W3, N1 to N3, then what its group refuses.
    fn submit_vector<R: Wait>(
        &self,
        rt: &R,
        pass: &mut Pass,
        k: usize,
        new_request: NewRequest,
        view: PoolView,
        object: Name,
        ops: Ops,
    ) -> Result<Submitted, ClusterFault>
        requires pass { IsPassOf self.now pass.old }
        requires place { own_place pass.old.sessions.items new_request.session ≡ Some k }
        requires pool { IsPoolOf self.now.start new_request.pool view }
        ensures pass { IsPassOf self.now pass.new }
        ensures ok { IfOk result (λ submitted. IsVectorSubmitted self.now new_request view object ops submitted pass.old pass.new) }
        ensures err { IfErr result (λ fault. IsVectorRefused self.now new_request view object ops fault pass.old pass.new) }
    {
        if !are_names(&object, &new_request.namespace) {
            return Err(ClusterFault::World(WorldFault::BadObjectName));
        }
        let alloc = *pass.sessions.allocator();
        let ask = ask_by(new_request, &view);
        match seal_next(alloc, &ask, &pass.sessions[k].session, view, object, ops) {
            Err(fault) => Err(fault),
            Ok(request) => self.put(rt, pass, k, &ask, request),
        }
    }

    /// Submits a vector of operations on an object, sealed with the session's ticket and with the pool. It waits for
    /// the group's turn.
    ///
    /// The pool is read from a published map that extends every map that this pass saw before or learned of.
    ///
    /// The first of these faults that applies is returned:
    /// - W1: the pass has no such session.
    /// - W9: the tick is before one that this session has used.
    /// - K4: there was no reading.
    /// - W2: the map that was read has no such pool.
    /// - W3: the object's name or the namespace is not valid.
    /// - N1 to N3: a fault of the vector.
    /// - P3: the group has all its requests.
    ///
    /// K3, out of memory, may come at any place after K4. It is returned also if the session has given all its 2^32
    /// numbers. A refused call submits nothing, and leaves the sessions as they were.
    pub fn submit<R: Wait>(
        &self,
        rt: &R,
        pass: &mut Pass,
        new_request: NewRequest,
        object: Name,
        ops: Ops,
    ) -> Result<Submitted, ClusterFault>
        requires { IsPassOf self.now pass.old }
        ensures pass { IsPassOf self.now pass.new }
        ensures ok { IfOk result (λ submitted. IsSubmitted self.now new_request object ops submitted pass.old pass.new) }
        ensures err { IfErr result (λ fault. SubmitFails self.now new_request object ops fault pass.old pass.new) }
    {
        match asking_session(pass.sessions.as_slice(), &new_request) {
            Err(why) => Err(ClusterFault::World(why)),
            Ok(k) => match self.see_pool(pass, &new_request.pool) {
                Err(fault) => Err(fault),
                Ok(view) => self.submit_vector(rt, pass, k, new_request, view, object, ops),
            },
        }
    }

    // Submits the piece of a list for one group.
    fn submit_piece<R: Wait>(
        &self,
        rt: &R,
        pass: &mut Pass,
        k: usize,
        ask: &Ask,
        view: &PoolView,
        group: u32,
    ) -> Result<Submitted, ClusterFault>
        requires pass { IsPassOf self.now pass.old }
        requires place { own_place pass.old.sessions.items ask.now.session ≡ Some k }
        requires pool { IsPoolOf self.now.start ask.now.pool view.now }
        requires group { group < view.now.pg_num }
        ensures pass { IsPassOf self.now pass.new }
        ensures place { own_place pass.new.sessions.items ask.now.session ≡ Some k }
        ensures ok { IfOk result (λ submitted. IsPiece self.now ask.now view.now group submitted pass.old pass.new) }
        ensures err { IfErr result (λ fault. IsNoPiece self.now ask.now view.now group fault pass.old pass.new) }
    {
        let alloc = *pass.sessions.allocator();
        match next_piece(alloc, ask, &pass.sessions[k].session, view, group) {
            Err(_) => Err(ClusterFault::OutOfMemory),
            Ok(request) => self.put(rt, pass, k, ask, request),
        }
    }

    // Submits a piece for each group of a pool that was read, in order.
    fn submit_pieces<R: Wait>(
        &self,
        rt: &R,
        pass: &mut Pass,
        k: usize,
        ask: &Ask,
        view: &PoolView,
    ) -> Result<Vec<Submitted>, ClusterFault>
        requires pass { IsPassOf self.now pass.old }
        requires place { own_place pass.old.sessions.items ask.now.session ≡ Some k }
        requires pool { IsPoolOf self.now.start ask.now.pool view.now }
        ensures pass { IsPassOf self.now pass.new }
        ensures ok { IfOk result (λ all. ArePieces self.now ask.now view.now 0 all.items pass.old pass.new × (length all.items ≡ view.now.pg_num)) }
        ensures err { IfErr result (λ fault. IsCutShort self.now ask.now view.now fault pass.old pass.new) }
    {
        let alloc = *pass.sessions.allocator();
        let Ok(mut all) = Vec::with_capacity(alloc, view.pg_num as usize) else {
            return Err(ClusterFault::OutOfMemory);
        };
        for group in 0..view.pg_num {
            match self.submit_piece(rt, pass, k, ask, view, group) {
                Err(fault) => return Err(fault),
                Ok(submitted) => all.push_reserved(submitted),
            }
        }
        Ok(all)
    }

    /// Asks for the names of a namespace's objects: one piece for each group of the pool, in order, under consecutive numbers, each
    /// sealed and submitted as a vector is. All pieces are sealed by one reading of the map. Each is asked for by [`Cluster::answer`].
    ///
    /// It is refused as `submit` is: W1, W9, W2, W3 for the namespace, P3; K4 after W9, and K3 anywhere after it. A refusal before the
    /// first piece submits nothing. Where a piece is refused, those before it stand submitted, and the session's next number is after
    /// theirs.
    pub fn list<R: Wait>(
        &self,
        rt: &R,
        pass: &mut Pass,
        new_request: NewRequest,
    ) -> Result<Vec<Submitted>, ClusterFault>
        requires { IsPassOf self.now pass.old }
        ensures pass { IsPassOf self.now pass.new }
        ensures ok { IfOk result (λ all. IsListed self.now new_request all.items pass.old pass.new) }
        ensures told { IfOk result (λ all. all.items ≡ numbered_from new_request.session (next_of (sessions_of pass.old) new_request.session) new_request.pool (length all.items)) }
        ensures err { IfErr result (λ fault. ListFails self.now new_request fault pass.old pass.new) }
    {
        match asking_session(pass.sessions.as_slice(), &new_request) {
            Err(fault) => Err(ClusterFault::World(fault)),
            Ok(k) => match self.see_pool(pass, &new_request.pool) {
                Err(fault) => Err(fault),
                Ok(view) => {
                    if !is_namespace(&new_request.namespace) {
                        return Err(ClusterFault::World(WorldFault::BadObjectName));
                    }
                    let ask = ask_by(new_request, &view);
                    self.submit_pieces(rt, pass, k, &ask, &view)
                }
            },
        }
    }
}
