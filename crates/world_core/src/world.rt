//! A world: users, map, sessions and groups, one event at a time.

ghost use Rattle.std.specs.Prelude.{◌≡◌, ◌≤◌, ◌++◌, [], ◌∷◌, ℕ, List, true, false, Ok, Some, IfOk, IsOkAnd, IsSomeAnd};
ghost use Rattle.grant_core.specs.Flat.{Table};
ghost use Rattle.store_core.specs.declared.sealed.GroupId.{GroupId};
ghost use Rattle.group_model.specs.Recovery.{is_ready};
ghost use Rattle.world_events.specs.declared.event.Event as events;
ghost use Rattle.world_events.specs.declared.event.Event.TheVariants as happens;
ghost use Rattle.world_front.specs.ControlPlane.{told_of, group_refusal};
ghost use Rattle.world_core.specs.World.{first_world, world_step, refusal_of, counts, group_at};
ghost use Rattle.world_core.specs.Holds.{Holds};
ghost use Rattle.common_types.specs.Refused.{RefusedExactly};
ghost use Rattle.world_front.specs.Refusing.{RefusedOrMemory};
ghost use Rattle.world_core.specs.Calls.{KeepsPromises};
ghost use Rattle.world_core.specs.Service.{Step, begun};
ghost use Rattle.world_core.specs.Serving.{service_of, submitted_by};

mod answers;
mod parts;

use crate::audit::{Run, collect};
use crate::calls::{call_at, told};
use crate::group_places::place_of;
use crate::moves::apply_map;
use crate::taking::{take_back_all, take_requests};
use auth_db::AuthDb;
use common_types::{Name, OutOfMemory};
use entry_core::{Entry, GroupId};
use grant_core::ProfileTable;
use group_core::{Group, GroupCall};
use map_core::{ClusterMap, MapCommand};
pub use parts::WorldParts;
use peer_core::Sent;
use std::alloc::Global;
use std::marker::Model;
use std::slice;
use world_front::{Ask, AuthCommand, ControlPlane, Event, Ops, Told, WorldFault};

/// Users, a map, sessions and groups, with what was decided (this project's profile, over the commands of the Ceph manual
/// and the placement groups of the RADOS paper).
///
/// Each world was made by `new` and some events. Contracts see the front, the groups in order of creation, and the decided
/// entries of all groups in the order in which they were decided.
pub struct World {
    front: ControlPlane,
    groups: Vec<Group>,
    runs: Vec<Run>,
}

impl Drop for World {
    fn drop(self) {
        let World {
            front: _,
            groups: _,
            runs: _,
        } = self;
    }
}

impl Model for World {
    ghost use Rattle.world_core.specs.World as definition;
    ghost use Rattle.world_core.specs.Inside.{world_of};
    ghost use Rattle.world_core.specs.Sound.{IsKept};

    ghost Value = { definition.World };

    ghost view = { λ a. world_of a.front a.groups.items a.runs.items };

    ghost invariant = { λ a. IsKept a.front a.groups.items a.runs.items };
}

impl World {
    /// A world of 1 to 16 daemons, all up, whose profiles are those of the table. It has no users, pools, sessions or groups.
    pub fn new(alloc: Global, table: ProfileTable, daemons: u8) -> Result<World, WorldFault>
        requires some { 1 ≤ daemons }
        requires few { daemons ≤ 16 }
        ensures made { IsOkAnd result (λ world. world ≡ first_world table daemons) }
        ensures begins { IsOkAnd result (λ world. service_of world ≡ begun) }
    {
        Ok(World {
            front: ControlPlane::new(alloc, table, daemons),
            groups: Vec::new(alloc),
            runs: Vec::new(alloc),
        })
    }

    /// Carries out an event, and says what it tells.
    ///
    /// It is refused for the first reason that `WorldFault` has for it, in the order of the definition `refusal_of`. An event
    /// that takes memory may be refused as out of memory (W7) instead, also where another refusal holds. A refused event leaves
    /// the world as it was. The exception is a delivery to a daemon that is down (P2): it drops its message, and counts as an
    /// event that happened. A loss is never refused as out of memory.
    pub fn apply(&mut self, event: Event) -> Result<Told, WorldFault>
        ensures holds { (table : Table) (daemons : ℕ) (before : List events.Event) → Holds table daemons before self.old → counts event result ≡ true
            → Holds table daemons (before ++ event ∷ []) self.new }
        ensures serves { Step (submitted_by self.old.front event result) (service_of self.old) (service_of self.new) }
        ensures steps { counts event result ≡ true → self.new ≡ world_step self.old event }
        ensures tells { IfOk result (λ told. told ≡ told_of self.old.front event) }
        ensures refused { RefusedOrMemory (refusal_of self.old event) result }
        ensures lost { (group : GroupId) (place : ℕ) → event ≡ happens.Lose group place → RefusedExactly (refusal_of self.old event) result }
        ensures unchanged { counts event result ≡ false → self.new ≡ self.old }
    {
        let _front = &self.front;
        self.carry_out(event)
    }

    /// A copy of the decided entries of all groups, in the order in which they were decided.
    pub fn audit(&self) -> Result<Vec<Entry>, OutOfMemory>
        ensures { IfOk result (λ entries. entries.items ≡ (service_of self.now).decided) }
    {
        let _front = &self.front;
        let alloc = *self.groups.allocator();
        collect(alloc, self.groups.as_slice(), self.runs.as_slice())
    }

    /// The messages of a group on their way, in order of sending.
    ///
    /// M9 where the pool's name is no word, M2 where there is no such pool, M10 where it has no group of that number. It takes
    /// no memory.
    pub fn wire(&self, group: &GroupId) -> Result<&[Sent], WorldFault>
        ensures wire { IfOk result (λ sent. IsSomeAnd (group_at group.now self.now.groups) (λ g. sent.now ≡ g.wire)) }
        ensures refused { RefusedExactly (group_refusal self.now.front group.now) result }
    {
        let _runs = &self.runs;
        let place = match place_of(self.front.map(), group) {
            Ok(place) => place,
            Err(fault) => return Err(fault),
        };
        let found = &self.groups[place];
        Ok(found.wire())
    }

    /// Whether a group can be recovered by hand, as `Group::ready` says.
    ///
    /// M9, M2 and M10 as for `wire`. It takes no memory.
    pub fn ready(&self, group: &GroupId) -> Result<bool, WorldFault>
        ensures ready { IfOk result (λ ready. IsSomeAnd (group_at group.now self.now.groups) (λ g. ready ≡ is_ready g)) }
        ensures refused { RefusedExactly (group_refusal self.now.front group.now) result }
    {
        let _runs = &self.runs;
        let place = match place_of(self.front.map(), group) {
            Ok(place) => place,
            Err(fault) => return Err(fault),
        };
        let found = &self.groups[place];
        Ok(found.ready())
    }

    /// The users.
    pub fn users(&self) -> &AuthDb
        ensures { result.now ≡ self.now.front.database }
    {
        let _groups = &self.groups;
        let _runs = &self.runs;
        self.front.users()
    }

    /// The map.
    pub fn map(&self) -> &ClusterMap
        ensures { result.now ≡ self.now.front.history }
    {
        let _groups = &self.groups;
        let _runs = &self.runs;
        self.front.map()
    }

    /// What holds of every world, whatever was done to it: the service reaches it from its beginning; what was decided is one legal list of requests that were submitted,
    /// made of the groups' own lists; each answer is what one store gives at its place; each group's requests are the
    /// submissions for it, and its sets the map's intervals; what was decided in it is replicated.
    pub fn keeps_promises(&self)
        ensures { KeepsPromises self.now }
    {
        let _front = &self.front;
        let _groups = &self.groups;
        let _runs = &self.runs;
    }
}

// One event each.
impl World {
    ghost use Rattle.std.specs.Prelude.{Err};
    ghost use Rattle.world_events.specs.declared.event.Event.TheVariants.{Auth, Map, Open, Renew, Close, Submit, List as ListNames};
    ghost use Rattle.world_core.specs.Applying.{Applies, LosesExactly, event_for};

    /// Carries out an event.
    fn carry_out(&mut self, event: Event) -> Result<Told, WorldFault>
        ensures applies { Applies self.old event result self.new }
        ensures lost { LosesExactly self.old event result }
    {
        match event {
            Event::Auth(command) => self.auth(command),
            Event::Map(command) => self.change_map(command),
            Event::Open { entity, until } => self.open(entity, until),
            Event::Renew { session, until } => self.renew(session, until),
            Event::Close { session } => self.close(session),
            Event::Submit { ask, object, ops } => self.submit(ask, object, ops),
            Event::List(ask) => self.list(ask),
            Event::Deliver { group, place } => self.call(&group, GroupCall::Deliver(place)),
            Event::Lose { group, place } => self.call(&group, GroupCall::Lose(place)),
            Event::Repeat { group, place } => self.call(&group, GroupCall::Repeat(place)),
            Event::Kick { group } => self.call(&group, GroupCall::Kick),
        }
    }

    /// A call on one group.
    fn call(&mut self, group: &GroupId, what: GroupCall) -> Result<Told, WorldFault>
        ensures applies { Applies self.old (event_for group.now what) result self.new }
        ensures lost { LosesExactly self.old (event_for group.now what) result }
    {
        let place = match place_of(self.front.map(), group) {
            Ok(place) => place,
            Err(fault) => return Err(fault),
        };
        let done = call_at(&mut self.groups, &mut self.runs, place, what);
        told(done)
    }

    /// A command on the users.
    fn auth(&mut self, command: AuthCommand) -> Result<Told, WorldFault>
        ensures { Applies self.old (Auth command) result self.new }
    {
        let _groups = &self.groups;
        let _runs = &self.runs;
        self.front.auth(command)
    }

    /// A new session of a user.
    fn open(&mut self, entity: Name, until: Option<u64>) -> Result<Told, WorldFault>
        ensures { Applies self.old (Open entity until) result self.new }
    {
        let _groups = &self.groups;
        let _runs = &self.runs;
        self.front.open(entity, until)
    }

    /// A session's ticket is made anew.
    fn renew(&mut self, session: u32, until: Option<u64>) -> Result<Told, WorldFault>
        ensures { Applies self.old (Renew session until) result self.new }
    {
        let _groups = &self.groups;
        let _runs = &self.runs;
        self.front.renew(session, until)
    }

    /// A session ends.
    fn close(&mut self, session: u32) -> Result<Told, WorldFault>
        ensures { Applies self.old (Close session) result self.new }
    {
        let _groups = &self.groups;
        let _runs = &self.runs;
        self.front.close(session)
    }

    /// A command on the map.
    fn change_map(&mut self, command: MapCommand) -> Result<Told, WorldFault>
        ensures { Applies self.old (Map command) result self.new }
    {
        let _runs = &self.runs;
        apply_map(&mut self.front, &mut self.groups, command)
    }

    /// A vector of operations on an object.
    fn submit(&mut self, ask: Ask, object: Name, ops: Ops) -> Result<Told, WorldFault>
        ensures { Applies self.old (Submit ask object ops) result self.new }
    {
        let _runs = &self.runs;
        let request = match self.front.vector(&ask, object, ops) {
            Ok(request) => request,
            Err(fault) => return Err(fault),
        };
        let one = slice::from_ref(&request);
        let map = self.front.map();
        let places = match take_requests(&mut self.groups, map, one) {
            Ok(places) => places,
            Err(fault) => return Err(fault),
        };
        match self.front.record_vector(&ask, request) {
            Ok(told) => Ok(told),
            Err(_) => {
                take_back_all(&mut self.groups, places.as_slice());
                Err(WorldFault::OutOfMemory)
            }
        }
    }

    /// A list of names: one request to each group of a pool.
    fn list(&mut self, ask: Ask) -> Result<Told, WorldFault>
        ensures { Applies self.old (ListNames ask) result self.new }
    {
        let _runs = &self.runs;
        let requests = match self.front.pieces(&ask) {
            Ok(requests) => requests,
            Err(fault) => return Err(fault),
        };
        let pieces = requests.as_slice();
        let map = self.front.map();
        let places = match take_requests(&mut self.groups, map, pieces) {
            Ok(places) => places,
            Err(fault) => return Err(fault),
        };
        match self.front.record_pieces(&ask, requests) {
            Ok(told) => Ok(told),
            Err(_) => {
                take_back_all(&mut self.groups, places.as_slice());
                Err(WorldFault::OutOfMemory)
            }
        }
    }
}
