//! Users, map, sessions, submissions and lists: the part of a world without groups, messages and copies.

ghost use Rattle.std.specs.Prelude.{◌≡◌, ◌≤◌, ◌<◌, ℕ, List, [], ◌∷◌, None, Ok, OnOk, OnErr, IfOk, length, option_copied};
ghost use Rattle.object_core.specs.declared.op.Op as op;
ghost use Rattle.group_model_whole.specs.Each.{Each};
ghost use Rattle.group_model_whole.specs.Group.{submitted};
ghost use Rattle.world_front.specs.Event.{Auth, Map, Open, Renew, Close, Submit, ListNames};
ghost use Rattle.map_core.specs.PoolLimits.{HasLimits};
ghost use Rattle.world_front.specs.ControlPlane.{asker_of, error_of, first_front, front_refusal, front_step, requests_of, told_of, list_at};
ghost use Rattle.world_front.specs.Asking.{IsOfList, IsOfVector};
ghost use Rattle.world_front.specs.Refusing.{RefusedOrMemory};
ghost use Rattle.world_front.specs.Stands.{IsKept};

use crate::asking::{Asker, are_names, is_namespace, view_for};
use crate::lists::Lists;
use crate::sealing::{seal_pieces, seal_vector};
use crate::session::{ListRange, Session, Sessions};
use crate::users::{change_users, check_user, ticket_for};
use auth_db::AuthDb;
use common_types::{Items, Name, OutOfMemory};
use entry_core::{Id, Sealed};
use grant_core::ProfileTable;
use map_core::{ClusterMap, MapCommand};
use std::alloc::Global;
use std::marker::Model;
use world_events::{Ask, AuthCommand, Ops, Submissions, Told, WorldFault};

/// The most sessions that there may be, closed ones counted (W6).
pub const MAX_SESSIONS: u32 = 1024;

/// Users, map, sessions, submissions and lists. Contracts see it as the definitions' front.
pub struct ControlPlane {
    alloc: Global,
    users: AuthDb,
    map: ClusterMap,
    sessions: Sessions,
    submissions: Submissions,
    lists: Lists,
}

impl Drop for ControlPlane {
    fn drop(self) {
        let ControlPlane {
            alloc: _,
            users: _,
            map: _,
            sessions: _,
            submissions: _,
            lists: _,
        } = self;
    }
}

impl Model for ControlPlane {
    ghost use Rattle.world_front.specs.ControlPlane as definition;
    ghost use Rattle.world_front.specs.Stands.{IsKept};

    ghost Value = { definition.ControlPlane };

    ghost view = { λ a. record { database = a.users; history = a.map; sessions = a.sessions; submissions = a.submissions; lists = a.lists } };

    ghost invariant = { λ a. IsKept (record { database = a.users; history = a.map; sessions = a.sessions; submissions = a.submissions; lists = a.lists }) };
}

impl ControlPlane {
    /// No users, no pools, no sessions. All daemons, 1 to 16, are up. It takes no memory.
    pub fn new(alloc: Global, table: ProfileTable, daemons: u8) -> ControlPlane
        requires some { 1 ≤ daemons }
        requires few { daemons ≤ 16 }
        ensures { result ≡ first_front table daemons }
    {
        let map = match ClusterMap::new(alloc, daemons) {
            Ok(map) => map,
            Err(_) => unreachable!(),
        };
        ControlPlane {
            alloc,
            users: AuthDb::new(alloc, table),
            map,
            sessions: Sessions::new(alloc),
            submissions: Submissions::new(alloc),
            lists: Lists::new(alloc),
        }
    }

    /// These users, this map, these sessions and submissions, and no lists. It takes no memory.
    pub fn of(
        alloc: Global,
        users: AuthDb,
        map: ClusterMap,
        sessions: Vec<Session>,
        submissions: Submissions,
    ) -> ControlPlane
        requires { IsKept (record { database = users; history = map; sessions = sessions.items; submissions = submissions; lists = [] }) }
        ensures { result ≡ record { database = users; history = map; sessions = sessions.items; submissions = submissions; lists = [] } }
    {
        ControlPlane {
            alloc,
            users,
            map,
            sessions: Sessions::from_vec(sessions),
            submissions,
            lists: Lists::new(alloc),
        }
    }

    /// The users, the map and the sessions. It takes no memory.
    pub fn into_parts(self) -> (AuthDb, ClusterMap, Vec<Session>)
        ensures { (result.0 ≡ self.database) × (result.1 ≡ self.history) × (result.2.items ≡ self.sessions) }
    {
        let ControlPlane {
            alloc: _,
            users,
            map,
            sessions,
            submissions: _,
            lists: _,
        } = self;
        (users, map, sessions.into_vec())
    }

    /// The users.
    pub fn users(&self) -> &AuthDb
        ensures { result.now ≡ self.now.database }
    {
        &self.users
    }

    /// The cluster map.
    pub fn map(&self) -> &ClusterMap
        ensures { result.now ≡ self.now.history }
    {
        &self.map
    }

    /// A command on the users. It is refused as the users refuse it.
    pub fn auth(&mut self, command: AuthCommand) -> Result<Told, WorldFault>
        ensures steps { OnOk result (self.new ≡ front_step self.old (Auth command)) }
        ensures tells { IfOk result (λ told. told ≡ told_of self.old (Auth command)) }
        ensures refused { RefusedOrMemory (front_refusal self.old (Auth command)) result }
        ensures unchanged { OnErr result (self.new ≡ self.old) }
    {
        let told = change_users(&mut self.users, command)?;
        Ok(told)
    }

    /// A command on the map. It is refused as the map refuses it.
    pub fn change_map(&mut self, command: MapCommand) -> Result<Told, WorldFault>
        ensures steps { OnOk result (self.new ≡ front_step self.old (Map command)) }
        ensures tells { IfOk result (λ told. told ≡ told_of self.old (Map command)) }
        ensures refused { RefusedOrMemory (front_refusal self.old (Map command)) result }
        ensures unchanged { OnErr result (self.new ≡ self.old) }
    {
        let epoch = self.map.apply(command)?;
        Ok(Told::Epoch(epoch))
    }

    /// A new session of a user. It is refused where there is no such user (A1, A3), and as one too many (W6).
    pub fn open(&mut self, entity: Name, until: Option<u64>) -> Result<Told, WorldFault>
        ensures steps { OnOk result (self.new ≡ front_step self.old (Open entity until)) }
        ensures tells { IfOk result (λ told. told ≡ told_of self.old (Open entity until)) }
        ensures refused { RefusedOrMemory (front_refusal self.old (Open entity until)) result }
        ensures unchanged { OnErr result (self.new ≡ self.old) }
    {
        check_user(&self.users, &entity)?;
        if self.sessions.len() >= MAX_SESSIONS as usize {
            return Err(WorldFault::Limit);
        }
        let number = self.sessions.len() as u32 + 1;
        let ticket = ticket_for(&self.users, &entity, until)?;
        self.sessions.push(Session::new(entity, ticket))?;
        Ok(Told::Session(number))
    }

    /// A session's ticket is made anew. It is refused where there is no such open session (W1), and where its user is gone (A3).
    pub fn renew(&mut self, session: u32, until: Option<u64>) -> Result<Told, WorldFault>
        ensures steps { OnOk result (self.new ≡ front_step self.old (Renew session until)) }
        ensures tells { IfOk result (λ told. told ≡ told_of self.old (Renew session until)) }
        ensures refused { RefusedOrMemory (front_refusal self.old (Renew session until)) result }
        ensures unchanged { OnErr result (self.new ≡ self.old) }
    {
        let found = self.sessions.find(session)?;
        let ticket = ticket_for(&self.users, &found.entity, until)?;
        self.sessions.renew(session, ticket)?;
        Ok(Told::Done)
    }

    /// A session ends. It is refused where there is no such open session (W1).
    pub fn close(&mut self, session: u32) -> Result<Told, WorldFault>
        ensures steps { OnOk result (self.new ≡ front_step self.old (Close session)) }
        ensures tells { IfOk result (λ told. told ≡ told_of self.old (Close session)) }
        ensures refused { RefusedOrMemory (front_refusal self.old (Close session)) result }
        ensures unchanged { OnErr result (self.new ≡ self.old) }
    {
        self.sessions.close(session)?;
        Ok(Told::Done)
    }

    // Who asks: W1, W4, W9 and W2, in this order.
    fn asker(&self, ask: &Ask) -> Result<Asker<'_>, WorldFault>
        ensures asked { IfOk result (λ asker. asker_of self.now ask.now ≡ Ok (record { session = asker.session.now; view = asker.view })) }
        ensures limits { IfOk result (λ asker. HasLimits asker.view.pg_num asker.view.size asker.view.min_size) }
        ensures refused { RefusedOrMemory (error_of (asker_of self.now ask.now)) result }
    {
        let session = self.sessions.find(ask.session)?;
        if ask.epoch < session.epoch || ask.epoch > self.map.epoch() {
            return Err(WorldFault::StaleEpoch);
        }
        if ask.tick < session.tick {
            return Err(WorldFault::StaleTick);
        }
        let view = view_for(&self.map, &ask.pool, ask.epoch)?;
        Ok(Asker { session, view })
    }

    /// Seals a vector on an object with the session's ticket and the pool as the asker saw it. It submits nothing.
    ///
    /// It is refused by the first of these that holds: W1, W4, W9, W2, W3, N1 to N3. Out of memory may come before any.
    #[tactic(auto, unfolding(crate::specs::ControlPlane::requests_of, crate::specs::Sealing::requests_in))]
    pub fn vector(&self, ask: &Ask, object: Name, ops: Ops) -> Result<Sealed, WorldFault>
        ensures sealed { IfOk result (λ request. requests_of self.now (Submit ask.now object ops) ≡ Ok (request ∷ [])) }
        ensures fresh { IfOk result (λ request. submitted self.now.submissions request.id ≡ None) }
        ensures refused { RefusedOrMemory (error_of (requests_of self.now (Submit ask.now object ops))) result }
    {
        let asker = self.asker(ask)?;
        if !are_names(&object, &ask.namespace) {
            return Err(WorldFault::BadObjectName);
        }
        let Asker { session, view } = asker;
        let request = seal_vector(self.alloc, ask, session, view, object, ops)?;
        Ok(request)
    }

    /// Seals the pieces of a list of names, one for each group of the pool, as a vector is sealed. It submits nothing.
    ///
    /// It is refused by the first of these that holds: W1, W4, W9, W2, W3. Out of memory may come before any.
    #[tactic(auto, unfolding(crate::specs::ControlPlane::requests_of, crate::specs::Sealing::requests_in))]
    pub fn pieces(&self, ask: &Ask) -> Result<Items<Sealed>, WorldFault>
        ensures asked { IfOk result (IsOfList self.now ask.now) }
        ensures sealed { IfOk result (λ requests. requests_of self.now (ListNames ask.now) ≡ Ok requests) }
        ensures fresh { IfOk result (Each (λ request. submitted self.now.submissions request.id ≡ None)) }
        ensures refused { RefusedOrMemory (error_of (requests_of self.now (ListNames ask.now))) result }
    {
        let asker = self.asker(ask)?;
        if !is_namespace(&ask.namespace) {
            return Err(WorldFault::BadObjectName);
        }
        let requests = seal_pieces(self.alloc, ask, &asker)?;
        Ok(requests)
    }

    /// Submits the request of a vector. It requires fewer than 2^26 submitted requests.
    ///
    /// Where an allocation fails, nothing changes.
    #[tactic(auto, unfolding(crate::specs::ControlPlane::requests_of, crate::specs::Sealing::requests_in))]
    pub fn record_vector(&mut self, ask: &Ask, request: Sealed) -> Result<Told, OutOfMemory>
        requires asked { IsOfVector self.old ask.now request }
        requires few { length self.old.submissions < 67108864 }
        ensures steps { (object : List ℕ) (ops : List op.Op) → requests_of self.old (Submit ask.now object ops) ≡ Ok (request ∷ [])
            → OnOk result (self.new ≡ front_step self.old (Submit ask.now object ops)) }
        ensures tells { (object : List ℕ) (ops : List op.Op) → requests_of self.old (Submit ask.now object ops) ≡ Ok (request ∷ [])
            → IfOk result (λ told. told ≡ told_of self.old (Submit ask.now object ops)) }
        ensures unchanged { OnErr result (self.new ≡ self.old) }
    {
        let id = request.id();
        self.submissions.push(request)?;
        self.sessions.ask(ask, 1);
        Ok(Told::Request(id))
    }

    /// Submits the pieces of a list, all or none. It requires fewer than 2^26 submitted requests.
    ///
    /// Where an allocation fails, nothing changes.
    #[tactic(auto, unfolding(crate::specs::ControlPlane::requests_of, crate::specs::Sealing::requests_in))]
    pub fn record_pieces(&mut self, ask: &Ask, requests: Items<Sealed>) -> Result<Told, OutOfMemory>
        requires asked { IsOfList self.old ask.now requests }
        requires few { length self.old.submissions < 67108864 }
        ensures steps { OnOk result (self.new ≡ front_step self.old (ListNames ask.now)) }
        ensures tells { IfOk result (λ told. told ≡ told_of self.old (ListNames ask.now)) }
        ensures unchanged { OnErr result (self.new ≡ self.old) }
    {
        let first = requests.as_slice()[0].id();
        let count = requests.len() as u32;
        self.lists.push(ListRange { first, count })?;
        if let Err(error) = self.submissions.append(requests.as_slice()) {
            self.lists.pop();
            return Err(error);
        }
        self.sessions.ask(ask, count);
        Ok(Told::List { first, count })
    }

    /// The request of an id, if it was submitted. It is found by hash, and takes no memory.
    pub fn submitted(&self, id: Id) -> Option<&Sealed>
        ensures { option_copied result ≡ submitted self.now.submissions id }
    {
        self.submissions.get(id)
    }

    /// The list that begins with a request, if one does. It is found by hash, and takes no memory.
    pub fn list_at(&self, first: Id) -> Option<ListRange>
        ensures { result ≡ list_at self.now first }
    {
        self.lists.get(first)
    }
}
