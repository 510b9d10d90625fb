//! Sessions of a pass, and the users.

ghost use Rattle.std.specs.Prelude.{◌≡◌, None, Some, Err, MatchOption};
ghost use Rattle.world_events.specs.declared.fault.WorldFault.TheVariants.{NoSession};
ghost use Rattle.cluster.specs.declared.fault.ClusterFault.TheVariants as faults;
ghost use Rattle.cluster.specs.Asks.{IsPassOf, sessions_of};
ghost use Rattle.cluster.specs.UserTurns.{fault_of_users, fault_of_opening, Opens, Renews, Changes};
ghost use Rattle.cluster.specs.Sessions.{own_session, own_session_at};

use crate::cluster::Cluster;
use crate::fault::ClusterFault;
use crate::numbering::find_own;
use crate::pass::{OwnSession, Pass};
use auth_db::AuthFault;
use cluster_locks::{Change, Open, OpenFault, Renew};
use common_types::Name;
use std::sync::Wait;
use verdict_core::SharedTicket;
use world_core::{AuthCommand, Session, Told, WorldFault};

// The cluster's fault for a fault of the users; out of memory is the cluster's own.
fn of_users(fault: AuthFault) -> ClusterFault
    ensures { result ≡ fault_of_users fault }
{
    match fault {
        AuthFault::OutOfMemory => ClusterFault::OutOfMemory,
        fault => ClusterFault::World(WorldFault::Auth(fault)),
    }
}

// Why no session is opened.
fn of_opening(fault: OpenFault) -> ClusterFault
    ensures { result ≡ fault_of_opening fault }
{
    match fault {
        OpenFault::User(fault) => of_users(fault),
        OpenFault::Limit => ClusterFault::World(WorldFault::Limit),
    }
}

// The session of a number takes another ticket.
fn put_ticket(sessions: &mut [OwnSession], number: u32, ticket: SharedTicket)
    ensures { sessions.new ≡ own_session_at sessions.old number (λ s. record s { ticket = ticket }) }
{
    for k in 0..sessions.len() {
        if sessions[k].number == number {
            sessions[k].session.ticket = ticket;
            return;
        }
    }
}

impl Cluster {
    /// Opens a session of a user, whose ticket ends at a tick or never: its number, which counts over all passes from 1. It waits for the
    /// users' turn.
    ///
    /// The faults of the users, as `World(Auth(..))`: there is no such user. W6: 1,024 sessions were opened, over all passes. K3: memory was
    /// wanting. The pass keeps its sessions.
    pub fn open<R: Wait>(
        &self,
        rt: &R,
        pass: &mut Pass,
        entity: Name,
        until: Option<u64>,
    ) -> Result<u32, ClusterFault>
        requires { IsPassOf self.now pass.old }
        ensures pass { IsPassOf self.now pass.new }
        ensures opens { Opens self.now entity until pass.old pass.new result }
    {
        pass.sessions.reserve(1)?;
        let name = entity.copy()?;
        match self.user_turn(rt, &mut pass.seats, Open { name, until }) {
            Ok((number, ticket)) => {
                pass.sessions.push_reserved(OwnSession {
                    number,
                    session: Session::new(entity, ticket),
                });
                Ok(number)
            }
            Err(fault) => Err(of_opening(fault)),
        }
    }

    /// A session of this pass takes its user's present ticket, which ends at a tick or never. It waits for the users' turn.
    ///
    /// W1 (`NoSession`): the pass has no session of this number, and all stays. The faults of the users, as `World(Auth(..))`: the user is
    /// gone. K3: memory was wanting. The session keeps the ticket that it had.
    pub fn renew<R: Wait>(
        &self,
        rt: &R,
        pass: &mut Pass,
        session: u32,
        until: Option<u64>,
    ) -> Result<(), ClusterFault>
        requires { IsPassOf self.now pass.old }
        ensures pass { IsPassOf self.now pass.new }
        ensures missing { own_session (sessions_of pass.old) session ≡ None → (result ≡ Err (faults.World NoSession)) × (pass.new ≡ pass.old) }
        ensures renews { (own : Session) → own_session (sessions_of pass.old) session ≡ Some own → Renews self.now session own until pass.old pass.new result }
    {
        let Some(own) = find_own(pass.sessions.as_slice(), session) else {
            return Err(ClusterFault::World(WorldFault::NoSession));
        };
        let name = own.entity.copy()?;
        match self.user_turn(rt, &mut pass.seats, Renew { name, until }) {
            Ok(ticket) => {
                put_ticket(pass.sessions.as_mut_slice(), session, ticket);
                Ok(())
            }
            Err(fault) => Err(of_users(fault)),
        }
    }

    /// Carries out a command on the users, and tells of it. It waits for the users' turn.
    ///
    /// The faults of the users, as `World(Auth(..))`: the command is refused. K3: memory was wanting. The users stay as they were.
    pub fn auth<R: Wait>(
        &self,
        rt: &R,
        pass: &mut Pass,
        command: AuthCommand,
    ) -> Result<Told, ClusterFault>
        requires { IsPassOf self.now pass.old }
        ensures pass { IsPassOf self.now pass.new }
        ensures changes { Changes self.now command pass.old pass.new result }
    {
        match self.user_turn(rt, &mut pass.seats, Change(Some(command))) {
            Ok(told) => Ok(told),
            Err(fault) => Err(of_users(fault)),
        }
    }
}
