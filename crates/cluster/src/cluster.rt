//! The cluster and its passes.

ghost use Rattle.std.specs.Prelude.{◌≡◌, ◌<◌, ◌≤◌, [], length, IfOk};
ghost use Rattle.std.specs.Vec.{vec_capacity};
ghost use Rattle.turn_lock.specs.Turned.{Closes};
ghost use Rattle.cluster_locks.specs.Groups.{group_after, entry_fits};
ghost use Rattle.cluster_locks.specs.Users.{table_after};
ghost use Rattle.cluster_locks.specs.Places.{ClosedAll};

use cluster_locks::{
    LockedGroup, UserTable, close_all, join_all, split_all, split_seat, take_in, turn_at,
};
use map_core::ClusterMap;
use std::alloc::{AllocError, Global};
use std::sync::Wait;
use turn_lock::{Seat, Step, TurnLock};

/// Groups and users, each under a turn lock of its own. Threads share it by `&`, each with a pass.
pub struct Cluster {
    groups: Vec<TurnLock<LockedGroup>>,
    users: TurnLock<UserTable>,
    /// The map that it began with, which has all its pools.
    pub(crate) start: ClusterMap,
    passes: usize,
}

impl Drop for Cluster {
    fn drop(self) {
        let Cluster {
            groups: _,
            users: _,
            start: _,
            passes: _,
        } = self;
    }
}

/// A seat of each lock: of each group's, in order, and of the users'. They know what they have seen.
#[derive(Drop)]
pub struct Seats {
    groups: Vec<Seat<LockedGroup>>,
    users: Seat<UserTable>,
}

/// The values of a cluster at its end.
#[derive(Drop)]
pub struct Ended {
    pub groups: Vec<LockedGroup>,
    pub users: UserTable,
}

impl Seats {
    // Seats of these locks.
    pub(crate) fn of(groups: Vec<Seat<LockedGroup>>, users: Seat<UserTable>) -> Seats
        ensures { (result.groups ≡ groups) × (result.users ≡ users) }
    {
        Seats { groups, users }
    }
}

impl Cluster {
    ghost use Rattle.cluster.specs.Passes.{AreSeatsOf, group_count, GroupTurn, UserTurn, heard_of, SameSeats, TakeIn, HaveShare};
    ghost use Rattle.cluster_locks.specs.Groups.{group_in};

    // A cluster of these locks.
    pub(crate) fn of(
        groups: Vec<TurnLock<LockedGroup>>,
        users: TurnLock<UserTable>,
        start: ClusterMap,
        passes: usize,
    ) -> Cluster
        ensures { (result.groups ≡ groups) × (result.users ≡ users) × (result.start ≡ start) × (result.passes ≡ passes) }
    {
        Cluster {
            groups,
            users,
            start,
            passes,
        }
    }

    /// How many groups there are.
    pub fn group_count(&self) -> usize
        ensures { result ≡ group_count self.now }
    {
        self.groups.len()
    }

    // How many passes it was given.
    pub(crate) fn pass_count(&self) -> usize
        ensures { result ≡ self.now.passes }
    {
        self.passes
    }

    /// Takes a turn on a group, counted from 0, with any step. It waits for the turns before it.
    ///
    /// `work`, `submit` and `answer` take such turns for a pass. A caller's own step is not limited to what a pass
    /// does. So what is known of a pass is not known of these seats afterwards, and they cannot be returned at the
    /// end.
    pub fn turn<R: Wait, St: Step<Value = LockedGroup> + Drop>(
        &self,
        rt: &R,
        seats: &mut Seats,
        group: usize,
        step: St,
    ) -> St::Answer
        requires seats { AreSeatsOf self.now seats.old }
        requires group { group < group_count self.now }
        ensures seats { AreSeatsOf self.now seats.new }
        ensures turn { GroupTurn St.entry St.tells self.now seats.old seats.new group step result }
    {
        turn_at(rt, &self.groups, &mut seats.groups, group, step)
    }

    // A turn on the users.
    pub(crate) fn user_turn<R: Wait, St: Step<Value = UserTable> + Drop>(
        &self,
        rt: &R,
        seats: &mut Seats,
        step: St,
    ) -> St::Answer
        requires { AreSeatsOf self.now seats.old }
        ensures seats { AreSeatsOf self.now seats.new }
        ensures turn { UserTurn St.entry St.tells self.now seats.old seats.new step result }
    {
        self.users.turn(rt, &mut seats.users, step)
    }

    // Seats that have seen as much, and take no turns.
    pub(crate) fn split_off(&self, alloc: Global, seats: &mut Seats) -> Result<Seats, AllocError>
        requires { AreSeatsOf self.now seats.old }
        ensures same { SameSeats seats.old seats.new }
        ensures others { IfOk result (λ n. AreSeatsOf self.now n × (heard_of n ≡ heard_of seats.old) × HaveShare 0 n) }
    {
        let groups = split_all(alloc, &self.groups, &mut seats.groups)?;
        let users = split_seat(&self.users, &mut seats.users);
        Ok(Seats { groups, users })
    }

    // Seats take in all that others have seen, and their numbers.
    pub(crate) fn absorb(&self, seats: &mut Seats, other: Seats)
        requires seats { AreSeatsOf self.now seats.old }
        requires other { AreSeatsOf self.now other }
        ensures seats { AreSeatsOf self.now seats.new }
        ensures taken { TakeIn seats.old other seats.new }
    {
        let Seats { groups, users } = other;
        join_all(&self.groups, &mut seats.groups, groups);
        take_in(&self.users, &mut seats.users, users);
    }

    // The groups and the users at the end, by a last turn on each lock.
    pub(crate) fn end<R: Wait>(self, rt: &R, all: Seats, out: Vec<LockedGroup>) -> Ended
        requires seats { AreSeatsOf self all }
        requires room { (out.items ≡ []) × (length self.groups.items ≤ vec_capacity out) }
        ensures groups { ClosedAll group_after entry_fits group_in self.groups.items all.groups.items result.groups.items }
        ensures users { Closes table_after (λ t entry. Unit {0}) self.users.first result.users all.users }
    {
        let Cluster {
            groups,
            users,
            start: _,
            passes: _,
        } = self;
        let Seats {
            groups: seats,
            users: seat,
        } = all;
        let groups = close_all(rt, groups, seats, out);
        let users = users.close(rt, seat);
        Ended { groups, users }
    }
}
