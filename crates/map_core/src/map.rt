//! The cluster map.

ghost use Rattle.std.specs.Prelude.{◌≡◌, ◌≤◌, ◌++◌, [], ◌∷◌, OnOk, OnErr, IfOk, Some, None, Option, All, IsOkAnd, IfSome, IsTrue, ◌↔◌, option_copied};
ghost use Rattle.std.specs.Option.{option_to_list};
ghost use Rattle.map_core.specs.Map.{epoch_of, map_of, after};
ghost use Rattle.map_core.specs.Map as spec;
ghost use Rattle.common_types.specs.Refused.{RefusedFirst};
ghost use Rattle.map_core.specs.Refusal as tests;
ghost use Rattle.map_core.specs.Intervals.{set_of, intervals_of};
ghost use Rattle.map_core.specs.Intervals as intervals;
ghost use Rattle.map_core.specs.PoolLimits.{IsPool, HasLimits};
ghost use Rattle.map_core.specs.Limits.{IsAccepted};
ghost use Rattle.map_core.specs.ActingSets.{IsSetOf};
ghost use Rattle.map_core.specs.State.{GoesOn};

use crate::acting_sets::{set_of_size, size_after, size_in};
use crate::command::{MapCommand, begin_with, copy_commands};
use crate::edits::change_pools;
use crate::fault::MapFault;
use crate::pool::{Epoch, Pool, PoolView, copy_pools, find_pool};
use crate::refusals::{acting_refusal, is_word, refusal};
use crate::replay::{view_now, view_then};
use common_types::{Name, OutOfMemory};
use place_core::{ActingSet, DaemonSet};
use std::alloc::Global;
use std::marker::Model;

/// The cluster map, which contracts see as the number of its daemons and the commands that it accepted.
///
/// It keeps those commands, and beside them the pools and the daemons as they are now. A refused command leaves it as it was.
#[derive(Debug)]
pub struct ClusterMap {
    daemons: u8,
    commands: Vec<MapCommand>,
    pools: Vec<Pool>,
    up: DaemonSet,
}

impl Drop for ClusterMap {
    fn drop(self) {
        let ClusterMap {
            daemons: _,
            commands: _,
            pools: _,
            up: _,
        } = self;
    }
}

impl Model for ClusterMap {
    ghost use Rattle.map_core.specs.State.{History};

    ghost Value = { History };

    ghost use Rattle.map_core.specs.Inside.{history_of, IsCurrent};

    ghost view = { history_of };

    ghost invariant = { IsCurrent };
}

impl ClusterMap {
    /// A map of 1 to 16 daemons, which are numbered from 0 and all up, without pools. Its epoch is 1. It takes no memory.
    pub fn new(alloc: Global, daemons: u8) -> Result<ClusterMap, MapFault>
        requires some { 1 ≤ daemons }
        requires few { daemons ≤ 16 }
        ensures { IsOkAnd result (λ map. map ≡ record { daemons = daemons; commands = [] }) }
    {
        Ok(ClusterMap {
            daemons,
            commands: Vec::new(alloc),
            pools: Vec::new(alloc),
            up: DaemonSet::first(daemons),
        })
    }

    /// The present epoch. It takes no memory.
    pub fn epoch(&self) -> Epoch
        ensures value { result ≡ epoch_of self.now }
        ensures small { result ≤ 65535 }
        ensures accepted { IsAccepted self.now }
    {
        self.commands.len() as u32 + 1
    }

    /// How many daemons the cluster has, up or down.
    pub fn daemons(&self) -> u8
        ensures value { result ≡ self.now.daemons }
        ensures some { 1 ≤ result }
        ensures few { result ≤ 16 }
    {
        self.daemons
    }

    /// The daemons that are up.
    pub fn up(&self) -> DaemonSet
        ensures { result ≡ (map_of self.now).up }
    {
        self.up
    }

    /// The pools in order of creation.
    pub fn pools(&self) -> &[Pool]
        ensures value { result.now ≡ (map_of self.now).pools }
        ensures limits { All IsPool result.now }
    {
        self.pools.as_slice()
    }

    /// The pool of this name at the present epoch, if there is one. It takes no memory.
    pub fn pool(&self, name: &Name) -> Option<&Pool>
        ensures { option_copied result ≡ spec.pool_in (map_of self.now).pools name.now }
    {
        find_pool(self.pools.as_slice(), name)
    }

    /// Why a command would be refused. It takes no memory, and where it answers `None` [`ClusterMap::apply`] fails for memory only.
    pub fn refusal(&self, command: &MapCommand) -> Option<MapFault>
        ensures { result ≡ tests.refusal (map_of self.now) (epoch_of self.now) command.now }
    {
        let epoch = self.commands.len() as u32 + 1;
        let pools = self.pools.as_slice();
        let daemons = self.daemons;
        refusal(daemons, pools, &self.up, epoch, command)
    }

    /// Carries out a command, and answers the new epoch.
    pub fn apply(&mut self, command: MapCommand) -> Result<Epoch, MapFault>
        ensures accepted { OnOk result (self.new ≡ record self.old { commands = self.old.commands ++ command ∷ [] }) }
        ensures epoch { IfOk result (λ epoch. epoch ≡ epoch_of self.new) }
        ensures refused { RefusedFirst (tests.refusal (map_of self.old) (epoch_of self.old) command) MapFault.OutOfMemory result }
        ensures unchanged { OnErr result (self.new ≡ self.old) }
    {
        let alloc = *self.commands.allocator();
        let epoch = self.commands.len() as u32 + 1;
        let pools = self.pools.as_slice();
        if let Some(fault) = refusal(self.daemons, pools, &self.up, epoch, &command) {
            return Err(fault);
        }
        self.commands.reserve(1)?;
        change_pools(alloc, &mut self.pools, &command)?;
        change_up(&mut self.up, &command);
        match self.commands.push(command) {
            Ok(()) => Ok(epoch + 1),
            Err(_) => unreachable!(),
        }
    }

    /// An equal map.
    pub fn copy(&self) -> Result<ClusterMap, OutOfMemory>
        ensures { IfOk result (λ map. map ≡ self.now) }
    {
        let alloc = *self.commands.allocator();
        Ok(ClusterMap {
            daemons: self.daemons,
            commands: copy_commands(alloc, self.commands.as_slice())?,
            pools: copy_pools(alloc, self.pools.as_slice())?,
            up: self.up,
        })
    }

    /// Whether the map is of as many daemons as an earlier one, and its commands begin with all of that one's. It takes no memory.
    pub fn goes_on_from(&self, earlier: &ClusterMap) -> bool
        ensures { IsTrue result ↔ GoesOn self.now earlier.now }
    {
        earlier.daemons == self.daemons
            && begin_with(self.commands.as_slice(), earlier.commands.as_slice())
    }

    /// The pool of this name as it was at an epoch.
    ///
    /// At the present epoch it is copied. For an earlier one the commands up to it are gone through, and those on this pool are done again.
    pub fn view(&self, pool: &Name, epoch: Epoch) -> Result<PoolView, MapFault>
        ensures view { IfOk result (λ view. spec.view_at self.now pool.now epoch ≡ Some view) }
        ensures refused { RefusedFirst (tests.view_refusal self.now pool.now epoch) MapFault.OutOfMemory result }
        ensures limits { IfOk result (λ view. HasLimits view.pg_num view.size view.min_size) }
    {
        if !is_word(pool) {
            return Err(MapFault::BadName);
        }
        if epoch == 0 || epoch as usize > self.commands.len() + 1 {
            return Err(MapFault::NoEpoch);
        }
        if epoch as usize == self.commands.len() + 1 {
            return view_now(self.pools.as_slice(), pool, epoch);
        }
        let commands = &self.commands.as_slice()[..epoch as usize - 1];
        view_then(*self.commands.allocator(), commands, pool, epoch)
    }

    /// The acting set of a group at the present epoch, in order.
    pub fn acting(&self, pool: &Name, group: u32) -> Result<Vec<u8>, MapFault>
        ensures members { IfOk result (λ members. set_of (map_of self.now) pool.now group ≡ Some members.items) }
        ensures ranked { IfOk result (λ members. IsSetOf (map_of self.now) pool.now group members.items) }
        ensures refused { RefusedFirst (tests.acting_refusal self.now pool.now group) MapFault.OutOfMemory result }
    {
        if let Some(fault) = acting_refusal(self.pools.as_slice(), pool, group) {
            return Err(fault);
        }
        match size_in(self.pools.as_slice(), pool) {
            None => unreachable!(),
            Some(size) => {
                let alloc = *self.commands.allocator();
                let members = place_core::acting(alloc, pool.as_str(), group, &self.up, size)?;
                Ok(members)
            }
        }
    }

    /// Why there is no such group at the present epoch: M9 where the pool's name is no word, M2 where there is no such pool, M10
    /// where it has no group of that number. It takes no memory, and where it answers `None` [`ClusterMap::acting`] fails for
    /// memory only.
    pub fn acting_refusal(&self, pool: &Name, group: u32) -> Option<MapFault>
        ensures { result ≡ tests.acting_refusal self.now pool.now group }
    {
        acting_refusal(self.pools.as_slice(), pool, group)
    }

    /// The acting set of a group of a pool, or `None` where there is no such pool. It takes no memory.
    pub fn acting_set(&self, pool: &Name, group: u32) -> Option<ActingSet>
        ensures members { result ≡ set_of (map_of self.now) pool.now group }
        ensures ranked { IfSome result (IsSetOf (map_of self.now) pool.now group) }
    {
        match size_in(self.pools.as_slice(), pool) {
            None => None,
            Some(size) => Some(set_of_size(pool, group, &self.up, size)),
        }
    }

    /// The daemons that are up after a command.
    pub fn up_after(&self, command: &MapCommand) -> DaemonSet
        ensures { result ≡ (after (map_of self.now) command.now).up }
    {
        let mut up = self.up;
        change_up(&mut up, command);
        up
    }

    /// The acting set of a group after a command that nothing refuses, or `None` where there is no such pool then. It takes no memory.
    pub fn acting_set_after(
        &self,
        command: &MapCommand,
        pool: &Name,
        group: u32,
    ) -> Option<ActingSet>
        requires { tests.refusal (map_of self.now) (epoch_of self.now) command.now ≡ None }
        ensures members { result ≡ set_of (after (map_of self.now) command.now) pool.now group }
        ensures ranked { IfSome result (IsSetOf (after (map_of self.now) command.now) pool.now group) }
    {
        let mut next = self.up;
        change_up(&mut next, command);
        match size_after(self.pools.as_slice(), command, pool) {
            None => None,
            Some(size) => Some(set_of_size(pool, group, &next, size)),
        }
    }

    /// The acting set with which a command that nothing refuses begins an interval of a group, if it begins one. It takes no memory.
    pub fn interval_after(&self, command: &MapCommand, pool: &Name, group: u32) -> Option<ActingSet>
        requires { tests.refusal (map_of self.now) (epoch_of self.now) command.now ≡ None }
        ensures interval { intervals_of (record self.now { commands = self.now.commands ++ command.now ∷ [] }) pool.now group
            ≡ intervals_of self.now pool.now group ++ option_to_list result }
        ensures ranked { IfSome result (IsSetOf (after (map_of self.now) command.now) pool.now group) }
    {
        let old = self.acting_set(pool, group);
        let new = self.acting_set_after(command, pool, group);
        begun(command, &old, &new)
    }
}

// Changes which daemons are up, as a command says.
fn change_up(up: &mut DaemonSet, command: &MapCommand)
    ensures { up.new ≡ spec.up_after command.now up.old }
{
    match command {
        MapCommand::OsdUp(daemon) => up.set(*daemon, true),
        MapCommand::OsdDown(daemon) => up.set(*daemon, false),
        _ => (),
    }
}

// Whether a command restarts a member of an acting set.
fn restarts(command: &MapCommand, set: &ActingSet) -> bool
    ensures { result ≡ intervals.restarts command.now set.now }
{
    match command {
        MapCommand::OsdRestart(daemon) => set.has(*daemon),
        _ => false,
    }
}

// The set with which a command begins an interval, by the sets before it and after it.
fn begun(
    command: &MapCommand,
    old: &Option<ActingSet>,
    new: &Option<ActingSet>,
) -> Option<ActingSet>
    ensures { result ≡ intervals.begun command.now old.now new.now }
{
    match (old, new) {
        (_, None) => None,
        (None, Some(set)) => Some(*set),
        (Some(before), Some(set)) => {
            if restarts(command, before) || !before.equals(set) {
                Some(*set)
            } else {
                None
            }
        }
    }
}
