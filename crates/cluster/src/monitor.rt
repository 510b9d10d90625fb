//! The monitor, who changes the map.

ghost use Rattle.std.specs.Prelude.{◌≡◌, ℕ, [], ◌∷◌, ◌++◌, ◌<◌, ◌≤◌, Option, Some, None, Ok, map, length, IfOk, IfErr, MatchResult, OnOk, OnErr, IsNone};
ghost use Rattle.std.specs.Option.{option_map};
ghost use Rattle.map_core.specs.State.{History};
ghost use Rattle.map_core.specs.Map.{epoch_of};
ghost use Rattle.map_core.specs.declared.command.MapCommand.{MapCommand};
ghost use Rattle.published_map.specs.Published.{with_commands};
ghost use Rattle.published_map.specs.Told.{HasToldOf};
ghost use Rattle.cluster.specs.GroupMoves.{Goes};
ghost use Rattle.cluster.specs.declared.monitor.Unfinished.TheVariants as left_by;

use crate::cluster::{Cluster, Seats};
use crate::command_effects::creates;
use crate::group_moves::{any_full, move_groups};
use entry_core::GroupId;
use group_messages::GroupFault;
use map_core::{ClusterMap, Epoch, MapCommand, MapFault};
use published_map::{MapWriter, News, publish, stage, tell};
use std::alloc::AllocError;
use std::sync::Wait;

/// What is left of a change whose command stands in the monitor's map.
#[derive(Drop)]
pub enum Unfinished {
    /// The groups from `at` on have not moved, and the command is not staged for publication.
    Left { command: MapCommand, at: usize },
    /// All groups have moved and the command is staged, but it is not published.
    Staged,
}

/// The right to change the map: the monitor's own map, the places of the cluster's groups in order, seats of it, the writer of the
/// published map, and what is left of a change. It is not `Drop`: end it by `end`.
pub struct Monitor {
    pub(crate) map: ClusterMap,
    pub(crate) places: Vec<GroupId>,
    pub(crate) seats: Seats,
    pub(crate) writer: MapWriter,
    pub(crate) unfinished: Option<Unfinished>,
}

/// Why the map is not changed, or not wholly.
#[derive(Clone, Copy, Debug, PartialEq, Eq)]
pub enum ChangeFault {
    /// The command is refused, and nothing changed. A new pool is M7: the pools are those of the start.
    Map(MapFault),
    /// P3: a group has all its intervals, and the command would begin one more. Nothing changed.
    Group(GroupFault),
    /// K1: the move of this group was refused, or, at the number of groups, the publication. The change is left for `finish`.
    Unfinished(usize),
}

/// Why there is no news.
#[derive(Clone, Copy, Debug, PartialEq, Eq)]
pub enum TellFault {
    /// K1: a change is left at this group, or, at the number of groups, at its publication.
    Unfinished(usize),
    /// K4: no reader is left.
    NoReader,
}

impl Monitor {
    ghost use Rattle.cluster.specs.Passes.{group_count};
    ghost use Rattle.cluster.specs.Monitors.{IsMonitorOf, IsWhole, HasOnlyTold, own_map, monitor_seats, unfinished_of, published_of, waiting_of, known_of, left_with, staged_with, left_at, IsLeftBy, HasBegun, Changed, IsAdmitted, ChangeFails, TellFails, Finishes, Follows, change_refusal};

    // The group at which a change is left, if one is.
    fn left(&self, cluster: &Cluster) -> Option<usize>
        ensures { result ≡ option_map (left_at cluster.now) self.now.unfinished }
    {
        match &self.unfinished {
            None => None,
            Some(Unfinished::Left { command: _, at }) => Some(*at),
            Some(Unfinished::Staged) => Some(cluster.group_count()),
        }
    }

    // Why a command is refused before any group is looked at.
    fn refusal(&self, command: &MapCommand) -> Option<MapFault>
        ensures { result ≡ change_refusal self.now.map command.now }
    {
        if creates(command) {
            return Some(MapFault::Limit);
        }
        self.map.refusal(command)
    }

    /// Ends the publication, and gives the map and the seats back. It waits until no reader is within a reading.
    pub fn end<R: Wait>(self, rt: &R) -> (ClusterMap, Seats)
        ensures { (result.0 ≡ own_map self) × (result.1 ≡ monitor_seats self) }
    {
        let Monitor {
            map,
            places: _,
            seats,
            writer,
            unfinished: _,
        } = self;
        drop(writer.take(rt));
        (map, seats)
    }

    // Publishes what waits.
    fn publish_all<R: Wait>(&mut self, rt: &R) -> Result<(), AllocError>
        ensures rest { (self.new.map ≡ self.old.map) × (self.new.places ≡ self.old.places) × (self.new.seats ≡ self.old.seats) × (self.new.unfinished ≡ self.old.unfinished) }
        ensures ok { OnOk result (published_of self.new ≡ with_commands (published_of self.old) (waiting_of self.old)) }
        ensures none_left { OnOk result ((waiting_of self.new ≡ []) × (known_of self.new ≡ Some (published_of self.new))) }
        ensures err { OnErr result ((published_of self.new ≡ published_of self.old) × (waiting_of self.new ≡ waiting_of self.old) × (known_of self.new ≡ known_of self.old)) }
    {
        publish(rt, &mut self.writer)
    }

    // Stages a command, to be published.
    fn append(&mut self, command: MapCommand) -> Result<(), MapCommand>
        ensures rest { (self.new.map ≡ self.old.map) × (self.new.places ≡ self.old.places) × (self.new.seats ≡ self.old.seats) × (self.new.unfinished ≡ self.old.unfinished) }
        ensures shown { (published_of self.new ≡ published_of self.old) × (known_of self.new ≡ known_of self.old) }
        ensures waiting { MatchResult result (λ _. waiting_of self.new ≡ waiting_of self.old ++ command ∷ []) (λ back. (back ≡ command) × (waiting_of self.new ≡ waiting_of self.old)) }
    {
        stage(&mut self.writer, command)
    }

    /// The news of what the monitor has published. While a change is unfinished, it returns `Err`. At `Err` nothing
    /// changed.
    pub fn tell(&mut self, cluster: &Cluster) -> Result<News, TellFault>
        requires { IsMonitorOf cluster.now self.old }
        ensures monitor { IsMonitorOf cluster.now self.new }
        ensures follows { (first : History) → Follows first self.old → Follows first self.new }
        ensures told { IfOk result (λ news. HasToldOf news (published_of self.old)) }
        ensures ok { OnOk result (IsWhole self.old) }
        ensures err { IfErr result (λ fault. TellFails cluster.now fault (unfinished_of self.old)) }
        ensures same { HasOnlyTold self.old self.new }
    {
        match &self.unfinished {
            None => (),
            Some(Unfinished::Left { command: _, at }) => return Err(TellFault::Unfinished(*at)),
            Some(Unfinished::Staged) => return Err(TellFault::Unfinished(cluster.group_count())),
        }
        match tell(&mut self.writer) {
            Some(news) => Ok(news),
            None => Err(TellFault::NoReader),
        }
    }

    // Publishes a staged command.
    fn publish<R: Wait>(&mut self, rt: &R, cluster: &Cluster) -> Result<(), usize>
        requires { IsMonitorOf cluster.now (staged_with self.old) × IsNone self.old.unfinished }
        ensures monitor { IsMonitorOf cluster.now self.new }
        ensures rest { (self.new.map ≡ self.old.map) × (self.new.places ≡ self.old.places) × (self.new.seats ≡ self.old.seats) }
        ensures ok { OnOk result (IsNone self.new.unfinished) }
        ensures at { IfErr result (λ at. at ≡ group_count cluster.now) }
        ensures staged { OnErr result (self.new.unfinished ≡ Some left_by.Staged) }
        ensures err { IfErr result (λ at. (published_of self.new ≡ published_of self.old) × ((command : MapCommand) → IsLeftBy cluster.now command at self.new.unfinished)) }
    {
        match self.publish_all(rt) {
            Ok(()) => Ok(()),
            Err(_) => {
                self.unfinished = Some(Unfinished::Staged);
                Err(cluster.group_count())
            }
        }
    }

    // Stages a command by which all groups have moved, and publishes it.
    fn stage<R: Wait>(
        &mut self,
        rt: &R,
        cluster: &Cluster,
        command: MapCommand,
    ) -> Result<(), usize>
        requires { IsMonitorOf cluster.now (left_with command (group_count cluster.now) self.old) × IsNone self.old.unfinished }
        ensures monitor { IsMonitorOf cluster.now self.new }
        ensures rest { (self.new.map ≡ self.old.map) × (self.new.places ≡ self.old.places) × (self.new.seats ≡ self.old.seats) }
        ensures ok { OnOk result (IsNone self.new.unfinished) }
        ensures at { IfErr result (λ at. at ≡ group_count cluster.now) }
        ensures err { IfErr result (λ at. (published_of self.new ≡ published_of self.old) × IsLeftBy cluster.now command at self.new.unfinished) }
    {
        match self.append(command) {
            Ok(()) => self.publish(rt, cluster),
            Err(command) => {
                let at = cluster.group_count();
                self.unfinished = Some(Unfinished::Left { command, at });
                Err(at)
            }
        }
    }

    // Resumes a change from the group `at` on, and publishes at the end. At `Err` it is left for `finish`.
    fn resume<R: Wait>(
        &mut self,
        rt: &R,
        cluster: &Cluster,
        command: MapCommand,
        at: usize,
    ) -> Result<(), usize>
        requires { IsMonitorOf cluster.now (left_with command at self.old) × IsNone self.old.unfinished }
        ensures monitor { IsMonitorOf cluster.now self.new }
        ensures map { self.new.map ≡ self.old.map }
        ensures goes { Goes self.old.seats self.new.seats }
        ensures follows { (first : History) → Follows first (left_with command at self.old) → Follows first self.new }
        ensures ok { OnOk result (IsNone self.new.unfinished) }
        ensures err { IfErr result (λ to. (published_of self.new ≡ published_of self.old) × IsLeftBy cluster.now command to self.new.unfinished) }
        ensures begun { (first : Monitor) → HasBegun command at first self.old → MatchResult result (λ _. HasBegun command (group_count cluster.now) first self.new) (λ to. HasBegun command to first self.new) }
    {
        let places = self.places.as_slice();
        let moved = move_groups(
            rt,
            cluster,
            &mut self.seats,
            &self.map,
            &command,
            places,
            at,
        );
        match moved {
            Ok(()) => self.stage(rt, cluster, command),
            Err(to) => {
                self.unfinished = Some(Unfinished::Left { command, at: to });
                Err(to)
            }
        }
    }

    /// Resumes a change that was left: the groups that have not moved, then the publication. Where none was left, nothing changes.
    ///
    /// At `Err`, K1, it is left again, from the group that is named on. It takes a turn on each group that moves, and waits for it.
    pub fn finish<R: Wait>(&mut self, rt: &R, cluster: &Cluster) -> Result<(), ChangeFault>
        requires { IsMonitorOf cluster.now self.old }
        ensures monitor { IsMonitorOf cluster.now self.new }
        ensures goes { Goes self.old.seats self.new.seats }
        ensures follows { (first : History) → Follows first self.old → Follows first self.new }
        ensures nothing { IsWhole self.old → (self.new ≡ self.old) × (result ≡ Ok tt) }
        ensures finished { Finishes cluster.now result self.old self.new }
    {
        match self.unfinished.take() {
            None => Ok(()),
            Some(Unfinished::Left { command, at }) => {
                match self.resume(rt, cluster, command, at) {
                    Ok(()) => Ok(()),
                    Err(at) => Err(ChangeFault::Unfinished(at)),
                }
            }
            Some(Unfinished::Staged) => match self.publish(rt, cluster) {
                Ok(()) => Ok(()),
                Err(at) => Err(ChangeFault::Unfinished(at)),
            },
        }
    }

    // Changes the map by a command that it does not refuse, where no group is too full.
    fn begin<R: Wait>(
        &mut self,
        rt: &R,
        cluster: &Cluster,
        command: MapCommand,
    ) -> Result<Epoch, ChangeFault>
        requires monitor { IsMonitorOf cluster.now self.old }
        requires whole { IsNone self.old.unfinished }
        requires free { change_refusal self.old.map command ≡ None }
        ensures monitor { IsMonitorOf cluster.now self.new }
        ensures goes { Goes self.old.seats self.new.seats }
        ensures follows { (first : History) → Follows first self.old → Follows first self.new }
        ensures ok { OnOk result (IsAdmitted cluster.now command self.old self.new × Changed cluster.now command self.old self.new) }
        ensures epoch { IfOk result (λ epoch. epoch ≡ epoch_of (own_map self.new)) }
        ensures err { IfErr result (λ fault. ChangeFails cluster.now command fault self.old self.new) }
    {
        let places = self.places.as_slice();
        if any_full(rt, cluster, &mut self.seats, &self.map, &command, places) {
            return Err(ChangeFault::Group(GroupFault::Full));
        }
        let Ok(kept) = command.copy() else {
            return Err(ChangeFault::Map(MapFault::OutOfMemory));
        };
        match self.map.apply(command) {
            Err(_) => Err(ChangeFault::Map(MapFault::OutOfMemory)),
            Ok(epoch) => match self.resume(rt, cluster, kept, 0) {
                Ok(()) => Ok(epoch),
                Err(at) => Err(ChangeFault::Unfinished(at)),
            },
        }
    }

    /// Changes the map, then moves the groups in order, then publishes, and returns the new epoch. It takes turns on
    /// groups, and waits for them.
    ///
    /// The first of these faults that applies is returned, and then nothing changed:
    /// - K1: a change is unfinished.
    /// - M7: the command creates a pool.
    /// - The fault by which the map refuses the command.
    /// - P3: the command begins an interval of a group that has all its intervals.
    /// - Out of memory.
    ///
    /// If the move of a group is refused, or memory for the publication, it returns K1 and leaves the change for
    /// `finish`.
    pub fn change_map<R: Wait>(
        &mut self,
        rt: &R,
        cluster: &Cluster,
        command: MapCommand,
    ) -> Result<Epoch, ChangeFault>
        requires { IsMonitorOf cluster.now self.old }
        ensures monitor { IsMonitorOf cluster.now self.new }
        ensures goes { Goes self.old.seats self.new.seats }
        ensures follows { (first : History) → Follows first self.old → Follows first self.new }
        ensures whole { OnOk result (IsWhole self.old) }
        ensures ok { OnOk result (IsAdmitted cluster.now command self.old self.new × Changed cluster.now command self.old self.new) }
        ensures epoch { IfOk result (λ epoch. epoch ≡ epoch_of (own_map self.new)) }
        ensures err { IfErr result (λ fault. ChangeFails cluster.now command fault self.old self.new) }
    {
        if let Some(at) = self.left(cluster) {
            return Err(ChangeFault::Unfinished(at));
        }
        if let Some(fault) = self.refusal(&command) {
            return Err(ChangeFault::Map(fault));
        }
        self.begin(rt, cluster, command)
    }
}
