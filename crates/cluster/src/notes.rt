//! Notes and news: what a pass learns from others.

ghost use Rattle.std.specs.Prelude.{◌≡◌, Some, OnOk, IfOk, IfErr};
ghost use Rattle.map_core.specs.State.{History};
ghost use Rattle.cluster.specs.declared.cluster.Cluster.{Cluster as ACluster};
ghost use Rattle.cluster.specs.declared.fault.ClusterFault.TheVariants as faults;
ghost use Rattle.cluster.specs.Asks.{IsPassOf, known_by};
ghost use Rattle.cluster.specs.Views.{OnlyLooked};
ghost use Rattle.cluster.specs.Noted.{IsNoteOf, GaveNote, TellsAllOf, HasReadNote};
ghost use Rattle.published_map.specs.Published.{Covers, KnowsAll};
ghost use Rattle.published_map.specs.Told.{knowledge_of};

use crate::cluster::{Cluster, Seats};
use crate::fault::ClusterFault;
use crate::pass::Pass;
use published_map::{News, learn};
use std::alloc::Global;

/// What a pass has seen of the groups and of the users, to be handed to another pass of the same cluster.
#[derive(Drop)]
pub struct Note {
    /// They have seen what the pass had seen, and take no turns.
    pub(crate) seats: Seats,
}

impl Pass {
    /// A note of all that this pass has seen of the groups and of the users. It takes a new seat of each lock, no numbers of turns, and
    /// waits for nobody.
    ///
    /// K3: memory was wanting. The pass keeps all in either case.
    pub fn note(&mut self, cluster: &Cluster, alloc: Global) -> Result<Note, ClusterFault>
        requires { IsPassOf cluster.now self.old }
        ensures pass { IsPassOf cluster.now self.new }
        ensures same { GaveNote self.old self.new }
        ensures note { IfOk result (λ note. IsNoteOf cluster.now note × TellsAllOf note self.old) }
        ensures refused { IfErr result (λ fault. fault ≡ faults.OutOfMemory) }
    {
        let seats = cluster.split_off(alloc, &mut self.seats)?;
        Ok(Note { seats })
    }

    /// From now on this pass has seen all that the note tells. It waits for nobody.
    pub fn read_note(&mut self, cluster: &Cluster, note: Note)
        requires pass { IsPassOf cluster.now self.old }
        requires note { IsNoteOf cluster.now note }
        ensures pass { IsPassOf cluster.now self.new }
        ensures read { HasReadNote note self.old self.new }
    {
        cluster.absorb(&mut self.seats, note.seats);
    }

    /// From now on this pass sees no less of the published map than what the news tells. The time is linear in the map's commands, and it
    /// waits for nobody.
    ///
    /// `NoReader`: there was no reading. Nothing is lost, the news comes back, and the call can be made again.
    pub fn learn(&mut self, news: News) -> Result<(), (News, ClusterFault)>
        ensures pass { (c : ACluster) → IsPassOf c self.old → IsPassOf c self.new }
        ensures same { OnlyLooked self.old self.new }
        ensures learned { OnOk result ((map : History) × ((known_by self.new).seen ≡ Some map) × Covers map (known_by self.old) × Covers map (knowledge_of news)) }
        ensures kept { IfErr result (λ back. KnowsAll (known_by self.new) (known_by self.old) × KnowsAll (knowledge_of back.0) (knowledge_of news)) }
        ensures refused { IfErr result (λ back. back.1 ≡ faults.NoReader) }
    {
        match learn(&mut self.reader, news) {
            Ok(()) => Ok(()),
            Err(news) => Err((news, ClusterFault::NoReader)),
        }
    }
}
