//! The published map: one writer changes it, and readers see it without a lock.

ghost use Rattle.std.specs.Prelude.{◌≡◌, ◌<◌, ◌^◌, [], ◌∷◌, ◌++◌, Some, IfOk, OnOk, OnErr, MatchResult, drop as dropped};
ghost use Rattle.left_right.specs.Sides.{view as known};
ghost use Rattle.published_map.specs.Published as spec;
ghost use Rattle.published_map.specs.Published.{CoversAll, informed, nothing_known, with_command, with_commands};

use atomic_table::{Join, Split};
use common_types::OutOfMemory;
use core::mem::replace_with;
use crossbeam_utils::rule::{Outcome, Protocol};
use left_right::Absorb;
use left_right::reader::Reader;
use left_right::writer::Writer;
use map_core::{ClusterMap, MapCommand};
use std::alloc::{AllocError, Global};
use std::marker::Model;
use std::sync::Wait;

/// One of the two copies of the published map. Readers see the one while the writer changes the other.
#[derive(Drop)]
pub struct PublishedMap {
    pub map: ClusterMap,
}

impl Absorb<MapCommand> for PublishedMap {
    // Clauses see it as the number of daemons and the accepted commands.
    type State = ClusterMap;

    ghost state = { λ p. p.map };

    ghost applied = { with_command };

    // A command that the map refuses is not absorbed, nor is one for which memory is refused.
    fn absorb_first(
        &mut self,
        command: &MapCommand,
        _other: &PublishedMap,
    ) -> Result<(), AllocError> {
        match self.map.apply(command.copy()?) {
            Ok(_) => Ok(()),
            Err(_) => Err(AllocError),
        }
    }
}

/// A map that was seen, if one was, as clauses see it. No value of it is made.
pub struct SeenMap {
    nothing: (),
}

impl Model for SeenMap {
    ghost use Rattle.std.specs.Prelude.{Option, None};
    ghost use Rattle.map_core.specs.State.{History};

    ghost Value = { Option History };

    ghost view = { λ _. None };
}

/// What a reader or the writer knows of the published map. No value of it is made.
pub struct Knowledge {
    /// The map that was seen last.
    pub seen: SeenMap,
    /// The map that was reported since.
    pub told: SeenMap,
}

/// The rule of the published map: it goes on from all that its readers and its writer saw or that was reported to them.
pub struct PublishedRule;

impl Protocol<PublishedMap, Knowledge> for PublishedRule {
    ghost holds = { λ p. CoversAll p.map };

    ghost first = { nothing_known };
}

// What a look at the published map tells, and what a publication does.
pub(crate) struct Sees;

impl Outcome<PublishedMap, Knowledge> for Sees {
    ghost then = { λ v _ y w. spec.Sees y.map v w };
}

// How the writer tells a reader what it has published.
struct Telling;

impl Split<Knowledge> for Telling {
    ghost left = { λ v. v };

    ghost right = { λ v. v };
}

impl Join<Knowledge> for Telling {
    ghost both = { informed };

    ghost spent = { nothing_known };
}

/// A reader of the published map. It may go to another thread, and waits for nobody.
pub type MapReader = Reader<PublishedMap, Knowledge, PublishedRule>;

/// The one writer of the published map. It is not `Drop`: end it by its `take`.
pub type MapWriter = Writer<PublishedMap, MapCommand, Knowledge, PublishedRule>;

// The writer of two equal copies of a map, none of which is published yet.
fn first_writer(alloc: Global, map: &ClusterMap, readers: usize) -> Result<MapWriter, OutOfMemory>
    requires { (0 < readers) × (readers < 2 ^ 32) }
    ensures value { IfOk result (λ writer. writer.desk.shown.value.map ≡ map.now) }
    ensures none_left { IfOk result (λ writer. dropped writer.behind writer.log.items ≡ []) }
{
    let first = PublishedMap { map: map.copy()? };
    let second = PublishedMap { map: map.copy()? };
    Writer::new(alloc, first, second, readers)
}

/// Publishes a map, for at most `readers` readers at once.
///
/// It takes two copies of the map. In fact it waits for nobody, since there are no readers yet.
pub fn publish_first<R: Wait>(
    rt: &R,
    alloc: Global,
    map: &ClusterMap,
    readers: usize,
) -> Result<MapWriter, OutOfMemory>
    requires { (0 < readers) × (readers < 2 ^ 32) }
    ensures value { IfOk result (λ writer. writer.desk.shown.value.map ≡ map.now) }
    ensures none_left { IfOk result (λ writer. dropped writer.behind writer.log.items ≡ []) }
    ensures known { IfOk result (λ writer. (known writer.desk.place).seen ≡ Some map.now) }
{
    let mut writer = first_writer(alloc, map, readers)?;
    match publish(rt, &mut writer) {
        Ok(()) => Ok(writer),
        Err(fault) => {
            drop(writer.take(rt));
            Err(fault)
        }
    }
}

/// Stages a command, to be published by the next `publish`. At `Err` memory was wanting, and the command comes back.
///
/// A command that the map refuses is never published, and none after it. So the writer's own map is asked before.
pub fn stage(writer: &mut MapWriter, command: MapCommand) -> Result<(), MapCommand>
    ensures shown { writer.new.desk ≡ writer.old.desk }
    ensures waiting { MatchResult result (λ _. dropped writer.new.behind writer.new.log.items ≡ dropped writer.old.behind writer.old.log.items ++ command ∷ [])
        (λ back. (back ≡ command) × (dropped writer.new.behind writer.new.log.items ≡ dropped writer.old.behind writer.old.log.items)) }
{
    writer.append(command)
}

/// Publishes the staged commands, all at once. At `Err` nothing is published, and they are left for the next call.
pub fn publish<R: Wait>(rt: &R, writer: &mut MapWriter) -> Result<(), AllocError>
    ensures ok { OnOk result (writer.new.desk.shown.value.map ≡ with_commands writer.old.desk.shown.value.map (dropped writer.old.behind writer.old.log.items)) }
    ensures none_left { OnOk result (dropped writer.new.behind writer.new.log.items ≡ []) }
    ensures known { OnOk result ((known writer.new.desk.place).seen ≡ Some writer.new.desk.shown.value.map) }
    ensures err { OnErr result ((writer.new.desk.shown.value ≡ writer.old.desk.shown.value) × (dropped writer.new.behind writer.new.log.items ≡ dropped writer.old.behind writer.old.log.items) × (known writer.new.desk.place ≡ known writer.old.desk.place)) }
{
    replace_with(writer, rt, |writer, rt| publish_by(rt, writer))
}

// Does what `publish` does, by a writer that it takes and returns.
fn publish_by<R: Wait>(rt: &R, writer: MapWriter) -> (MapWriter, Result<(), AllocError>)
    ensures ok { OnOk result.1 (result.0.desk.shown.value.map ≡ with_commands writer.desk.shown.value.map (dropped writer.behind writer.log.items)) }
    ensures none_left { OnOk result.1 (dropped result.0.behind result.0.log.items ≡ []) }
    ensures known { OnOk result.1 ((known result.0.desk.place).seen ≡ Some result.0.desk.shown.value.map) }
    ensures err { OnErr result.1 ((result.0.desk.shown.value ≡ writer.desk.shown.value) × (dropped result.0.behind result.0.log.items ≡ dropped writer.behind writer.log.items) × (known result.0.desk.place ≡ known writer.desk.place)) }
{
    writer.publish_as::<Sees, R>(rt)
}

// Tells a reader what was published. From now on it sees no less.
pub(crate) fn inform(writer: &mut MapWriter, reader: &mut MapReader)
    requires { reader.old.place.table_id ≡ writer.old.desk.place.table_id }
    ensures told { (known reader.new.place).told ≡ (known writer.old.desk.place).seen }
    ensures kept { ((known reader.new.place).seen ≡ (known reader.old.place).seen) × (known writer.new.desk.place ≡ known writer.old.desk.place) }
    ensures shown { (writer.new.desk.shown ≡ writer.old.desk.shown) × (writer.new.log ≡ writer.old.log) × (writer.new.behind ≡ writer.old.behind) }
{
    reader.learn::<Telling>(writer.tell::<Telling>());
}
