//! What one step does to the messages of a group that are on their way.

ghost use Rattle.std.specs.Prelude.{◌≡◌, ◌++◌, ℕ, List, Option, length, IfOk};
ghost use Rattle.group_model.specs.Types.{Sent};
ghost use Rattle.group_story.specs.Wire.{taken_from, kept, TellsStep};

use common_types::{Items, OutOfMemory, TryClone};
use peer_core::Sent;
use std::alloc::Global;

/// What is kept of a wire before a step, to tell afterwards what the step did.
#[derive(Drop)]
pub struct HeldWire {
    /// The message that the step takes, if there is one.
    pub taken: Option<Sent>,
    /// How many messages stay.
    pub kept: usize,
}

/// What a step did to a wire: each message that it took or sent, once and in order.
pub struct WireStep {
    /// The message that it took.
    pub taken: Option<Sent>,
    /// The messages that it sent, behind those that stayed.
    pub sent: Vec<Sent>,
}

impl Drop for WireStep {
    fn drop(self) {
        let WireStep { taken: _, sent: _ } = self;
    }
}

/// The message at a place, if one is there.
fn message_at(wire: &[Sent], place: Option<usize>) -> Result<Option<Sent>, OutOfMemory>
    ensures { IfOk result (λ taken. taken ≡ taken_from wire.now place) }
{
    match place {
        None => Ok(None),
        Some(place) => match wire.get(place) {
            None => Ok(None),
            Some(message) => Ok(Some(message.copy()?)),
        },
    }
}

/// How many messages stay where the one at a place is taken, if one is there.
fn kept_of(wire: &[Sent], place: Option<usize>) -> usize
    ensures { result ≡ length (kept wire.now place) }
{
    match place {
        Some(place) if place < wire.len() => wire.len() - 1,
        _ => wire.len(),
    }
}

/// Copies of messages, in order.
fn copies(alloc: Global, messages: &[Sent]) -> Result<Vec<Sent>, OutOfMemory>
    ensures { IfOk result (λ copies. copies.items ≡ messages.now) }
{
    let mut copies = Items::new(alloc);
    for message in messages {
        copies.push(message.copy()?)?;
    }
    Ok(copies.into_vec())
}

/// Holds a wire before a step that takes the message at a place, or none.
pub fn hold_wire(wire: &[Sent], place: Option<usize>) -> Result<HeldWire, OutOfMemory>
    ensures taken { IfOk result (λ held. held.taken ≡ taken_from wire.now place) }
    ensures kept { IfOk result (λ held. held.kept ≡ length (kept wire.now place)) }
{
    Ok(HeldWire {
        taken: message_at(wire, place)?,
        kept: kept_of(wire, place),
    })
}

/// What the step did after which the wire is `after`. The wire must be what was kept of the one before, and then what
/// was sent. Exactly those messages are reported, each once and in order.
pub fn tell_step(alloc: Global, held: HeldWire, after: &[Sent]) -> Result<WireStep, OutOfMemory>
    ensures { IfOk result (λ step. (before : List Sent) (place : Option ℕ) (sent : List Sent)
        → held.taken ≡ taken_from before place → held.kept ≡ length (kept before place)
        → after.now ≡ kept before place ++ sent → TellsStep before place sent step.taken step.sent.items) }
{
    let sent = if held.kept <= after.len() {
        copies(alloc, &after[held.kept..])?
    } else {
        Vec::new(alloc)
    };
    Ok(WireStep {
        taken: held.taken,
        sent,
    })
}
