//! A group under a turn lock, and the steps on it.

ghost use Rattle.std.specs.Prelude.{◌≡◌, Option};
ghost use Rattle.group_model.specs.Group.{Deliver};
ghost use Rattle.cluster_locks.specs.Groups.{group_after, entry_fits, submission_entry, SubmissionTells, work_entry, WorkTells, answer_entry, AnswerTells};

use common_types::TryClone;
use entry_core::{Id, Reply, Sealed};
use group_core::Group;
use group_messages::GroupFault;
use std::marker::Model;
use turn_lock::{Recorded, Step};

/// A group under a turn lock. It stands for the list of its turns: each an event of the group, or none.
#[derive(Drop)]
pub struct LockedGroup {
    pub group: Group,
}

/// An event of a group, as clauses see it. No value of it is made.
pub struct GroupEvent {
    nothing: (),
}

impl Model for GroupEvent {
    ghost use Rattle.group_model.specs.Group.{Event, Kick};

    ghost Value = { Event };

    ghost view = { λ _. Kick };
}

/// An entry of a group's list. No value of it is made.
pub enum GroupEntry {
    /// An event of the group.
    Happened(GroupEvent),
    /// A turn that only looked.
    Looked,
    /// A turn that was refused, or found nothing to do.
    Idle,
}

impl Recorded for LockedGroup {
    type State = Group;

    type Entry = GroupEntry;

    ghost state = { λ p. p.group };

    ghost after = { group_after };

    ghost fits = { entry_fits };
}

/// Submits a request, which the step passes to the group.
#[derive(Drop)]
pub struct Submission(pub Option<Sealed>);

impl Step for Submission {
    type Value = LockedGroup;

    type Answer = Result<(), GroupFault>;

    ghost entry = { submission_entry };

    ghost tells = { SubmissionTells };

    fn run(&mut self, placed: &mut LockedGroup) -> Result<(), GroupFault> {
        match self.0.take() {
            Some(request) => placed.group.submit(request),
            None => Ok(()),
        }
    }
}

/// Delivers message 0, the one that was sent first of those on their way.
#[derive(Drop)]
pub struct Work;

/// What became of a delivery.
#[derive(Clone, Copy, Debug, PartialEq, Eq)]
pub enum Worked {
    /// It was delivered.
    Delivered,
    /// No message is on its way.
    Idle,
}

impl Step for Work {
    type Value = LockedGroup;

    type Answer = Result<Worked, GroupFault>;

    ghost entry = { work_entry };

    ghost tells = { WorkTells };

    fn run(&mut self, placed: &mut LockedGroup) -> Result<Worked, GroupFault> {
        match placed.group.deliver(0) {
            Ok(()) => Ok(Worked::Delivered),
            Err(GroupFault::NoMessage(_)) => Ok(Worked::Idle),
            Err(fault) => Err(fault),
        }
    }
}

/// Looks for the answer to a request.
#[derive(Drop)]
pub struct AnswerOf(pub Id);

/// Why no answer is looked for.
#[derive(Clone, Copy, Debug, PartialEq, Eq)]
pub enum AnswerFault {
    /// W5: the group has no request of this id.
    NoRequest,
    /// A growth was refused while the reply was copied.
    OutOfMemory,
}

impl Step for AnswerOf {
    type Value = LockedGroup;

    type Answer = Result<Option<Reply>, AnswerFault>;

    ghost entry = { answer_entry };

    ghost tells = { AnswerTells };

    fn run(&mut self, placed: &mut LockedGroup) -> Result<Option<Reply>, AnswerFault> {
        if !placed.group.has(self.0) {
            return Err(AnswerFault::NoRequest);
        }
        match placed.group.answer(self.0) {
            None => Ok(None),
            Some(reply) => match reply.copy() {
                Ok(reply) => Ok(Some(reply)),
                Err(_) => Err(AnswerFault::OutOfMemory),
            },
        }
    }
}
