//! The world of a script, and what each event does to one of its groups.

use crate::choosing::{AskedGroup, Tally, asked_group, group_taken_from};
use crate::naming::{name_of, party_of, topic_of};
use crate::outcomes::{answer, decision, printed_answer, printed_line};
use crate::peering::Peering;
use crate::rights::{Noted, Rights};
use crate::selection::{Part, Stage};
use common_types::OutOfMemory;
use entry_core::{GroupId, Id, Reply};
use grant_core::ProfileTable;
use group_messages::{GroupFault, Party};
use group_story::{GroupStep, WireStep, step_and_tell};
use map_core::MapCommand;
use peer_core::{Body, Sent};
use picture_text::{Change, End, Happening, Message, Outcome};
use place_core::{ActingSet, DaemonSet};
use std::alloc::{AllocError, Global};
use std::mem;
use world_core::{Event, World, WorldFault};
use world_script::Command;

/// A world, and what is known of the group that is watched.
pub(crate) struct Watched {
    alloc: Global,
    world: World,
    rights: Rights,
    tally: Tally,
    group: Option<GroupId>,
    /// Whether decisions are reported.
    tells_decisions: bool,
    /// How many entries were decided in all groups, where it is known.
    decided: Option<usize>,
    /// The requests whose decisions were reported, or were made before that began.
    reported: Vec<Id>,
    peering: Peering,
    /// The request that is looked for, the group that it was submitted to, and how far it is.
    request: Option<Id>,
    pub(crate) request_group: Option<GroupId>,
    stage: Stage,
    /// Whether the last event did something with that request.
    touches: bool,
    pub(crate) messages: Vec<Message>,
    /// Of each message the request that it is about.
    requests: Vec<Option<Id>>,
    /// The messages on their way, in the order of the wire.
    pub(crate) waiting: Vec<usize>,
    pub(crate) interval: usize,
    pub(crate) acting: ActingSet,
    /// The daemons of all acting sets so far.
    pub(crate) daemons: DaemonSet,
}

impl Drop for Watched {
    fn drop(self) {
        let Watched {
            alloc: _,
            world: _,
            rights: _,
            tally: _,
            group: _,
            tells_decisions: _,
            decided: _,
            reported: _,
            peering: _,
            request: _,
            request_group: _,
            stage: _,
            touches: _,
            messages: _,
            requests: _,
            waiting: _,
            interval: _,
            acting: _,
            daemons: _,
        } = self;
    }
}

/// What an event is to the group that is watched, before it happens.
#[derive(Drop)]
struct Seen {
    /// The place of the message that it takes.
    taken: Option<usize>,
    /// How that message ends.
    end: End,
    /// Whether it is sent once more.
    repeats: bool,
    change: Option<(u8, Change)>,
    /// Whether a message reaches a daemon or the client.
    delivers: bool,
    /// Whether the message is one of those that may have entries decided without a reply.
    peers: bool,
}

/// What is known of the world before an event.
#[derive(Drop)]
struct Before {
    noted: Noted,
    /// How many entries were decided.
    decided: usize,
    /// The request that the event may answer.
    open: Option<Id>,
    /// The group to which the event submits.
    asked: Option<AskedGroup>,
}

fn is_group(watched: &Option<GroupId>, group: &GroupId) -> bool {
    match watched {
        None => false,
        Some(watched) => watched.number == group.number && watched.pool.equals(&group.pool),
    }
}

/// What a command on the map does to a daemon.
fn change_of(command: &MapCommand) -> Option<(u8, Change)> {
    match command {
        MapCommand::OsdUp(daemon) => Some((*daemon, Change::Up)),
        MapCommand::OsdDown(daemon) => Some((*daemon, Change::Down)),
        MapCommand::OsdRestart(daemon) => Some((*daemon, Change::Restarted)),
        _ => None,
    }
}

fn see(watched: &Option<GroupId>, event: &Event) -> Seen {
    let mut seen = Seen {
        taken: None,
        end: End::Delivered,
        repeats: false,
        change: None,
        delivers: false,
        peers: false,
    };
    match event {
        Event::Deliver { group, place } if is_group(watched, group) => {
            seen.taken = Some(*place);
            seen.delivers = true;
        }
        Event::Lose { group, place } if is_group(watched, group) => {
            seen.taken = Some(*place);
            seen.end = End::Lost;
        }
        Event::Repeat { group, .. } => seen.repeats = is_group(watched, group),
        Event::Map(command) => seen.change = change_of(command),
        _ => (),
    }
    seen
}

/// The request that a message to the client answers.
fn answered_by(message: &Sent) -> Option<Id> {
    match (message.to, &message.body) {
        (Party::Client, Body::Reply { id, .. }) => Some(*id),
        _ => None,
    }
}

impl Watched {
    /// A new world of `daemons` daemons, of which one group is watched, and a request that is looked for.
    pub(crate) fn new(
        alloc: Global,
        daemons: u8,
        group: Option<GroupId>,
        request: Option<Id>,
    ) -> Result<Watched, OutOfMemory> {
        let table = match ProfileTable::builtin(alloc) {
            Ok(table) => table,
            Err(_) => return Err(AllocError),
        };
        let count = daemons.clamp(1, 16);
        let world = match World::new(alloc, table, count) {
            Ok(world) => world,
            Err(_) => return Err(AllocError),
        };
        Ok(Watched {
            alloc,
            world,
            rights: Rights::new(alloc),
            tally: Tally::new(alloc),
            group,
            tells_decisions: false,
            decided: None,
            reported: Vec::new(alloc),
            peering: Peering::new(alloc),
            request,
            request_group: None,
            stage: Stage::Before,
            touches: false,
            messages: Vec::new(alloc),
            requests: Vec::new(alloc),
            waiting: Vec::new(alloc),
            interval: 0,
            acting: ActingSet::new(),
            daemons: DaemonSet::first(0),
        })
    }

    pub(crate) fn world(&self) -> &World {
        &self.world
    }

    /// The group with most messages, or nothing where there is no group.
    pub(crate) fn busiest(&self, groups: &[GroupId]) -> Result<Option<GroupId>, OutOfMemory> {
        self.tally.busiest(&self.world, groups)
    }

    /// The messages of the group on their way.
    fn wire(&self) -> &[Sent] {
        match &self.group {
            None => &[],
            Some(group) => match self.world.wire(group) {
                Ok(wire) => wire,
                Err(_) => &[],
            },
        }
    }

    /// Begins to report decisions. Those that were made stay unreported.
    pub(crate) fn tell_decisions(&mut self) -> Result<(), OutOfMemory> {
        if self.tells_decisions {
            return Ok(());
        }
        let entries = self.world.audit()?;
        for entry in &entries {
            self.reported.push(entry.sealed.id())?;
        }
        self.decided = Some(entries.len());
        self.tells_decisions = true;
        Ok(())
    }

    /// Begins a line of the script, which did nothing yet.
    pub(crate) fn begin_line(&mut self) {
        self.touches = false;
    }

    /// Notes that something happened with a request.
    fn touch(&mut self, id: Option<Id>) {
        if self.request.is_some() && self.request == id {
            self.touches = true;
            if self.stage == Stage::Before {
                self.stage = Stage::Open;
            }
        }
    }

    /// What a row is to the picture. `moves` says whether a daemon changes or an interval begins in it.
    pub(crate) fn part(&self, moves: bool) -> Part {
        if self.request.is_none() || self.touches {
            return Part::Shown;
        }
        match self.stage {
            Stage::Open if moves => Part::Shown,
            Stage::Answered if moves => Part::Later,
            _ => Part::Apart,
        }
    }

    /// Whether a message on its way belongs to the picture.
    pub(crate) fn shows_message(&self, message: usize) -> bool {
        match self.requests.get(message) {
            Some(id) => self.request.is_none() || self.request == *id,
            None => false,
        }
    }

    /// The request that a message is about.
    fn request_of(&self, body: &Body) -> Option<Id> {
        match body {
            Body::Append { request, .. } | Body::Request(request) => Some(request.id()),
            Body::Appended { interval, index } => self.peering.request_at(*interval, *index),
            Body::Reply { id, .. } | Body::NotHere(id) => Some(*id),
            _ => None,
        }
    }

    /// How many entries were decided in all groups, or 0 where the event is not asked for decisions that have no reply.
    fn decided_before(&self, seen: &Seen) -> Result<usize, OutOfMemory> {
        if !(seen.peers && self.tells_decisions) {
            return Ok(0);
        }
        match self.decided {
            Some(count) => Ok(count),
            None => Ok(self.world.audit()?.len()),
        }
    }

    /// The request that a message to the client answers first: one that has no answer yet.
    fn opens(&self, seen: &Seen) -> Option<Id> {
        let message = self.wire().get(seen.taken?)?;
        let id = answered_by(message)?;
        match self.world.answer(id) {
            Ok(None) if seen.delivers => Some(id),
            _ => None,
        }
    }

    /// Carries out an event, and tells what it does to the group, in order.
    pub(crate) fn happen(
        &mut self,
        event: Event,
        told: &mut Vec<Happening>,
    ) -> Result<(), OutOfMemory> {
        self.touches = false;
        let mut seen = see(&self.group, &event);
        seen.peers = self.is_of_peering(&seen);
        let before = self.look(&event, &seen)?;
        let step = self.step(event)?;
        self.tell(told, &seen, before, &step)
    }

    /// Whether an event delivers a message at which a daemon may find that entries are decided: it becomes active without a reply.
    fn is_of_peering(&self, seen: &Seen) -> bool {
        let (true, Some(place)) = (seen.delivers, seen.taken) else {
            return false;
        };
        match self.wire().get(place) {
            None => false,
            Some(message) => matches!(
                message.body,
                Body::Interval(_) | Body::Info { .. } | Body::Installed { .. }
            ),
        }
    }

    /// What has to be known of the world before an event.
    fn look(&mut self, event: &Event, seen: &Seen) -> Result<Before, OutOfMemory> {
        let counted = group_taken_from(&self.world, event);
        self.tally.add(counted)?;
        if counted.is_some() && seen.taken.is_none() {
            // another group's message, which may decide something there
            self.decided = None;
        }
        Ok(Before {
            decided: self.decided_before(seen)?,
            open: self.opens(seen),
            noted: self.rights.note(&self.world, event)?,
            asked: match self.request {
                None => None,
                Some(_) => asked_group(&self.world, event)?,
            },
        })
    }

    /// Carries out an event, and tells of the group which messages it took and sent.
    fn step(&mut self, event: Event) -> Result<GroupStep, OutOfMemory> {
        match &self.group {
            Some(group) => step_and_tell(self.alloc, &mut self.world, group, event),
            None => Ok(GroupStep {
                done: self.world.apply(event),
                wire: WireStep {
                    taken: None,
                    sent: Vec::new(self.alloc),
                },
            }),
        }
    }

    /// What an event did, or why it was refused. A delivery to a daemon that is down has dropped its message.
    fn tell(
        &mut self,
        told: &mut Vec<Happening>,
        seen: &Seen,
        before: Before,
        step: &GroupStep,
    ) -> Result<(), OutOfMemory> {
        let (decided, open) = (before.decided, before.open);
        self.find_request(&before, step)?;
        self.rights.keep(before.noted, step.done)?;
        match step.done {
            Ok(_) => {
                self.tell_accepted(told, seen, &step.wire)?;
                self.tell_chosen(told, seen, &step.wire)?;
                self.tell_decided(told, seen, decided, &step.wire)?;
                self.tell_answered(told, open)
            }
            Err(WorldFault::OutOfMemory) => Err(AllocError),
            Err(WorldFault::Group(GroupFault::Unreachable)) => {
                self.tell_taken(told, seen, &step.wire, End::Unreachable)
            }
            Err(fault) => self.tell_refused(told, fault),
        }
    }

    /// What an accepted event did.
    fn tell_accepted(
        &mut self,
        told: &mut Vec<Happening>,
        seen: &Seen,
        step: &WireStep,
    ) -> Result<(), OutOfMemory> {
        self.tell_taken(told, seen, step, seen.end)?;
        if let Some((daemon, change)) = seen.change {
            told.push(Happening::Daemon { daemon, change })?;
        }
        self.tell_interval(told, step)?;
        self.tell_sent(told, step, seen.repeats)
    }

    /// A message that was taken from those on their way.
    fn tell_taken(
        &mut self,
        told: &mut Vec<Happening>,
        seen: &Seen,
        step: &WireStep,
        end: End,
    ) -> Result<(), OutOfMemory> {
        match seen.taken {
            Some(place) if step.taken.is_some() && place < self.waiting.len() => {
                let message = self.waiting.remove(place);
                let request = self.requests.get(message).copied().unwrap_or(None);
                self.touch(request);
                told.push(Happening::Ended { message, end })?;
                Ok(())
            }
            _ => Ok(()),
        }
    }

    /// The interval that began, by the messages that announce it or, where none was sent, by the map.
    fn interval_after(&self, step: &WireStep) -> Option<(usize, ActingSet)> {
        for sent in &step.sent {
            if let Body::Interval(sets) = &sent.body {
                if let Some(acting) = sets.as_slice().last() {
                    if sets.len() > self.interval {
                        return Some((sets.len(), *acting));
                    }
                }
            }
        }
        let group = self.group.as_ref()?;
        let acting = self.world.map().acting_set(&group.pool, group.number)?;
        if self.interval > 0 && acting.equals(&self.acting) {
            None
        } else {
            Some((self.interval.saturating_add(1), acting))
        }
    }

    fn tell_interval(
        &mut self,
        told: &mut Vec<Happening>,
        step: &WireStep,
    ) -> Result<(), OutOfMemory> {
        let Some((number, acting)) = self.interval_after(step) else {
            return Ok(());
        };
        self.interval = number;
        self.acting = acting;
        for daemon in acting.as_slice() {
            self.daemons.set(*daemon, true);
        }
        told.push(Happening::Interval { number, acting })?;
        Ok(())
    }

    /// The messages that were sent, each once, in order.
    fn tell_sent(
        &mut self,
        told: &mut Vec<Happening>,
        step: &WireStep,
        repeated: bool,
    ) -> Result<(), OutOfMemory> {
        for sent in &step.sent {
            let message = self.messages.len();
            self.peering.hear_sent(sent)?;
            let request = self.request_of(&sent.body);
            self.requests.push(request)?;
            self.touch(request);
            self.messages.push(Message {
                from: party_of(sent.from),
                to: party_of(sent.to),
                name: name_of(self.alloc, &sent.body)?,
                topic: topic_of(&sent.body),
                repeated,
            })?;
            self.waiting.push(message)?;
            told.push(Happening::Sent { message })?;
        }
        Ok(())
    }

    /// Which log an interval begins with, where its primary chooses it.
    fn tell_chosen(
        &mut self,
        told: &mut Vec<Happening>,
        seen: &Seen,
        step: &WireStep,
    ) -> Result<(), OutOfMemory> {
        let (true, Some(taken)) = (seen.delivers, &step.taken) else {
            return Ok(());
        };
        self.peering.hear_delivered(taken)?;
        let mut choice = self.peering.chosen(step.sent.as_slice())?;
        for id in &choice.dropped {
            self.touch(Some(*id));
        }
        if !choice.lines.is_empty() {
            let lines = mem::replace(&mut choice.lines, Vec::new(self.alloc));
            told.push(Happening::Chosen(lines))?;
        }
        Ok(())
    }

    /// What was decided: where a daemon became active by the entries that are there now and were not before, else by the replies
    /// that were sent, each of which follows the decision.
    fn tell_decided(
        &mut self,
        told: &mut Vec<Happening>,
        seen: &Seen,
        before: usize,
        step: &WireStep,
    ) -> Result<(), OutOfMemory> {
        if !(seen.delivers && self.tells_decisions) {
            return Ok(());
        }
        if !seen.peers {
            return self.tell_replied(told, step);
        }
        let entries = self.world.audit()?;
        self.decided = Some(entries.len());
        for entry in entries.iter().skip(before) {
            self.tell_decision(told, entry.sealed.id(), &entry.reply)?;
        }
        Ok(())
    }

    /// The decisions of the requests that are replied to for the first time.
    fn tell_replied(
        &mut self,
        told: &mut Vec<Happening>,
        step: &WireStep,
    ) -> Result<(), OutOfMemory> {
        for sent in &step.sent {
            if let Body::Reply { id, reply } = &sent.body {
                if !self.reported.contains(id) {
                    self.decided = self.decided.map(|count| count.saturating_add(1));
                    self.tell_decision(told, *id, reply)?;
                }
            }
        }
        Ok(())
    }

    fn tell_decision(
        &mut self,
        told: &mut Vec<Happening>,
        id: Id,
        reply: &Reply,
    ) -> Result<(), OutOfMemory> {
        self.reported.push(id)?;
        self.touch(Some(id));
        told.push(Happening::Decided(decision(self.alloc, &self.rights, id, reply)?))?;
        Ok(())
    }

    /// Keeps the group of the request that is looked for, where the event submitted it.
    fn find_request(&mut self, before: &Before, step: &GroupStep) -> Result<(), OutOfMemory> {
        let (Some(id), Some(asked), Ok(told)) = (self.request, &before.asked, step.done) else {
            return Ok(());
        };
        if let Some(group) = asked.group_of(id, told)? {
            self.request_group = Some(group);
        }
        Ok(())
    }

    /// What a question of the script prints of a request or a group. Nothing for a question about something else.
    pub(crate) fn printed(&mut self, command: &Command) -> Result<Option<Outcome>, OutOfMemory> {
        let alloc = self.alloc;
        match command {
            Command::Answer(id) => {
                self.touch(Some(*id));
                match self.world.answer(*id) {
                    Ok(reply) => Ok(Some(printed_answer(alloc, *id, reply)?)),
                    Err(fault) => self.refused_question(fault),
                }
            }
            Command::Listing(id) => {
                self.touch(Some(*id));
                match self.world.listing(*id) {
                    Ok(reply) => Ok(Some(printed_answer(alloc, *id, reply.as_ref())?)),
                    Err(fault) => self.refused_question(fault),
                }
            }
            Command::Ready(group) => match self.world.ready(group) {
                Ok(is_ready) => {
                    let word = if is_ready { "yes" } else { "no" };
                    Ok(Some(printed_line(alloc, String::from_str(alloc, word)?)?))
                }
                Err(fault) => self.refused_question(fault),
            },
            _ => Ok(None),
        }
    }

    /// What a question prints that is refused.
    fn refused_question(&self, fault: WorldFault) -> Result<Option<Outcome>, OutOfMemory> {
        match fault {
            WorldFault::OutOfMemory => Err(AllocError),
            fault => {
                let line = format!(in self.alloc; "refused {fault}")?;
                Ok(Some(printed_line(self.alloc, line)?))
            }
        }
    }

    /// What the message that came to the client answers, where the request had no answer before.
    fn tell_answered(
        &mut self,
        told: &mut Vec<Happening>,
        open: Option<Id>,
    ) -> Result<(), OutOfMemory> {
        let Some(id) = open else {
            return Ok(());
        };
        if let Ok(Some(reply)) = self.world.answer(id) {
            told.push(Happening::Answered(answer(self.alloc, id, reply)?))?;
            self.touch(Some(id));
            if self.request == Some(id) {
                self.stage = Stage::Answered;
            }
        }
        Ok(())
    }

    /// Why an event was refused.
    fn tell_refused(
        &self,
        told: &mut Vec<Happening>,
        fault: WorldFault,
    ) -> Result<(), OutOfMemory> {
        told.push(Happening::Refused(format!(in self.alloc; "refused {fault}")?))?;
        Ok(())
    }
}
