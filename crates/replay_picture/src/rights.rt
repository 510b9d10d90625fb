//! The tickets of a script's sessions, and the grants by which its requests are allowed.

use crate::naming::push_id;
use cap_text::AllowGrant;
use common_types::{Name, OutOfMemory, TryClone};
use entry_core::Id;
use grant_core::Path;
use object_core::needs_of;
use std::alloc::Global;
use std::fmt::Write;
use std::slice;
use verdict_core::{Calls, ClassCall, Needs, SharedTicket, Target, grants_allow};
use world_core::{Ask, Event, Told, World, WorldFault};

/// A session's user and its ticket, where it could be made.
struct Holder {
    entity: Name,
    ticket: Option<SharedTicket>,
}

impl Drop for Holder {
    fn drop(self) {
        let Holder {
            entity: _,
            ticket: _,
        } = self;
    }
}

/// What an event needs to have noted of it before it happens.
#[derive(Drop)]
pub(crate) enum Noted {
    Nothing,
    /// A new session of a user, with this ticket.
    Opens(Name, Option<SharedTicket>),
    /// A session's new ticket.
    Renews(u32, Option<SharedTicket>),
    /// A question, which these grants allow.
    Asks(String),
}

/// The grants by which a request is allowed.
struct Granted {
    first: Id,
    count: u32,
    grants: String,
}

impl Drop for Granted {
    fn drop(self) {
        let Granted {
            first: _,
            count: _,
            grants: _,
        } = self;
    }
}

/// What is known of sessions and requests.
pub(crate) struct Rights {
    alloc: Global,
    // session N stands at place N - 1
    holders: Vec<Holder>,
    granted: Vec<Granted>,
}

impl Drop for Rights {
    fn drop(self) {
        let Rights {
            alloc: _,
            holders: _,
            granted: _,
        } = self;
    }
}

/// A grant with its path.
type Grant = (Path, AllowGrant);

/// The first grant that allows this alone.
fn first_grant<'a>(grants: &'a [Grant], target: &Target<'_>, needs: &Needs) -> Option<&'a Path> {
    for grant in grants {
        if grants_allow(slice::from_ref(grant), target, needs) {
            return Some(&grant.0);
        }
    }
    None
}

/// The reads and writes of a request, with one of its calls.
fn with_call(alloc: Global, needs: &Needs, call: &ClassCall) -> Result<Needs, OutOfMemory> {
    let mut calls = Vec::new(alloc);
    calls.push(call.copy()?)?;
    Ok(Needs {
        reads: needs.reads,
        writes: needs.writes,
        calls: Calls::from_vec(calls),
    })
}

/// The grants that allow a request: one that allows it alone, or else for each call the first that covers it.
fn granting(
    alloc: Global,
    grants: &[Grant],
    target: &Target<'_>,
    needs: &Needs,
) -> Result<String, OutOfMemory> {
    if let Some(path) = first_grant(grants, target, needs) {
        return format!(in alloc; "grant {path}");
    }
    let mut text = String::from_str(alloc, "grants")?;
    for call in needs.calls.as_slice() {
        let one = with_call(alloc, needs, call)?;
        if let Some(path) = first_grant(grants, target, &one) {
            write!(text, " {path}")?;
        }
    }
    Ok(text)
}

/// The ticket of a user as it is now, where there is one.
fn ticket_of(
    world: &World,
    entity: &Name,
    until: Option<u64>,
) -> Result<Option<SharedTicket>, OutOfMemory> {
    match world.users().ticket(entity.as_str(), until) {
        Ok(ticket) => Ok(Some(SharedTicket::of(ticket)?)),
        Err(_) => Ok(None),
    }
}

impl Rights {
    pub(crate) fn new(alloc: Global) -> Rights {
        Rights {
            alloc,
            holders: Vec::new(alloc),
            granted: Vec::new(alloc),
        }
    }

    /// The holder of a session.
    fn holder(&self, session: u32) -> Option<&Holder> {
        self.holders.get((session as usize).saturating_sub(1))
    }

    /// The grants that allow a question on an object, or on the names of a namespace where that is empty.
    fn allowing(
        &self,
        world: &World,
        ask: &Ask,
        object: &str,
        needs: &Needs,
    ) -> Result<String, OutOfMemory> {
        let nothing = String::new(self.alloc);
        let Some(holder) = self.holder(ask.session) else {
            return Ok(nothing);
        };
        let Some(ticket) = &holder.ticket else {
            return Ok(nothing);
        };
        let Some(pool) = world.map().pool(&ask.pool) else {
            return Ok(nothing);
        };
        let target = Target {
            pool: ask.pool.as_str().as_bytes(),
            tags: &pool.tags,
            namespace: ask.namespace.as_str().as_bytes(),
            object: object.as_bytes(),
        };
        granting(self.alloc, ticket.as_ticket().grants(), &target, needs)
    }

    /// A question for names.
    fn note_list(&self, world: &World, ask: &Ask) -> Result<Noted, OutOfMemory> {
        let needs = Needs {
            reads: true,
            writes: false,
            calls: Calls::from_vec(Vec::new(self.alloc)),
        };
        Ok(Noted::Asks(self.allowing(world, ask, "", &needs)?))
    }

    /// A session's new ticket.
    fn note_renewal(
        &self,
        world: &World,
        session: u32,
        until: Option<u64>,
    ) -> Result<Noted, OutOfMemory> {
        match self.holder(session) {
            None => Ok(Noted::Nothing),
            Some(holder) => Ok(Noted::Renews(session, ticket_of(world, &holder.entity, until)?)),
        }
    }

    /// Notes what has to be known of an event before it happens.
    pub(crate) fn note(&self, world: &World, event: &Event) -> Result<Noted, OutOfMemory> {
        match event {
            Event::Open { entity, until } => Ok(Noted::Opens(
                entity.copy()?,
                ticket_of(world, entity, *until)?,
            )),
            Event::Renew { session, until } => self.note_renewal(world, *session, *until),
            Event::Submit { ask, object, ops } => match needs_of(self.alloc, ops.as_slice()) {
                Ok(needs) => Ok(Noted::Asks(self.allowing(world, ask, object.as_str(), &needs)?)),
                Err(_) => Ok(Noted::Nothing),
            },
            Event::List(ask) => self.note_list(world, ask),
            _ => Ok(Noted::Nothing),
        }
    }

    /// Keeps what was noted of an event, where it was accepted.
    pub(crate) fn keep(
        &mut self,
        noted: Noted,
        told: Result<Told, WorldFault>,
    ) -> Result<(), OutOfMemory> {
        let Ok(told) = told else {
            return Ok(());
        };
        match noted {
            Noted::Opens(entity, ticket) => self.holders.push(Holder { entity, ticket })?,
            Noted::Renews(session, ticket) => self.renew(session, ticket),
            Noted::Asks(grants) => self.grant(grants, told)?,
            Noted::Nothing => (),
        }
        Ok(())
    }

    /// Keeps the grants that allow a question.
    fn grant(&mut self, grants: String, told: Told) -> Result<(), OutOfMemory> {
        let (first, count) = match told {
            Told::Request(first) => (first, 1),
            Told::List { first, count } => (first, count),
            _ => return Ok(()),
        };
        self.granted.push(Granted {
            first,
            count,
            grants,
        })?;
        Ok(())
    }

    fn renew(&mut self, session: u32, ticket: Option<SharedTicket>) {
        let place = (session as usize).saturating_sub(1);
        if let Some(holder) = self.holders.get_mut(place) {
            holder.ticket = ticket;
        }
    }

    /// Adds that a request is allowed, and by which grants.
    pub(crate) fn push_allowed(&self, text: &mut String, id: Id) -> Result<(), OutOfMemory> {
        push_id(text, id)?;
        text.push_str(" allowed")?;
        for granted in &self.granted {
            let behind = id.number().wrapping_sub(granted.first.number());
            if id.session() == granted.first.session() && behind < granted.count {
                text.push_str(" by ")?;
                text.push_str(granted.grants.as_str())?;
                return Ok(());
            }
        }
        Ok(())
    }
}
