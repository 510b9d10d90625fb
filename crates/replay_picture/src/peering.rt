//! How intervals begin: the logs that daemons offer to the primary, the log that it chooses, and the entries that this drops.

use crate::naming::push_id;
use common_types::OutOfMemory;
use entry_core::{Id, Sealed};
use group_messages::Party;
use peer_core::{Body, Sent};
use std::alloc::Global;
use std::fmt::Write;

/// A daemon's log, as it told a primary.
struct Offer {
    interval: u64,
    member: Party,
    /// How many entries the log has, and up to which of them it is the primary's.
    len: usize,
    start: usize,
    /// The requests behind those.
    ids: Vec<Id>,
}

impl Drop for Offer {
    fn drop(self) {
        let Offer {
            interval: _,
            member: _,
            len: _,
            start: _,
            ids: _,
        } = self;
    }
}

/// An entry that a primary sent to a member, so that both have it.
#[derive(Clone, Copy, Drop)]
struct SentEntry {
    from: Party,
    to: Party,
    interval: u64,
    index: usize,
    id: Id,
}

/// What a primary chose.
pub(crate) struct Choice {
    /// What is said of it, a text for each line; empty where nothing was chosen.
    pub(crate) lines: Vec<String>,
    /// The requests whose entries were dropped, as far as they are known.
    pub(crate) dropped: Vec<Id>,
}

impl Drop for Choice {
    fn drop(self) {
        let Choice {
            lines: _,
            dropped: _,
        } = self;
    }
}

impl Choice {
    /// Adds that a daemon drops the last entry of its log.
    fn push_dropped(
        &mut self,
        alloc: Global,
        daemon: Party,
        index: usize,
        id: Option<Id>,
    ) -> Result<(), OutOfMemory> {
        let mut text = String::new(alloc);
        push_party(&mut text, daemon)?;
        write!(text, " drops entry {index}")?;
        if let Some(id) = id {
            text.push_str(", ")?;
            push_id(&mut text, id)?;
            self.dropped.push(id)?;
        }
        self.lines.push(text)?;
        Ok(())
    }
}

/// What a primary sends a member of the log that it chose.
#[derive(Clone, Copy)]
struct Install {
    interval: u64,
    primary: Party,
    member: Party,
    start: usize,
    /// How many entries the chosen log has.
    len: usize,
}

/// What is known of the beginnings of intervals, by the messages.
pub(crate) struct Peering {
    alloc: Global,
    offers: Vec<Offer>,
    entries: Vec<SentEntry>,
    /// The interval of the last question for logs, and how long the log of its primary was.
    asked: (u64, usize),
}

impl Drop for Peering {
    fn drop(self) {
        let Peering {
            alloc: _,
            offers: _,
            entries: _,
            asked: _,
        } = self;
    }
}

fn ids_of(alloc: Global, part: &[Sealed]) -> Result<Vec<Id>, OutOfMemory> {
    let mut ids = Vec::with_capacity(alloc, part.len())?;
    for request in part {
        ids.push(request.id())?;
    }
    Ok(ids)
}

fn install_of(sent: &Sent) -> Option<Install> {
    match &sent.body {
        Body::Install {
            interval,
            start,
            part,
        } => Some(Install {
            interval: *interval,
            primary: sent.from,
            member: sent.to,
            start: *start,
            len: start.saturating_add(part.as_slice().len()),
        }),
        _ => None,
    }
}

fn push_party(text: &mut String, party: Party) -> Result<(), OutOfMemory> {
    match party {
        Party::Client => text.push_str("client"),
        Party::Osd(daemon) => write!(text, "osd.{daemon}"),
    }
}

impl Peering {
    pub(crate) fn new(alloc: Global) -> Peering {
        Peering {
            alloc,
            offers: Vec::new(alloc),
            entries: Vec::new(alloc),
            asked: (0, 0),
        }
    }

    /// Keeps what a message that was sent says of logs.
    pub(crate) fn hear_sent(&mut self, sent: &Sent) -> Result<(), OutOfMemory> {
        match &sent.body {
            Body::Query { interval, len, .. } => {
                if *interval > self.asked.0 {
                    self.offers.clear();
                }
                self.asked = (*interval, *len);
                Ok(())
            }
            Body::Append {
                interval,
                index,
                request,
            } => {
                self.entries.push(SentEntry {
                    from: sent.from,
                    to: sent.to,
                    interval: *interval,
                    index: *index,
                    id: request.id(),
                })?;
                Ok(())
            }
            _ => Ok(()),
        }
    }

    /// Keeps what a message that was delivered says of its sender's log.
    pub(crate) fn hear_delivered(&mut self, sent: &Sent) -> Result<(), OutOfMemory> {
        let Body::Info {
            interval,
            start,
            part,
            ..
        } = &sent.body
        else {
            return Ok(());
        };
        let part = part.as_slice();
        self.offers.push(Offer {
            interval: *interval,
            member: sent.from,
            len: start.saturating_add(part.len()),
            start: *start,
            ids: ids_of(self.alloc, part)?,
        })?;
        Ok(())
    }

    /// The request whose entry was sent in an interval under an index.
    pub(crate) fn request_at(&self, interval: u64, index: usize) -> Option<Id> {
        for entry in self.entries.iter().rev() {
            if entry.interval == interval && entry.index == index {
                return Some(entry.id);
            }
        }
        None
    }

    /// The request of the entry that a daemon got last under an index, or sent.
    fn entry_of(&self, daemon: Party, index: usize) -> Option<Id> {
        for entry in self.entries.iter().rev() {
            if entry.index == index && (entry.to == daemon || entry.from == daemon) {
                return Some(entry.id);
            }
        }
        None
    }

    /// The first offer of a daemon in an interval, which is the one that counts.
    fn offer_of(&self, interval: u64, member: Party) -> Option<&Offer> {
        self.offers.iter().find(|offer| offer.interval == interval && offer.member == member)
    }

    /// Adds that a member drops the last entry of its log, where the chosen log has another one there or none.
    fn push_dropped_by_member(
        &self,
        choice: &mut Choice,
        install: Install,
    ) -> Result<(), OutOfMemory> {
        let Some(offer) = self.offer_of(install.interval, install.member) else {
            return Ok(());
        };
        if offer.len <= install.start {
            return Ok(());
        }
        let id = match offer.ids.last() {
            Some(id) => Some(*id),
            None => self.entry_of(install.member, offer.len),
        };
        choice.push_dropped(self.alloc, install.member, offer.len, id)
    }

    /// Whether the chosen log is that of a member, which does not begin with all of the primary's own.
    fn replaces_own(&self, install: Install) -> bool {
        let (interval, own) = self.asked;
        match self.offer_of(install.interval, install.member) {
            Some(offer) if interval == install.interval => {
                install.start == install.len && offer.len == install.len && offer.start < own
            }
            _ => false,
        }
    }

    /// What a primary chose, where it sends the chosen log to members: how long the log is, and who drops an entry.
    pub(crate) fn chosen(&self, sent: &[Sent]) -> Result<Choice, OutOfMemory> {
        let mut choice = Choice {
            lines: Vec::new(self.alloc),
            dropped: Vec::new(self.alloc),
        };
        let mut replaces_own = false;
        for install in sent.iter().filter_map(install_of) {
            if choice.lines.is_empty() {
                choice.lines.push(self.length_line(install)?)?;
            }
            if self.replaces_own(install) && !replaces_own {
                replaces_own = true;
                let own = self.asked.1;
                let id = self.entry_of(install.primary, own);
                choice.push_dropped(self.alloc, install.primary, own, id)?;
            }
            self.push_dropped_by_member(&mut choice, install)?;
        }
        Ok(choice)
    }

    /// The line with the length of a chosen log.
    fn length_line(&self, install: Install) -> Result<String, OutOfMemory> {
        let mut text = String::new(self.alloc);
        push_party(&mut text, install.primary)?;
        let len = install.len;
        write!(text, " chooses a log of {len}")?;
        text.push_str(if len == 1 { " entry" } else { " entries" })?;
        Ok(text)
    }
}
