//! The log that an interval begins with, while the copy's log is not yet fitted to it.

ghost use Rattle.std.specs.Prelude.{◌≤◌, length};

use common_types::{Items, OutOfMemory, TryClone};
use entry_core::{Entry, Log, Sealed};
use group_messages::{PeerInfo, alike_part, alike_requests, part_from};

/// A log, how many of its entries stay, and the requests that come behind these.
///
/// What is sent of the log that these make is found without it.
#[derive(Drop)]
pub struct Fitting<'a> {
    log: &'a Log,
    kept: usize,
    rest: &'a [Sealed],
    ghost within: { kept ≤ length log.now },
}

impl<'a> Fitting<'a> {
    ghost use Rattle.std.specs.Prelude.{◌≡◌, ◌≤◌, ◌-◌, List, length, map, take, drop, IfOk, Some};
    ghost use Rattle.entry_core.specs.Log.{ids};
    ghost use Rattle.entry_core.specs.Fitting.{fitted, part_of};
    ghost use Rattle.peer_core.specs.Types as types;
    ghost use Rattle.group_messages.specs.Beginnings as beginnings;
    ghost use Rattle.group_messages.specs.Beginnings.{common, told_ids};
    ghost use Rattle.peer_core.specs.Fittings.{becomes};

    /// A log that stays as it is.
    pub fn whole(log: &'a Log) -> Fitting<'a>
        ensures log { result.log.now ≡ log.now }
        ensures new { becomes result ≡ log.now }
    {
        Fitting {
            log,
            kept: log.len(),
            rest: &[],
        }
    }

    /// A log that is fitted to a part of another one, if it can be.
    pub fn of(log: &'a Log, start: usize, part: &'a [Sealed]) -> Fitting<'a>
        ensures log { result.log.now ≡ log.now }
        ensures new { (new : List types.Entry) → fitted log.now start part.now ≡ Some new → becomes result ≡ new }
    {
        let start = start.min(log.len());
        let agreed = alike_part(part, &log.entries()[start..]);
        Fitting {
            log,
            kept: start + agreed,
            rest: &part[agreed..],
        }
    }

    /// The entries that stay, from a place on.
    fn entries_from(&self, place: usize) -> &[Entry]
        ensures { result.now ≡ drop place (take self.now.kept self.now.log.now) }
    {
        &self.log.entries()[place.min(self.kept)..self.kept]
    }

    /// The requests behind them, from a place on.
    fn rest_from(&self, place: usize) -> &[Sealed]
        ensures { result.now ≡ drop (place - self.now.kept) self.now.rest.now }
    {
        &self.rest[place.saturating_sub(self.kept).min(self.rest.len())..]
    }

    /// The requests from a place on, which may be behind the end.
    pub fn part(&self, from: usize) -> Result<Items<Sealed>, OutOfMemory>
        ensures { IfOk result (λ part. part ≡ part_of (becomes self.now) from) }
    {
        let mut part = part_from(self.log, from)?;
        part.truncate(self.kept.saturating_sub(from));
        for request in self.rest_from(from) {
            part.push(request.copy()?)?;
        }
        Ok(part)
    }

    /// How many of these requests have the ids of those from a place on.
    fn alike_behind(&self, place: usize, part: &[Sealed]) -> usize
        ensures value { result ≡ common (map (λ (s : types.Sealed). s.id) part.now) (drop place (ids (becomes self.now))) }
        ensures part { result ≤ length part.now }
    {
        let entries = self.entries_from(place);
        let alike = alike_part(part, entries);
        if alike < entries.len() {
            return alike;
        }
        alike + alike_requests(&part[alike..], self.rest_from(place))
    }

    /// With how many entries the log that was told to a copy of this log begins like the one that it becomes. Both have the entries that stay, so these are not looked at.
    pub fn common_with(&self, offer: &PeerInfo) -> usize
        ensures { result ≡ common (told_ids self.now.log.now offer.now) (ids (becomes self.now)) }
    {
        let told = offer.start.min(self.log.len());
        let from = self.kept.min(told);
        let alike = from + alike_part(self.rest, &self.log.entries()[from..told]);
        if alike < told {
            return alike;
        }
        told + self.alike_behind(told, offer.part.as_slice())
    }

    /// With how many entries a member's log, of which one of these offers tells, begins like that log.
    pub fn common_of(&self, informed: &[PeerInfo], member: u8) -> usize
        ensures { result ≡ beginnings.common_of informed.now self.now.log.now (becomes self.now) member }
    {
        for offer in informed {
            if offer.number == member {
                return self.common_with(offer);
            }
        }
        0
    }
}
