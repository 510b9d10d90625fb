//! The members of sets, and what is sent to them.

ghost use Rattle.std.specs.Prelude.{◌≡◌, ◌≤◌, ◌==◌, ◌&&◌, ◌++◌, true, not, map, length, OnOk, IfOk};
ghost use Rattle.std.specs.List.{list_any};
ghost use Rattle.entry_core.specs.Log.{is_in};
ghost use Rattle.place_core.specs.Distinct.{is_distinct};
ghost use Rattle.group_messages.specs.ActingSets.{set_of, is_primary};

use crate::fitting::Fitting;
use crate::state::State;
use common_types::{Items, OutOfMemory, TryClone};
use entry_core::Sealed;
use group_messages::{Body, Common, Party, PeerInfo, Sent, count_at};
use place_core::ActingSet;

/// The numbers that daemons have.
const DAEMONS: [u8; 16] = [0, 1, 2, 3, 4, 5, 6, 7, 8, 9, 10, 11, 12, 13, 14, 15];

/// Whether a daemon is a member of a set.
fn has_member(set: &ActingSet, number: u8) -> bool
    ensures { result ≡ is_in set.now number }
{
    set.has(number)
}

/// Whether a daemon is in one of these sets.
fn is_in_some(sets: &[ActingSet], number: u8) -> bool
    ensures { result ≡ list_any (λ members. is_in members number) sets.now }
{
    for members in sets {
        if has_member(members, number) {
            return true;
        }
    }
    false
}

/// The set of an interval, counted from 1.
pub fn set_of(sets: &[ActingSet], interval: u64) -> &[u8]
    ensures value { result.now ≡ set_of sets.now interval }
    ensures few { length result.now ≤ 5 }
    ensures once { is_distinct result.now ≡ true }
{
    let place = interval.saturating_sub(1) as usize;
    match sets.get(place) {
        Some(set) => set.as_slice(),
        None => &[],
    }
}

/// Whether a daemon is the first of a set.
pub fn is_primary(set: &[u8], number: u8) -> bool
    ensures { result ≡ is_primary set.now number }
{
    match set.first() {
        Some(first) => *first == number,
        None => false,
    }
}

impl State {
    ghost use Rattle.std.specs.Prelude.{◌≡◌, ◌≤◌, ◌==◌, ◌&&◌, ◌||◌, ◌++◌, true, not, map, filter, length, OnOk};
    ghost use Rattle.entry_core.specs.Log.{is_in};
    ghost use Rattle.place_core.specs.Distinct.{is_distinct};
    ghost use Rattle.peer_core.specs.Types as types;
    ghost use Rattle.group_messages.specs.ActingSets.{set_of};
    ghost use Rattle.peer_core.specs.ActingSets.{others, counted, all_count, missing, is_asked};
    ghost use Rattle.group_messages.specs.Beginnings.{count_at};
    ghost use Rattle.peer_core.specs.Choice.{is_informed};
    ghost use Rattle.peer_core.specs.Steps.{send};
    ghost use Rattle.peer_core.specs.Copy.{uninformed, query, install_from};
    ghost use Rattle.peer_core.specs.Fittings.{becomes};

    /// The set of the interval that was promised.
    pub fn set(&self) -> &[u8]
        ensures value { result.now ≡ set_of self.now.known self.now.promise }
        ensures few { length result.now ≤ 5 }
        ensures once { is_distinct result.now ≡ true }
    {
        set_of(self.known.as_slice(), self.promise)
    }

    /// Whether that set has no other member.
    pub fn is_alone(&self) -> bool
        ensures { result ≡ (length (others self.now) == 0) }
    {
        for member in self.set() {
            if *member != self.number {
                return false;
            }
        }
        true
    }

    /// Whether this is another daemon that counts, or is the one that does from now on.
    fn is_counted(&self, done: &ActingSet, number: u8, member: u8) -> bool
        ensures { result ≡ (not (member == self.now.number) && (is_in done.now member || (member == number))) }
    {
        member != self.number && (has_member(done, member) || member == number)
    }

    /// The other members of that set that count, once this daemon does.
    pub fn counted(&self, done: &ActingSet, number: u8) -> ActingSet
        ensures { result ≡ counted self.now done.now number }
    {
        let mut counted = ActingSet::new();
        for member in self.set() {
            if self.is_counted(done, number, *member) {
                counted.push(*member);
            }
        }
        counted
    }

    /// Whether each other member of that set counts.
    pub fn all_count(&self, counted: &ActingSet) -> bool
        ensures { result ≡ all_count self.now counted.now }
    {
        for member in self.set() {
            if *member != self.number && !has_member(counted, *member) {
                return false;
            }
        }
        true
    }

    /// Whether it asks this daemon for its copy: another one, of some set.
    fn asks(&self, number: u8) -> bool
        ensures { result ≡ is_asked self.now number }
    {
        number != self.number && is_in_some(self.known.as_slice(), number)
    }

    /// Whether this is the daemon itself, or one of the informed.
    pub fn is_informed(&self, informed: &[PeerInfo], number: u8) -> bool
        ensures { result ≡ is_informed self.now informed.now number }
    {
        if number == self.number {
            return true;
        }
        for peer in informed {
            if peer.number == number {
                return true;
            }
        }
        false
    }

    /// What it sends.
    pub fn send(&self, to: Party, body: Body) -> Sent
        ensures { result ≡ send self.now to body }
    {
        Sent {
            from: Party::Osd(self.number),
            to,
            body,
        }
    }

    /// A query on its way to a daemon.
    fn query_for(&self, daemon: u8) -> Sent
        ensures { result ≡ send self.now (types.Osd daemon) (query self.now) }
    {
        let body = Body::Query {
            interval: self.promise,
            len: self.log.len(),
            last: self.log.last(),
        };
        self.send(Party::Osd(daemon), body)
    }

    /// Asks those of these daemons that it asks and has not heard for their copies.
    fn query(
        &self,
        daemons: &[u8],
        informed: &[PeerInfo],
        sent: &mut Items<Sent>,
    ) -> Result<(), OutOfMemory>
        ensures { OnOk result (sent.new ≡ sent.old ++ map (λ daemon. send self.now (types.Osd daemon) (query self.now)) (filter (λ daemon. not (is_informed self.now informed.now daemon)) (filter (λ daemon. is_asked self.now daemon) daemons.now))) }
    {
        for daemon in daemons {
            if self.asks(*daemon) && !self.is_informed(informed, *daemon) {
                sent.push(self.query_for(*daemon))?;
            }
        }
        Ok(())
    }

    /// Asks each daemon of any set that is not heard for its copy.
    pub fn send_queries(
        &self,
        informed: &[PeerInfo],
        sent: &mut Items<Sent>,
    ) -> Result<(), OutOfMemory>
        ensures { OnOk result (sent.new ≡ sent.old ++ map (λ daemon. send self.now (types.Osd daemon) (query self.now)) (uninformed self.now informed.now)) }
    {
        self.query(&DAEMONS, informed, sent)
    }

    /// What a daemon lacks of a log, which it has up to a place, on its way to it.
    fn install_for(
        &self,
        daemon: u8,
        fitting: &Fitting<'_>,
        start: usize,
    ) -> Result<Sent, OutOfMemory>
        ensures { IfOk result (λ message. message ≡ install_from self.now (becomes fitting.now) daemon start) }
    {
        let body = Body::Install {
            interval: self.promise,
            start,
            part: fitting.part(start)?,
        };
        Ok(self.send(Party::Osd(daemon), body))
    }

    /// Sends to each other member that does not count yet what it lacks of a log.
    pub fn send_install(
        &self,
        fitting: &Fitting<'_>,
        common: &[Common],
        done: &ActingSet,
        sent: &mut Items<Sent>,
    ) -> Result<(), OutOfMemory>
        ensures { OnOk result (sent.new ≡ sent.old ++ map (λ m. install_from self.now (becomes fitting.now) m (count_at common.now m)) (missing self.now done.now)) }
    {
        for member in self.set() {
            if *member != self.number && !has_member(done, *member) {
                let start = count_at(common, *member);
                sent.push(self.install_for(*member, fitting, start)?)?;
            }
        }
        Ok(())
    }

    /// Sends the request of the entry of an index to each other member that does not count yet.
    pub fn send_append(
        &self,
        index: usize,
        request: &Sealed,
        holders: &ActingSet,
        sent: &mut Items<Sent>,
    ) -> Result<(), OutOfMemory>
        ensures { OnOk result (sent.new ≡ sent.old ++ map (λ member. send self.now (types.Osd member) (types.Append self.now.promise index request.now)) (missing self.now holders.now)) }
    {
        for member in self.set() {
            if *member != self.number && !has_member(holders, *member) {
                let body = Body::Append {
                    interval: self.promise,
                    index,
                    request: request.copy()?,
                };
                sent.push(self.send(Party::Osd(*member), body))?;
            }
        }
        Ok(())
    }
}
