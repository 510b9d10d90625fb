//! How the members of an interval agree on a log.

use crate::peers::{is_primary, set_of};
use crate::state::State;
use common_types::{Items, OutOfMemory};
use entry_core::Id;
use group_messages::{
    Body, IntervalSets, Party, PeerInfo, Queue, Role, Sent, part_from, start_for,
};
use place_core::ActingSet;
use std::mem;

impl State {
    ghost use Rattle.std.specs.Prelude.{◌≡◌, ◌++◌, [], ◌∷◌, List, length, IfOk, OnOk, OnErr};
    ghost use Rattle.peer_core.specs.Types as types;
    ghost use Rattle.peer_core.specs.Copy.{on_interval, learn_sets, leads, lead, on_query, on_info, on_info_as, try_choice};
    ghost use Rattle.peer_core.specs.Stages.{awaits};

    /// Chooses a log where the copies that were told suffice, and adds to what was sent.
    fn try_choice(&mut self, sent: Items<Sent>) -> Result<Items<Sent>, OutOfMemory>
        ensures copy { (informed : List types.Offer) → self.old.role ≡ types.Peering informed → OnOk result ((try_choice self.old informed).copy ≡ self.new) }
        ensures sent { (informed : List types.Offer) → self.old.role ≡ types.Peering informed → IfOk result (λ all. all ≡ sent ++ (try_choice self.old informed).sent) }
        ensures err { OnErr result (self.new ≡ self.old) }
    {
        let chosen = match &self.role {
            Role::Peering(informed) if self.can_choose(informed.as_slice()) => {
                self.chosen_part(informed.as_slice())?
            }
            _ => return Ok(sent),
        };
        self.install_fitted(chosen.0, chosen.1.as_slice(), sent)
    }

    /// Asks for the copies of its group, and chooses at once where none is needed.
    fn lead(&mut self) -> Result<Items<Sent>, OutOfMemory>
        ensures ok { self.old.role ≡ types.Peering [] → IfOk result (λ sent. lead self.old ≡ record { copy = self.new; sent = sent }) }
        ensures err { OnErr result (self.new ≡ self.old) }
    {
        let mut sent = Items::new(self.log.allocator());
        self.send_queries(&[], &mut sent)?;
        self.try_choice(sent)
    }

    /// Leads the last of these sets.
    fn lead_next(&mut self, sets: IntervalSets) -> Result<Items<Sent>, OutOfMemory>
        ensures ok { IfOk result (λ sent. lead (record (learn_sets self.old sets) { promise = length sets }) ≡ record { copy = self.new; sent = sent }) }
        ensures err { OnErr result (self.new ≡ self.old) }
    {
        let alloc = self.log.allocator();
        let promise = mem::replace(&mut self.promise, sets.len() as u64);
        let known = mem::replace(&mut self.known, sets);
        let role = mem::replace(&mut self.role, Role::Peering(Items::new(alloc)));
        let waiting = mem::replace(&mut self.waiting, Queue::new(alloc));
        match self.lead() {
            Ok(sent) => Ok(sent),
            Err(refused) => {
                self.promise = promise;
                self.known = known;
                self.role = role;
                self.waiting = waiting;
                Err(refused)
            }
        }
    }

    /// Whether it is to lead the last of these sets, and may.
    fn leads(&self, sets: &[ActingSet]) -> bool
        ensures { result ≡ leads self.now sets.now }
    {
        let set = set_of(sets, sets.len() as u64);
        set.len() >= self.min_size
            && is_primary(set, self.number)
            && self.promise < sets.len() as u64
    }

    /// Hears of a new interval. The first member of its set leads it.
    pub fn on_interval(&mut self, sets: IntervalSets) -> Result<Items<Sent>, OutOfMemory>
        ensures ok { IfOk result (λ sent. on_interval self.old sets ≡ record { copy = self.new; sent = sent }) }
        ensures err { OnErr result (self.new ≡ self.old) }
    {
        let alloc = self.log.allocator();
        if sets.len() <= self.known.len() {
            return Ok(Items::new(alloc));
        }
        if self.leads(sets.as_slice()) {
            return self.lead_next(sets);
        }
        self.known = sets;
        self.role = Role::Idle;
        self.waiting = Queue::new(alloc);
        Ok(Items::new(alloc))
    }

    /// Whether it is peering for this interval, and has not heard of this daemon.
    fn awaits(&self, interval: u64, number: u8) -> bool
        ensures { result ≡ awaits self.now.role self.now interval number }
    {
        match &self.role {
            Role::Peering(informed) => self.promise == interval
                && !self.is_informed(informed.as_slice(), number),
            _ => false,
        }
    }

    /// Adds an offer to those that it heard.
    fn hear(&mut self, offer: PeerInfo) -> Result<(), OutOfMemory>
        ensures ok { (informed : List types.Offer) → self.old.role ≡ types.Peering informed → OnOk result (self.new ≡ record self.old { role = types.Peering (informed ++ offer ∷ []) }) }
        ensures err { OnErr result (self.new ≡ self.old) }
    {
        match &mut self.role {
            Role::Peering(informed) => informed.push(offer),
            _ => Ok(()),
        }
    }

    /// Forgets the last offer.
    fn unhear(&mut self)
        ensures { (informed : List types.Offer) (offer : types.Offer) → self.old.role ≡ types.Peering (informed ++ offer ∷ []) → self.new ≡ record self.old { role = types.Peering informed } }
    {
        if let Role::Peering(informed) = &mut self.role {
            let count = informed.len().saturating_sub(1);
            informed.truncate(count);
        }
    }

    /// Hears of a copy that it awaits.
    fn on_offer(&mut self, interval: u64, offer: PeerInfo) -> Result<Items<Sent>, OutOfMemory>
        ensures ok { IfOk result (λ sent. on_info_as self.old.role self.old interval offer ≡ record { copy = self.new; sent = sent }) }
        ensures err { OnErr result (self.new ≡ self.old) }
    {
        let sent = Items::new(self.log.allocator());
        if !self.awaits(interval, offer.number) {
            return Ok(sent);
        }
        self.hear(offer)?;
        match self.try_choice(sent) {
            Ok(sent) => Ok(sent),
            Err(refused) => {
                self.unhear();
                Err(refused)
            }
        }
    }

    /// Hears of a copy, unless what it told begins behind the end of this log.
    pub fn on_info(&mut self, interval: u64, offer: PeerInfo) -> Result<Items<Sent>, OutOfMemory>
        ensures ok { IfOk result (λ sent. on_info self.old interval offer ≡ record { copy = self.new; sent = sent }) }
        ensures err { OnErr result (self.new ≡ self.old) }
    {
        if self.log.len() < offer.start {
            return Ok(Items::new(self.log.allocator()));
        }
        self.on_offer(interval, offer)
    }

    /// Tells the asker what it lacks of this copy's log, and promises its interval where that is new.
    pub fn on_query(
        &mut self,
        from: Party,
        interval: u64,
        len: usize,
        last: Option<Id>,
    ) -> Result<Items<Sent>, OutOfMemory>
        ensures ok { IfOk result (λ sent. on_query self.old from interval len last ≡ record { copy = self.new; sent = sent }) }
        ensures err { OnErr result (self.new ≡ self.old) }
    {
        let mut sent = Items::new(self.log.allocator());
        if interval < self.promise {
            return Ok(sent);
        }
        let start = start_for(&self.log, len, last);
        let body = Body::Info {
            interval,
            base: self.base,
            start,
            part: part_from(&self.log, start)?,
        };
        sent.push(self.send(from, body))?;
        self.promise_interval(interval);
        Ok(sent)
    }
}
