//! How the entries of an interval are decided.

use crate::fitting::Fitting;
use crate::serve::reply_to;
use crate::state::State;
use common_types::{Items, OutOfMemory};
use entry_core::Sealed;
use group_messages::{Body, Party, Role, Sent};
use place_core::ActingSet;

impl State {
    ghost use Rattle.std.specs.Prelude.{◌≡◌, ◌++◌, ◌∷◌, length, take, ◌-◌, IfOk, OnOk, OnErr};
    ghost use Rattle.entry_core.specs.Log.{find};
    ghost use Rattle.peer_core.specs.Types as types;
    ghost use Rattle.peer_core.specs.ActingSets.{missing};
    ghost use Rattle.group_messages.specs.Decided.{last};
    ghost use Rattle.peer_core.specs.Stages.{replies};
    ghost use Rattle.peer_core.specs.Serve.{serve};
    ghost use Rattle.peer_core.specs.Copy as rules;

    /// Decides and keeps the next entry of its interval, and acknowledges each that it has.
    pub fn on_append(
        &mut self,
        from: Party,
        interval: u64,
        index: usize,
        request: Sealed,
    ) -> Result<Items<Sent>, OutOfMemory>
        ensures ok { IfOk result (λ sent. rules.on_append self.old from interval index request ≡ record { copy = self.new; sent = sent }) }
        ensures err { OnErr result (self.new ≡ self.old) }
    {
        let mut sent = Items::new(self.log.allocator());
        if self.promise != interval || self.base != interval {
            return Ok(sent);
        }
        let is_next = self.log.entries().len() + 1 == index && !self.log.contains(request.id());
        if is_next || index <= self.log.len() {
            let body = Body::Appended { interval, index };
            sent.push(self.send(from, body))?;
        }
        if is_next {
            let decided = self.log.decide(&request)?;
            self.log.push(decided)?;
        }
        Ok(sent)
    }

    /// Answers the last entry's request.
    #[tactic(auto, using(crate::proofs::Counting::last_get))]
    fn reply_to_last(&self, sent: &mut Items<Sent>) -> Result<(), OutOfMemory>
        ensures { OnOk result (sent.new ≡ sent.old ++ replies self.now (last self.now.log)) }
    {
        match self.log.last_entry() {
            Some(entry) => sent.push(reply_to(self.number, &entry.sealed, &entry.reply)?),
            None => Ok(()),
        }
    }

    /// Answers the last entry's request, since all members have it, and takes what waits.
    fn complete(&mut self) -> Result<Items<Sent>, OutOfMemory>
        ensures ok { IfOk result (λ sent. rules.complete self.old (last self.old.log) ≡ record { copy = self.new; sent = sent }) }
        ensures err { OnErr result (self.new ≡ self.old) }
    {
        let mut sent = Items::new(self.log.allocator());
        self.reply_to_last(&mut sent)?;
        self.serve(sent)
    }

    /// Counts a member that has the entry in flight. Once all have it, it is answered, and what waits is taken.
    pub fn on_appended(
        &mut self,
        interval: u64,
        index: usize,
        member: u8,
    ) -> Result<Items<Sent>, OutOfMemory>
        ensures ok { IfOk result (λ sent. rules.on_appended self.old.role self.old interval index member ≡ record { copy = self.new; sent = sent }) }
        ensures err { OnErr result (self.new ≡ self.old) }
    {
        let sent = Items::new(self.log.allocator());
        let holders = match &self.role {
            Role::Active(Some(holders)) if self.promise == interval && index == self.log.len() =>
                *holders,
            _ => return Ok(sent),
        };
        let holders = self.counted(&holders, member);
        if self.all_count(&holders) {
            return self.complete();
        }
        self.role = Role::Active(Some(holders));
        Ok(sent)
    }

    /// Takes a request while nothing is in flight.
    fn serve_request(&mut self, request: Sealed) -> Result<Items<Sent>, OutOfMemory>
        ensures ok { IfOk result (λ sent. serve (request ∷ self.old.waiting) self.old ≡ record { copy = self.new; sent = sent }) }
        ensures err { OnErr result (self.new ≡ self.old) }
    {
        self.waiting.push_front(request)?;
        let sent = Items::new(self.log.allocator());
        match self.serve(sent) {
            Ok(sent) => Ok(sent),
            Err(refused) => {
                self.waiting.skip(1);
                Err(refused)
            }
        }
    }

    /// Takes a request while the last entry is in flight.
    #[tactic(auto, using(crate::proofs::Finding::busy_known, crate::proofs::Finding::busy_new))]
    fn busy_request(&mut self, request: Sealed) -> Result<Items<Sent>, OutOfMemory>
        ensures ok { IfOk result (λ sent. rules.busy_request self.old request (find (take (length self.old.log - 1) self.old.log) request.id) ≡ record { copy = self.new; sent = sent }) }
        ensures err { OnErr result (self.new ≡ self.old) }
    {
        let mut sent = Items::new(self.log.allocator());
        if let Some(reply) = self.log.find_before_last(request.id()) {
            sent.push(reply_to(self.number, &request, reply)?)?;
            return Ok(sent);
        }
        if !self.log.contains(request.id()) {
            self.waiting.push_back(request)?;
        }
        Ok(sent)
    }

    /// Takes a request where it leads an interval.
    pub fn on_request(&mut self, request: Sealed) -> Result<Items<Sent>, OutOfMemory>
        ensures ok { IfOk result (λ sent. rules.on_request self.old request ≡ record { copy = self.new; sent = sent }) }
        ensures err { OnErr result (self.new ≡ self.old) }
    {
        let mut sent = Items::new(self.log.allocator());
        if self.waiting.has(request.id()) {
            return Ok(sent);
        }
        match &self.role {
            Role::Idle => {
                let body = Body::NotHere(request.id());
                sent.push(self.send(Party::Client, body))?;
                Ok(sent)
            }
            Role::Peering(_) | Role::Installing { .. } => {
                self.waiting.push_back(request)?;
                Ok(sent)
            }
            Role::Active(None) => self.serve_request(request),
            Role::Active(Some(_)) => self.busy_request(request),
        }
    }

    /// Sends the last entry's request again.
    #[tactic(auto, using(crate::proofs::Counting::last_get))]
    fn append_again(&self, holders: &ActingSet, sent: &mut Items<Sent>) -> Result<(), OutOfMemory>
        ensures { OnOk result (sent.new ≡ sent.old ++ rules.append_again self.now (last self.now.log) (missing self.now holders.now)) }
    {
        match self.log.last_entry() {
            Some(entry) => self.send_append(self.log.len(), &entry.sealed, holders, sent),
            None => Ok(()),
        }
    }

    fn retransmit_as(&self, sent: &mut Items<Sent>) -> Result<(), OutOfMemory>
        ensures { OnOk result (sent.new ≡ sent.old ++ rules.retransmit self.now) }
    {
        match &self.role {
            Role::Idle | Role::Active(None) => Ok(()),
            Role::Peering(informed) => self.send_queries(informed.as_slice(), sent),
            Role::Installing { done, common } => {
                self.send_install(&Fitting::whole(&self.log), common.as_slice(), done, sent)
            }
            Role::Active(Some(holders)) => self.append_again(holders, sent),
        }
    }

    /// Sends again what was not answered.
    pub fn retransmit(&self) -> Result<Items<Sent>, OutOfMemory>
        ensures { IfOk result (λ sent. sent ≡ rules.retransmit self.now) }
    {
        let mut sent = Items::new(self.log.allocator());
        self.retransmit_as(&mut sent)?;
        Ok(sent)
    }
}
