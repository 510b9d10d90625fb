//! How an active copy takes the requests that wait.

ghost use Rattle.std.specs.Prelude.{◌≡◌, ◌++◌, [], ◌∷◌, OnOk, OnErr, IfOk};
ghost use Rattle.peer_core.specs.Types as types;
ghost use Rattle.entry_core.specs.Log.{find};
ghost use Rattle.peer_core.specs.Stages.{log_with, entry_of, reply_of, log_after, replies_to};

use crate::state::State;
use common_types::{Items, OutOfMemory, TryClone};
use entry_core::{Decided, Log, Reply, Sealed};
use group_messages::{Body, Party, Queue, Role, Sent};
use place_core::ActingSet;

/// A daemon's reply to the request of an id.
pub fn reply_to(number: u8, request: &Sealed, reply: &Reply) -> Result<Sent, OutOfMemory>
    ensures { IfOk result (λ sent. sent ≡ record { from = types.Osd number; to = types.Client; body = types.Reply request.now.id reply.now }) }
{
    Ok(Sent {
        from: Party::Osd(number),
        to: Party::Client,
        body: Body::Reply {
            id: request.id(),
            reply: reply.copy()?,
        },
    })
}

/// Takes a request where no other member has to hold its entry, and answers it.
#[tactic(auto, using(crate::proofs::Finding::log_found, crate::proofs::Finding::log_new))]
fn decide_one(
    number: u8,
    log: &mut Log,
    request: &Sealed,
    sent: &mut Items<Sent>,
) -> Result<(), OutOfMemory>
    ensures log { OnOk result (log.new ≡ log_with (find log.old request.now.id) log.old request.now) }
    ensures sent { OnOk result (sent.new ≡ sent.old ++ reply_of number (entry_of (find log.old request.now.id) log.old request.now) ∷ []) }
    ensures err { OnErr result (log.new ≡ log.old) }
{
    if let Some(reply) = log.find(request.id()) {
        sent.push(reply_to(number, request, reply)?)?;
        return Ok(());
    }
    let decided = log.decide(request)?;
    sent.push(reply_to(number, request, &decided.entry().reply)?)?;
    log.push(decided)
}

/// Takes requests in order where no other member has to hold their entries. After an error the log may have some of them.
pub fn decide_each(
    number: u8,
    waiting: &Queue,
    log: &mut Log,
    sent: &mut Items<Sent>,
) -> Result<(), OutOfMemory>
    ensures log { OnOk result (log.new ≡ log_after waiting.now log.old) }
    ensures sent { OnOk result (sent.new ≡ sent.old ++ replies_to number waiting.now log.old) }
{
    for place in 0..waiting.len() {
        decide_one(number, log, waiting.at(place), sent)?;
    }
    Ok(())
}

impl State {
    ghost use Rattle.std.specs.Prelude.{◌≡◌, ◌<◌, ◌==◌, ◌++◌, [], false, true, length, OnOk, OnErr, IfOk, None, slice_index_or};
    ghost use Rattle.entry_core.specs.Log.{find};
    ghost use Rattle.peer_core.specs.Types as types;
    ghost use Rattle.peer_core.specs.ActingSets.{others};
    ghost use Rattle.peer_core.specs.Serve.{serve};
    ghost use Rattle.peer_core.specs.Stages.{log_after, replies_to, AnsweredFirst, IsOffered, HasBegun};

    /// Takes requests from now on: nothing is in flight and nothing waits.
    pub fn become_active(&mut self)
        ensures { self.new ≡ record self.old { role = types.Active None; waiting = [] } }
    {
        self.role = Role::Active(None);
        self.waiting = Queue::new(self.log.allocator());
    }

    /// Takes all that waits where no other member has to hold the entries. One request costs no copy of the log; more do, since nothing may change where memory is refused.
    fn decide_all(&mut self, sent: &mut Items<Sent>) -> Result<(), OutOfMemory>
        ensures copy { OnOk result (self.new ≡ record self.old { log = log_after self.old.waiting self.old.log }) }
        ensures sent { OnOk result (sent.new ≡ sent.old ++ replies_to self.old.number self.old.waiting self.old.log) }
        ensures err { OnErr result (self.new ≡ self.old) }
    {
        match self.waiting.len() {
            0 => Ok(()),
            1 => decide_one(self.number, &mut self.log, self.waiting.at(0), sent),
            _ => {
                let mut log = self.log.copy()?;
                decide_each(self.number, &self.waiting, &mut log, sent)?;
                self.log = log;
                Ok(())
            }
        }
    }

    /// Answers the first waiting requests, as long as the log has them, and says how many these are.
    fn answer_known(&self, sent: &mut Items<Sent>) -> Result<usize, OutOfMemory>
        ensures { IfOk result (λ count. AnsweredFirst self.now sent.old sent.new count) }
    {
        let count = self.waiting.len();
        for place in 0..count {
            let request = self.waiting.at(place);
            match self.log.find(request.id()) {
                Some(reply) => sent.push(reply_to(self.number, request, reply)?)?,
                None => return Ok(place),
            }
        }
        Ok(count)
    }

    /// Decides the waiting request at a place, and sends it to the other members.
    fn offer(&self, place: usize, sent: &mut Items<Sent>) -> Result<Decided, OutOfMemory>
        requires { place < length self.now.waiting }
        ensures { IfOk result (λ decided. IsOffered self.now place decided sent.old sent.new) }
    {
        let request = self.waiting.at(place);
        let decided = self.log.decide(request)?;
        let next = self.log.entries().len() + 1;
        self.send_append(next, request, &ActingSet::new(), sent)?;
        Ok(decided)
    }

    /// Takes the waiting request at a place, which is new to the log: its entry is in flight, and what stood before it waits no more.
    fn begin(&mut self, place: usize, sent: &mut Items<Sent>) -> Result<(), OutOfMemory>
        requires within { place < length self.old.waiting }
        requires next { (s : types.Sealed) → s ≡ slice_index_or self.old.waiting place s → find self.old.log s.id ≡ None }
        ensures begun { OnOk result (HasBegun self.old self.new place sent.old sent.new) }
        ensures err { OnErr result (self.new ≡ self.old) }
    {
        let decided = self.offer(place, sent)?;
        self.log.push(decided)?;
        self.waiting.skip_through(place);
        self.role = Role::Active(Some(ActingSet::new()));
        Ok(())
    }

    fn serve_next(&mut self, mut sent: Items<Sent>) -> Result<Items<Sent>, OutOfMemory>
        requires { (length (others self.old) == 0) ≡ false }
        ensures copy { OnOk result ((serve self.old.waiting self.old).copy ≡ self.new) }
        ensures sent { IfOk result (λ all. all ≡ sent ++ (serve self.old.waiting self.old).sent) }
        ensures err { OnErr result (self.new ≡ self.old) }
    {
        let place = self.answer_known(&mut sent)?;
        if place < self.waiting.len() {
            self.begin(place, &mut sent)?;
        } else {
            self.become_active();
        }
        Ok(sent)
    }

    fn serve_alone(&mut self, mut sent: Items<Sent>) -> Result<Items<Sent>, OutOfMemory>
        requires { (length (others self.old) == 0) ≡ true }
        ensures copy { OnOk result ((serve self.old.waiting self.old).copy ≡ self.new) }
        ensures sent { IfOk result (λ all. all ≡ sent ++ (serve self.old.waiting self.old).sent) }
        ensures err { OnErr result (self.new ≡ self.old) }
    {
        self.decide_all(&mut sent)?;
        self.become_active();
        Ok(sent)
    }

    /// Takes what waits, the first first, until an entry is in flight, and adds to what was sent.
    pub fn serve(&mut self, sent: Items<Sent>) -> Result<Items<Sent>, OutOfMemory>
        ensures copy { OnOk result ((serve self.old.waiting self.old).copy ≡ self.new) }
        ensures sent { IfOk result (λ all. all ≡ sent ++ (serve self.old.waiting self.old).sent) }
        ensures err { OnErr result (self.new ≡ self.old) }
    {
        if self.is_alone() {
            self.serve_alone(sent)
        } else {
            self.serve_next(sent)
        }
    }
}
