//! How an interval begins with the chosen log.

ghost use Rattle.std.specs.Prelude.{◌≡◌, ◌==◌, ◌&&◌, length, is_some, unwrap_or, IfOk, OnOk, OnErr};
ghost use Rattle.entry_core.specs.Fitting.{fitted};

use crate::fitting::Fitting;
use crate::serve::decide_each;
use crate::state::State;
use common_types::{Items, OutOfMemory, TryClone};
use entry_core::{Log, Sealed};
use group_messages::{Body, Common, Party, PeerInfo, Role, Sent};
use place_core::ActingSet;
use std::mem;

/// Whether there is nothing to fit: the part is empty and begins at the log's end.
fn is_whole(log: &Log, start: usize, part: &[Sealed]) -> bool
    ensures { result ≡ (start == length log.now) && (length part.now == 0) }
{
    start == log.len() && part.len() == 0
}

/// Fits a log to a part, and says whether that fits; else the log stays as it was. Where nothing is missing, it takes no time that grows with the log.
fn fit(log: &mut Log, start: usize, part: &[Sealed]) -> Result<bool, OutOfMemory>
    ensures fits { IfOk result (λ fits. fits ≡ is_some (fitted log.old start part.now)) }
    ensures log { OnOk result (log.new ≡ unwrap_or (fitted log.old start part.now) log.old) }
    ensures err { OnErr result (log.new ≡ log.old) }
{
    if is_whole(log, start, part) {
        return Ok(true);
    }
    log.fit(start, part)
}

impl State {
    ghost use Rattle.std.specs.Prelude.{◌≡◌, ◌==◌, ◌++◌, true, false, ℕ, List, length, map, IfOk, OnOk, OnErr, None};
    ghost use Rattle.entry_core.specs.Fitting.{fitted};
    ghost use Rattle.peer_core.specs.Types as types;
    ghost use Rattle.peer_core.specs.ActingSets.{others};
    ghost use Rattle.group_messages.specs.Beginnings.{common_of};
    ghost use Rattle.peer_core.specs.Fittings.{becomes};
    ghost use Rattle.peer_core.specs.Serve.{serve};
    ghost use Rattle.peer_core.specs.Copy.{fit_chosen, install_chosen, install_fitted, install_from, on_install, on_installed};

    /// How much each other member has of the log that is chosen, by what these offers tell.
    fn commons_of(
        &self,
        informed: &[PeerInfo],
        fitting: &Fitting<'_>,
    ) -> Result<Items<Common>, OutOfMemory>
        requires { fitting.now.log.now ≡ self.now.log }
        ensures { IfOk result (λ common. common ≡ map (λ m. record { member = m; count = common_of informed.now self.now.log (becomes fitting.now) m }) (others self.now)) }
    {
        let mut common = Items::new(self.log.allocator());
        for member in self.set() {
            if *member != self.number {
                let count = fitting.common_of(informed, *member);
                common.push(Common {
                    member: *member,
                    count,
                })?;
            }
        }
        Ok(common)
    }

    /// How much each other member has of the log that is chosen, by what it heard.
    fn commons(&self, fitting: &Fitting<'_>) -> Result<Items<Common>, OutOfMemory>
        requires { fitting.now.log.now ≡ self.now.log }
        ensures { (informed : List types.Offer) → self.now.role ≡ types.Peering informed → IfOk result (λ common. common ≡ map (λ m. record { member = m; count = common_of informed self.now.log (becomes fitting.now) m }) (others self.now)) }
    {
        match &self.role {
            Role::Peering(informed) => self.commons_of(informed.as_slice(), fitting),
            _ => Ok(Items::new(self.log.allocator())),
        }
    }

    /// Sends to each other member what it lacks of the log that is chosen, and says how much each has.
    fn send_chosen(
        &self,
        fitting: &Fitting<'_>,
        sent: &mut Items<Sent>,
    ) -> Result<Items<Common>, OutOfMemory>
        requires { fitting.now.log.now ≡ self.now.log }
        ensures common { (informed : List types.Offer) → self.now.role ≡ types.Peering informed → IfOk result (λ common. common ≡ map (λ m. record { member = m; count = common_of informed self.now.log (becomes fitting.now) m }) (others self.now)) }
        ensures sent { (informed : List types.Offer) → self.now.role ≡ types.Peering informed → OnOk result (sent.new ≡ sent.old ++ map (λ m. install_from self.now (becomes fitting.now) m (common_of informed self.now.log (becomes fitting.now) m)) (others self.now)) }
    {
        let common = self.commons(fitting)?;
        self.send_install(fitting, common.as_slice(), &ActingSet::new(), sent)?;
        Ok(common)
    }

    /// Begins its interval with its own log, and takes what waits: the set has no other member.
    fn serve_own(&mut self, sent: Items<Sent>) -> Result<Items<Sent>, OutOfMemory>
        ensures copy { OnOk result ((serve self.old.waiting (record self.old { base = self.old.promise; role = types.Active None })).copy ≡ self.new) }
        ensures sent { IfOk result (λ all. all ≡ sent ++ (serve self.old.waiting (record self.old { base = self.old.promise; role = types.Active None })).sent) }
        ensures err { OnErr result (self.new ≡ self.old) }
    {
        let base = mem::replace(&mut self.base, self.promise);
        match self.serve(sent) {
            Ok(sent) => Ok(sent),
            Err(refused) => {
                self.base = base;
                Err(refused)
            }
        }
    }

    /// Begins its interval with its own log, and sends to each other member what it lacks.
    fn install_own(&mut self, mut sent: Items<Sent>) -> Result<Items<Sent>, OutOfMemory>
        ensures copy { (informed : List types.Offer) → self.old.role ≡ types.Peering informed → OnOk result ((install_chosen self.old informed self.old.log (others self.old)).copy ≡ self.new) }
        ensures sent { (informed : List types.Offer) → self.old.role ≡ types.Peering informed → IfOk result (λ all. all ≡ sent ++ (install_chosen self.old informed self.old.log (others self.old)).sent) }
        ensures err { OnErr result (self.new ≡ self.old) }
    {
        if self.is_alone() {
            return self.serve_own(sent);
        }
        let common = self.send_chosen(&Fitting::whole(&self.log), &mut sent)?;
        self.base = self.promise;
        self.role = Role::Installing {
            done: ActingSet::new(),
            common,
        };
        Ok(sent)
    }

    /// Begins its interval with this log, and takes what waits: the set has no other member.
    fn install_alone(
        &mut self,
        mut log: Log,
        mut sent: Items<Sent>,
    ) -> Result<Items<Sent>, OutOfMemory>
        requires { (length (others self.old) == 0) ≡ true }
        ensures copy { OnOk result ((serve self.old.waiting (record self.old { base = self.old.promise; log = log; role = types.Active None })).copy ≡ self.new) }
        ensures sent { IfOk result (λ all. all ≡ sent ++ (serve self.old.waiting (record self.old { base = self.old.promise; log = log; role = types.Active None })).sent) }
        ensures err { OnErr result (self.new ≡ self.old) }
    {
        decide_each(self.number, &self.waiting, &mut log, &mut sent)?;
        self.base = self.promise;
        self.log = log;
        self.become_active();
        Ok(sent)
    }

    /// Begins its interval with its own log, fitted to the part that was chosen: the set has no other member, and nothing waits.
    fn fit_idle(
        &mut self,
        start: usize,
        part: &[Sealed],
        sent: Items<Sent>,
    ) -> Result<Items<Sent>, OutOfMemory>
        requires alone { (length (others self.old) == 0) ≡ true }
        requires idle { length self.old.waiting ≡ 0 }
        ensures copy { (informed : List types.Offer) → self.old.role ≡ types.Peering informed → OnOk result ((fit_chosen self.old informed (fitted self.old.log start part.now)).copy ≡ self.new) }
        ensures sent { (informed : List types.Offer) → self.old.role ≡ types.Peering informed → IfOk result (λ all. all ≡ sent ++ (fit_chosen self.old informed (fitted self.old.log start part.now)).sent) }
        ensures err { OnErr result (self.new ≡ self.old) }
    {
        let fits = self.log.fit(start, part)?;
        if !fits {
            return Ok(sent);
        }
        self.base = self.promise;
        self.become_active();
        Ok(sent)
    }

    /// Begins its interval with its own log, fitted to the part that was chosen: the set has no other member. The log is copied only where something waits.
    fn fit_alone(
        &mut self,
        start: usize,
        part: &[Sealed],
        sent: Items<Sent>,
    ) -> Result<Items<Sent>, OutOfMemory>
        requires { (length (others self.old) == 0) ≡ true }
        ensures copy { (informed : List types.Offer) → self.old.role ≡ types.Peering informed → OnOk result ((fit_chosen self.old informed (fitted self.old.log start part.now)).copy ≡ self.new) }
        ensures sent { (informed : List types.Offer) → self.old.role ≡ types.Peering informed → IfOk result (λ all. all ≡ sent ++ (fit_chosen self.old informed (fitted self.old.log start part.now)).sent) }
        ensures err { OnErr result (self.new ≡ self.old) }
    {
        if self.waiting.len() == 0 {
            return self.fit_idle(start, part, sent);
        }
        let mut log = self.log.copy()?;
        let fits = log.fit(start, part)?;
        if !fits {
            return Ok(sent);
        }
        self.install_alone(log, sent)
    }

    /// Begins its interval with its own log, fitted to the part that was chosen, and sends to each other member what it lacks. The messages are made first, so that nothing can fail once the log is fitted.
    fn fit_and_send(
        &mut self,
        start: usize,
        part: &[Sealed],
        mut sent: Items<Sent>,
    ) -> Result<Items<Sent>, OutOfMemory>
        requires { (length (others self.old) == 0) ≡ false }
        ensures copy { (informed : List types.Offer) → self.old.role ≡ types.Peering informed → OnOk result ((fit_chosen self.old informed (fitted self.old.log start part.now)).copy ≡ self.new) }
        ensures sent { (informed : List types.Offer) → self.old.role ≡ types.Peering informed → IfOk result (λ all. all ≡ sent ++ (fit_chosen self.old informed (fitted self.old.log start part.now)).sent) }
        ensures err { OnErr result (self.new ≡ self.old) }
    {
        let before = sent.len();
        let fitting = Fitting::of(&self.log, start, part);
        let common = self.send_chosen(&fitting, &mut sent)?;
        let fits = self.log.fit(start, part)?;
        if !fits {
            sent.truncate(before);
            return Ok(sent);
        }
        self.base = self.promise;
        self.role = Role::Installing {
            done: ActingSet::new(),
            common,
        };
        Ok(sent)
    }

    /// Begins its interval with its own log, fitted to the part that was chosen, or stays as it was where that does not fit.
    pub fn install_fitted(
        &mut self,
        start: usize,
        part: &[Sealed],
        sent: Items<Sent>,
    ) -> Result<Items<Sent>, OutOfMemory>
        ensures copy { (informed : List types.Offer) → self.old.role ≡ types.Peering informed → OnOk result ((fit_chosen self.old informed (fitted self.old.log start part.now)).copy ≡ self.new) }
        ensures sent { (informed : List types.Offer) → self.old.role ≡ types.Peering informed → IfOk result (λ all. all ≡ sent ++ (fit_chosen self.old informed (fitted self.old.log start part.now)).sent) }
        ensures err { OnErr result (self.new ≡ self.old) }
    {
        if is_whole(&self.log, start, part) {
            return self.install_own(sent);
        }
        if self.is_alone() {
            return self.fit_alone(start, part, sent);
        }
        self.fit_and_send(start, part, sent)
    }

    /// Fits its log to a part of the log that an interval begins with. Where that does not fit, nothing changes.
    fn install_part(
        &mut self,
        from: Party,
        interval: u64,
        start: usize,
        part: &[Sealed],
    ) -> Result<Items<Sent>, OutOfMemory>
        ensures ok { IfOk result (λ sent. install_fitted self.old from interval (fitted self.old.log start part.now) ≡ record { copy = self.new; sent = sent }) }
        ensures err { OnErr result (self.new ≡ self.old) }
    {
        let alloc = self.log.allocator();
        let mut sent = Items::new(alloc);
        sent.push(self.send(from, Body::Installed { interval }))?;
        if !fit(&mut self.log, start, part)? {
            return Ok(Items::new(alloc));
        }
        self.base = interval;
        self.promise_interval(interval);
        Ok(sent)
    }

    /// Takes what it lacks of the log that an interval begins with, where it has not begun it yet.
    pub fn on_install(
        &mut self,
        from: Party,
        interval: u64,
        start: usize,
        part: Items<Sealed>,
    ) -> Result<Items<Sent>, OutOfMemory>
        ensures ok { IfOk result (λ sent. on_install self.old from interval start part ≡ record { copy = self.new; sent = sent }) }
        ensures err { OnErr result (self.new ≡ self.old) }
    {
        let mut sent = Items::new(self.log.allocator());
        if interval < self.promise {
            return Ok(sent);
        }
        if self.base < interval {
            return self.install_part(from, interval, start, part.as_slice());
        }
        sent.push(self.send(from, Body::Installed { interval }))?;
        self.promise_interval(interval);
        Ok(sent)
    }

    /// Counts these members.
    fn count(&mut self, done: ActingSet)
        ensures { (before : List ℕ) (common : List types.Common) → self.old.role ≡ types.Installing before common → self.new ≡ record self.old { role = types.Installing done common } }
    {
        if let Role::Installing { done: counted, .. } = &mut self.role {
            *counted = done;
        }
    }

    /// Counts a member that has the chosen log. Once all have it, the copy is active and takes what waits.
    pub fn on_installed(&mut self, interval: u64, member: u8) -> Result<Items<Sent>, OutOfMemory>
        ensures ok { IfOk result (λ sent. on_installed self.old.role self.old interval member ≡ record { copy = self.new; sent = sent }) }
        ensures err { OnErr result (self.new ≡ self.old) }
    {
        let sent = Items::new(self.log.allocator());
        let done = match &self.role {
            Role::Installing { done, .. } if self.promise == interval => *done,
            _ => return Ok(sent),
        };
        let done = self.counted(&done, member);
        if self.all_count(&done) {
            return self.serve(sent);
        }
        self.count(done);
        Ok(sent)
    }
}
