//! What a message makes of a copy.

use crate::state::State;
use common_types::{Items, OutOfMemory};
use entry_core::Sealed;
use group_messages::{Body, Message, Party, PeerInfo, Sent};

impl State {
    ghost use Rattle.std.specs.Prelude.{◌≡◌, IfOk, OnErr};
    ghost use Rattle.peer_core.specs.Steps.{still};
    ghost use Rattle.peer_core.specs.Copy as rules;

    /// Takes a report of a copy, from a daemon alone.
    fn on_info_from(
        &mut self,
        from: Party,
        interval: u64,
        base: u64,
        start: usize,
        part: Items<Sealed>,
    ) -> Result<Items<Sent>, OutOfMemory>
        ensures ok { IfOk result (λ sent. rules.of_daemon from (λ member. rules.on_info self.old interval (record { number = member; base = base; start = start; part = part })) (still self.old) ≡ record { copy = self.new; sent = sent }) }
        ensures err { OnErr result (self.new ≡ self.old) }
    {
        match from {
            Party::Osd(number) => {
                let offer = PeerInfo {
                    number,
                    base,
                    start,
                    part,
                };
                self.on_info(interval, offer)
            }
            Party::Client => Ok(Items::new(self.log.allocator())),
        }
    }

    /// A daemon has the chosen log.
    fn on_installed_from(&mut self, from: Party, interval: u64) -> Result<Items<Sent>, OutOfMemory>
        ensures ok { IfOk result (λ sent. rules.of_daemon from (λ member. rules.on_installed self.old.role self.old interval member) (still self.old) ≡ record { copy = self.new; sent = sent }) }
        ensures err { OnErr result (self.new ≡ self.old) }
    {
        match from {
            Party::Osd(number) => self.on_installed(interval, number),
            Party::Client => Ok(Items::new(self.log.allocator())),
        }
    }

    /// A daemon has the entry of an index.
    fn on_appended_from(
        &mut self,
        from: Party,
        interval: u64,
        index: usize,
    ) -> Result<Items<Sent>, OutOfMemory>
        ensures ok { IfOk result (λ sent. rules.of_daemon from (λ member. rules.on_appended self.old.role self.old interval index member) (still self.old) ≡ record { copy = self.new; sent = sent }) }
        ensures err { OnErr result (self.new ≡ self.old) }
    {
        match from {
            Party::Osd(number) => self.on_appended(interval, index, number),
            Party::Client => Ok(Items::new(self.log.allocator())),
        }
    }

    /// Takes a message.
    pub fn on(&mut self, message: Message) -> Result<Items<Sent>, OutOfMemory>
        ensures ok { IfOk result (λ sent. rules.copy_step self.old message ≡ record { copy = self.new; sent = sent }) }
        ensures err { OnErr result (self.new ≡ self.old) }
    {
        let from = message.from;
        match message.body {
            Body::Interval(sets) => self.on_interval(sets),
            Body::Query {
                interval,
                len,
                last,
            } => self.on_query(from, interval, len, last),
            Body::Info {
                interval,
                base,
                start,
                part,
            } => self.on_info_from(from, interval, base, start, part),
            Body::Install {
                interval,
                start,
                part,
            } => self.on_install(from, interval, start, part),
            Body::Installed { interval } => self.on_installed_from(from, interval),
            Body::Append {
                interval,
                index,
                request,
            } => self.on_append(from, interval, index, request),
            Body::Appended { interval, index } => self.on_appended_from(from, interval, index),
            Body::Request(request) => self.on_request(request),
            Body::Reply { .. } | Body::NotHere(_) => Ok(Items::new(self.log.allocator())),
        }
    }
}
