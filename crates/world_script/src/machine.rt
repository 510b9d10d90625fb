//! The world of a script, line by line.

ghost use Rattle.std.specs.Prelude.{◌≡◌, ◌≤◌, ◌++◌, ℕ, codes, Ok, OnOk, IfOk, IfErr, Some, string_bytes};
ghost use Rattle.script_text.specs.Text.{line};
ghost use Rattle.world_script.specs.declared.command.Command.TheVariants.{LoseAll, KickAll, Tick};
ghost use Rattle.world_script.specs.Script.{first_machine, script_step, ask_now, event_line, settle_line, line_of};
ghost use Rattle.world_script.specs.Steps.{GoesTo, IsFaultOf, Does, at};

use crate::command::Command;
use crate::groups::{Sweep, kick_groups, sweep_groups};
use crate::questions::{answer, list_users, listing, locate, ready, show_user};
use common_types::{Name, OutOfMemory};
use grant_core::ProfileTable;
use script_printing::{push_counted, push_refused, push_settled, push_told};
use script_text::LineFault;
use std::alloc::{AllocError, Global};
use std::marker::Model;
use world_core::{Ask, Event, World, WorldFault};

/// A world, and the stamp of the requests that follow.
#[derive(Drop)]
pub(crate) struct Machine {
    world: World,
    tick: u64,
}

impl Model for Machine {
    ghost use Rattle.world_script.specs.Script as definition;

    ghost Value = { definition.Machine };

    ghost view = { λ m. record { world = m.world; tick = m.tick } };
}

impl Machine {
    /// A new world of `daemons` daemons, with the built-in profiles.
    fn new(alloc: Global, daemons: u8) -> Result<Machine, OutOfMemory>
        requires some { 1 ≤ daemons }
        requires few { daemons ≤ 16 }
        ensures { IfOk result (λ machine. machine ≡ first_machine daemons) }
    {
        let table = match ProfileTable::builtin(alloc) {
            Ok(table) => table,
            Err(_) => return Err(AllocError),
        };
        match World::new(alloc, table, daemons) {
            Ok(world) => Ok(Machine { world, tick: 0 }),
            Err(_) => unreachable!(),
        }
    }

    /// A new world of `daemons` daemons. Adds the line of its first epoch to `text`.
    pub(crate) fn begin(
        alloc: Global,
        daemons: u8,
        text: &mut String,
    ) -> Result<Machine, OutOfMemory>
        requires some { 1 ≤ daemons }
        requires few { daemons ≤ 16 }
        ensures machine { IfOk result (λ machine. machine ≡ first_machine daemons) }
        ensures text { OnOk result (string_bytes text.new ≡ string_bytes text.old ++ line (codes "epoch 1")) }
    {
        text.push_str("epoch 1\n")?;
        Machine::new(alloc, daemons)
    }

    /// Who asks now, and where.
    fn ask(&self, session: u32, pool: Name, namespace: Name) -> Ask
        ensures { result ≡ ask_now self.now.world.front self.now.tick session pool namespace }
    {
        Ask {
            session,
            epoch: self.world.map().epoch(),
            tick: self.tick,
            pool,
            namespace,
        }
    }

    /// The world.
    fn world(&self) -> &World
        ensures { result.now ≡ self.now.world }
    {
        let _tick = self.tick;
        &self.world
    }

    /// Carries out an event, and prints what it tells or why it is refused.
    fn happen(&mut self, event: Event, text: &mut String) -> Result<(), OutOfMemory>
        ensures { OnOk result (Does self.old (event_line self.old event) (string_bytes text.old) (string_bytes text.new) self.new) }
    {
        let _tick = self.tick;
        happen(&mut self.world, event, text)
    }

    /// Delivers all messages of each group, and prints how many reached their addressee.
    fn settle(&mut self, alloc: Global, text: &mut String) -> Result<(), OutOfMemory>
        ensures { OnOk result (Does self.old (settle_line self.old) (string_bytes text.old) (string_bytes text.new) self.new) }
    {
        let _tick = self.tick;
        let count = sweep_groups(alloc, &mut self.world, Sweep::Deliver)?;
        push_settled(text, &count)
    }

    /// Loses all messages of each group.
    fn lose_all(&mut self, alloc: Global, text: &mut String) -> Result<(), OutOfMemory>
        ensures { OnOk result (Does self.old (line_of self.old LoseAll) (string_bytes text.old) (string_bytes text.new) self.new) }
    {
        let _tick = self.tick;
        let _count = sweep_groups(alloc, &mut self.world, Sweep::Lose)?;
        text.push_str("ok\n")
    }

    /// Kicks each group.
    fn kick_all(&mut self, alloc: Global, text: &mut String) -> Result<(), OutOfMemory>
        ensures { OnOk result (Does self.old (line_of self.old KickAll) (string_bytes text.old) (string_bytes text.new) self.new) }
    {
        let _tick = self.tick;
        kick_groups(alloc, &mut self.world)?;
        text.push_str("ok\n")
    }

    /// Sets the stamp of the requests that follow.
    fn set_tick(&mut self, tick: u64, text: &mut String) -> Result<(), OutOfMemory>
        ensures { OnOk result (Does self.old (line_of self.old (Tick tick)) (string_bytes text.old) (string_bytes text.new) self.new) }
    {
        let _world = &self.world;
        self.tick = tick;
        push_counted(text, "tick ", tick)
    }

    /// Carries out a command that is not the first.
    pub(crate) fn carry_out(
        &mut self,
        alloc: Global,
        command: Command,
        text: &mut String,
    ) -> Result<(), LineFault>
        ensures goes { OnOk result (GoesTo (script_step (Some self.old) command) (string_bytes text.old) (string_bytes text.new) (Some self.new)) }
        ensures fault { IfErr result (IsFaultOf (script_step (Some self.old) command)) }
    {
        match command {
            Command::Osds(_) => Err(LineFault::BadLine),
            Command::Happens(event) => ended(self.happen(event, text)),
            Command::Submit {
                session,
                pool,
                namespace,
                object,
                ops,
            } => {
                let ask = self.ask(session, pool, namespace);
                ended(self.happen(Event::Submit { ask, object, ops }, text))
            }
            Command::List {
                session,
                pool,
                namespace,
            } => {
                let ask = self.ask(session, pool, namespace);
                ended(self.happen(Event::List(ask), text))
            }
            Command::Locate {
                pool,
                namespace,
                object,
            } => ended(locate(self.world(), &pool, &namespace, &object, text)),
            Command::ShowUser(name) => ended(show_user(self.world(), &name, text)),
            Command::ListUsers => ended(list_users(self.world(), text)),
            Command::Tick(tick) => ended(self.set_tick(tick, text)),
            Command::Settle => ended(self.settle(alloc, text)),
            Command::KickAll => ended(self.kick_all(alloc, text)),
            Command::LoseAll => ended(self.lose_all(alloc, text)),
            Command::Answer(id) => ended(answer(self.world(), id, text)),
            Command::Listing(id) => ended(listing(self.world(), id, text)),
            Command::Ready(group) => ended(ready(self.world(), &group, text)),
        }
    }
}

/// How a line ends that is not bad.
fn ended(done: Result<(), OutOfMemory>) -> Result<(), LineFault>
    ensures done { OnOk result (done ≡ Ok tt) }
    ensures memory { IfErr result (λ fault. fault ≡ LineFault.OutOfMemory) }
{
    match done {
        Ok(()) => Ok(()),
        Err(_) => Err(LineFault::OutOfMemory),
    }
}

/// Carries out an event, and prints what it tells or why it is refused.
fn happen(world: &mut World, event: Event, text: &mut String) -> Result<(), OutOfMemory>
    ensures { (tick : ℕ) → OnOk result (Does (at tick world.old) (event_line (at tick world.old) event) (string_bytes text.old) (string_bytes text.new) (at tick world.new)) }
{
    match world.apply(event) {
        Ok(told) => push_told(text, told),
        Err(fault) => match fault {
            WorldFault::OutOfMemory => Err(AllocError),
            fault => push_refused(text, fault),
        },
    }
}
