//! A driver: texts whose lines a world takes one after another.
//!
//! Each line has an arrow, and behind it what the line must print, as `close 2 -> ok`. If it must print several lines,
//! ` / ` separates them. A line is an event or a question of a script, or one of these:
//!
//! - `at E T LINE`: a request by this epoch and tick. Without it a request goes by the map's epoch and tick 0.
//! - `nothing S POOL NAMESPACE OBJECT`, `seventeen ..`: a request of no operations, and one of seventeen.
//! - `kick POOL GROUP`: this group alone is kicked.
//! - `settle POOL GROUP`: message 0 of this group is delivered until no message is left.
//! - `times N LINE`: the line `N` times, up to the first that is refused. It prints what the last one prints.
//! - `wire POOL GROUP`, `epoch`, `audit`, `decided S.N`: what is seen of the world.

ghost use Rattle.std.specs.Prelude.{◌≤◌};

use super::looks::{happen, see, settle};
use entry_core::GroupId;
use grant_core::ProfileTable;
use std::alloc::Global;
use std::process::Abort;
use world_core::{Ask, Event, Ops, World};
use world_script::{Command, read_line};

// What a line of a script says.
pub(super) fn read<R: Abort>(rt: &R, alloc: Global, line: &str) -> Command {
    match read_line(alloc, line.as_bytes()) {
        Ok(Some(command)) => command,
        _ => panic!(rt; "not understood: {line}"),
    }
}

// The group of these words: a pool and a number.
pub(super) fn group_of<R: Abort>(rt: &R, alloc: Global, words: &str) -> GroupId {
    let line = format!(in alloc; "ready {words}").expect(rt, "memory");
    match read(rt, alloc, line.as_str()) {
        Command::Ready(group) => group,
        _ => panic!(rt; "no group: {words}"),
    }
}

// The number that a word is.
fn number_of<R: Abort>(rt: &R, word: &str) -> u32 {
    word.parse::<u32>().expect(rt, "a number")
}

// The event that a command is, where a request goes by this epoch and tick.
fn event_by<R: Abort>(rt: &R, command: Command, epoch: u32, tick: u64) -> Event {
    match command {
        Command::Happens(event) => event,
        Command::Submit {
            session,
            pool,
            namespace,
            object,
            ops,
        } => Event::Submit {
            ask: Ask {
                session,
                epoch,
                tick,
                pool,
                namespace,
            },
            object,
            ops,
        },
        Command::List {
            session,
            pool,
            namespace,
        } => Event::List(Ask {
            session,
            epoch,
            tick,
            pool,
            namespace,
        }),
        _ => panic!(rt; "no event"),
    }
}

// A request of no operations.
fn nothing<R: Abort>(rt: &R, alloc: Global, words: &str, epoch: u32, tick: u64) -> Event {
    let line = format!(in alloc; "do {words} stat").expect(rt, "memory");
    match event_by(rt, read(rt, alloc, line.as_str()), epoch, tick) {
        Event::Submit { ask, object, .. } => Event::Submit {
            ask,
            object,
            ops: Ops::new(alloc),
        },
        _ => panic!(rt; "no request: {words}"),
    }
}

// A request of seventeen operations.
fn seventeen<R: Abort>(rt: &R, alloc: Global, words: &str) -> Command {
    let mut line = format!(in alloc; "do {words} stat").expect(rt, "memory");
    for _ in 0..16 {
        line.push_str(" + stat").expect(rt, "memory");
    }
    read(rt, alloc, line.as_str())
}

// The event of a line, where a request goes by this epoch and tick.
fn event_at<R: Abort>(rt: &R, alloc: Global, line: &str, epoch: u32, tick: u64) -> Event {
    match line.split_once(' ') {
        Some(("kick", words)) => Event::Kick {
            group: group_of(rt, alloc, words),
        },
        Some(("nothing", words)) => nothing(rt, alloc, words, epoch, tick),
        Some(("seventeen", words)) => event_by(rt, seventeen(rt, alloc, words), epoch, tick),
        _ => event_by(rt, read(rt, alloc, line), epoch, tick),
    }
}

// The event of a line, where a request that says nothing else goes by this epoch and tick 0.
pub(super) fn event_of<R: Abort>(rt: &R, alloc: Global, line: &str, epoch: u32) -> Event {
    let mut words = line.splitn(4, ' ');
    match (words.next(), words.next(), words.next(), words.next()) {
        (Some("at"), Some(epoch), Some(tick), Some(rest)) => {
            let (epoch, tick) = (number_of(rt, epoch), number_of(rt, tick));
            event_at(rt, alloc, rest, epoch, u64::from(tick))
        }
        _ => event_at(rt, alloc, line, epoch, 0),
    }
}

// Carries out an event as often as its count says, up to the first that is refused. Prints what the last one prints.
fn repeat<R: Abort>(rt: &R, alloc: Global, world: &mut World, words: &str, text: &mut String) {
    let (count, line) = words.split_once(' ').unwrap_or((words, ""));
    for _ in 0..number_of(rt, count) {
        text.clear();
        happen(
            rt,
            world,
            event_of(rt, alloc, line, world.map().epoch()),
            text,
        );
        if text.starts_with("refused") {
            return;
        }
    }
}

// What a line prints.
fn printed<R: Abort>(rt: &R, alloc: Global, world: &mut World, line: &str) -> String {
    let mut text = String::new(alloc);
    match line.split_once(' ') {
        Some(("times", words)) => repeat(rt, alloc, world, words, &mut text),
        Some(("settle", words)) => settle(rt, world, &group_of(rt, alloc, words), &mut text),
        _ => {
            if !see(rt, alloc, world, line, &mut text) {
                happen(
                    rt,
                    world,
                    event_of(rt, alloc, line, world.map().epoch()),
                    &mut text,
                );
            }
        }
    }
    text
}

// Whether a text is these lines, between which ` / ` stands.
fn are_lines(text: &str, wanted: &str) -> bool {
    let mut lines = text.lines();
    for part in wanted.split(" / ") {
        match lines.next() {
            Some(line) if line == part => {}
            _ => return false,
        }
    }
    lines.next().is_none()
}

// Ends the test where a line does not say what is wanted.
fn expect_said<R: Abort>(rt: &R, line: &str, said: &str, wanted: &str) {
    assert!(rt; are_lines(said, wanted), "{line} -> {said}");
}

// A world takes the lines of a text, one after another, and prints what they say.
pub(super) fn expect_on<R: Abort>(rt: &R, alloc: Global, world: &mut World, text: &str) {
    for line in text.lines() {
        let (line, wanted) = line.split_once(" -> ").expect(rt, "an arrow");
        let said = printed(rt, alloc, world, line);
        expect_said(rt, line, said.as_str(), wanted);
    }
}

// A world of `daemons` daemons, with the built-in profiles.
pub(super) fn begun<R: Abort>(rt: &R, alloc: Global, daemons: u8) -> World
    requires some { 1 ≤ daemons }
    requires few { daemons ≤ 16 }
{
    let table = ProfileTable::builtin(alloc).expect(rt, "profiles");
    World::new(alloc, table, daemons).expect(rt, "a world")
}

// A new world of `daemons` daemons takes the lines of these texts.
pub(super) fn expect<R: Abort>(rt: &R, alloc: Global, daemons: u8, texts: &[&str])
    requires some { 1 ≤ daemons }
    requires few { daemons ≤ 16 }
{
    let mut world = begun(rt, alloc, daemons);
    for text in texts {
        expect_on(rt, alloc, &mut world, *text);
    }
}
