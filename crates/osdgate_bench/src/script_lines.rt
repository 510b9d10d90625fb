//! The scripts that are measured.

use common_types::OutOfMemory;
use std::alloc::Global;
use std::fmt::Write;

/// A script, and the bytes that end what it prints where no line is refused.
pub(crate) struct Script {
    pub(crate) text: String,
    pub(crate) ending: String,
}

impl Drop for Script {
    fn drop(self) {
        let Script { text: _, ending: _ } = self;
    }
}

/// So many comments, and the command that makes a cluster, which comes last.
pub(crate) fn comments(alloc: Global, name: &str, count: u32) -> Result<Script, OutOfMemory> {
    let mut text = String::new(alloc);
    for _ in 0..count {
        write!(text, "# {name}\n")?;
    }
    text.push_str("osds 1\n")?;
    let ending = String::from_str(alloc, "epoch 1\n")?;
    Ok(Script { text, ending })
}

/// A cluster, and `count` stamps.
pub(crate) fn ticks(alloc: Global, count: u32) -> Result<Script, OutOfMemory> {
    let mut text = String::from_str(alloc, "osds 1\n")?;
    for tick in 0..count {
        write!(text, "tick {tick}\n")?;
    }
    let last = count.saturating_sub(1);
    let ending = format!(in alloc; "tick {last}\n")?;
    Ok(Script { text, ending })
}

/// When requests are settled.
#[derive(Clone, Copy)]
pub(crate) enum Settling {
    /// Behind the last one.
    Once,
    /// Behind each 100 of them, and behind the last one.
    Hundreds,
}

impl Settling {
    /// How a row is named.
    pub(crate) fn name(self) -> &'static str {
        match self {
            Settling::Once => "settled once",
            Settling::Hundreds => "settled by hundreds",
        }
    }

    /// Whether requests are settled after the first `number` of them, before the last one.
    fn is_between(self, number: u32) -> bool {
        match self {
            Settling::Once => false,
            Settling::Hundreds => number > 0 && number % 100 == 0,
        }
    }
}

/// A session of a user who may do all, on a pool of one group on three daemons.
fn session(alloc: Global, name: &str) -> Result<String, OutOfMemory> {
    format!(in alloc;
        "osds 3\nosd pool create {name} 1 3 2\nauth add client.{name} osd 'allow *'\nopen client.{name}\n"
    )
}

/// `count` requests of one session, each of which replaces the contents of one of 64 objects.
pub(crate) fn requests(
    alloc: Global,
    name: &str,
    count: u32,
    settling: Settling,
) -> Result<Script, OutOfMemory> {
    let mut text = session(alloc, name)?;
    for number in 0..count {
        if settling.is_between(number) {
            text.push_str("settle\n")?;
        }
        write!(
            text,
            "do 1 {name} '' {name}.{} writefull {name}\n",
            number % 64
        )?;
    }
    write!(text, "settle\nanswer 1.{count}\n")?;
    let ending = format!(in alloc; "1.{count} ok\n- \"\"\n")?;
    Ok(Script { text, ending })
}

/// How many pools move.
const POOLS: u32 = 32;

/// What a script of `pairs` pairs of moves prints last.
fn last_of_moves(alloc: Global, pairs: u16) -> Result<String, OutOfMemory> {
    if pairs == 0 {
        let settled = POOLS * 64 * 11;
        return format!(in alloc; "settled {settled}\n");
    }
    let last = POOLS + 1 + 2 * pairs as u32;
    format!(in alloc; "epoch {last}\n")
}

/// Pools whose groups settle, each of three members in 11 deliveries. Then a daemon that has a copy of every group goes
/// down and comes up, `pairs` times.
pub(crate) fn moves(alloc: Global, name: &str, pairs: u16) -> Result<Script, OutOfMemory> {
    let mut text = String::from_str(alloc, "osds 3\n")?;
    for number in 0..POOLS {
        write!(text, "osd pool create {name}{number} 64 3 2\n")?;
    }
    text.push_str("settle\n")?;
    for _ in 0..pairs {
        text.push_str("osd down 2\nosd up 2\n")?;
    }
    let ending = last_of_moves(alloc, pairs)?;
    Ok(Script { text, ending })
}

/// `count` restarts of the only daemon of a group.
pub(crate) fn restarts(alloc: Global, name: &str, count: u16) -> Result<Script, OutOfMemory> {
    let mut text = format!(in alloc; "osds 1\nosd pool create {name} 1 1 1\n")?;
    for _ in 0..count {
        text.push_str("osd restart 0\n")?;
    }
    let last = 2 + count as u32;
    let ending = format!(in alloc; "epoch {last}\n")?;
    Ok(Script { text, ending })
}
