//! A group moves while a tag and a user go: the events of a world, one after another.

use crate::looks::{NOTHING, mix, with_reply, with_wire};
use Step::{
    Add, Delete, Deliver, Down, Enable, List, Lose, Open, Pool, Remove, Renew, Set, Submit,
};
use auth_db::{AuthFault, Caps};
use common_types::{Name, OutOfMemory};
use entry_core::{GroupId, Id, Reply};
use grant_core::ProfileTable;
use group_messages::GroupFault;
use map_core::{MapCommand, MapFault};
use object_core::{Bytes, NeedsFault, Op};
use std::alloc::Global;
use std::test::Fail;
use verdict_core::Condition;
use world_core::{Ask, AuthCommand, Event, Ops, Told, World, WorldFault};

/// An event. A submission and a list have the epoch of the map that the asker has seen.
#[derive(Clone, Copy)]
enum Step {
    Pool,
    Add,
    Enable,
    Set,
    Open,
    Submit(u32),
    List(u32),
    Down,
    Remove,
    Delete,
    Renew,
    Lose(u32),
    Deliver(u32),
}

/// The events, each message to daemon 0 lost, which is down. A delivery stands for as many as its number says.
const STEPS: &[Step; 19] = &[
    Pool,
    Add,
    Enable,
    Set,
    Open,
    Submit(4),
    Down,
    Remove,
    Delete,
    Lose(1),
    Deliver(2),
    Lose(1),
    Deliver(3),
    Lose(1),
    Deliver(7),
    Submit(6),
    Deliver(4),
    List(6),
    Deliver(4),
];

fn group(alloc: Global) -> Result<GroupId, OutOfMemory> {
    Ok(GroupId {
        number: 0,
        pool: Name::new(alloc, "data")?,
    })
}

fn add(alloc: Global) -> Result<AuthCommand, OutOfMemory> {
    let mut caps = Caps::none();
    caps.osd = Some(Name::new(alloc, "allow rwx tag app k=v")?);
    let name = Name::new(alloc, "client.a")?;
    Ok(AuthCommand::Add { name, caps })
}

fn map_command(alloc: Global, step: Step) -> Result<MapCommand, OutOfMemory> {
    let pool = Name::new(alloc, "data")?;
    let app = Name::new(alloc, "app")?;
    let key = Name::new(alloc, "k")?;
    Ok(match step {
        Pool => MapCommand::PoolCreate {
            name: pool,
            pg_num: 1,
            size: 3,
            min_size: 2,
        },
        Enable => MapCommand::AppEnable { pool, app },
        Set => MapCommand::AppSet {
            pool,
            app,
            key,
            value: Name::new(alloc, "v")?,
        },
        Remove => MapCommand::AppRm { pool, app, key },
        _ => MapCommand::OsdDown(0),
    })
}

fn ask(alloc: Global, epoch: u32) -> Result<Ask, OutOfMemory> {
    Ok(Ask {
        session: 1,
        epoch,
        tick: 0,
        pool: Name::new(alloc, "data")?,
        namespace: Name::new(alloc, "")?,
    })
}

fn addition(alloc: Global) -> Result<Op, OutOfMemory> {
    Ok(Op::Call {
        class: Name::new(alloc, "counter")?,
        method: Name::new(alloc, "add")?,
        input: Bytes::from_slice(alloc, b"1")?,
    })
}

fn submission(alloc: Global, epoch: u32) -> Result<Event, OutOfMemory> {
    let mut ops = Vec::new(alloc);
    ops.push(addition(alloc)?)?;
    Ok(Event::Submit {
        ask: ask(alloc, epoch)?,
        object: Name::new(alloc, "x")?,
        ops: Ops::from_vec(ops),
    })
}

// What a user or a session does.
fn of_user(alloc: Global, step: Step) -> Result<Event, OutOfMemory> {
    match step {
        Add => Ok(Event::Auth(add(alloc)?)),
        Delete => Ok(Event::Auth(AuthCommand::Delete {
            name: Name::new(alloc, "client.a")?,
        })),
        Open => Ok(Event::Open {
            until: None,
            entity: Name::new(alloc, "client.a")?,
        }),
        Submit(epoch) => submission(alloc, epoch),
        List(epoch) => Ok(Event::List(ask(alloc, epoch)?)),
        _ => Ok(Event::Renew {
            session: 1,
            until: None,
        }),
    }
}

fn event(alloc: Global, step: Step) -> Result<Event, OutOfMemory> {
    match step {
        Pool | Enable | Set | Remove | Down => Ok(Event::Map(map_command(alloc, step)?)),
        Lose(_) => Ok(Event::Lose {
            group: group(alloc)?,
            place: 0,
        }),
        Deliver(_) => Ok(Event::Deliver {
            group: group(alloc)?,
            place: 0,
        }),
        _ => of_user(alloc, step),
    }
}

// The epoch, what the first requests are answered, and what is on the way.
fn look(world: &World, group: &GroupId) -> u64 {
    let mut all = mix(NOTHING, u64::from(world.map().epoch()));
    for number in [1, 2, 3, 4] {
        all = mix(all, 1);
        match world.answer(Id::new(1, number)) {
            Ok(Some(reply)) => all = with_reply(mix(all, 2), reply),
            Ok(None) => all = mix(all, 3),
            Err(_) => all = mix(all, 4),
        }
    }
    all = mix(all, u64::from(world.users().get("client.a").is_ok()));
    match world.wire(group) {
        Ok(wire) => with_wire(all, wire),
        Err(_) => all,
    }
}

// Whether a fault is out of memory, in any layer.
fn wants_memory(fault: WorldFault) -> bool {
    matches!(
        fault,
        WorldFault::OutOfMemory
            | WorldFault::Auth(AuthFault::OutOfMemory)
            | WorldFault::Map(MapFault::OutOfMemory)
            | WorldFault::Needs(NeedsFault::OutOfMemory)
            | WorldFault::Group(GroupFault::OutOfMemory)
    )
}

// What an event tells, or out of memory if the allocation of the event fails.
fn told(alloc: Global, world: &mut World, step: Step) -> Result<Told, WorldFault> {
    match event(alloc, step) {
        Ok(event) => world.apply(event),
        Err(_) => Err(WorldFault::OutOfMemory),
    }
}

// How many entries the audit has, where it is refused asked for once more.
fn audited(world: &World) -> Option<usize> {
    match world.audit() {
        Ok(entries) => Some(entries.len()),
        Err(_) => match world.audit() {
            Ok(entries) => Some(entries.len()),
            Err(_) => None,
        },
    }
}

// Whether an event is accepted at once, or leaves the world as it was and is accepted then.
fn is_accepted(alloc: Global, world: &mut World, group: &GroupId, step: Step) -> bool {
    let before = look(world, group);
    let entries = audited(world);
    match told(alloc, world, step) {
        Ok(_) => entries.is_some() && audited(world).is_some(),
        Err(fault) => {
            wants_memory(fault)
                && look(world, group) == before
                && audited(world) == entries
                && told(alloc, world, step).is_ok()
        }
    }
}

// How often a step is made.
fn times(step: Step) -> u32 {
    match step {
        Deliver(count) | Lose(count) => count,
        _ => 1,
    }
}

// The place of the first event that is not accepted, or how many there are.
fn accepted(alloc: Global, world: &mut World, group: &GroupId) -> usize {
    for (place, step) in STEPS.iter().enumerate() {
        for _ in 0..times(*step) {
            if !is_accepted(alloc, world, group, *step) {
                return place;
            }
        }
    }
    STEPS.len()
}

// Whether the user is no more, so that the session is not renewed.
fn is_gone(alloc: Global, world: &mut World, group: &GroupId) -> bool {
    let before = look(world, group);
    let renewed = told(alloc, world, Renew);
    matches!(renewed, Err(WorldFault::Auth(AuthFault::NoEntity))) && look(world, group) == before
}

fn is_output(reply: Option<&Reply>, output: &str) -> bool {
    match reply {
        Some(Reply::Done(outputs)) => match outputs.as_slice() {
            [only] => only.as_slice() == output.as_bytes(),
            _ => false,
        },
        _ => false,
    }
}

fn is_denied(reply: Option<&Reply>) -> bool {
    match reply {
        Some(Reply::Denied(report)) => match report.lines() {
            [(path, condition)] => {
                path.as_slice() == [1].as_slice() && *condition == Condition::Tag
            }
            _ => false,
        },
        _ => false,
    }
}

// Whether the first request is answered `1`, and the second denied by the tag.
fn is_answered(world: &World) -> bool {
    match (world.answer(Id::new(1, 1)), world.answer(Id::new(1, 2))) {
        (Ok(first), Ok(second)) => is_output(first, "1") && is_denied(second),
        _ => false,
    }
}

fn begun(alloc: Global) -> Result<World, WorldFault> {
    let table = ProfileTable::builtin(alloc).map_err(|_| WorldFault::OutOfMemory)?;
    World::new(alloc, table, 3)
}

fn begun_again(alloc: Global) -> Result<World, WorldFault> {
    match begun(alloc) {
        Err(_) => begun(alloc),
        world => world,
    }
}

fn group_again(alloc: Global) -> Result<GroupId, OutOfMemory> {
    match group(alloc) {
        Err(_) => group(alloc),
        id => id,
    }
}

#[test]
fn long_failover(rt: HostRuntime) -> Result<(), Fail> {
    let alloc = rt.alloc();
    let group = group_again(alloc)?;
    let mut world = begun_again(alloc)?;
    assert_eq!(&rt; accepted(alloc, &mut world, &group), STEPS.len());
    assert!(&rt; is_gone(alloc, &mut world, &group));
    assert!(&rt; is_answered(&world));
    Ok(())
}
