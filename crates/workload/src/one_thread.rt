//! The same requests in a world, on one thread and without locks.

use crate::asking::{POOL, Wish, ops_of};
use crate::fault::WorkloadFault;
use crate::settling::settle;
use crate::team::DAEMONS;
use crate::worker::WRITER;
use auth_db::Caps;
use common_types::Name;
use entry_core::Reply;
use grant_core::ProfileTable;
use map_core::MapCommand;
use std::alloc::Global;
use world_core::{Ask, AuthCommand, Event, Told, World, WorldFault};

/// The object that is asked for.
const OBJECT: &str = "c0";

// What there is before the first request: a pool of one group, a user who may add, and a session of it.
fn beginnings(alloc: Global) -> Result<[Event; 3], WorkloadFault> {
    let pool = MapCommand::PoolCreate {
        name: Name::new(alloc, POOL)?,
        pg_num: 1,
        size: 3,
        min_size: 2,
    };
    let mut caps = Caps::none();
    caps.osd = Some(Name::new(alloc, "allow rwx pool=data")?);
    let user = AuthCommand::Add {
        name: Name::new(alloc, WRITER)?,
        caps,
    };
    let session = Event::Open {
        entity: Name::new(alloc, WRITER)?,
        until: None,
    };
    Ok([Event::Map(pool), Event::Auth(user), session])
}

// A world of three daemons in which that is.
fn begun(alloc: Global) -> Result<World, WorkloadFault> {
    let table = ProfileTable::builtin(alloc)?;
    let mut world = World::new(alloc, table, DAEMONS)?;
    for event in beginnings(alloc)? {
        world.apply(event)?;
    }
    Ok(world)
}

// Asks for an addition, delivers until no message is left, and looks for the answer: whether it is done.
fn is_done(alloc: Global, world: &mut World) -> Result<bool, WorkloadFault> {
    let ask = Ask {
        session: 1,
        epoch: world.map().epoch(),
        tick: 0,
        pool: Name::new(alloc, POOL)?,
        namespace: Name::new(alloc, "")?,
    };
    let submitted = world.apply(Event::Submit {
        ask,
        object: Name::new(alloc, OBJECT)?,
        ops: ops_of(alloc, Wish::Addition)?,
    })?;
    settle(alloc, world, 1)?;
    match submitted {
        Told::Request(id) => Ok(matches!(world.answer(id)?, Some(Reply::Done(_)))),
        _ => Ok(false),
    }
}

/// The requests of one worker of `Load::Requests` on one group, in a world, on one thread and without locks: how many are done.
pub fn run_requests(alloc: Global, times: u32) -> Result<u64, WorkloadFault> {
    let mut world = begun(alloc)?;
    let mut done: u64 = 0;
    for _time in 0..times {
        if is_done(alloc, &mut world)? {
            done = done.saturating_add(1);
        }
    }
    Ok(done)
}
