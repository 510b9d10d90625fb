//! A map whose pools, tags and daemons change.

use crate::looks::{NOTHING, mix, with_bytes};
use Command::{Down, Enable, Pool, Remove, Set, Up};
use common_types::{Name, OutOfMemory};
use map_core::{ClusterMap, MapCommand, MapFault};
use std::alloc::Global;
use std::process::Abort;
use std::test::Fail;

/// A command on a pool of this name, or on a daemon of this number.
#[derive(Clone, Copy)]
enum Command {
    Pool(&'static str),
    Enable(&'static str),
    Set(&'static str, &'static str),
    Remove(&'static str),
    Up(u8),
    Down(u8),
}

/// A command, and the epoch that it makes or its fault.
type Row = (Command, Result<u32, MapFault>);

const ROWS: &[Row; 13] = &[
    (Enable("data"), Err(MapFault::NoPool)),
    (Pool("data"), Ok(2)),
    (Pool("data"), Err(MapFault::PoolExists)),
    (Set("data", "v"), Err(MapFault::NoApplication)),
    (Enable("data"), Ok(3)),
    (Set("data", "v"), Ok(4)),
    (Set("data", "w"), Ok(5)),
    (Down(0), Ok(6)),
    (Down(0), Err(MapFault::AlreadySo)),
    (Remove("data"), Ok(7)),
    (Remove("data"), Err(MapFault::NoKey)),
    (Pool("more"), Ok(8)),
    (Up(0), Ok(9)),
];

// The epoch, the daemons that are up, the pools, and the members of the first pool's groups.
fn look(map: &ClusterMap) -> u64 {
    let mut all = mix(NOTHING, u64::from(map.epoch()));
    for daemon in 0..map.daemons() {
        all = mix(all, u64::from(map.up().has(daemon)));
    }
    for pool in map.pools() {
        all = with_bytes(all, pool.name.as_str().as_bytes());
    }
    all
}

fn command_of(alloc: Global, command: Command) -> Result<MapCommand, OutOfMemory> {
    Ok(match command {
        Pool(name) => MapCommand::PoolCreate {
            name: Name::new(alloc, name)?,
            pg_num: 4,
            size: 3,
            min_size: 2,
        },
        Enable(name) => MapCommand::AppEnable {
            pool: Name::new(alloc, name)?,
            app: Name::new(alloc, "app")?,
        },
        Set(name, value) => MapCommand::AppSet {
            pool: Name::new(alloc, name)?,
            app: Name::new(alloc, "app")?,
            key: Name::new(alloc, "k")?,
            value: Name::new(alloc, value)?,
        },
        Remove(name) => MapCommand::AppRm {
            pool: Name::new(alloc, name)?,
            app: Name::new(alloc, "app")?,
            key: Name::new(alloc, "k")?,
        },
        Up(daemon) => MapCommand::OsdUp(daemon),
        Down(daemon) => MapCommand::OsdDown(daemon),
    })
}

fn made(alloc: Global, map: &mut ClusterMap, command: Command) -> Result<u32, MapFault> {
    match command_of(alloc, command) {
        Ok(command) => map.apply(command),
        Err(_) => Err(MapFault::OutOfMemory),
    }
}

// Whether a copy is made at once or then, and looks as the map.
fn is_copied(map: &ClusterMap) -> bool {
    let before = look(map);
    match map.copy() {
        Ok(copy) => look(&copy) == before,
        Err(_) => match map.copy() {
            Ok(copy) => look(&copy) == before,
            Err(_) => false,
        },
    }
}

// Whether a command has the result that its case says: at once, or after it was refused and all stayed as it was.
fn is_so(alloc: Global, map: &mut ClusterMap, row: &Row) -> bool {
    let before = look(map);
    let mut told = made(alloc, map, row.0);
    let mut stays = true;
    if told == Err(MapFault::OutOfMemory) {
        stays = look(map) == before;
        told = made(alloc, map, row.0);
    }
    stays && told == row.1 && is_copied(map)
}

fn begun(alloc: Global) -> Result<ClusterMap, MapFault> {
    match ClusterMap::new(alloc, 3) {
        Err(_) => ClusterMap::new(alloc, 3),
        map => map,
    }
}

#[test]
fn maps(rt: HostRuntime) -> Result<(), Fail> {
    let mut map = begun(rt.alloc())?;
    for (place, row) in ROWS.iter().enumerate() {
        assert!(rt; is_so(rt.alloc(), &mut map, row), "{place}");
    }
    Ok(())
}
