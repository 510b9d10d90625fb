//! Maps by each call: old epochs, what a command will lead to, and copies. `sessions/maps` shows commands, refusals and limits.

use crate::pieces::{expect_so, expect_text, name};
use common_types::Name;
use map_core::{ClusterMap, Epoch, MapCommand, MapFault};
use place_core::ActingSet;
use std::alloc::Global;
use std::process::Abort;

/// The key `k` of the application of the pool gets a value.
fn set<R: Abort>(rt: &R, alloc: Global, value: &str) -> MapCommand {
    MapCommand::AppSet {
        pool: name(rt, alloc, "data"),
        app: name(rt, alloc, "app"),
        key: name(rt, alloc, "k"),
        value: name(rt, alloc, value),
    }
}

/// The command that creates a pool of `pg_num` groups.
fn create<R: Abort>(rt: &R, alloc: Global, pg_num: u32) -> MapCommand {
    MapCommand::PoolCreate {
        name: name(rt, alloc, "data"),
        pg_num,
        size: 3,
        min_size: 2,
    }
}

/// The command that words name: on the pool `data`, its application `app`, or a daemon.
fn command<R: Abort>(rt: &R, alloc: Global, words: &str) -> MapCommand {
    match words {
        "create 2" => create(rt, alloc, 2),
        "create 4" => create(rt, alloc, 4),
        "enable" => MapCommand::AppEnable {
            pool: name(rt, alloc, "data"),
            app: name(rt, alloc, "app"),
        },
        "set v" => set(rt, alloc, "v"),
        "set w" => set(rt, alloc, "w"),
        "rm" => MapCommand::AppRm {
            pool: name(rt, alloc, "data"),
            app: name(rt, alloc, "app"),
            key: name(rt, alloc, "k"),
        },
        "up 1" => MapCommand::OsdUp(1),
        "down 1" => MapCommand::OsdDown(1),
        "restart 0" => MapCommand::OsdRestart(0),
        "restart 2" => MapCommand::OsdRestart(2),
        _ => panic!(rt; "no command: {words}"),
    }
}

/// A map of three daemons behind the commands that lines name, of which none may be refused.
fn map_behind<R: Abort>(rt: &R, alloc: Global, lines: &[&str]) -> ClusterMap {
    let mut map = ClusterMap::new(alloc, 3).expect(rt, "memory");
    for line in lines {
        let command = command(rt, alloc, line);
        map.apply(command).expect(rt, "a command");
    }
    map
}

/// A pool at an epoch: the epoch, its numbers, how many applications it has, and the first value of the first one; or the refusal.
fn view_shown<R: Abort>(
    rt: &R,
    alloc: Global,
    map: &ClusterMap,
    pool: &Name,
    epoch: Epoch,
) -> String {
    let view = match map.view(pool, epoch) {
        Ok(view) => view.copy().expect(rt, "memory"),
        Err(fault) => return fault.to_string(alloc).expect(rt, "memory"),
    };
    let value = match view.tags.as_slice() {
        [tag, ..] => match tag.pairs.as_slice() {
            [pair, ..] => pair.1.as_str(),
            [] => "",
        },
        [] => "none",
    };
    let (pg_num, size, min_size) = (view.pg_num, view.size, view.min_size);
    format!(in alloc; "{} {pg_num} {size} {min_size} {value}", view.epoch).expect(rt, "memory")
}

const COMMANDS: &[&str; 8] = &[
    "create 2",
    "enable",
    "restart 0",
    "down 1",
    "up 1",
    "set v",
    "set w",
    "rm",
];

/// The pool at these epochs.
const VIEWS: &[(Epoch, &str); 8] = &[
    (0, "M11 NoEpoch"),
    (1, "M2 NoPool"),
    (2, "2 2 3 2 none"),
    (3, "3 2 3 2 "),
    (7, "7 2 3 2 v"),
    (8, "8 2 3 2 w"),
    (9, "9 2 3 2 "),
    (10, "M11 NoEpoch"),
];

#[test]
fn pools_are_seen_at_old_epochs(rt: HostRuntime) {
    let alloc = rt.alloc();
    let data = name(&rt, alloc, "data");
    let map = map_behind(&rt, alloc, COMMANDS);
    let is_whole = map.epoch() == 9 && map.daemons() == 3 && map.pools().len() == 1;
    expect_so(&rt, is_whole && map.pool(&data).is_some(), "the map");
    for (epoch, want) in VIEWS {
        let shown = view_shown(&rt, alloc, &map, &data, *epoch);
        expect_text(&rt, shown.as_str(), want, "a pool");
    }
}

/// The acting sets of groups, and the refusal of one that is not there.
const ACTING: &[(u32, &[u8], Option<MapFault>); 3] = &[
    (0, &[0, 1, 2], None),
    (1, &[1, 0, 2], None),
    (4, &[], Some(MapFault::NoGroup)),
];

/// Whether a group has these members, or is refused so.
fn has_acting(
    map: &ClusterMap,
    pool: &Name,
    group: u32,
    members: &[u8],
    fault: Option<MapFault>,
) -> bool {
    map.acting_refusal(pool, group) == fault
        && match map.acting(pool, group) {
            Ok(found) => found.as_slice() == members,
            Err(found) => fault == Some(found),
        }
}

/// Whether a command leads to this acting set of group 1 and begins an interval there, and then does.
fn leads_to(map: &mut ClusterMap, command: MapCommand, pool: &Name, members: &[u8]) -> bool {
    if map.refusal(&command).is_some() {
        return false;
    }
    let set = ActingSet::from_slice(members);
    let is_foreseen = map.acting_set_after(&command, pool, 1) == set
        && map.interval_after(&command, pool, 1) == set;
    let up = map.up_after(&command);
    map.apply(command).is_ok() && is_foreseen && map.up() == up && map.acting_set(pool, 1) == set
}

/// Commands, and the acting set of group 1 behind each, with which an interval begins.
const STEPS: &[(&str, &[u8]); 3] = &[
    ("down 1", &[0, 2]),
    ("up 1", &[1, 0, 2]),
    ("restart 2", &[1, 0, 2]),
];

#[test]
fn acting_sets_as_daemons_come_and_go(rt: HostRuntime) {
    let alloc = rt.alloc();
    let data = name(&rt, alloc, "data");
    let mut map = map_behind(&rt, alloc, &["create 4"]);
    for (group, members, fault) in ACTING {
        let has_acting = has_acting(&map, &data, *group, members, *fault);
        expect_so(&rt, has_acting, "an acting set");
    }
    for (line, members) in STEPS {
        let command = command(&rt, alloc, line);
        expect_so(&rt, leads_to(&mut map, command, &data, members), line);
    }
}

/// Whether a copy goes on from the map once daemon 2 went down in it, the map does not go on from the copy, and daemon 2 is up in the map alone.
fn goes_on<R: Abort>(rt: &R, map: &ClusterMap) -> bool {
    let mut later = map.copy().expect(rt, "memory");
    later.apply(MapCommand::OsdDown(2)).expect(rt, "a command");
    let is_later = later.goes_on_from(map) && !map.goes_on_from(&later);
    is_later && !later.up().has(2) && map.up().has(2) && later.pools().len() == 1
}

#[test]
fn a_map_goes_on_from_its_copy(rt: HostRuntime) {
    let map = map_behind(&rt, rt.alloc(), &["create 2"]);
    expect_so(&rt, goes_on(&rt, &map), "a copy");
}

#[test]
fn a_map_of_other_daemons_does_not_go_on(rt: HostRuntime) {
    let three = ClusterMap::new(rt.alloc(), 3).expect(&rt, "memory");
    let four = ClusterMap::new(rt.alloc(), 4).expect(&rt, "memory");
    expect_so(&rt, three.goes_on_from(&three), "itself");
    let is_apart = !three.goes_on_from(&four) && !four.goes_on_from(&three);
    expect_so(&rt, is_apart, "other daemons");
}

#[test]
fn commands_are_copied(rt: HostRuntime) {
    let command = set(&rt, rt.alloc(), "v");
    let copy = command.copy().expect(&rt, "memory");
    let is_alike = copy.equals(&command) && !copy.equals(&MapCommand::OsdUp(0));
    expect_so(&rt, is_alike, "a copy");
}
