//! Hashes, groups of objects, and the daemons that serve a group.

use crate::pieces::expect_so;
use place_core::{ActingSet, DaemonSet, acting, acting_set, group_of, hash};
use std::alloc::Global;
use std::process::Abort;

#[test]
fn hashes_of_texts(rt: HostRuntime) {
    let vectors: [(&str, u32); 8] = [
        ("data", 3631407781),
        ("data.0.0", 2675562165),
        ("data.0.1", 2658784546),
        ("data.0.2", 2642006927),
        ("data.1.0", 949842382),
        ("data.1.1", 966620001),
        ("data.1.2", 916287144),
        ("\x1fx", 1470816610),
    ];
    for (text, want) in vectors {
        expect_so(&rt, hash(text.as_bytes()) == want, text);
    }
}

#[test]
fn groups_of_objects(rt: HostRuntime) {
    let objects: [(&str, &str, u32, u32); 10] = [
        ("", "x", 4, 2),
        ("", "x", 3, 1),
        ("", "x", 1, 0),
        ("a", "x", 4, 3),
        ("", "a", 4, 1),
        ("", "b", 4, 0),
        ("", "c", 4, 3),
        ("", "d", 4, 2),
        ("", "e", 4, 1),
        ("", "f", 4, 0),
    ];
    for (namespace, name, pg_num, want) in objects {
        assert!(rt; pg_num >= 1);
        expect_so(&rt, group_of(namespace, name, pg_num) == want, name);
    }
}

/// Whether each call says that these are the members of a group of the pool `data`.
fn is_acting<R: Abort>(
    rt: &R,
    alloc: Global,
    (group, up, size): (u32, DaemonSet, u32),
    members: &[u8],
) -> bool {
    let found = acting(alloc, "data", group, &up, size).expect(rt, "memory");
    let set = acting_set("data", group, &up, size);
    let all_three = acting_set("data", 1, &DaemonSet::first(3), 3);
    found.as_slice() == members
        && set.as_slice() == members
        && Some(set) == ActingSet::from_slice(members)
        && set.has(2) == members.contains(&2)
        && set.equals(&all_three) == (members == [1, 0, 2].as_slice())
}

#[test]
fn acting_sets_of_groups(rt: HostRuntime) {
    let three = DaemonSet::first(3);
    let mut without_one = three;
    without_one.set(1, false);
    let has_its_own = three.has(1) && !without_one.has(1) && !three.has(3) && !three.has(200);
    expect_so(&rt, has_its_own, "sets of daemons");
    let sets: [(u32, DaemonSet, u32, &[u8]); 6] = [
        (0, three, 3, &[0, 1, 2]),
        (1, three, 3, &[1, 0, 2]),
        (1, without_one, 3, &[0, 2]),
        (1, three, 2, &[1, 0]),
        (1, three, 0, &[]),
        (1, DaemonSet::first(0), 3, &[]),
    ];
    for (group, up, size, members) in sets {
        let is_acting = is_acting(&rt, rt.alloc(), (group, up, size), members);
        expect_so(&rt, is_acting, "an acting set");
    }
    let all = acting(rt.alloc(), "data", 7, &DaemonSet::first(255), 100).expect(&rt, "memory");
    assert!(&rt; all.len() == 16);
    let set = acting_set("data", 7, &DaemonSet::first(255), 100);
    let is_cut = ActingSet::from_slice(&all[..5]) == Some(set);
    expect_so(&rt, is_cut, "the first five");
    let is_set = ActingSet::from_slice(&all[..6]).is_some();
    expect_so(&rt, !is_set, "six");
    let is_set = ActingSet::from_slice(&[3, 1, 3]).is_some();
    expect_so(&rt, !is_set, "one twice");
}
