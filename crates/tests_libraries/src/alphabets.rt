//! All targets and all that is asked for over small alphabets.

use crate::pieces::{TagRow, name};
use common_types::{Tags, TryClone};
use compare_core::Registry;
use object_core::registry;
use std::alloc::Global;
use std::process::Abort;
use verdict_core::{Calls, ClassCall, Needs, Target};

/// The names of targets: those of the texts, what goes on from them, and names that no text has.
const TARGET_NAMES: &[&str] = &["a", "b", "", "ab", "az", "z"];

/// The tags that pools have: of one application none, or no pair, or one.
pub(crate) const ALL_TAGS: &[&[TagRow]; 15] = &[
    &[],
    &[("p", "", "")],
    &[("p", "k", "v")],
    &[("p", "k", "w")],
    &[("p", "k", "z")],
    &[("p", "z", "v")],
    &[("p", "z", "w")],
    &[("p", "z", "z")],
    &[("q", "", "")],
    &[("q", "k", "v")],
    &[("q", "k", "w")],
    &[("q", "k", "z")],
    &[("q", "z", "v")],
    &[("q", "z", "w")],
    &[("q", "z", "z")],
];

/// The targets of all names, in pools with these tags.
pub(crate) fn all_targets<'a, R: Abort>(
    rt: &R,
    alloc: Global,
    tags: &'a [Tags],
) -> Vec<Target<'a>> {
    let mut all = Vec::new(alloc);
    for tags in tags {
        for pool in TARGET_NAMES {
            for namespace in TARGET_NAMES {
                for object in TARGET_NAMES {
                    let target = Target {
                        pool: pool.as_bytes(),
                        tags,
                        namespace: namespace.as_bytes(),
                        object: object.as_bytes(),
                    };
                    all.push(target).expect(rt, "memory");
                }
            }
        }
    }
    all
}

/// The own registry's calls whose bits are set.
fn own_calls<R: Abort>(rt: &R, alloc: Global, bits: usize) -> Calls {
    let mut calls = Vec::new(alloc);
    let mut bit = 1usize;
    for call in registry(alloc).expect(rt, "memory").as_slice() {
        if bits & bit != 0 {
            let call = call.copy().expect(rt, "memory");
            calls.push(call).expect(rt, "memory");
        }
        bit = bit.wrapping_mul(2);
    }
    Calls::from_vec(calls)
}

/// The names of a call, and bits: its method reads, it writes, and its class is listed.
pub(crate) type CallRow = (&'static str, &'static str, u8);

/// Sets of calls over every registry: none; of each of four names, which are those of the texts and others, one that reads off
/// the default list, and those on it that read, write or both; and one that reads with one of the names before that writes.
pub(crate) const SETS: &[&[CallRow]; 21] = &[
    &[],
    &[("counter", "get", 1)],
    &[("counter", "get", 5)],
    &[("counter", "get", 6)],
    &[("counter", "get", 7)],
    &[("counter", "get", 5), ("z", "z", 6)],
    &[("counter", "z", 1)],
    &[("counter", "z", 5)],
    &[("counter", "z", 6)],
    &[("counter", "z", 7)],
    &[("counter", "z", 5), ("counter", "get", 6)],
    &[("vault", "z", 1)],
    &[("vault", "z", 5)],
    &[("vault", "z", 6)],
    &[("vault", "z", 7)],
    &[("vault", "z", 5), ("counter", "z", 6)],
    &[("z", "z", 1)],
    &[("z", "z", 5)],
    &[("z", "z", 6)],
    &[("z", "z", 7)],
    &[("z", "z", 5), ("vault", "z", 6)],
];

pub(crate) fn call_of<R: Abort>(rt: &R, alloc: Global, row: &CallRow) -> ClassCall {
    ClassCall {
        class: name(rt, alloc, row.0),
        method: name(rt, alloc, row.1),
        class_reads: row.2 & 1 != 0,
        class_writes: row.2 & 2 != 0,
        listed: row.2 & 4 != 0,
    }
}

fn calls_of<R: Abort>(rt: &R, alloc: Global, rows: &[CallRow]) -> Calls {
    let mut calls = Vec::new(alloc);
    for row in rows {
        calls.push(call_of(rt, alloc, row)).expect(rt, "memory");
    }
    Calls::from_vec(calls)
}

/// The set of calls of this number over a registry, of which the own one has three, so eight sets.
fn set_of<R: Abort>(rt: &R, alloc: Global, registry: Registry, number: usize) -> Calls {
    match registry {
        Registry::Own => own_calls(rt, alloc, number),
        Registry::Every => calls_of(rt, alloc, SETS.get(number).expect(rt, "a set")),
    }
}

/// All reads and writes, with each set of calls over a registry.
pub(crate) fn all_needs<R: Abort>(rt: &R, alloc: Global, registry: Registry) -> Vec<Needs> {
    let sets = match registry {
        Registry::Own => 8usize,
        Registry::Every => SETS.len(),
    };
    let mut all = Vec::new(alloc);
    for (reads, writes) in [(false, false), (true, false), (false, true), (true, true)] {
        for number in 0..sets {
            let needs = Needs {
                reads,
                writes,
                calls: set_of(rt, alloc, registry, number),
            };
            all.push(needs).expect(rt, "memory");
        }
    }
    all
}
