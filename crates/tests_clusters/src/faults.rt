//! What the faults of a cluster print.

use crate::begun::expect_so;
use cluster::{ChangeFault, CloseFault, ClusterFault, TellFault};
use cluster_locks::{AnswerFault, OpenFault};
use map_core::MapFault;
use std::alloc::Global;
use std::fmt::Display;
use std::process::Abort;
use world_core::WorldFault;

// A fault prints just this text.
fn prints<R: Abort, F: Display>(rt: &R, alloc: Global, fault: &F, text: &str) {
    let printed = format!(in alloc; "{fault}").expect(rt, "memory");
    expect_so(rt, printed.as_str() == text, text);
}

#[test]
fn faults_print_their_number_and_name(rt: HostRuntime) {
    let alloc = rt.alloc();
    prints(&rt, alloc, &ClusterFault::Unfinished(2), "K1 Unfinished 2");
    prints(&rt, alloc, &ClusterFault::NoThread, "K2 NoThread");
    prints(&rt, alloc, &ClusterFault::OutOfMemory, "K3 OutOfMemory");
    prints(&rt, alloc, &ClusterFault::NoReader, "K4 NoReader");
    let lower = ClusterFault::World(WorldFault::StaleTick);
    prints(&rt, alloc, &lower, "W9 StaleTick");
    prints(&rt, alloc, &TellFault::Unfinished(0), "K1 Unfinished 0");
    prints(&rt, alloc, &TellFault::NoReader, "K4 NoReader");
    prints(&rt, alloc, &ChangeFault::Unfinished(3), "K1 Unfinished 3");
    let lower = ChangeFault::Map(MapFault::AlreadySo);
    prints(&rt, alloc, &lower, "M6 AlreadySo");
    prints(&rt, alloc, &CloseFault::MissingPass, "L1 MissingPass");
    prints(&rt, alloc, &CloseFault::Unfinished, "L2 Unfinished");
    prints(&rt, alloc, &CloseFault::OutOfMemory, "L3 OutOfMemory");
    prints(&rt, alloc, &OpenFault::Limit, "W6 Limit");
    prints(&rt, alloc, &AnswerFault::NoRequest, "W5 NoRequest");
}
