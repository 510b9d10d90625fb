//! Full groups, requests taken back, copies, and how faults print.

use super::requests::request;
use super::steps::Step::{
    Ask, Audit, Audited, Gives, Has, IsFull, Lacks, Lose, Move, Named, Open, Refused, Settle,
    SettleAll, Stuck, TakeBack, Wire,
};
use super::steps::{Step, begun, expect, expect_from};
use crate::operations::Work;
use crate::pieces::expect_so;
use common_types::TryClone;
use group_core::Group;
use group_messages::GroupFault;
use std::alloc::Global;
use std::process::Abort;

// A request is taken back, and its number can be taken again.
const TAKEN_BACK: &[Step] = &[
    Named("data", 5),
    Settle(11),
    Ask(1, Work::Append("a")),
    Has(1),
    Wire(1),
    TakeBack(2),
    Lacks(2),
    Has(1),
    Wire(1),
    Ask(2, Work::AppendRead),
    Has(2),
    Wire(2),
    Settle(12),
    Gives(2, &["", "aa"]),
    Audit(&[1, 2]),
];

// A group of nobody takes a request back, and keeps the other one.
const SENT_TO_NOBODY: &[Step] = &[
    Move(&[], &[0, 1, 2]),
    Wire(3),
    Ask(1, Work::Append("a")),
    TakeBack(2),
    Has(1),
    Lacks(2),
    Wire(3),
    Move(&[0, 1, 2], &[0, 1, 2]),
    SettleAll,
    Audit(&[1]),
];

#[test]
fn a_request_taken_back(rt: HostRuntime) {
    expect_from(&rt, rt.alloc(), 2, &[0, 1, 2], TAKEN_BACK);
    expect_from(&rt, rt.alloc(), 2, &[0, 1, 2], SENT_TO_NOBODY);
}

// A group of nobody, to which `count` requests are submitted.
fn filled<R: Abort>(rt: &R, alloc: Global, count: u32) -> Group {
    let mut group = begun(rt, alloc, 1, &[]);
    for number in 0..count {
        let request = request(rt, alloc, number, Work::Read);
        group.submit(request).expect(rt, "accepted");
    }
    group
}

const ALL_REQUESTS: &[Step] = &[
    IsFull(true, false),
    Refused(16384, GroupFault::Full),
    Refused(3, GroupFault::Doubled),
];

#[test]
fn a_group_fills(rt: HostRuntime) {
    let mut group = filled(&rt, rt.alloc(), 16384);
    expect(&rt, rt.alloc(), &mut group, ALL_REQUESTS);
}

// A group of nobody moves to daemon 0 and back.
const THERE_AND_BACK: &[Step] = &[Move(&[0], &[0]), Lose(0), Move(&[], &[0])];

const ALL_INTERVALS: &[Step] = &[
    IsFull(false, false),
    Wire(0),
    Move(&[0], &[0]),
    IsFull(false, true),
    Stuck(0),
];

#[test]
fn intervals_fill(rt: HostRuntime) {
    let mut group = filled(&rt, rt.alloc(), 0);
    for _ in 0..511 {
        expect(&rt, rt.alloc(), &mut group, THERE_AND_BACK);
    }
    expect(&rt, rt.alloc(), &mut group, ALL_INTERVALS);
}

// What a copy does, then its group, and then the copy.
const COPIED: &[Step] = &[Move(&[0, 1, 2], &[0, 1, 2]), SettleAll, Audit(&[0])];

const OWN: &[Step] = &[Open(0), Audit(&[]), Ask(1, Work::Append("a"))];

const MORE: &[Step] = &[Audited(1), Lacks(1)];

#[test]
fn a_copy_goes_its_own_way(rt: HostRuntime) {
    let mut group = filled(&rt, rt.alloc(), 1);
    let mut copy = group.copy().expect(&rt, "memory");
    expect(&rt, rt.alloc(), &mut copy, COPIED);
    expect(&rt, rt.alloc(), &mut group, OWN);
    expect(&rt, rt.alloc(), &mut copy, MORE);
}

const PRINTED: [(GroupFault, &str); 2] = [
    (GroupFault::NoMessage(0), "P1 NoMessage 0"),
    (GroupFault::Full, "P3 Full"),
];

#[test]
fn faults_print(rt: HostRuntime) {
    for (fault, text) in PRINTED {
        let printed = format!(in rt.alloc(); "{fault}").expect(&rt, "memory");
        expect_so(&rt, printed.as_str() == text, text);
    }
}
