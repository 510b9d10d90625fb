//! Lists of names over a cluster.

ghost use Rattle.cluster.specs.Asks.{IsPassOf};

use crate::begun::{answered, begun, expect_so, new_request, open, take_pass};
use cluster::{Cluster, Pass, Submitted};
use entry_core::Reply;
use std::alloc::Global;
use std::process::Abort;
use std::sync::Wait;
use verdict_core::Condition;

/// What each piece of a list is to be answered.
#[derive(Clone, Copy)]
enum Expected {
    /// Denied, by the prefix of grant 1.
    Prefix,
    /// No names.
    NoNames,
}

// Whether a piece is answered so.
fn is_expected(reply: &Reply, expected: Expected) -> bool {
    match (reply, expected) {
        (Reply::Denied(report), Expected::Prefix) => match report.lines() {
            [(_, condition)] => *condition == Condition::Prefix,
            _ => false,
        },
        (Reply::Names(names), Expected::NoNames) => names.as_slice().is_empty(),
        _ => false,
    }
}

// Each piece is answered so.
fn are_answered<R: Wait + Abort>(
    rt: &R,
    cluster: &Cluster,
    pass: &mut Pass,
    pieces: &[Submitted],
    expected: Expected,
)
    requires { IsPassOf cluster.now pass.old }
    ensures { IsPassOf cluster.now pass.new }
{
    for piece in pieces {
        let reply = answered(rt, cluster, pass, piece);
        expect_so(rt, is_expected(&reply, expected), "a piece");
    }
}

// A list of a namespace by a user with this text: a piece for each of the four groups, each answered so.
fn check<R: Wait + Abort>(rt: &R, alloc: Global, osd: &str, namespace: &str, expected: Expected) {
    let (cluster, monitor, mut passes) = begun(rt, alloc, 4, "client.a", osd, 1);
    let mut pass = take_pass(&cluster, &mut passes).expect(rt, "a pass");
    let session = open(rt, alloc, &cluster, &mut pass, None);
    let new_request = new_request(rt, alloc, session, namespace, 0);
    let pieces = cluster
        .list(rt, &mut pass, new_request)
        .expect(rt, "a list");
    expect_so(rt, pieces.len() == 4, "four pieces");
    are_answered(rt, &cluster, &mut pass, pieces.as_slice(), expected);
    monitor.end(rt);
}

#[test]
fn a_list_by_a_prefix_is_denied(rt: HostRuntime) {
    check(
        &rt,
        rt.alloc(),
        "allow r object_prefix a",
        "",
        Expected::Prefix,
    );
}

#[test]
fn an_unused_namespace_has_no_names(rt: HostRuntime) {
    check(&rt, rt.alloc(), "allow r", "none", Expected::NoNames);
}
