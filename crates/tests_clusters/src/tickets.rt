//! Tickets that end, over a cluster.

ghost use Rattle.cluster.specs.Asks.{IsPassOf};

use crate::begun::{
    Wish, answered, begun, expect_so, is_denied, is_output, open, submit, take_pass,
};
use Expected::{Expired, Output, Stale};
use cluster::{Cluster, ClusterFault, Pass};
use entry_core::Reply;
use std::alloc::Global;
use std::process::Abort;
use std::sync::Wait;
use verdict_core::Condition;
use world_core::WorldFault;

/// The result that a request must have.
#[derive(Clone, Copy)]
enum Expected {
    Output(&'static str),
    /// Denied, since the ticket of grant 1 has ended.
    Expired,
    /// W9: the session has asked at a later tick.
    Stale,
}

/// The tick of a request, what is asked, and the result that it must have.
type Row = (u64, Wish, Expected);

/// With a ticket that ends at 10, which a request at that tick does not hold any more.
const FIRST: &[Row; 2] = &[(9, Wish::Append, Output("")), (10, Wish::Read, Expired)];

/// Once it was renewed until 20.
const RENEWED: &[Row; 4] = &[
    (10, Wish::Read, Output("a")),
    (5, Wish::Read, Stale),
    (19, Wish::Read, Output("a")),
    (20, Wish::Read, Expired),
];

// Whether a reply is what is expected.
fn is_expected(reply: &Reply, expected: Expected) -> bool {
    match expected {
        Output(text) => is_output(reply, text),
        Expired => is_denied(reply, Condition::Expired),
        Stale => false,
    }
}

// Whether a request has the result that its row says.
fn is_so<R: Wait + Abort>(
    rt: &R,
    alloc: Global,
    cluster: &Cluster,
    pass: &mut Pass,
    session: u32,
    row: &Row,
) -> bool
    requires { IsPassOf cluster.now pass.old }
    ensures { IsPassOf cluster.now pass.new }
{
    match submit(rt, alloc, cluster, pass, session, "x", row.1, row.0) {
        Ok(submitted) => is_expected(&answered(rt, cluster, pass, &submitted), row.2),
        Err(ClusterFault::World(WorldFault::StaleTick)) => matches!(row.2, Stale),
        Err(_) => false,
    }
}

// Each request has the result that its row says.
fn are_so<R: Wait + Abort>(
    rt: &R,
    alloc: Global,
    cluster: &Cluster,
    pass: &mut Pass,
    session: u32,
    rows: &[Row],
)
    requires { IsPassOf cluster.now pass.old }
    ensures { IsPassOf cluster.now pass.new }
{
    for row in rows {
        let right = is_so(rt, alloc, cluster, pass, session, row);
        expect_so(rt, right, "a row");
    }
}

// A session until 10, which is renewed until 20.
#[test]
fn a_ticket_ends_and_is_renewed(rt: HostRuntime) {
    let alloc = rt.alloc();
    let (cluster, monitor, mut passes) = begun(&rt, alloc, 1, "client.a", "allow rw pool=data", 1);
    let mut pass = take_pass(&cluster, &mut passes).expect(&rt, "a pass");
    let session = open(&rt, alloc, &cluster, &mut pass, Some(10));
    are_so(&rt, alloc, &cluster, &mut pass, session, FIRST);
    cluster
        .renew(&rt, &mut pass, session, Some(20))
        .expect(&rt, "a renewal");
    are_so(&rt, alloc, &cluster, &mut pass, session, RENEWED);
    monitor.end(&rt);
}
