//! What a pass had seen, told to another.

ghost use Rattle.cluster.specs.Asks.{IsPassOf};

use crate::begun::{Wish, answered, begun, expect_so, is_output, open, submit, two_passes};
use cluster::{Cluster, Pass};
use std::alloc::Global;
use std::process::Abort;
use std::sync::Wait;
use std::thread::{Threads, join_mut};

// A new session of the pass has this done to an object, and is answered so: the session's number.
fn ask_once<R: Wait + Abort>(
    rt: &R,
    alloc: Global,
    cluster: &Cluster,
    pass: &mut Pass,
    object: &str,
    wish: Wish,
    output: &str,
) -> u32
    requires { IsPassOf cluster.now pass.old }
    ensures { IsPassOf cluster.now pass.new }
{
    let session = open(rt, alloc, cluster, pass, None);
    let submitted = submit(rt, alloc, cluster, pass, session, object, wish, 0).expect(
        rt,
        "a request",
    );
    let reply = answered(rt, cluster, pass, &submitted);
    expect_so(rt, is_output(&reply, output), "an output");
    session
}

// Each pass has this done to an object of its own, on a thread of its own, and is answered so.
fn ask_both<R: Threads + Wait + Abort + Sync>(
    rt: &R,
    alloc: Global,
    cluster: &Cluster,
    first: &mut Pass,
    second: &mut Pass,
    objects: (&str, &str),
    wish: Wish,
    output: &str,
)
    requires { IsPassOf cluster.now first.old × IsPassOf cluster.now second.old }
    ensures { IsPassOf cluster.now first.new × IsPassOf cluster.now second.new }
{
    join_mut(
        rt,
        &mut || ask_once(rt, alloc, cluster, first, objects.0, wish, output),
        &mut || ask_once(rt, alloc, cluster, second, objects.1, wish, output),
    );
}

// Both append, read each other's note, and read what the other appended.
#[test]
fn passes_on_threads_hear_each_other(rt: HostRuntime) {
    let alloc = rt.alloc();
    let (cluster, monitor, passes) = begun(&rt, alloc, 1, "client.a", "allow rw pool=data", 2);
    let (mut first, mut second) = two_passes(&rt, &cluster, passes);
    ask_both(
        &rt,
        alloc,
        &cluster,
        &mut first,
        &mut second,
        ("x", "y"),
        Wish::Append,
        "",
    );
    let by_first = first.note(&cluster, alloc).expect(&rt, "a note");
    let by_second = second.note(&cluster, alloc).expect(&rt, "a note");
    first.read_note(&cluster, by_second);
    second.read_note(&cluster, by_first);
    ask_both(
        &rt,
        alloc,
        &cluster,
        &mut first,
        &mut second,
        ("y", "x"),
        Wish::Read,
        "a",
    );
    monitor.end(&rt);
}

// The first appends, works until it is answered, and gives a note. The second hears it, reads, and works until it is answered.
#[test]
fn a_pass_hears_what_another_did(rt: HostRuntime) {
    let alloc = rt.alloc();
    let (cluster, monitor, passes) = begun(&rt, alloc, 1, "client.a", "allow rw pool=data", 2);
    let (mut first, mut second) = two_passes(&rt, &cluster, passes);
    let session = ask_once(&rt, alloc, &cluster, &mut first, "x", Wish::Append, "");
    let note = first.note(&cluster, alloc).expect(&rt, "a note");
    second.read_note(&cluster, note);
    let other = ask_once(&rt, alloc, &cluster, &mut second, "x", Wish::Read, "a");
    expect_so(&rt, session == 1 && other == 2, "numbers of sessions");
    monitor.end(&rt);
}
