//! Two workers on threads of their own.

use crate::begun::{
    Wish, begun, expect_so, is_output, open, put_pass, reply_of, submit, take_pass,
};
use cluster::{Gate, run_workers};
use std::sync::atomic::{AtomicU64, Ordering};

/// How many turns worker 0 waits at most for worker 1.
const MAX_TURNS: u32 = 10_000_000;

/// How many rounds the workers have.
const ROUNDS: u32 = 20;

/// Worker 0 waits until worker 1 has come, and sees it.
#[derive(Drop)]
struct Meeting {
    came: AtomicU64,
    seen: AtomicU64,
}

impl Meeting {
    // Waits until worker 1 has come, for at most `MAX_TURNS` turns.
    fn wait(&self) {
        for _turn in 0..MAX_TURNS {
            if self.came.load(Ordering::SeqCst) == 1 {
                self.seen.store(1, Ordering::SeqCst);
                return;
            }
        }
    }
}

impl Gate for Meeting {
    ghost refuses = { λ _ _ _. ⊥ };

    fn enter(&self, worker: usize, _round: u32) -> bool {
        if worker == 0 {
            self.wait();
        } else {
            self.came.store(1, Ordering::SeqCst);
        }
        true
    }
}

// A request is submitted, and two workers deliver: worker 0 saw worker 1, and the request is answered after the rounds.
#[test]
fn two_workers_run(rt: HostRuntime) {
    let alloc = rt.alloc();
    let (cluster, monitor, mut passes) = begun(&rt, alloc, 1, "client.a", "allow rw pool=data", 2);
    let mut last = take_pass(&cluster, &mut passes).expect(&rt, "a pass");
    let session = open(&rt, alloc, &cluster, &mut last, None);
    let submitted = submit(
        &rt,
        alloc,
        &cluster,
        &mut last,
        session,
        "x",
        Wish::Append,
        0,
    )
    .expect(&rt, "a request");
    expect_so(
        &rt,
        put_pass(&cluster, &mut passes, last),
        "a pass that is put back",
    );
    let meeting = Meeting {
        came: AtomicU64::new(0),
        seen: AtomicU64::new(0),
    };
    let (mut passes, fault) = run_workers(&rt, alloc, &cluster, passes, &meeting, ROUNDS);
    expect_so(&rt, fault.is_none(), "no fault");
    expect_so(
        &rt,
        meeting.seen.load(Ordering::SeqCst) == 1,
        "that worker 1 came",
    );
    let mut last = take_pass(&cluster, &mut passes).expect(&rt, "a pass");
    let reply = reply_of(&rt, &cluster, &mut last, &submitted);
    expect_so(&rt, is_output(&reply, ""), "an output");
    monitor.end(&rt);
}
