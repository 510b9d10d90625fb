//! Runs of one piece of work, and their times.

ghost use Rattle.std.specs.Prelude.{◌≡◌, ◌*◌, ◌/◌, ◌^◌, ◌<◌, ◌≤◌, length, IfOk};
ghost use Rattle.stopwatch.specs.Runs.{AreLeastAndMiddle};

use crate::fault::MeasureFault;
use std::alloc::AllocError as OutOfMemory;
use std::time::{Clock, Instant};

/// How many runs are timed.
const RUNS: usize = 15;

/// How many nanoseconds a run takes at least, which a clock's step of some tens does not change.
const LONG_ENOUGH: u64 = 5_000_000;

/// How often the number of calls of a run is doubled at most.
const DOUBLINGS: u32 = 30;

/// What is measured.
pub trait Work {
    // what has to hold for the work to be done
    ghost ready: { Self → Type 0 } = { λ _. Unit {0} };

    /// Does the work once. The turn picks among the values at hand, so that no call can stand for the next.
    /// The answer is counted.
    fn once(&self, turn: usize) -> Result<bool, OutOfMemory>
        requires { ready self.now };

    /// How many calls the work stands for.
    fn size(&self) -> u64
        ensures { 0 < result };
}

/// The times of a piece of work, in tenths of a nanosecond a call, and how many calls answered yes.
#[derive(Clone, Copy, Debug)]
pub(crate) struct Timing {
    pub(crate) least: u64,
    pub(crate) middle: u64,
    pub(crate) calls: usize,
    pub(crate) yes: usize,
}

/// Does the work so often, and counts the calls that answer yes.
fn run<W: Work>(work: &W, calls: usize) -> Result<usize, OutOfMemory>
    requires { W.ready work.now }
    ensures { IfOk result (λ yes. yes ≤ calls) }
{
    let mut yes = 0;
    for turn in 0..calls {
        if work.once(turn)? {
            yes += 1;
        }
    }
    Ok(yes)
}

/// The nanoseconds that a run takes, and how many of its calls answered yes.
fn timed_run<C: Clock, W: Work>(
    clock: &C,
    work: &W,
    calls: usize,
) -> Result<(u64, usize), MeasureFault>
    requires { W.ready work.now }
    ensures { IfOk result (λ r. r.1 ≤ calls) }
{
    let start = Instant::now(clock)?;
    let yes = run(work, calls)?;
    let passed = start.elapsed(clock)?.as_nanos();
    Ok((u64::try_from(passed).unwrap_or(u64::MAX), yes))
}

/// A number of calls that take long enough, or the most calls where none does.
fn enough_calls<C: Clock, W: Work>(clock: &C, work: &W) -> Result<usize, MeasureFault>
    requires { W.ready work.now }
    ensures { IfOk result (λ calls. 0 < calls) }
{
    let mut calls: usize = 1;
    for _ in 0..DOUBLINGS {
        if timed_run(clock, work, calls)?.0 >= LONG_ENOUGH {
            return Ok(calls);
        }
        calls = calls.saturating_mul(2);
    }
    Ok(calls)
}

/// What a call took, in tenths of a nanosecond, rounded down.
fn tenths_a_call(nanoseconds: u64, calls: usize) -> u64
    requires { 0 < calls }
    ensures { nanoseconds * 10 < 2 ^ 64 → result ≡ nanoseconds * 10 / calls }
{
    nanoseconds.saturating_mul(10) / calls as u64
}

/// The least of the times and the middle one.
fn least_and_middle(times: &mut [u64]) -> (u64, u64)
    requires { length times.old ≡ 15 }
    ensures { AreLeastAndMiddle times.old result.0 result.1 }
{
    times.sort_unstable();
    (times[0], times[RUNS / 2])
}

/// Measures a piece of work: 15 runs, after some that find how many calls make a run long enough.
pub(crate) fn measure<C: Clock, W: Work>(clock: &C, work: &W) -> Result<Timing, MeasureFault>
    requires { W.ready work.now }
{
    let calls = enough_calls(clock, work)?;
    let mut times = [0; RUNS];
    let mut all: usize = 0;
    let mut yes: usize = 0;
    for time in times.iter_mut() {
        let (nanoseconds, answers) = timed_run(clock, work, calls)?;
        *time = tenths_a_call(nanoseconds, calls) / work.size();
        all = all.saturating_add(calls);
        yes = yes.saturating_add(answers);
    }
    let (least, middle) = least_and_middle(&mut times);
    Ok(Timing {
        least,
        middle,
        calls: all,
        yes,
    })
}
