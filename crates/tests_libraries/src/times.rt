//! Tables of times, by a clock of the test's own.

use crate::pieces::{expect_so, expect_text};
use std::alloc::{AllocError, Global};
use std::cell::Cell;
use std::io;
use std::process::Abort;
use std::time::{Clock, Duration};
use stopwatch::{MeasureFault, Mode, Table, Work};

/// A clock that goes on each time it is read, by 1,230 nanoseconds more than the time before, or that cannot be read.
#[derive(Drop)]
struct Steps {
    is_broken: bool,
    now: Cell<u64>,
    step: Cell<u64>,
}

fn unreadable() -> io::Result<Duration> {
    Err(io::Error::from(io::ErrorKind::Unsupported))
}

impl Clock for Steps {
    fn monotonic(&self) -> io::Result<Duration> {
        if self.is_broken {
            return unreadable();
        }
        let step = self.step.get();
        let now = self.now.get().saturating_add(step);
        self.step.set(step.saturating_add(1230));
        self.now.set(now);
        Ok(Duration::from_nanos(now))
    }

    fn since_1970(&self) -> io::Result<Duration> {
        unreadable()
    }
}

/// Work of a thousand calls, which says yes.
struct Nothing;

impl Work for Nothing {
    fn once(&self, _turn: usize) -> Result<bool, AllocError> {
        Ok(true)
    }

    fn size(&self) -> u64 {
        1000
    }
}

/// The table of this work alone. The first step of the clock takes five milliseconds, so one call is long enough.
fn table<R: Abort>(
    rt: &R,
    alloc: Global,
    is_broken: bool,
    mode: Mode,
) -> Result<String, MeasureFault> {
    let clock = Steps {
        is_broken,
        now: Cell::new(0),
        step: Cell::new(5_000_000),
    };
    let mut table = Table::new(alloc, &clock, mode).expect(rt, "memory");
    table.row("nothing", &Nothing)?;
    Ok(table.into_text().expect(rt, "memory"))
}

const ONCE: &str =
    "nothing                                                  yes\n1 of 1 calls answered yes\n";

const TIMED: &str = "nanoseconds a call, of 15 runs                         least      middle
nothing                                               5003.6      5020.9
15 of 15 calls answered yes
";

#[test]
fn a_clock_is_read_where_times_are_wanted(rt: HostRuntime) {
    let alloc = rt.alloc();
    let once = table(&rt, alloc, true, Mode::Once).expect(&rt, "a table");
    expect_text(&rt, once.as_str(), ONCE, "once");
    let timed = table(&rt, alloc, false, Mode::Timed).expect(&rt, "times");
    expect_text(&rt, timed.as_str(), TIMED, "timed");
    let broken = table(&rt, alloc, true, Mode::Timed);
    let is_refused = matches!(broken, Err(MeasureFault::Clock));
    expect_so(&rt, is_refused, "a broken clock");
}
