//! Logs that are fitted to a part of another one. Every request appends a letter to one object, so what is read of it tells
//! how many entries the log's own store has performed.

use crate::logs::{Row, Says, add, decides, sealed};
use crate::looks::are;
use crate::operations::Work;
use crate::pieces::{expect_row, expect_so};
use entry_core::{Log, Sealed};
use std::alloc::Global;
use std::process::Abort;

/// The place from which a part goes on, and the numbers of its requests; whether a log is fitted to it; and the numbers of
/// the log's requests then.
type Fit = (usize, &'static [u32], bool, &'static [u32]);

/// The numbers of a log's requests, and a fit.
const FITS: &[(&[u32], Fit); 15] = &[
    (&[], (0, &[1, 2], true, &[1, 2])),
    (&[1, 2], (2, &[], true, &[1, 2])),
    (&[1, 2], (2, &[3, 4], true, &[1, 2, 3, 4])),
    (&[1, 2], (0, &[1, 2, 3], true, &[1, 2, 3])),
    (&[1, 2], (1, &[2, 3], true, &[1, 2, 3])),
    // The last entry goes, and another one comes in its place, or none.
    (&[1, 2], (0, &[1, 3], true, &[1, 3])),
    (&[1, 2], (1, &[3, 2], true, &[1, 3, 2])),
    (&[1, 2], (1, &[], true, &[1])),
    (&[1], (0, &[], true, &[])),
    // Two entries would go.
    (&[1, 2], (0, &[], false, &[1, 2])),
    (&[1, 2, 3], (1, &[4], false, &[1, 2, 3])),
    // The place is behind the end.
    (&[1, 2], (3, &[3], false, &[1, 2])),
    // An id would stand twice.
    (&[1, 2], (2, &[1], false, &[1, 2])),
    (&[1, 2], (2, &[3, 3], false, &[1, 2])),
    (&[1, 2], (1, &[3, 1], false, &[1, 2])),
];

/// What is read after 0, 1, 2, 3 and 4 appends.
const READ: &[&str; 5] = &["", "a", "aa", "aaa", "aaaa"];

/// The append of a letter, by its number.
fn append<R: Abort>(rt: &R, alloc: Global, number: u32) -> Sealed {
    let row: Row = (number, "allow rw", "x", Work::Append("a"), Says::Gives(""));
    sealed(rt, alloc, &row)
}

fn requests<R: Abort>(rt: &R, alloc: Global, numbers: &[u32]) -> Vec<Sealed> {
    let mut requests = Vec::new(alloc);
    for number in numbers {
        requests
            .push(append(rt, alloc, *number))
            .expect(rt, "memory");
    }
    requests
}

fn log_of<R: Abort>(rt: &R, alloc: Global, numbers: &[u32]) -> Log {
    let mut log = Log::new(alloc);
    for number in numbers {
        add(rt, &mut log, &append(rt, alloc, *number));
    }
    log
}

/// Whether a log has the requests with these numbers, and its store has performed just them. Checks the last id, too.
fn holds<R: Abort>(rt: &R, alloc: Global, log: &Log, numbers: &[u32]) -> bool {
    let is_last = match (log.last(), numbers.last()) {
        (Some(id), Some(number)) => id.number() == *number,
        (None, None) => true,
        _ => false,
    };
    let read = READ.get(numbers.len()).copied().unwrap_or("");
    let row: Row = (9, "allow rw", "x", Work::Read, Says::Gives(read));
    is_last
        && log.len() == numbers.len()
        && are(log.entries(), numbers)
        && (numbers.is_empty() || decides(rt, alloc, log, &row))
}

/// Whether a log is fitted as it must be.
fn is_fitted<R: Abort>(rt: &R, alloc: Global, log: &mut Log, fit: &Fit) -> bool {
    let (from, part, wanted, after) = *fit;
    let part = requests(rt, alloc, part);
    let fits = log.fit(from, part.as_slice()).expect(rt, "memory");
    fits == wanted && holds(rt, alloc, log, after)
}

#[test]
fn a_log_is_fitted_or_stays(rt: HostRuntime) {
    for (place, (numbers, fit)) in FITS.iter().enumerate() {
        let mut log = log_of(&rt, rt.alloc(), numbers);
        let is_fitted = is_fitted(&rt, rt.alloc(), &mut log, fit);
        expect_row(&rt, is_fitted, "fit", place);
    }
}

/// Behind an entry that went and none that came, what undoes the last entry is missing. A fit that drops that one finds it
/// again.
const BACK_TWICE: &[Fit; 2] = &[(2, &[], true, &[1, 2]), (1, &[4, 5], true, &[1, 4, 5])];

#[test]
fn what_undoes_the_last_entry_is_found_again(rt: HostRuntime) {
    let mut log = log_of(&rt, rt.alloc(), &[1, 2, 3]);
    for fit in BACK_TWICE {
        let is_fitted = is_fitted(&rt, rt.alloc(), &mut log, fit);
        expect_row(&rt, is_fitted, "fit from", fit.0);
    }
}

/// A log that has the first request is fitted to the rest of another one.
#[test]
fn a_part_is_the_rest(rt: HostRuntime) {
    let whole = log_of(&rt, rt.alloc(), &[1, 2, 3]);
    assert!(&rt; whole.len() >= 1);
    let rest = whole.part(1).expect(&rt, "memory");
    let mut log = log_of(&rt, rt.alloc(), &[1]);
    let fits = log.fit(1, rest.as_slice()).expect(&rt, "memory");
    let is_whole = fits && holds(&rt, rt.alloc(), &log, &[1, 2, 3]);
    expect_so(&rt, is_whole, "the whole");
}
