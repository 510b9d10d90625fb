//! Logs that are fitted to a part of another one.

use crate::looks::{NOTHING, with_id, with_reply};
use crate::requests::request;
use entry_core::{Log, Sealed};
use object_core::NeedsFault;
use std::alloc::Global;
use std::process::Abort;
use std::test::Fail;

/// The numbers of a log's requests; the place from which a part goes on, and the numbers of its requests; and the numbers of
/// the log's requests then.
type Fit = (&'static [u32], usize, &'static [u32], &'static [u32]);

const FITS: &[Fit; 5] = &[
    (&[], 0, &[1, 2], &[1, 2]),
    (&[1, 2], 2, &[3, 4], &[1, 2, 3, 4]),
    (&[1, 2], 1, &[3, 2], &[1, 3, 2]),
    (&[1, 2], 1, &[], &[1]),
    (&[1, 2, 3], 1, &[4], &[1, 2, 3]),
];

// The entries, in order.
fn look(log: &Log) -> u64 {
    let mut all = NOTHING;
    for entry in log.entries() {
        all = with_reply(with_id(all, entry.sealed.id()), &entry.reply);
    }
    all
}

fn requests(alloc: Global, numbers: &[u32]) -> Result<Vec<Sealed>, NeedsFault> {
    let mut requests = Vec::new(alloc);
    for number in numbers {
        requests.push(request(alloc, *number, "a")?)?;
    }
    Ok(requests)
}

fn requests_again(alloc: Global, numbers: &[u32]) -> Result<Vec<Sealed>, NeedsFault> {
    match requests(alloc, numbers) {
        Ok(requests) => Ok(requests),
        Err(_) => requests(alloc, numbers),
    }
}

// A log is fitted at once, or stays as it was and is fitted then. None where it did not stay, or was refused twice.
fn fits_again(log: &mut Log, from: usize, part: &[Sealed]) -> Option<bool> {
    let before = look(log);
    if let Ok(fits) = log.fit(from, part) {
        return Some(fits);
    }
    if look(log) != before {
        return None;
    }
    log.fit(from, part).ok()
}

// Whether the entries are those of the requests with these numbers.
fn has(log: &Log, numbers: &[u32]) -> bool {
    let mut right = log.len() == numbers.len();
    for (entry, number) in log.entries().iter().zip(numbers) {
        right = right && entry.sealed.id().number() == *number;
    }
    right
}

fn is_fitted(alloc: Global, fit: &Fit) -> Result<bool, NeedsFault> {
    let (before, from, part, after) = *fit;
    let begun = requests_again(alloc, before)?;
    let part = requests_again(alloc, part)?;
    let mut log = Log::new(alloc);
    let is_begun = fits_again(&mut log, 0, begun.as_slice()) == Some(true);
    let fits = fits_again(&mut log, from, part.as_slice());
    Ok(is_begun && fits == Some(before.len() != 3) && has(&log, after))
}

#[test]
fn logs_are_fitted(rt: HostRuntime) -> Result<(), Fail> {
    for (place, fit) in FITS.iter().enumerate() {
        assert!(rt; is_fitted(rt.alloc(), fit)?, "{place}");
    }
    Ok(())
}
