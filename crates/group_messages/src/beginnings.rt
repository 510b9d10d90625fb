//! Where logs and parts of logs begin alike.

ghost use Rattle.std.specs.Prelude.{◌≡◌, ◌≤◌, true, length, map, take, IfOk};
ghost use Rattle.entry_core.specs.Log.{ids};
ghost use Rattle.entry_core.specs.Fitting.{last_id, part_of};
ghost use Rattle.group_messages.specs.Types as types;
ghost use Rattle.group_messages.specs.Beginnings.{common, count_at};
ghost use Rattle.group_messages.specs.Starts as rules;

use crate::role::Common;
use common_types::{Items, OutOfMemory};
use entry_core::{Entry, Id, Log, Sealed};

/// The id of the last of a log's first entries.
fn last_before(log: &Log, len: usize) -> Option<Id>
    requires { len ≤ length log.now }
    ensures { result ≡ last_id (take len log.now) }
{
    match log.entries()[..len].last() {
        None => None,
        Some(entry) => Some(entry.sealed.id()),
    }
}

fn same_id(id: Option<Id>, other: Option<Id>) -> bool
    ensures { result ≡ rules.same_id id other }
{
    match id {
        None => other.is_none(),
        Some(id) => match other {
            None => false,
            Some(other) => id == other,
        },
    }
}

/// Whether a log of that length, with that last id, begins this one.
fn agrees_at(log: &Log, len: usize, last: Option<Id>) -> bool
    ensures value { result ≡ rules.agrees_at log.now len last }
    ensures within { result ≡ true → len ≤ length log.now }
{
    if log.len() < len {
        return false;
    }
    len == 0 || same_id(last_before(log, len), last)
}

/// Up to where the asker has the same entries, whose log has that length and that last id.
pub fn start_for(log: &Log, len: usize, last: Option<Id>) -> usize
    ensures value { result ≡ rules.start_for log.now len last }
    ensures within { result ≤ length log.now }
{
    if agrees_at(log, len, last) {
        return len;
    }
    len.min(log.len()).saturating_sub(1)
}

/// A log's requests from an index on, which may be behind the log's end. The only error is out of memory.
pub fn part_from(log: &Log, start: usize) -> Result<Items<Sealed>, OutOfMemory>
    ensures { IfOk result (λ part. part ≡ part_of log.now start) }
{
    log.part(start.min(log.len()))
}

/// How many requests have the ids of these entries, place by place.
pub fn alike_part(part: &[Sealed], entries: &[Entry]) -> usize
    ensures value { result ≡ common (map (λ (s : types.Sealed). s.id) part.now) (ids entries.now) }
    ensures entries { result ≤ length entries.now }
    ensures part { result ≤ length part.now }
{
    let most = part.len().min(entries.len());
    for place in 0..most {
        if part[place].id() != entries[place].sealed.id() {
            return place;
        }
    }
    most
}

/// How many requests have the same ids, place by place.
pub fn alike_requests(part: &[Sealed], others: &[Sealed]) -> usize
    ensures value { result ≡ common (map (λ (s : types.Sealed). s.id) part.now) (map (λ (s : types.Sealed). s.id) others.now) }
    ensures part { result ≤ length part.now }
{
    let most = part.len().min(others.len());
    for place in 0..most {
        if part[place].id() != others[place].id() {
            return place;
        }
    }
    most
}

/// What is kept of a member.
pub fn count_at(common: &[Common], member: u8) -> usize
    ensures { result ≡ count_at common.now member }
{
    for kept in common {
        if kept.member == member {
            return kept.count;
        }
    }
    0
}
