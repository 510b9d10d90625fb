//! What a group itself sends: news of intervals, and requests.

ghost use Rattle.std.specs.Prelude.{◌≡◌, ◌∷◌, [], ◌++◌, map, slice_get, IfOk, OnOk};
ghost use Rattle.std.specs.List.{filter_map};
ghost use Rattle.group_model.specs.Types.{Request};
ghost use Rattle.group_model.specs.Group.{to_daemon, to_primary, last_set, announced, resent, retransmit_primary};

use crate::daemon_sets::last_set;
use crate::element_at::at;
use crate::ledger::Ledger;
use common_types::{OutOfMemory, TryClone};
use entry_core::Sealed;
use group_messages::{IntervalSets, Party};
use peer_core::{Body, Daemon, Sent};
use place_core::ActingSet;
use std::alloc::Global;

/// A message of the group's own to a daemon.
fn to_daemon(daemon: u8, body: Body) -> Sent
    ensures { result ≡ to_daemon daemon body }
{
    Sent {
        from: Party::Client,
        to: Party::Osd(daemon),
        body,
    }
}

/// A request to the first of a set, if there is one. The only error is out of memory.
pub fn to_primary(
    alloc: Global,
    set: &ActingSet,
    request: &Sealed,
) -> Result<Vec<Sent>, OutOfMemory>
    ensures { IfOk result (λ v. v.items ≡ to_primary set.now (Request request.now ∷ [])) }
{
    let mut sent = Vec::new(alloc);
    if let Some(first) = set.as_slice().first() {
        sent.push(to_daemon(*first, Body::Request(request.copy()?)))?;
    }
    Ok(sent)
}

/// Messages to each member of the last set with all sets. The only error is out of memory.
pub fn announced(alloc: Global, sets: &IntervalSets) -> Result<Vec<Sent>, OutOfMemory>
    ensures { IfOk result (λ v. v.items ≡ announced sets.now) }
{
    let mut sent = Vec::new(alloc);
    let set = last_set(sets);
    for member in set.as_slice() {
        sent.push(to_daemon(*member, Body::Interval(sets.copy()?)))?;
    }
    Ok(sent)
}

/// Sends the request at a place to a daemon.
fn send_at(
    sent: &mut Vec<Sent>,
    daemon: u8,
    requests: &[Sealed],
    place: usize,
) -> Result<(), OutOfMemory>
    ensures { OnOk result (sent.new.items ≡ sent.old.items ++ map (to_daemon daemon) (map Request (filter_map (slice_get requests.now) (place ∷ [])))) }
{
    if let Some(request) = at(requests, place) {
        sent.push(to_daemon(daemon, Body::Request(request.copy()?)))?;
    }
    Ok(())
}

/// Sends the requests that have no answer to the first of the last set. The only error is out of memory.
pub fn resent(alloc: Global, sets: &IntervalSets, ledger: &Ledger) -> Result<Vec<Sent>, OutOfMemory>
    ensures { IfOk result (λ v. v.items ≡ resent sets.now ledger.now.requests ledger.now.answers) }
{
    let mut sent = Vec::new(alloc);
    let set = last_set(sets);
    let Some(first) = set.as_slice().first() else {
        return Ok(sent);
    };
    for place in ledger.unanswered() {
        send_at(&mut sent, *first, ledger.requests(), *place)?;
    }
    Ok(sent)
}

/// What the copy of the last set's first daemon sends again. The only error is out of memory.
pub fn retransmit_primary(
    alloc: Global,
    sets: &IntervalSets,
    copies: &[Daemon],
) -> Result<Vec<Sent>, OutOfMemory>
    ensures { IfOk result (λ v. v.items ≡ retransmit_primary copies.now (last_set sets.now)) }
{
    let set = last_set(sets);
    match set.as_slice().first() {
        Some(first) => match at(copies, *first as usize) {
            Some(copy) => Ok(copy.kick()?.into_vec()),
            None => Ok(Vec::new(alloc)),
        },
        None => Ok(Vec::new(alloc)),
    }
}
