//! What one event does to the parts of a group. Where memory is refused, each function leaves them as they were.

ghost use Rattle.std.specs.Prelude.{◌≡◌, ◌≤◌, ◌<◌, ◌+◌, ◌*◌, ◌∷◌, [], ◌++◌, ◌==◌, ◌&&◌, not, false, length, map, take, remove, IfOk, OnOk, OnErr, slice_get, Some, if◌then◌else◌};
ghost use Rattle.peer_core.specs.Steps.{blank, restarted};
ghost use Rattle.group_model_whole.specs.ActingSets.{daemons};
ghost use Rattle.peer_core.specs.Copy.{copy_step};
ghost use Rattle.entry_core.specs.Log.{is_in};
ghost use Rattle.place_core.specs.Placement.{numbers_of};
ghost use Rattle.group_model.specs.Types as types;
ghost use Rattle.group_model.specs.Group.{is_submitted, answers_after, announced, resent};
ghost use Rattle.group_model.specs.Reached.{unsent};

use common_types::{Items, OutOfMemory, TryClone};
use entry_core::Sealed;
use group_messages::IntervalSets;
use group_wire::{Answer, Ledger, Wire, at, is_up, open, prepare};
use peer_core::{Body, Daemon, Message, Sent};
use place_core::{ActingSet, DaemonSet};
use std::alloc::Global;

/// The copies of `count` daemons, capped at 16, as they begin.
pub(crate) fn blank_copies(
    alloc: Global,
    count: u8,
    min_size: usize,
) -> Result<Vec<Daemon>, OutOfMemory>
    ensures { IfOk result (λ v. v.items ≡ map (blank min_size) (take count daemons)) }
{
    let mut copies = Vec::new(alloc);
    for number in 0..count.min(16) {
        copies.push(Daemon::new(alloc, number, min_size))?;
    }
    Ok(copies)
}

/// Copies each daemon's copy.
pub(crate) fn copy_all(copies: &Vec<Daemon>) -> Result<Vec<Daemon>, OutOfMemory>
    ensures { IfOk result (λ v. v.items ≡ copies.now.items) }
{
    let mut all = Items::new(*copies.allocator());
    for copy in copies.as_slice() {
        all.push(copy.copy()?)?;
    }
    Ok(all.into_vec())
}

/// Restarts a copy where that is asked.
fn restart_if(copy: &mut Daemon, asked: bool)
    ensures { copy.new ≡ (if asked then restarted copy.old else copy.old) }
{
    if asked {
        copy.restart();
    }
}

/// Whether a daemon was up and is no more.
fn goes_down(was_up: &DaemonSet, up: &DaemonSet, daemon: u8) -> bool
    ensures { result ≡ (is_in (numbers_of was_up.now) daemon && not (is_in (numbers_of up.now) daemon)) }
{
    is_up(was_up, daemon) && !is_up(up, daemon)
}

/// Restarts the copies of daemons that were up and are no more.
fn restart_downed(copies: &mut [Daemon], was_up: &DaemonSet, up: &DaemonSet)
    ensures { copies.new ≡ map (λ c. if is_in (numbers_of was_up.now) c.number && not (is_in (numbers_of up.now) c.number) then restarted c else c) copies.old }
{
    for copy in copies.iter_mut() {
        let down = goes_down(was_up, up, copy.number());
        restart_if(copy, down);
    }
}

/// Says who is up, and restarts the copies of daemons that are no more.
pub(crate) fn change_up(copies: &mut Vec<Daemon>, up: &mut DaemonSet, next: DaemonSet)
    ensures copies { copies.new.items ≡ map (λ c. if is_in (numbers_of up.old) c.number && not (is_in (numbers_of next) c.number) then restarted c else c) copies.old.items }
    ensures up { up.new ≡ next }
{
    restart_downed(copies, up, &next);
    *up = next;
}

/// Restarts the copy of one daemon.
fn restart_in(copies: &mut [Daemon], daemon: u8)
    ensures { copies.new ≡ map (λ c. if c.number == daemon then restarted c else c) copies.old }
{
    for copy in copies.iter_mut() {
        let same = copy.number() == daemon;
        restart_if(copy, same);
    }
}

/// Restarts the copy of one daemon.
pub(crate) fn restart_one(copies: &mut Vec<Daemon>, daemon: u8)
    ensures { copies.new.items ≡ map (λ c. if c.number == daemon then restarted c else c) copies.old.items }
{
    restart_in(copies, daemon);
}

/// Takes a request, and sends what is to be sent for it.
pub(crate) fn take_request(
    wire: &mut Wire,
    ledger: &mut Ledger,
    request: Sealed,
    sent: Vec<Sent>,
) -> Result<(), OutOfMemory>
    requires { is_submitted ledger.old.requests request.id ≡ false }
    ensures wire_ok { OnOk result (wire.new.sent ≡ wire.old.sent ++ sent.items) }
    ensures requests_ok { OnOk result (ledger.new.requests ≡ ledger.old.requests ++ request ∷ []) }
    ensures answers_ok { OnOk result (ledger.new.answers ≡ ledger.old.answers) }
    ensures wire_err { OnErr result (wire.new.sent ≡ wire.old.sent) }
    ensures ledger_err { OnErr result (ledger.new ≡ ledger.old) }
{
    wire.reserve(sent.len())?;
    ledger.submit(request)?;
    wire.append(sent);
    Ok(())
}

/// Takes back the last message, where a request was sent to the first of this set.
pub(crate) fn take_back_sent(wire: &mut Wire, set: &ActingSet)
    ensures { wire.new.sent ≡ unsent set.now wire.old.sent }
{
    match set.as_slice().first() {
        Some(_) => wire.pop(),
        None => {}
    }
}

/// Begins an interval with this set.
pub(crate) fn begin(
    alloc: Global,
    wire: &mut Wire,
    sets: &mut IntervalSets,
    acting: ActingSet,
    ledger: &Ledger,
) -> Result<(), OutOfMemory>
    ensures sets_ok { OnOk result (sets.new ≡ sets.old ++ acting ∷ []) }
    ensures wire_ok { OnOk result (wire.new.sent ≡ (wire.old.sent ++ announced (sets.old ++ acting ∷ [])) ++ resent (sets.old ++ acting ∷ []) ledger.now.requests ledger.now.answers) }
    ensures sets_err { OnErr result (sets.new ≡ sets.old) }
    ensures wire_err { OnErr result (wire.new.sent ≡ wire.old.sent) }
{
    let opening = prepare(alloc, wire, sets, acting, ledger)?;
    open(wire, sets, opening);
    Ok(())
}

/// Takes the message at place k for the client: the first reply to a request is its answer.
pub(crate) fn reach_client(
    wire: &mut Wire,
    ledger: &mut Ledger,
    k: usize,
) -> Result<(), OutOfMemory>
    requires { k < length wire.old.sent }
    ensures wire_ok { OnOk result (wire.new.sent ≡ remove wire.old.sent k) }
    ensures requests_ok { OnOk result (ledger.new.requests ≡ ledger.old.requests) }
    ensures answers_ok { OnOk result ((m : types.Sent) → slice_get wire.old.sent k ≡ Some m → ledger.new.answers ≡ answers_after ledger.old.answers m.body) }
    ensures wire_err { OnErr result (wire.new.sent ≡ wire.old.sent) }
    ensures ledger_err { OnErr result (ledger.new ≡ ledger.old) }
{
    if let Some(message) = at(wire.as_slice(), k) {
        hear(ledger, &message.body)?;
    }
    wire.remove(k);
    Ok(())
}

/// Hears a message to the client.
fn hear(ledger: &mut Ledger, body: &Body) -> Result<(), OutOfMemory>
    ensures requests { OnOk result (ledger.new.requests ≡ ledger.old.requests) }
    ensures answers { OnOk result (ledger.new.answers ≡ answers_after ledger.old.answers body.now) }
    ensures err { OnErr result (ledger.new ≡ ledger.old) }
{
    match body {
        Body::Reply { id, reply } => {
            if ledger.is_answered(*id) {
                return Ok(());
            }
            let reply = reply.copy()?;
            ledger.hear(Answer { id: *id, reply })
        }
        _ => Ok(()),
    }
}

/// The most messages that a copy sends at once, besides one for each request that waits.
const MAX_SENT: usize = 20;

/// Takes the message at place k to a copy.
pub(crate) fn reach(wire: &mut Wire, copy: &mut Daemon, k: usize) -> Result<(), OutOfMemory>
    requires here { k < length wire.old.sent }
    requires few { (m : types.Sent) → slice_get wire.old.sent k ≡ Some m → length (copy_step copy.old (record { from = m.from; body = m.body })).sent ≤ length copy.old.waiting + 20 }
    ensures copy_ok { OnOk result ((m : types.Sent) → slice_get wire.old.sent k ≡ Some m → copy.new ≡ (copy_step copy.old (record { from = m.from; body = m.body })).copy) }
    ensures wire_ok { OnOk result ((m : types.Sent) → slice_get wire.old.sent k ≡ Some m → wire.new.sent ≡ remove wire.old.sent k ++ (copy_step copy.old (record { from = m.from; body = m.body })).sent) }
    ensures copy_err { OnErr result (copy.new ≡ copy.old) }
    ensures wire_err { OnErr result (wire.new.sent ≡ wire.old.sent) }
{
    let message = match at(wire.as_slice(), k) {
        Some(message) => Message {
            from: message.from,
            body: message.body.copy()?,
        },
        None => unreachable!(),
    };
    wire.reserve(copy.waiting_count().saturating_add(MAX_SENT))?;
    let sent = copy.on(message)?;
    wire.append(sent.into_vec());
    wire.remove(k);
    Ok(())
}
