//! Moves in two steps: one that takes all the memory, and one that cannot be refused.

ghost use Rattle.std.specs.Prelude.{◌≡◌, true, is_some, IfOk, IfErr, IsOk, OnOk, Some, None, if◌then◌else◌};
ghost use Rattle.entry_core.specs.Log.{is_in};
ghost use Rattle.group_model.specs.Group.{refusal_of, same_set, last_set, IsSet, EventFits};
ghost use Rattle.group_core.specs.Inside.{group_of};
ghost use Rattle.group_core.specs.Moves as moves;
ghost use Rattle.group_model.specs.Reached.{Refuses};

use crate::effects::{change_up, restart_one};
use crate::group::{Group, INTERVALS};
use crate::state::GroupState;
use group_messages::{GroupFault, GroupMove, IntervalSets};
use group_wire::{Opening, Wire, has_member, last_set, open, prepare, same_set};
use place_core::ActingSet;
use std::marker::Model;

/// This set, where it is not the last one.
fn other_set(sets: &IntervalSets, acting: &ActingSet) -> Option<ActingSet>
    ensures value { result ≡ (if same_set acting.now (last_set sets.now) then None else Some acting.now) }
    ensures fits { IsSet acting.now }
{
    let _members = acting.as_slice();
    if same_set(acting, &last_set(sets)) {
        return None;
    }
    Some(*acting)
}

/// The last set, where a daemon is one of it.
fn set_again(sets: &IntervalSets, daemon: u8) -> Option<ActingSet>
    ensures { result ≡ (if is_in (last_set sets.now) daemon then Some (last_set sets.now) else None) }
{
    let set = last_set(sets);
    if has_member(&set, daemon) {
        return Some(set);
    }
    None
}

/// The set of the interval that a move begins, where it begins one.
fn next_set(sets: &IntervalSets, change: &GroupMove) -> Option<ActingSet>
    ensures value { result ≡ moves.next_set sets.now change.now }
    ensures fits { EventFits (moves.event_of change.now) }
{
    match change {
        GroupMove::NewInterval { acting, .. } => other_set(sets, acting),
        GroupMove::Restart(daemon) => set_again(sets, *daemon),
    }
}

/// Makes what the interval of a move begins with, where it begins one, and room for it.
fn make(state: &mut GroupState, change: &GroupMove) -> Result<Option<Opening>, GroupFault>
    ensures same { group_of state.new ≡ group_of state.old }
    ensures decided { state.new.decided ≡ state.old.decided }
    ensures fits { EventFits (moves.event_of change.now) }
    ensures made { IfOk result (λ o. moves.IsMadeFor (group_of state.old) change.now o) }
    ensures room { IfOk result (λ o. moves.HasRoom state.new.wire.room o) }
    ensures refused { IfErr result (λ fault. Refuses (group_of state.old) (moves.event_of change.now) fault (group_of state.old)) }
    ensures begins { IfErr result (λ _. is_some (moves.next_set state.old.sets change.now) ≡ true) }
{
    let Some(acting) = next_set(&state.sets, change) else {
        return Ok(None);
    };
    if state.sets.len() >= INTERVALS {
        return Err(GroupFault::Full);
    }
    let alloc = *state.copies.allocator();
    let opening = prepare(alloc, &mut state.wire, &state.sets, acting, &state.ledger)?;
    Ok(Some(opening))
}

/// Begins the interval that was made, where one was.
fn open_made(wire: &mut Wire, sets: &mut IntervalSets, opening: Option<Opening>)
    requires { moves.HasRoom wire.old.room opening }
    ensures { moves.HasOpened sets.old wire.old.sent opening sets.new wire.new.sent }
{
    match opening {
        Some(opening) => open(wire, sets, opening),
        None => {}
    }
}

/// A group that is ready for a move: the rest of the move takes no memory and cannot be refused.
#[derive(Drop)]
pub struct PreparedGroup {
    state: GroupState,
    change: GroupMove,
    opening: Option<Opening>,
}

impl Model for PreparedGroup {
    ghost use Rattle.group_core.specs.Moves as definition;

    ghost Value = { definition.Prepared };

    ghost use Rattle.group_core.specs.Inside.{group_of};

    ghost view = { λ a. record { group = group_of a.state; event = definition.event_of a.change } };

    ghost invariant = { λ a. definition.IsReady (group_of a.state) a.state.decided a.state.wire.room a.change a.opening };
}

impl Group {
    /// Makes ready for a move, and leaves what is seen of the group. It is refused where the move is: P3, and P4 for want
    /// of memory, and then gives the group back as it was.
    pub fn prepare(self, change: GroupMove) -> Result<PreparedGroup, (Group, GroupFault)>
        ensures ok { IfOk result (λ p. p ≡ record { group = self; event = moves.event_of change }) }
        ensures free { OnOk result (refusal_of self (moves.event_of change) ≡ None) }
        ensures refused { IfErr result (λ e. Refuses self (moves.event_of change) e.1 e.0) }
        ensures stays { moves.next_set self.sets change ≡ None → IsOk result }
    {
        let mut state = self.state;
        match make(&mut state, &change) {
            Ok(opening) => Ok(PreparedGroup {
                state,
                change,
                opening,
            }),
            Err(fault) => Err((Group { state }, fault)),
        }
    }
}

impl PreparedGroup {
    ghost use Rattle.group_model.specs.Group.{group_step};

    /// Moves the group. It takes no memory.
    pub fn commit(self) -> Group
        ensures { result ≡ group_step self.group self.event }
    {
        let PreparedGroup {
            mut state,
            change,
            opening,
        } = self;
        open_made(&mut state.wire, &mut state.sets, opening);
        match change {
            GroupMove::NewInterval { up, .. } => change_up(&mut state.copies, &mut state.up, up),
            GroupMove::Restart(daemon) => restart_one(&mut state.copies, daemon),
        }
        Group { state }
    }

    /// Gives up the move: the group is as it was.
    pub fn give_up(self) -> Group
        ensures { result ≡ self.group }
    {
        Group { state: self.state }
    }
}
