//! Calls on one group, each of which is an event of the world.

ghost use Rattle.std.specs.Prelude.{◌≡◌, ◌<◌, ◌++◌, length};
ghost use Rattle.group_model.specs.Group.{Deliver};
ghost use Rattle.group_core.specs.Calls.{event_of};
ghost use Rattle.world_core.specs.Applying.{CalledAt, LosesFreely, StepsOrMemory, runs_from, told_call};

use crate::audit::{Run, keep};
use group_core::{Group, GroupCall};
use group_messages::GroupFault;
use world_front::{Told, WorldFault};

/// Delivers a message of a group, and keeps where the entries stand that this decided. Room for that is taken first.
fn deliver(
    group: &mut Group,
    message: usize,
    runs: &mut Vec<Run>,
    place: usize,
) -> Result<(), GroupFault>
    ensures steps { StepsOrMemory group.old (Deliver message) result group.new }
    ensures kept { runs.new.items ≡ runs.old.items ++ runs_from place (length group.old.audit) (length group.new.audit) }
{
    if runs.reserve(1).is_err() {
        return Err(GroupFault::OutOfMemory);
    }
    let from = group.decided_count();
    let done = group.call(GroupCall::Deliver(message));
    let upto = group.decided_count();
    keep(runs, place, from, upto);
    done
}

/// Carries out a call on the group at a place, and keeps where the entries stand that it decided. Only a delivery decides any,
/// and only it takes room for that; a loss takes no memory.
pub(crate) fn call_at(
    groups: &mut Vec<Group>,
    runs: &mut Vec<Run>,
    place: usize,
    what: GroupCall,
) -> Result<(), GroupFault>
    requires { place < length groups.old.items }
    ensures called { CalledAt groups.old.items runs.old.items place (event_of what) result groups.new.items runs.new.items }
    ensures lost { LosesFreely what result }
{
    let group = &mut groups[place];
    match what {
        GroupCall::Deliver(message) => deliver(group, message, runs, place),
        GroupCall::Lose(_) | GroupCall::Repeat(_) | GroupCall::Kick => group.call(what),
    }
}

/// What a call on a group tells.
pub(crate) fn told(done: Result<(), GroupFault>) -> Result<Told, WorldFault>
    ensures { result ≡ told_call done }
{
    match done {
        Ok(()) => Ok(Told::Done),
        Err(GroupFault::OutOfMemory) => Err(WorldFault::OutOfMemory),
        Err(fault) => Err(WorldFault::Group(fault)),
    }
}
