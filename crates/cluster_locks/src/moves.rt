//! The monitor's steps on a group.

ghost use Rattle.cluster_locks.specs.Moves.{move_entry, MoveTells, full_entry, FullTells};

use crate::groups::LockedGroup;
use group_messages::{GroupFault, GroupMove};
use turn_lock::Step;

/// Moves a group.
#[derive(Drop)]
pub struct Move(pub GroupMove);

impl Step for Move {
    type Value = LockedGroup;

    type Answer = Result<(), GroupFault>;

    ghost entry = { move_entry };

    ghost tells = { MoveTells };

    fn run(&mut self, placed: &mut LockedGroup) -> Result<(), GroupFault> {
        match &self.0 {
            GroupMove::NewInterval { acting, up } => placed.group.new_interval(*acting, *up),
            GroupMove::Restart(daemon) => placed.group.restart(*daemon),
        }
    }
}

/// Looks whether a group has all its intervals.
#[derive(Drop)]
pub struct IsFull;

impl Step for IsFull {
    type Value = LockedGroup;

    type Answer = bool;

    ghost entry = { full_entry };

    ghost tells = { FullTells };

    fn run(&mut self, placed: &mut LockedGroup) -> bool {
        placed.group.is_full_of_intervals()
    }
}
