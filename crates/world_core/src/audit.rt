//! Where the decided entries stand in the groups' own lists.

ghost use Rattle.std.specs.Prelude.{◌≡◌, ◌<◌, ◌++◌, vec_len, vec_capacity, IfOk, OnOk};
ghost use Rattle.group_model_whole.specs.Each.{Each};
ghost use Rattle.world_core.specs.Applying.{runs_from};
ghost use Rattle.world_core.specs.Inside.{entries_told};
ghost use Rattle.world_core.specs.Sound.{FitsAt};

use common_types::{Items, OutOfMemory, TryClone};
use entry_core::Entry;
use group_core::Group;
use std::alloc::Global;

/// The entries of one group that one event decided.
#[derive(Clone, Copy, Drop)]
pub(crate) struct Run {
    /// Where the group stands among the groups, counted from 0.
    pub(crate) group: usize,
    /// How many entries were decided in it before.
    pub(crate) from: usize,
    /// How many were decided in it then.
    pub(crate) upto: usize,
}

/// Keeps where the entries stand that were decided in a group, where there are any. There is room for it.
pub(crate) fn keep(runs: &mut Vec<Run>, group: usize, from: usize, upto: usize)
    requires { vec_len runs.old < vec_capacity runs.old }
    ensures { runs.new.items ≡ runs.old.items ++ runs_from group from upto }
{
    if from < upto {
        runs.push_reserved(Run { group, from, upto });
    }
}

/// Adds copies of entries.
fn add_copies(all: &mut Items<Entry>, entries: &[Entry]) -> Result<(), OutOfMemory>
    ensures { OnOk result (all.new ≡ all.old ++ entries.now) }
{
    for entry in entries {
        let copy = match entry.copy() {
            Ok(copy) => copy,
            Err(error) => return Err(error),
        };
        match all.push(copy) {
            Ok(()) => {}
            Err(error) => return Err(error),
        }
    }
    Ok(())
}

/// Copies of the entries of all runs, in order.
pub(crate) fn collect(
    alloc: Global,
    groups: &[Group],
    runs: &[Run],
) -> Result<Vec<Entry>, OutOfMemory>
    requires { Each (FitsAt groups.now) runs.now }
    ensures { IfOk result (λ all. all.items ≡ entries_told groups.now runs.now) }
{
    let mut all = Items::new(alloc);
    for run in runs {
        let group = &groups[run.group];
        let entries = &group.decided()[run.from..run.upto];
        match add_copies(&mut all, entries) {
            Ok(()) => {}
            Err(error) => return Err(error),
        }
    }
    Ok(all.into_vec())
}
