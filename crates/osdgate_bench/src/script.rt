//! What it costs to run scripts.

use crate::fault::Fault;
use crate::script_lines::{Script, Settling, comments, moves, requests, restarts, ticks};
use Kind::{Comments, Moves, Requests, Restarts, Ticks};
use Settling::{Hundreds, Once};
use common_types::OutOfMemory;
use std::alloc::{AllocError, Global};
use std::time::Clock;
use stopwatch::{Table, Work};
use world_script::{ScriptFault, run_script};

/// A script, which is run. What it prints is kept to its end. The time is per line, for `lines` of its lines.
#[derive(Drop)]
struct Running {
    alloc: Global,
    script: Script,
    lines: u32,
}

impl Running {
    /// Runs the script, and answers whether what it prints ends as it does where no line is refused.
    fn ends_well(&self) -> Result<bool, ScriptFault> {
        let mut printed: Vec<u8> = Vec::new(self.alloc);
        run_script(self.alloc, &mut self.script.text.as_bytes(), &mut printed)?;
        Ok(printed.as_slice().ends_with(self.script.ending.as_bytes()))
    }
}

impl Work for Running {
    fn once(&self, _turn: usize) -> Result<bool, OutOfMemory> {
        match self.ends_well() {
            Ok(well) => Ok(well),
            Err(ScriptFault::OutOfMemory(_)) => Err(AllocError),
            Err(_) => Ok(false),
        }
    }

    fn size(&self) -> u64 {
        (self.lines as u64).max(1)
    }
}

/// What is measured: a number of comments, ticks, requests, pairs of moves, or restarts.
#[derive(Clone, Copy)]
enum Kind {
    Comments(u32),
    Ticks(u32),
    Requests(u32, Settling),
    Moves(u16),
    Restarts(u16),
}

/// All scripts, in the order of their rows.
const SCRIPTS: &[Kind] = &[
    Comments(1000),
    Ticks(1000),
    Comments(16000),
    Ticks(16000),
    Requests(1000, Once),
    Requests(4000, Once),
    Requests(8000, Once),
    Requests(16000, Once),
    Requests(1000, Hundreds),
    Requests(4000, Hundreds),
    Requests(8000, Hundreds),
    Requests(16000, Hundreds),
    Moves(0),
    Moves(8),
    Restarts(1023),
];

impl Kind {
    /// How a row is named.
    fn name(self, alloc: Global) -> Result<String, OutOfMemory> {
        match self {
            Comments(count) => format!(in alloc; "script, a comment of {count}"),
            Ticks(count) => format!(in alloc; "script, a tick of {count}"),
            Requests(count, settling) => {
                let how = settling.name();
                format!(in alloc; "script, a request of {count}, {how}")
            }
            Moves(0) => format!(in alloc; "script, 32 pools of 64 groups, the whole"),
            Moves(_) => format!(in alloc; "script, the same and 16 moves, a sixteenth"),
            Restarts(count) => format!(in alloc; "script, a restart of {count}"),
        }
    }

    /// The script, over a given name.
    fn script(self, alloc: Global, name: &str) -> Result<Script, OutOfMemory> {
        match self {
            Comments(count) => comments(alloc, name, count),
            Ticks(count) => ticks(alloc, count),
            Requests(count, settling) => requests(alloc, name, count, settling),
            Moves(pairs) => moves(alloc, name, pairs),
            Restarts(count) => restarts(alloc, name, count),
        }
    }

    /// How many lines a row's time is divided by.
    fn lines(self) -> u32 {
        match self {
            Comments(count) | Ticks(count) | Requests(count, _) => count,
            Moves(0) => 1,
            Moves(_) => 16,
            Restarts(count) => count as u32,
        }
    }

    /// The script, where it ends well.
    fn work(self, alloc: Global, name: &str) -> Result<Running, Fault> {
        let work = Running {
            alloc,
            script: self.script(alloc, name)?,
            lines: self.lines(),
        };
        if work.ends_well()? {
            Ok(work)
        } else {
            Err(Fault::Refused)
        }
    }
}

/// Adds the row of a script.
fn add_row<C: Clock>(table: &mut Table<'_, C>, kind: Kind, name: &str) -> Result<(), Fault> {
    let work = kind.work(table.alloc(), name)?;
    let row = kind.name(table.alloc())?;
    Ok(table.row(row.as_str(), &work)?)
}

/// Adds the rows of scripts, over a given name.
pub(crate) fn add_scripts<C: Clock>(table: &mut Table<'_, C>, name: &str) -> Result<(), Fault> {
    for kind in SCRIPTS {
        add_row(table, *kind, name)?;
    }
    Ok(())
}
