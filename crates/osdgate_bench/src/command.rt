//! The command line.

ghost use Rattle.std.specs.Prelude.{◌≤◌};

use crate::compare::add_comparisons;
use crate::expand::add_expansions;
use crate::fault::Fault;
use crate::group::add_groups;
use crate::loads::add_clusters;
use crate::parse::add_parses;
use crate::peering::add_peering;
use crate::script::add_scripts;
use crate::share::add_shares;
use crate::vector::add_vectors;
use crate::verdict::add_verdicts;
use std::alloc::Global;
use std::convert::AsStr;
use std::io::Write;
use std::sync::Wait;
use std::thread::Threads;
use std::time::Clock;
use stopwatch::{Mode, Table};

/// All is done.
const DONE: u8 = 0;
/// The table could not be made or written.
const FAULT: u8 = 1;
/// The words are no command line of this program.
const BAD_COMMAND_LINE: u8 = 2;

const USAGE: &str = "\
osdgate_bench PART [NAME]

Measures the crates of the gate and prints nanoseconds a call, the least of 15 runs and the middle one.
Pools, classes and contents get their names from NAME, a word, which is data where none is given.

PART is one of
  verdict   a verdict, and a verdict with its report where it is no, at 1, 4, 16 and 64 grants
  parse     reading a capability text
  expand    expanding a list by the built-in profiles
  compare   finding what one ticket allows that another denies, at 1, 16 and 64 grants
  vector    running a vector of operations on an object
  group     a request through a group of three daemons, of 1,000 and of 8,000
  peering   a group's move, where 1,000, 4,000 and 16,000 requests were decided before
  script    a script's lines: comments, ticks, requests, moves of 2,048 groups, restarts
  share     what entities share, 1,000 and 10,000 of them, each with three grants for a pool of its own
  cluster   requests, verdicts and views on one, two and four threads of one cluster
  check     nothing: the work of each row is done once, and its answer printed
";

/// What is measured.
#[derive(Clone, Copy)]
enum Part {
    Verdict,
    Parse,
    Expand,
    Compare,
    Vector,
    Group,
    Peering,
    Script,
    Share,
    Cluster,
}

/// All parts, in the order of their rows.
const ALL: &[Part] = &[
    Part::Verdict,
    Part::Parse,
    Part::Expand,
    Part::Compare,
    Part::Vector,
    Part::Group,
    Part::Peering,
    Part::Script,
    Part::Share,
    Part::Cluster,
];

/// What a word asks for: some parts, and what is done with the work of their rows.
fn parts_of(word: &str) -> Option<(&'static [Part], Mode)> {
    match word {
        "verdict" => Some((&[Part::Verdict], Mode::Timed)),
        "parse" => Some((&[Part::Parse], Mode::Timed)),
        "expand" => Some((&[Part::Expand], Mode::Timed)),
        "compare" => Some((&[Part::Compare], Mode::Timed)),
        "vector" => Some((&[Part::Vector], Mode::Timed)),
        "group" => Some((&[Part::Group], Mode::Timed)),
        "peering" => Some((&[Part::Peering], Mode::Timed)),
        "script" => Some((&[Part::Script], Mode::Timed)),
        "share" => Some((&[Part::Share], Mode::Timed)),
        "cluster" => Some((&[Part::Cluster], Mode::Timed)),
        "check" => Some((ALL, Mode::Once)),
        _ => None,
    }
}

/// Adds the rows of a part.
fn add_part<C: Clock, R: Threads + Wait + Sync>(
    table: &mut Table<'_, C>,
    rt: &R,
    part: Part,
    name: &str,
) -> Result<(), Fault> {
    match part {
        Part::Verdict => add_verdicts(table, name),
        Part::Parse => add_parses(table, name),
        Part::Expand => add_expansions(table, name),
        Part::Compare => add_comparisons(table, name),
        Part::Vector => add_vectors(table, name),
        Part::Group => add_groups(table, name),
        Part::Peering => add_peering(table, name),
        Part::Script => add_scripts(table, name),
        Part::Share => add_shares(table, name),
        Part::Cluster => add_clusters(table, rt),
    }
}

fn add_parts<C: Clock, R: Threads + Wait + Sync>(
    table: &mut Table<'_, C>,
    rt: &R,
    parts: &[Part],
    name: &str,
) -> Result<(), Fault> {
    for part in parts {
        add_part(table, rt, *part, name)?;
    }
    Ok(())
}

/// The table of some parts.
fn table_of<C: Clock, R: Threads + Wait + Sync>(
    alloc: Global,
    clock: &C,
    rt: &R,
    parts: &[Part],
    mode: Mode,
    name: &str,
) -> Result<String, Fault> {
    let mut table = Table::new(alloc, clock, mode)?;
    add_parts(&mut table, rt, parts, name)?;
    Ok(table.into_text()?)
}

/// Writes a text, and answers the status behind it.
fn write_out<W: Write>(out: &mut W, text: &str) -> u8
    ensures { result ≤ 1 }
{
    if out.write_all(text.as_bytes()).is_ok() && out.flush().is_ok() {
        DONE
    } else {
        FAULT
    }
}

/// Writes a table to `out`, or the fault in its place to `err`, and returns the exit status.
fn write_table<O: Write, E: Write>(out: &mut O, err: &mut E, table: Result<String, Fault>) -> u8
    ensures { result ≤ 1 }
{
    match table {
        Ok(text) => write_out(out, text.as_str()),
        Err(fault) => {
            let _ = write!(err, "osdgate_bench: {fault}\n");
            FAULT
        }
    }
}

/// Whether the words ask for the usage.
fn is_help<S: AsStr>(words: &[S]) -> bool {
    words.len() == 2 && words[1].as_str() == "--help"
}

/// Runs the program on the words of its command line, the first of which is the program's own name, and
/// answers its exit status: 0 where it is done, 1 where the table could not be made or written, 2 where the
/// words are no command line. Without further words, and with `--help`, it prints its usage.
pub(crate) fn run_command<S: AsStr, C: Clock, R: Threads + Wait + Sync, O: Write, E: Write>(
    alloc: Global,
    clock: &C,
    rt: &R,
    words: &[S],
    out: &mut O,
    err: &mut E,
) -> u8
    ensures { result ≤ 2 }
{
    if words.len() <= 1 || is_help(words) {
        return write_out(out, USAGE);
    }
    let name = if words.len() == 3 {
        words[2].as_str()
    } else {
        "data"
    };
    match parts_of(words[1].as_str()) {
        Some((parts, mode)) if words.len() <= 3 => {
            write_table(out, err, table_of(alloc, clock, rt, parts, mode, name))
        }
        _ => {
            let _ = write_out(err, USAGE);
            BAD_COMMAND_LINE
        }
    }
}
