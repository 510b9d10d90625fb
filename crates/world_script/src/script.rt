//! Scripts of a world, from a reader to a writer.

ghost use Rattle.std.specs.Prelude.{IfSome, IfErr};
ghost use Rattle.world_script.specs.Script.{WroteOf, EndsFor, KeepsUnread};
ghost use Rattle.world_script.specs.Steps.{IsOfLines, RunsOut};

use crate::line::write_line;
use crate::machine::Machine;
use script_text::{Lines, ScriptFault, read_script};
use std::alloc::Global;
use std::io::{Read, Write};

/// Carries out the lines of a script, and writes what they print.
fn run_lines<W: Write>(alloc: Global, script: &[u8], writer: &mut W) -> Result<(), ScriptFault>
    ensures wrote { WroteOf script.now (W.contents writer.old) (W.contents writer.new) result }
    ensures read { IfErr result IsOfLines }
    ensures memory { IfErr result (RunsOut script.now (W.contents writer.old) (W.contents writer.new)) }
{
    let mut lines = Lines::new(script);
    let mut state: Option<Machine> = None;
    loop {
        let Some(line) = lines.next_line() else {
            return Ok(());
        };
        match write_line(alloc, &mut state, &line, writer) {
            Ok(()) => (),
            Err(fault) => return Err(fault),
        }
    }
}

/// Runs a script: users and maps change, clients ask, messages are delivered, lost and repeated, daemons go down and come up.
///
/// The whole input is read first. Each line is carried out, and what it prints is written, before the next one. Ok means
/// that what the whole script prints was written. S3 ends it at a bad line, and S5 at the line at which memory runs
/// out: what the lines before print was written. At S4 the writer failed: a beginning of what the script prints was
/// written. At S1 the reader failed, at S2 the input has more than 1,048,576 bytes, and at S5 with line 0 memory ran
/// out while the input was read: nothing was written. The lines and the printed texts are this project's profile,
/// after Ceph's command line.
pub fn run_script<R: Read, W: Write>(
    alloc: Global,
    reader: &mut R,
    writer: &mut W,
) -> Result<(), ScriptFault>
    ensures wrote { IfSome (R.remaining reader.old) (λ input. WroteOf input (W.contents writer.old) (W.contents writer.new) result) }
    ensures ends { IfSome (R.remaining reader.old) (λ input. EndsFor input (W.contents writer.old) (W.contents writer.new) result) }
    ensures unread { IfErr result (KeepsUnread (W.contents writer.old) (W.contents writer.new)) }
{
    let script = match read_script(alloc, reader) {
        Ok(script) => script,
        Err(fault) => return Err(fault),
    };
    run_lines(alloc, script.as_slice(), writer)
}
