//! Lines of a script, one after another.

ghost use Rattle.std.specs.Prelude.{◌≡◌, ◌≤◌, OnOk, IfErr, None, string_bytes};
ghost use Rattle.world_script.specs.declared.command.Command.TheVariants.{Osds};
ghost use Rattle.world_script.specs.Script.{line_step, script_step};
ghost use Rattle.world_script.specs.Steps.{GoesTo, IsFaultOf, LineWrote, HasFewDaemons};

use crate::command::Command;
use crate::machine::Machine;
use crate::reading::read_line;
use script_text::{Line, LineFault, ScriptFault, end_line};
use std::alloc::Global;
use std::io::Write;

/// Carries out the first command, which says how many daemons there are.
fn begin(
    alloc: Global,
    state: &mut Option<Machine>,
    command: Command,
    text: &mut String,
) -> Result<(), LineFault>
    requires none { state.old ≡ None }
    requires few { HasFewDaemons command }
    ensures goes { OnOk result (GoesTo (script_step state.old command) (string_bytes text.old) (string_bytes text.new) state.new) }
    ensures fault { IfErr result (IsFaultOf (script_step state.old command)) }
{
    match command {
        Command::Osds(daemons) => begin_with(alloc, state, daemons, text),
        _ => Err(LineFault::BadLine),
    }
}

/// Makes the world.
fn begin_with(
    alloc: Global,
    state: &mut Option<Machine>,
    daemons: u8,
    text: &mut String,
) -> Result<(), LineFault>
    requires none { state.old ≡ None }
    requires some { 1 ≤ daemons }
    requires few { daemons ≤ 16 }
    ensures goes { OnOk result (GoesTo (script_step None (Osds daemons)) (string_bytes text.old) (string_bytes text.new) state.new) }
    ensures memory { IfErr result (λ fault. fault ≡ LineFault.OutOfMemory) }
{
    match Machine::begin(alloc, daemons, text) {
        Ok(machine) => {
            *state = Some(machine);
            Ok(())
        }
        Err(_) => Err(LineFault::OutOfMemory),
    }
}

/// Carries out a command.
fn run_command(
    alloc: Global,
    state: &mut Option<Machine>,
    command: Command,
    text: &mut String,
) -> Result<(), LineFault>
    requires { HasFewDaemons command }
    ensures goes { OnOk result (GoesTo (script_step state.old command) (string_bytes text.old) (string_bytes text.new) state.new) }
    ensures fault { IfErr result (IsFaultOf (script_step state.old command)) }
{
    match state {
        None => begin(alloc, state, command, text),
        Some(machine) => machine.carry_out(alloc, command, text),
    }
}

/// Carries out a line.
fn run_line(
    alloc: Global,
    state: &mut Option<Machine>,
    line: &Line<'_>,
    text: &mut String,
) -> Result<(), LineFault>
    ensures goes { OnOk result (GoesTo (line_step script_step state.old line.now.text.now) (string_bytes text.old) (string_bytes text.new) state.new) }
    ensures fault { IfErr result (IsFaultOf (line_step script_step state.old line.now.text.now)) }
{
    if line.is_blank() {
        return Ok(());
    }
    match read_line(alloc, line.text) {
        Err(_) => Err(LineFault::OutOfMemory),
        Ok(found) => match found {
            None => Err(LineFault::BadLine),
            Some(command) => run_command(alloc, state, command, text),
        },
    }
}

/// Carries out a line, and writes what it prints.
pub(crate) fn write_line<W: Write>(
    alloc: Global,
    state: &mut Option<Machine>,
    line: &Line<'_>,
    writer: &mut W,
) -> Result<(), ScriptFault>
    ensures { LineWrote state.old line.now.text.now line.now.number state.new (W.contents writer.old) (W.contents writer.new) result }
{
    let mut text = String::new(alloc);
    let ended = run_line(alloc, state, line, &mut text);
    end_line(writer, line.number, text.as_str(), ended)
}
