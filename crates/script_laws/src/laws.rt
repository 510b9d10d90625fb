//! Laws of scripts, each the contract of a function that does nothing.

ghost use Rattle.script_laws.specs.Worked.{WorkedScript, WorkedLongerScript, WorldsCount};
ghost use Rattle.script_laws.specs.Plain.{PlainScriptsPrint, PlainBeginnings, PlainScriptsWrite};

/// A plain script writes what one store without groups, copies and messages writes. A plain script names no message,
/// does not kick, and begins no second interval of a group.
///
/// In the one store, a settling decides what waits, in the order of submission, group after group. Any script writes
/// what that store writes before its first line that names a message, kicks, or begins a second interval of a group.
pub fn plain_scripts_print()
    ensures print { PlainScriptsPrint }
    ensures begin { PlainBeginnings }
    ensures write { PlainScriptsWrite }
{}

/// Scripts, worked through: what they write on a world of groups, copies and messages.
pub fn worked_scripts()
    ensures first { WorkedScript }
    ensures longer { WorkedLongerScript }
    ensures counts { WorldsCount }
{}
