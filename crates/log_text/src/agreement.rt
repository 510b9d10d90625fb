//! Whether the gate decides as an OSD did.

ghost use Rattle.std.specs.Prelude.{◌≡◌, IfOk};
ghost use Rattle.log_text.specs.Agreement as spec;
ghost use Rattle.log_text.specs.Agreement.{IsAgreement};

use crate::decided::Decided;
use common_types::OutOfMemory;
use rights_core::{Everywhere, Rights, judge_everywhere};
use std::alloc::Global;

/// How the gate's verdict by some rights stands to a decision of an OSD.
#[derive(Clone, Copy, Debug, PartialEq, Eq)]
pub enum Agreement {
    /// They are the same, whatever the client's address is.
    Agrees,
    /// They differ, whatever the client's address is.
    Differs,
    /// It depends on the client's address, which logs do not have.
    Depends,
}

/// The agreement of a verdict that every address gets.
fn of_all(verdict: bool, allowed: bool) -> Agreement
    ensures { result ≡ spec.of_all verdict allowed }
{
    match (verdict, allowed) {
        (true, true) | (false, false) => Agreement::Agrees,
        (true, false) | (false, true) => Agreement::Differs,
    }
}

/// How the verdict of rights on a decision's request stands to the decision. The only error is out of memory.
#[tactic(auto, using(crate::proofs::Agreeing::at_all))]
pub fn agreement_with(
    alloc: Global,
    rights: &Rights,
    decided: &Decided,
) -> Result<Agreement, OutOfMemory>
    ensures { IfOk result (IsAgreement rights.now decided.now) }
{
    let target = decided.target.as_target();
    match judge_everywhere(alloc, rights, &target, &decided.needs, 0)? {
        Everywhere::Allowed => Ok(of_all(true, decided.allowed)),
        Everywhere::Denied => Ok(of_all(false, decided.allowed)),
        Everywhere::Depends { .. } => Ok(Agreement::Depends),
    }
}
