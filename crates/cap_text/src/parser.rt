//! Reads capability texts.

ghost use Rattle.std.specs.Prelude.{◌≡◌, ◌≤◌, List, IfOk, IfErr, length};
ghost use Rattle.cap_grants.specs.declared.grant.Grant.{Grant};
ghost use Rattle.cap_text.specs.Grammar.{Spells, AtMostOneList};
ghost use Rattle.cap_text.specs.Machine.{placed};
ghost use Rattle.cap_text.specs.Faults.{OrMemory, IsFirstFault};
ghost use Rattle.cap_text.specs.ReadText.{ReadsNothingElse, ReadsTheGrammar, TellsTheFirstFault};

use crate::caps::CapList;
use crate::fault::CapFault;
use crate::lexer::look;
use crate::state::Reading;
use cap_grants::FaultKind;
use std::alloc::Global;

/// The most bytes that a text may have.
const MAX_LENGTH: usize = 4096;

/// The most grants that a text may spell.
const MAX_GRANTS: usize = 64;

/// For how many grants room is made at first, by the text's length in bytes. It says nothing else.
fn first_room(length: usize) -> usize
    ensures some { 1 ≤ result }
    ensures few { result ≤ 64 }
{
    (length / 20).min(63) + 1
}

fn fault(kind: FaultKind, at: usize) -> CapFault
    ensures { result ≡ placed kind at }
{
    match kind {
        FaultKind::OutOfMemory => CapFault { kind, at: 0 },
        _ => CapFault { kind, at },
    }
}

/// The grants that a text spells, or its first fault. It takes time linear in the text.
///
/// A text that is refused spells no list, unless memory ran out (C8).
/// The grammar is this project's profile of the forms in the Ceph manual's User Management chapter.
pub fn parse(alloc: Global, text: &str) -> Result<CapList, CapFault>
    ensures list { IfOk result (λ list. Spells text.now list) }
    ensures none { IfErr result (λ fault. OrMemory fault ((gs : List Grant) → Spells text.now gs → ⊥)) }
    ensures first { IfErr result (λ fault. OrMemory fault (IsFirstFault text.now fault)) }
{
    if text.len() > MAX_LENGTH {
        return Err(fault(FaultKind::TooLong, 0));
    }
    let mut state = Reading::new(alloc, first_room(text.len()))?;
    let mut rest = text;
    let mut behind_word = false;
    'tokens: loop {
        let (start, found) = look(rest, behind_word);
        let at = text.len() - start.len();
        if start.is_empty() {
            return match state.finish(alloc) {
                Ok(grants) => Ok(CapList::from_vec(grants.into_vec())),
                Err(kind) => Err(fault(kind, at)),
            };
        }
        if state.len() == MAX_GRANTS {
            return Err(fault(FaultKind::TooManyGrants, at));
        }
        match found {
            Some((token, after)) => {
                behind_word = token.is_word();
                match state.advance(alloc, &token) {
                    Ok(()) => {}
                    Err(kind) => return Err(fault(kind, at)),
                }
                rest = after;
            }
            None => return Err(fault(FaultKind::BadWord, at)),
        }
    }
}

/// The law that a text spells at most one list of grants.
pub fn spells_at_most_one()
    ensures { AtMostOneList }
{}

/// The law that what a text spells is what the function `read_text` of contracts reads from it. It does nothing.
pub fn reads_the_grammar()
    ensures { ReadsTheGrammar }
{}

/// The law that the first fault of a text is what the function `read_text` of contracts tells of it. It does nothing.
pub fn tells_the_first_fault()
    ensures { TellsTheFirstFault }
{}

/// The law that `read_text` reads and tells nothing else, so that each text spells a list or has a first fault. It does nothing.
pub fn reads_nothing_else()
    ensures { ReadsNothingElse }
{}
