//! Answers without the reports that denials have, for the cells of a table.

ghost use Rattle.std.specs.Prelude.{◌≡◌, ◌++◌, None, Some, IfOk, OnOk, string_bytes};
ghost use Rattle.verdict_text.specs.Asked.{calls_fault};
ghost use Rattle.verdict_text.specs.Reading.{first_word};
ghost use Rattle.verdict_text.specs.Text.{fault_text};
ghost use Rattle.who_text.specs.Brief as spec;
ghost use Rattle.who_text.specs.Brief.{AreCellsAdded, IsBrief, IsBriefAnswer, IsBriefNeeded};
ghost use Rattle.who_text.specs.Table.{aligned};

use crate::columns::push_aligned;
use common_types::OutOfMemory;
use object_core::NeedsFault;
use rights_core::{Everywhere, Rights, judge_at, judge_everywhere};
use std::alloc::{AllocError, Global};
use verdict_core::Needs;
use verdict_text::{Asked, Reading, VerdictFault, first_word, needs_asked};

/// The verdict of rights on a request. If an address is given, it is that at the address.
fn brief_verdict(
    alloc: Global,
    rights: &Rights,
    asked: &Asked<'_>,
    needs: &Needs,
) -> Result<Everywhere, OutOfMemory>
    ensures { IfOk result (IsBrief rights.now asked.now.target needs.now asked.now.tick asked.now.from) }
{
    let Some(address) = &asked.from else {
        return judge_everywhere(alloc, rights, &asked.target, needs, asked.tick);
    };
    if judge_at(alloc, rights, address, &asked.target, needs, asked.tick)? {
        Ok(Everywhere::Allowed)
    } else {
        Ok(Everywhere::Denied)
    }
}

/// The verdict of rights on a request, or the fault of its calls.
fn brief_needed(
    alloc: Global,
    rights: &Rights,
    asked: &Asked<'_>,
) -> Result<Result<Everywhere, VerdictFault>, OutOfMemory>
    ensures { IfOk result (IsBriefNeeded (calls_fault asked.now) rights.now asked.now) }
{
    match needs_asked(alloc, asked) {
        Ok(needs) => Ok(Ok(brief_verdict(alloc, rights, asked, &needs)?)),
        Err(NeedsFault::OutOfMemory) => Err(AllocError),
        Err(fault) => Ok(Err(VerdictFault::Calls(fault))),
    }
}

/// The verdict of a text that was read on a request, or the fault that prevents one.
fn brief_answer(
    alloc: Global,
    read: &Reading,
    asked: &Asked<'_>,
) -> Result<Result<Everywhere, VerdictFault>, OutOfMemory>
    ensures { IfOk result (IsBriefAnswer read.now asked.now) }
{
    match read {
        Ok(rights) => brief_needed(alloc, rights, asked),
        Err(fault) => Ok(Err(VerdictFault::Text(*fault))),
    }
}

/// Adds the number of a fault in its column.
fn push_number(text: &mut String, alloc: Global, fault: &VerdictFault) -> Result<(), OutOfMemory>
    ensures { OnOk result (string_bytes text.new ≡ string_bytes text.old ++ aligned (first_word (fault_text fault.now))) }
{
    let printed = format!(in alloc; "{fault}")?;
    push_aligned(text, first_word(printed.as_str()))
}

/// Adds an answer's word, or its fault's number, in its column.
fn push_brief(
    text: &mut String,
    alloc: Global,
    answer: &Result<Everywhere, VerdictFault>,
) -> Result<(), OutOfMemory>
    ensures { OnOk result (string_bytes text.new ≡ string_bytes text.old ++ spec.brief_cell answer.now) }
{
    match answer {
        Ok(Everywhere::Allowed) => push_aligned(text, "allow"),
        Ok(Everywhere::Denied) => push_aligned(text, "deny"),
        Ok(Everywhere::Depends { .. }) => push_aligned(text, "depends"),
        Err(fault) => push_number(text, alloc, fault),
    }
}

/// Adds the word of each answer of a text that was read, or its fault's number, in the order of the requests.
pub(crate) fn push_cells(
    text: &mut String,
    alloc: Global,
    read: &Reading,
    requests: &[Asked<'_>],
) -> Result<(), OutOfMemory>
    ensures { OnOk result (AreCellsAdded read.now requests.now (string_bytes text.old) (string_bytes text.new)) }
{
    for asked in requests {
        let answer = brief_answer(alloc, read, asked)?;
        push_brief(text, alloc, &answer)?;
    }
    Ok(())
}
