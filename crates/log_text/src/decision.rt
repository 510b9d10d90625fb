//! The values of a decision.

ghost use Rattle.std.specs.Prelude.{◌≡◌, true, IfOk, IfSome};
ghost use Rattle.log_text.specs.Reading.{IsDecision};

use crate::decided::{Decided, values_of};
use crate::object::{ObjectWords, is_written_as, unescaped};
use crate::written::is_written_so;
use common_types::OutOfMemory;
use std::alloc::Global;

/// Whether an OSD writes a decision by these texts.
fn is_so(
    alloc: Global,
    object: &ObjectWords<'_>,
    text: &str,
    decided: &Decided,
) -> Result<bool, OutOfMemory>
    ensures { IfOk result (λ is. is ≡ true → IsDecision object.now text.now decided.now) }
{
    let target = &decided.target;
    if !is_written_so(alloc, object.pool, decided, text)? {
        return Ok(false);
    }
    if !is_written_as(alloc, &target.namespace, object.namespace)? {
        return Ok(false);
    }
    is_written_as(alloc, &target.object, object.seen_name())
}

/// What the texts say, if they say something.
fn said(
    alloc: Global,
    object: &ObjectWords<'_>,
    text: &str,
) -> Result<Option<Decided>, OutOfMemory> {
    let Some(namespace) = unescaped(alloc, object.namespace)? else {
        return Ok(None);
    };
    match unescaped(alloc, object.seen_name())? {
        Some(name) => values_of(alloc, text, namespace, name),
        None => Ok(None),
    }
}

/// The values of a decision, by the words of its object and the text behind its session: those that an OSD writes so. `None`
/// where the texts are not what an OSD writes, or a name is not UTF-8. The only error is out of memory.
pub(crate) fn decision_of(
    alloc: Global,
    object: &ObjectWords<'_>,
    text: &str,
) -> Result<Option<Decided>, OutOfMemory>
    ensures { IfOk result (λ found. IfSome found (IsDecision object.now text.now)) }
{
    let Some(decided) = said(alloc, object, text)? else {
        return Ok(None);
    };
    if is_so(alloc, object, text, &decided)? {
        Ok(Some(decided))
    } else {
        Ok(None)
    }
}
