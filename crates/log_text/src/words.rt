//! A logged request in the words of `osdgate verdict`.

use crate::decided::Decided;
use common_types::{OutOfMemory, TryClone};
use compare_core::{Example, OwnedTarget};
use compare_text::push_request;
use grant_core::Path;
use std::alloc::Global;
use verdict_core::Needs;

/// Whether a decision's request lists the names of objects: it reads, and names no object.
fn is_listing(decided: &Decided) -> bool {
    decided.target.object.is_empty() && decided.needs.reads && !decided.needs.writes
}

/// The request as one of a comparison. A listing reads without being asked to.
fn example_of(alloc: Global, decided: &Decided) -> Result<Example, OutOfMemory> {
    let target = &decided.target;
    Ok(Example {
        path: Path::of(alloc, &[])?,
        target: OwnedTarget {
            pool: target.pool.copy()?,
            tags: target.tags.copy()?,
            namespace: target.namespace.copy()?,
            object: target.object.copy()?,
        },
        needs: Needs {
            reads: decided.needs.reads && !is_listing(decided),
            writes: decided.needs.writes,
            calls: decided.needs.calls.copy()?,
        },
    })
}

/// Adds a request in the words that `osdgate verdict` takes, quoted for a shell. A listing has `--list` in place of an object.
/// The only error is out of memory.
pub fn push_words(text: &mut String, alloc: Global, decided: &Decided) -> Result<(), OutOfMemory> {
    let mut words = String::new(alloc);
    push_request(&mut words, &example_of(alloc, decided)?)?;
    match words.as_str().split_once(" --object ''") {
        Some((front, behind)) if is_listing(decided) => {
            text.push_str(front)?;
            text.push_str(" --list")?;
            text.push_str(behind)
        }
        _ => text.push_str(words.as_str()),
    }
}
