//! How often something was seen, and when first and last.

ghost use Rattle.std.specs.Prelude.{◌≡◌, ◌∷◌, [], List, ℕ, Some, IfOk, OnOk, option_copied, if◌then◌else◌};
ghost use Rattle.std.specs.Option.{is_some};
ghost use Rattle.std.specs.HashMap.{get_by_text};
ghost use Rattle.std.specs.Str.{bytes_eq};
ghost use Rattle.log_core.specs.Tally as spec;
ghost use Rattle.log_core.specs.Tally.{HasSummaries};

use common_types::{Name, OutOfMemory};
use std::alloc::Global;
use std::collections::HashMap;

/// How often something was seen, at most 2^64 - 1 times, and when first and last.
#[derive(Debug)]
pub struct Summary {
    pub count: u64,
    pub first: Name,
    pub last: Name,
}

impl Drop for Summary {
    fn drop(self) {
        let Summary {
            count: _,
            first: _,
            last: _,
        } = self;
    }
}

/// The summaries of what was seen, by what it is.
pub(crate) struct Tally {
    summaries: HashMap<String, Summary>,
}

impl Drop for Tally {
    fn drop(self) {
        let Tally { summaries: _ } = self;
    }
}

/// The summary behind one more time.
fn next(alloc: Global, before: Option<&Summary>, time: &str) -> Result<Summary, OutOfMemory>
    ensures { IfOk result (λ next. next ≡ spec.next (option_copied before.entry) time.now) }
{
    let last = Name::new(alloc, time)?;
    match before {
        None => Ok(Summary {
            count: 1,
            first: last.copy()?,
            last,
        }),
        Some(summary) => Ok(Summary {
            count: summary.count.saturating_add(1),
            first: summary.first.copy()?,
            last,
        }),
    }
}

/// Puts a summary in the place of the one that is there.
fn put(
    summaries: &mut HashMap<String, Summary>,
    alloc: Global,
    what: &str,
    summary: Summary,
) -> Result<(), OutOfMemory>
    ensures { OnOk result ((q : List ℕ) → get_by_text summaries.new q ≡ (if bytes_eq what.now q then Some summary else get_by_text summaries.old q)) }
{
    let text = String::from_str(alloc, what)?;
    summaries.insert(text, summary)?;
    Ok(())
}

impl Tally {
    /// Nothing was seen. It takes no memory.
    pub(crate) fn new(alloc: Global) -> Tally
        ensures { HasSummaries [] result }
    {
        Tally {
            summaries: HashMap::new(alloc),
        }
    }

    /// The summary of something, or `None` if it was not seen.
    pub(crate) fn summary(&self, what: &str) -> Option<&Summary>
        ensures { option_copied result ≡ get_by_text self.now.summaries what.now }
    {
        self.summaries.get(what)
    }

    /// Whether something was seen.
    pub(crate) fn has(&self, what: &str) -> bool
        ensures { result ≡ is_some (get_by_text self.now.summaries what.now) }
    {
        self.summaries.contains_key(what)
    }

    /// Counts something that is seen at a time. The only error is out of memory.
    #[tactic(auto, using(crate::proofs::Counting::counted_more))]
    pub(crate) fn add(&mut self, alloc: Global, what: &str, time: &str) -> Result<(), OutOfMemory>
        ensures { OnOk result ((before : List (List ℕ × List ℕ)) → HasSummaries before self.old → HasSummaries ((what.now, time.now) ∷ before) self.new) }
    {
        let summary = next(alloc, self.summaries.get(what), time)?;
        put(&mut self.summaries, alloc, what, summary)
    }
}
