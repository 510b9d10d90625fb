//! What is counted of a log.

ghost use Rattle.std.specs.Prelude.{◌≡◌, ◌∷◌, ◌++◌, [], List, ℕ, Option, IfOk, OnOk, option_copied};
ghost use Rattle.std.specs.Option.{option_to_list};
ghost use Rattle.log_core.specs.declared.line.Line.{Line};
ghost use Rattle.log_core.specs.Ledger as spec;
ghost use Rattle.log_core.specs.Ledger.{HasRead, behind, decided, if_new, new_at, new_from, request_from, timed};
ghost use Rattle.log_core.specs.Tally.{HasSummaries, summary_of};

use crate::line::Line;
use crate::line_counts::LineCounts;
use crate::pairing::{Pair, Pairing};
use crate::request::Request;
use crate::tally::{Summary, Tally};
use common_types::{Name, OutOfMemory};
use std::alloc::Global;

/// What is counted of the lines so far: how often each request was decided, and when first and last; and how many lines there
/// are of each kind.
pub struct Ledger {
    pairing: Pairing,
    tally: Tally,
    counts: LineCounts,
}

impl Drop for Ledger {
    fn drop(self) {
        let Ledger {
            pairing: _,
            tally: _,
            counts: _,
        } = self;
    }
}

/// Counts a request at a time, if there is one. Returns it if it was not seen before.
fn tally_up(
    tally: &mut Tally,
    alloc: Global,
    request: Option<Request>,
    time: &Name,
) -> Result<Option<Request>, OutOfMemory>
    ensures counts { OnOk result ((seen : List (List ℕ × List ℕ)) → HasSummaries seen tally.old → HasSummaries (timed request time.now seen) tally.new) }
    ensures new { IfOk result (λ new. (seen : List (List ℕ × List ℕ)) → HasSummaries seen tally.old → new ≡ if_new seen request) }
{
    let Some(request) = request else {
        return Ok(None);
    };
    let key = request.key(alloc)?;
    let is_new = !tally.has(key.as_str());
    tally.add(alloc, key.as_str(), time.as_str())?;
    if is_new { Ok(Some(request)) } else { Ok(None) }
}

/// Adds a request, if there is one.
fn push_request(requests: &mut Vec<Request>, request: Option<Request>) -> Result<(), OutOfMemory>
    ensures { OnOk result (requests.new.items ≡ requests.old.items ++ option_to_list request) }
{
    if let Some(request) = request {
        requests.push(request)?;
    }
    Ok(())
}

impl Ledger {
    /// Nothing was read. It takes no memory.
    pub fn new(alloc: Global) -> Ledger
        ensures { HasRead [] result }
    {
        Ledger {
            pairing: Pairing::new(alloc),
            tally: Tally::new(alloc),
            counts: LineCounts {
                sessions: 0,
                decisions: 0,
                without_entity: 0,
                without_object: 0,
                cut: 0,
            },
        }
    }

    /// How many lines there are of each kind.
    pub fn counts(&self) -> LineCounts
        ensures { (lines : List Line) → HasRead lines self.now → result ≡ spec.counts_of lines }
    {
        self.counts
    }

    /// How often a request was decided, and when first and last, by its key. `None` if it was not.
    pub fn summary(&self, key: &str) -> Option<&Summary>
        ensures { (lines : List Line) → HasRead lines self.now → option_copied result ≡ summary_of (decided lines) key.now }
    {
        self.tally.summary(key)
    }

    /// Reads a decision, of which the pair is known.
    fn read_decision(
        &mut self,
        alloc: Global,
        pair: Pair,
        time: &Name,
        text: &Name,
    ) -> Result<Option<Request>, OutOfMemory>
        ensures pairing { self.new.pairing ≡ self.old.pairing }
        ensures counts { OnOk result (self.new.counts ≡ spec.with_decision pair.entity pair.object self.old.counts) }
        ensures tally { OnOk result ((seen : List (List ℕ × List ℕ)) → HasSummaries seen self.old.tally → HasSummaries (timed (request_from pair.entity pair.object text.now) time.now seen) self.new.tally) }
        ensures new { IfOk result (λ new. (seen : List (List ℕ × List ℕ)) → HasSummaries seen self.old.tally → new ≡ if_new seen (request_from pair.entity pair.object text.now)) }
    {
        self.counts = self.counts.with_decision(&pair.entity, &pair.object);
        let request = pair.into_request(text)?;
        tally_up(&mut self.tally, alloc, request, time)
    }

    /// Reads the next line. Returns the request that it decides, if no line before it decides the same.
    fn read(&mut self, alloc: Global, line: &Line) -> Result<Option<Request>, OutOfMemory>
        ensures reads { OnOk result ((before : List Line) → HasRead before self.old → HasRead (line.now ∷ before) self.new) }
        ensures new { IfOk result (λ new. (before : List Line) → HasRead before self.old → new ≡ new_at before line.now) }
    {
        let pair = self.pairing.read(alloc, line)?;
        match line {
            Line::Session { .. } => {
                self.counts = self.counts.with_session();
                Ok(None)
            }
            Line::Operation { .. } => Ok(None),
            Line::Decision { time, text, .. } => match pair {
                Some(pair) => self.read_decision(alloc, pair, time, text),
                None => Ok(None),
            },
            Line::Cut => {
                self.counts = self.counts.with_cut();
                Ok(None)
            }
        }
    }

    /// Reads the next lines. Returns the requests that they decide and no line before decides, in order. The only error is out of
    /// memory: then some of the lines are counted.
    pub fn read_all(&mut self, alloc: Global, lines: &[Line]) -> Result<Vec<Request>, OutOfMemory>
        ensures reads { OnOk result ((before : List Line) → HasRead before self.old → HasRead (behind before lines.now) self.new) }
        ensures new { IfOk result (λ new. (before : List Line) → HasRead before self.old → new.items ≡ new_from before lines.now) }
    {
        let mut requests = Vec::new(alloc);
        for line in lines {
            let request = self.read(alloc, line)?;
            push_request(&mut requests, request)?;
        }
        Ok(requests)
    }
}
