//! Tickets and reports.

ghost use Rattle.std.specs.Prelude.{◌≡◌, ◌≤◌, [], length, Some, IfOk, IfErr};
ghost use Rattle.request_types.specs.Text.{report_text};
ghost use Rattle.verdict_core.specs.Verdict as spec;

use crate::chains::Chains;
use crate::judging::allow_by;
use cap_text::AllowGrant;
use common_types::OutOfMemory;
use grant_core::{GrantTree, Path};
use request_types::{Condition, Needs, Target};
use std::alloc::Global;
use std::fmt;
use std::marker::Model;

/// The most grants that a ticket may have. The grants of a text that follows this project's rules are far fewer.
pub const MAX_GRANTS: usize = 16384;

/// The grants of an entity with their paths, at most [`MAX_GRANTS`], and until when they hold.
///
/// It is expired at each tick from `until` on; without `until` it never expires. Its user decides what a tick is: in
/// this project's profile it is a number that the caller passes.
#[derive(Debug)]
pub struct Ticket {
    grants: Vec<(Path, AllowGrant)>,
    until: Option<u64>,
    /// The chains of its grants, where it was made an indexed ticket of. Both kinds are judged by one function.
    chains: Option<Chains>,
}

impl Drop for Ticket {
    fn drop(self) {
        let Ticket {
            grants: _,
            until: _,
            chains: _,
        } = self;
    }
}

impl Model for Ticket {
    ghost use Rattle.std.specs.Prelude.{length, ◌≤◌};
    ghost use Rattle.std.specs.Option.{ForSome};
    ghost use Rattle.verdict_core.specs.Chains.{AreChained};
    ghost use Rattle.verdict_core.specs.Kinds.{chains_of};
    ghost use Rattle.verdict_core.specs.Ticket as seen;

    ghost Value = { seen.Ticket };

    ghost view = { λ t. record { grants = t.grants.items; until = t.until } };

    ghost invariant = { λ t. (length t.grants.items ≤ 16384) × ForSome t.chains (λ p. AreChained 0 (chains_of p.kinds.items t.grants.items) p.first.items p.next.items) };
}

/// Why a request is denied: for each grant its path and the first condition that the request fails.
///
/// It prints a line `PATH CONDITION` for each, in the ticket's order, and each line ends with a line feed.
#[derive(Debug, Drop)]
pub struct Report {
    lines: Vec<(Path, Condition)>,
}

impl Model for Report {
    ghost use Rattle.std.specs.Prelude.{List, ℕ};
    ghost use Rattle.request_types.specs.declared.request.Condition.{Condition};

    ghost Value = { List (List ℕ × Condition) };

    ghost view = { λ r. r.lines.items };
}

impl Ticket {
    /// The ticket of an expanded list: its grants, each with its path, until a tick or for ever.
    /// They are moved into it, so that it takes no memory.
    pub fn of(tree: GrantTree, until: Option<u64>) -> Ticket
        ensures { result ≡ record { grants = tree; until = until } }
    {
        Ticket::from_grants(tree.into_flat(), until)
    }

    /// The ticket of grants that another reader made, each with its path, until a tick or for ever. There may be
    /// [`MAX_GRANTS`] of them. It takes no memory.
    pub fn from_grants(grants: Vec<(Path, AllowGrant)>, until: Option<u64>) -> Ticket
        requires { length grants.items ≤ 16384 }
        ensures { result ≡ record { grants = grants.items; until = until } }
    {
        Ticket {
            grants,
            until,
            chains: None,
        }
    }

    /// The ticket without grants, which allows nothing. It takes no memory.
    pub fn empty(alloc: Global, until: Option<u64>) -> Ticket
        ensures { result ≡ record { grants = []; until = until } }
    {
        Ticket {
            grants: Vec::new(alloc),
            until,
            chains: None,
        }
    }

    /// Adds the chains of its grants, unless all are in one. If an allocation fails, it returns the ticket as it was.
    pub(crate) fn with_chains(mut self) -> Result<Ticket, (Ticket, OutOfMemory)>
        ensures made { IfOk result (λ ticket. ticket ≡ self) }
        ensures given_back { IfErr result (λ refused. refused.0 ≡ self) }
    {
        match Chains::of(self.allocator(), self.grants()) {
            Ok(chains) => {
                self.chains = chains;
                Ok(self)
            }
            Err(error) => Err((self, error)),
        }
    }

    /// Whether its grants allow a request, whatever the time.
    #[inline(always)]
    pub(crate) fn gives(&self, target: &Target<'_>, needs: &Needs) -> bool
        ensures { result ≡ spec.grants_allow self.now.grants target.now needs.now }
    {
        allow_by(&self.chains, self.grants.as_slice(), target, needs)
    }

    /// Its grants in order, each with its path.
    pub fn grants(&self) -> &[(Path, AllowGrant)]
        ensures grants { result.now ≡ self.now.grants }
        ensures few { length result.now ≤ 16384 }
    {
        self.grants.as_slice()
    }

    /// The first tick at which it is expired, if there is one.
    pub fn until(&self) -> Option<u64>
        ensures { result ≡ self.now.until }
    {
        self.until
    }

    /// Whether it is expired at a tick.
    pub fn is_expired(&self, tick: u64) -> bool
        ensures { result ≡ spec.is_expired self.now.until tick }
    {
        match self.until {
            None => false,
            Some(until) => until <= tick,
        }
    }

    /// Where its grants are kept.
    pub(crate) fn allocator(&self) -> Global {
        *self.grants.allocator()
    }

    /// An equal ticket, with its chains.
    pub fn copy(&self) -> Result<Ticket, OutOfMemory>
        ensures { IfOk result (λ ticket. ticket ≡ self.now) }
    {
        let mut ticket = self.copy_without_chains()?;
        if let Some(chains) = &self.chains {
            ticket.chains = Some(chains.copy()?);
        }
        Ok(ticket)
    }

    /// An equal ticket, which has no chains.
    fn copy_without_chains(&self) -> Result<Ticket, OutOfMemory>
        ensures { IfOk result (λ ticket. ticket ≡ self.now) }
    {
        let mut grants = Vec::with_capacity(*self.grants.allocator(), self.grants.len())?;
        for entry in self.grants() {
            grants.push((entry.0.copy()?, entry.1.copy()?))?;
        }
        Ok(Ticket {
            grants,
            until: self.until,
            chains: None,
        })
    }
}

impl Report {
    /// The report of these lines. It takes no memory.
    pub fn from_lines(lines: Vec<(Path, Condition)>) -> Report
        ensures { result ≡ lines.items }
    {
        Report { lines }
    }

    /// Its lines, in the ticket's order.
    pub fn lines(&self) -> &[(Path, Condition)]
        ensures { result.now ≡ self.now }
    {
        self.lines.as_slice()
    }

    /// An equal report.
    pub fn copy(&self) -> Result<Report, OutOfMemory>
        ensures { IfOk result (λ report. report ≡ self.now) }
    {
        let mut lines = Vec::with_capacity(*self.lines.allocator(), self.lines.len())?;
        for line in self.lines() {
            lines.push((line.0.copy()?, line.1))?;
        }
        Ok(Report { lines })
    }
}

impl fmt::Display for Report {
    ghost output = { λ report. Some (report_text report) };

    fn fmt<W: fmt::Write>(&self, f: &mut fmt::Formatter<W>) -> fmt::Result {
        for line in self.lines() {
            let path = &line.0;
            let condition = line.1;
            write!(f, "{path} {condition}\n")?;
        }
        Ok(())
    }
}
