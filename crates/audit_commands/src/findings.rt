//! What is found of the grants of entities beside what they reach.

ghost use Rattle.std.specs.Prelude.{◌≡◌, ◌++◌, ◌<◌, ◌^◌, IfOk, OnOk};
ghost use Rattle.audit_commands.specs.Mistakes as spec;

use common_types::OutOfMemory;
use lint_core::{GrantLint, Pool, Standing, lint_rights};
use std::alloc::Global;
use std::fmt::Write;
use verdict_text::{ReadEntity, Spelled, push_name};

/// What is wrong with a grant.
#[derive(Clone, Copy, PartialEq, Eq)]
pub(crate) enum Mistake {
    /// It matches no pool, and whoever makes such a pool next opens it.
    NoPool,
    /// The others allow the same, and this one alone does if there is one.
    Redundant { by: Option<usize> },
    /// It uses a profile that Ceph does not know.
    Unknown,
    /// Its network matches no address.
    NoAddress,
}

/// A grant of an entity with a mistake.
#[derive(Drop)]
pub(crate) struct Finding<'a> {
    pub(crate) entity: &'a str,
    /// Its number in the text, counted from 1.
    pub(crate) grant: usize,
    pub(crate) mistake: Mistake,
}

impl Mistake {
    /// Adds what is wrong, in the words of `osdgate lint`.
    pub(crate) fn push_words(self, text: &mut String) -> Result<(), OutOfMemory> {
        match self {
            Mistake::NoPool => text.push_str("matches no pool"),
            Mistake::Redundant { by: None } => text.push_str("redundant"),
            Mistake::Redundant { by: Some(other) } => write!(text, "redundant, by {other}"),
            Mistake::Unknown => text.push_str("unknown profile, grants nothing"),
            Mistake::NoAddress => text.push_str("network matches no address"),
        }
    }

    /// Whether the grant grants nothing as the cluster is now.
    pub(crate) fn is_idle(self) -> bool
        ensures { result ≡ spec.is_idle self }
    {
        !matches!(self, Mistake::Redundant { .. })
    }
}

impl Finding<'_> {
    /// Adds the entity, the grant's number and what is wrong.
    pub(crate) fn push_line(&self, text: &mut String) -> Result<(), OutOfMemory> {
        let number = self.grant;
        push_name(text, self.entity)?;
        write!(text, " {number} ")?;
        self.mistake.push_words(text)
    }
}

/// Adds how a grant is redundant, if it is.
fn push_redundancy(all: &mut Vec<Mistake>, standing: Standing) -> Result<(), OutOfMemory>
    ensures { OnOk result (all.new.items ≡ all.old.items ++ spec.redundancy standing) }
{
    match standing {
        Standing::Needed => Ok(()),
        Standing::CoveredTogether => Ok(all.push(Mistake::Redundant { by: None })?),
        Standing::Covered(other) => Ok(all.push(Mistake::Redundant { by: Some(other) })?),
    }
}

/// What is wrong with a grant. One that grants nothing has no other mistake.
fn mistakes_of(alloc: Global, lint: &GrantLint) -> Result<Vec<Mistake>, OutOfMemory>
    ensures { IfOk result (λ all. all.items ≡ spec.mistakes lint.now) }
{
    let mut all = Vec::new(alloc);
    if lint.nothing {
        all.push(Mistake::Unknown)?;
        return Ok(all);
    }
    if lint.dead {
        all.push(Mistake::NoAddress)?;
        return Ok(all);
    }
    if lint.without_pool {
        all.push(Mistake::NoPool)?;
    }
    push_redundancy(&mut all, lint.standing)?;
    Ok(all)
}

/// Adds what is found of a grant.
fn push_findings<'a>(
    all: &mut Vec<Finding<'a>>,
    alloc: Global,
    entity: &'a ReadEntity,
    grant: usize,
    lint: &GrantLint,
) -> Result<(), OutOfMemory> {
    let entity = entity.name.as_str();
    for mistake in &mistakes_of(alloc, lint)? {
        all.push(Finding {
            entity,
            grant,
            mistake: *mistake,
        })?;
    }
    Ok(())
}

/// The most grants that a text has by this project's rules.
const MAX_GRANTS: usize = 64;

/// The most grants that a text has by Ceph's rules.
const MAX_CEPH_GRANTS: usize = 4096;

/// How many grants a text has that spells this, none where it is empty or refused.
fn count_of(spelled: &Spelled) -> usize
    ensures { result < 2 ^ 32 }
{
    match spelled {
        Spelled::Nothing => 0,
        Spelled::Listed(list) => list.grants().len().min(MAX_GRANTS),
        Spelled::Counted(count) => (*count).min(MAX_CEPH_GRANTS),
    }
}

/// What is found of each grant of an entity's text, or nothing where the text is empty or refused.
fn lints_of(
    alloc: Global,
    entity: &ReadEntity,
    pools: &[Pool],
) -> Result<Vec<GrantLint>, OutOfMemory> {
    match entity.osd.read() {
        Ok(rights) => {
            let count = count_of(entity.osd.spelled());
            lint_rights(alloc, rights, count, Some(pools))
        }
        Err(_) => Ok(Vec::new(alloc)),
    }
}

/// What is found of the grants of each entity, in their orders.
pub(crate) fn findings_of<'a>(
    alloc: Global,
    entities: &'a [ReadEntity],
    pools: &[Pool],
) -> Result<Vec<Finding<'a>>, OutOfMemory> {
    let mut all = Vec::new(alloc);
    for entity in entities {
        let lints = lints_of(alloc, entity, pools)?;
        for (index, lint) in lints.iter().enumerate() {
            push_findings(&mut all, alloc, entity, index + 1, lint)?;
        }
    }
    Ok(all)
}
