//! The rules of a file, and whether they hold.

ghost use Rattle.std.specs.Prelude.{◌≡◌, IfOk, option_copied, map, length, filter};
ghost use Rattle.std.specs.List.{list_any};
ghost use Rattle.rules_core.specs.Rules.{IsOutcome};
ghost use Rattle.rules_text.specs.Checked as spec;
ghost use Rattle.rules_text.specs.Checked.{AreChecked};

use crate::file::RuleLine;
use common_types::OutOfMemory;
use rights_core::Rights;
use rules_core::{Entities, Outcome, Subject, check};
use share_core::Pool;
use std::alloc::Global;
use verdict_text::ReadEntity;

/// A rule of a file, and whether it holds.
pub struct CheckedRule<'r> {
    pub line: &'r RuleLine,
    pub outcome: Outcome,
}

impl Drop for CheckedRule<'_> {
    fn drop(self) {
        let CheckedRule {
            line: _,
            outcome: _,
        } = self;
    }
}

/// What follows the progress of a check.
pub trait Watch {
    /// So many rules are checked.
    fn checked(&mut self, count: usize);
}

/// Nothing follows it.
impl Watch for () {
    fn checked(&mut self, _count: usize) {}
}

/// The rights of an entity's text, if it could be read.
fn rights_of(entity: &ReadEntity) -> Option<&Rights>
    ensures { option_copied result ≡ spec.rights_of entity.now.osd.read }
{
    match entity.osd.read() {
        Ok(rights) => Some(rights),
        Err(_) => None,
    }
}

/// An entity as rules see it.
fn subject_of(entity: &ReadEntity) -> Subject<'_>
    ensures { result ≡ spec.subject_of entity.now }
{
    Subject {
        name: entity.name.as_str(),
        rights: rights_of(entity),
    }
}

/// The entities as rules see them: an entity whose text is refused has no rights.
fn subjects_of(alloc: Global, entities: &[ReadEntity]) -> Result<Vec<Subject<'_>>, OutOfMemory>
    ensures { IfOk result (λ subjects. subjects.items ≡ map spec.subject_of entities.now) }
{
    let mut subjects = Vec::new(alloc);
    for entity in entities {
        subjects.push(subject_of(entity))?;
    }
    Ok(subjects)
}

/// Whether each rule holds of the entities, in order.
fn outcomes_of<'r, W: Watch>(
    alloc: Global,
    pools: Option<&[Pool]>,
    rules: &'r [RuleLine],
    entities: &Entities<'_>,
    watch: &mut W,
) -> Result<Vec<CheckedRule<'r>>, OutOfMemory>
    ensures { IfOk result (λ all. AreChecked (option_copied pools.entry) entities.now rules.now all.items) }
{
    let mut all = Vec::new(alloc);
    for line in rules {
        let outcome = check(alloc, pools, &line.rule, entities)?;
        all.push(CheckedRule { line, outcome })?;
        watch.checked(all.len());
    }
    Ok(all)
}

/// Whether each rule of a file holds of the entities, in order. An entity whose text is refused is not checked, and a rule that
/// names it does not hold. `watch` follows the progress. The only error is out of memory.
pub fn check_rules<'r, W: Watch>(
    alloc: Global,
    pools: Option<&[Pool]>,
    rules: &'r [RuleLine],
    entities: &[ReadEntity],
    watch: &mut W,
) -> Result<Vec<CheckedRule<'r>>, OutOfMemory>
    ensures { IfOk result (λ all. AreChecked (option_copied pools.entry) (map spec.subject_of entities.now) rules.now all.items) }
{
    let subjects = subjects_of(alloc, entities)?;
    let entities = Entities::of(alloc, subjects.as_slice())?;
    outcomes_of(alloc, pools, rules, &entities, watch)
}

pub(crate) fn is_kept(one: &CheckedRule<'_>) -> bool
    ensures { result ≡ spec.is_kept one.now }
{
    match &one.outcome {
        Outcome::Kept => true,
        Outcome::Nobody => false,
        Outcome::Broken(_) => false,
    }
}

fn is_broken(one: &CheckedRule<'_>) -> bool
    ensures { result ≡ spec.is_broken one.now }
{
    match &one.outcome {
        Outcome::Kept => false,
        Outcome::Nobody => false,
        Outcome::Broken(_) => true,
    }
}

/// How many rules hold.
pub(crate) fn kept_count(all: &[CheckedRule<'_>]) -> usize
    ensures { result ≡ length (filter spec.is_kept all.now) }
{
    all.iter().filter(|one| is_kept(*one)).count()
}

/// How many rules name somebody and do not hold.
pub(crate) fn broken_count(all: &[CheckedRule<'_>]) -> usize
    ensures { result ≡ length (filter spec.is_broken all.now) }
{
    all.iter().filter(|one| is_broken(*one)).count()
}

/// Whether a rule does not hold, or is about nobody.
pub fn some_fail(all: &[CheckedRule<'_>]) -> bool
    ensures { result ≡ list_any (λ one. spec.fails one) all.now }
{
    all.iter().any(|one| !is_kept(one))
}
