//! What is found where the entities of a cluster are checked by a rule.

ghost use Rattle.std.specs.Prelude.{IfOk, List, Option, option_copied};
ghost use Rattle.share_core.specs.declared.pools.Pool.{Pool as PoolSeen};
ghost use Rattle.rules_core.specs.Checking as inside;
ghost use Rattle.rules_core.specs.Near.{AreEnough};
ghost use Rattle.rules_core.specs.Rules as spec;

use crate::apart::{Crossing, crossing_between};
use crate::breaches::breach;
use crate::demand::Demand;
use crate::entities::Entities;
use crate::rule::{Rule, Subject, Who};
use common_types::OutOfMemory;
use compare_text::AddressedExample;
use rights_core::Rights;
use share_core::Pool;
use std::alloc::Global;

/// What is found of an entity that a rule names.
#[derive(Debug, Drop)]
pub enum Finding {
    /// Its text could not be read, so that nothing is known of it.
    Unread,
    /// A request that breaks what is demanded.
    Breach(AddressedExample),
    /// Requests of it and of the entity at this index, counted from 0, which are to be apart.
    Crossed(usize, Crossing),
}

/// What is found of the entity at an index, counted from 0.
#[derive(Debug, Drop)]
pub struct Found {
    pub place: usize,
    pub finding: Finding,
}

/// Whether a rule holds of the entities of a cluster.
#[derive(Debug, Drop)]
pub enum Outcome {
    /// A side of the rule names none of the entities.
    Nobody,
    /// It holds: each entity that it names could be read, and keeps it.
    Kept,
    /// It does not hold: what is found of the entities that it names, in their order.
    Broken(Vec<Found>),
}

/// What is found of an entity that must do what is demanded for a region.
fn each_finding(
    alloc: Global,
    demand: Demand,
    pools: Option<&[Pool]>,
    region: &Rights,
    subject: &Subject<'_>,
) -> Result<Option<Finding>, OutOfMemory>
    ensures { IfOk result (inside.IsEachFound demand (option_copied pools.entry) region.now.grants subject.now) }
{
    let Some(rights) = subject.read_rights() else {
        return Ok(Some(Finding::Unread));
    };
    match breach(alloc, demand, pools, region, rights)? {
        None => Ok(None),
        Some(found) => Ok(Some(Finding::Breach(found))),
    }
}

/// Requests of rights and of an entity that are to be apart. Nothing is found of an entity whose text could not be read.
fn crossing_of(
    alloc: Global,
    pools: Option<&[Pool]>,
    rights: &Rights,
    others: &Who,
    other: &Subject<'_>,
) -> Result<Option<Crossing>, OutOfMemory>
    ensures { IfOk result (inside.IsCrossedWith (option_copied pools.entry) rights.now.grants others.now other.now) }
{
    if !others.selects(other.name) {
        return Ok(None);
    }
    match other.rights {
        None => Ok(None),
        Some(theirs) => crossing_between(alloc, pools, rights, theirs),
    }
}

/// What is found of an entity with these rights and of the first of the others with which it is not apart.
fn crossed(
    alloc: Global,
    pools: Option<&[Pool]>,
    rights: &Rights,
    others: &Who,
    entities: &Entities<'_>,
) -> Result<Option<Finding>, OutOfMemory>
    ensures { IfOk result (inside.IsCrossedFound (option_copied pools.entry) rights.now.grants others.now entities.now) }
{
    let subjects = entities.subjects();
    let near = entities.near(alloc, rights)?;
    for place in &near {
        let found = crossing_of(alloc, pools, rights, others, &subjects[*place])?;
        if let Some(crossing) = found {
            return Ok(Some(Finding::Crossed(*place, crossing)));
        }
    }
    Ok(None)
}

/// What is found of an entity that is to be apart from others.
fn apart_finding(
    alloc: Global,
    pools: Option<&[Pool]>,
    ones: &Who,
    others: &Who,
    entities: &Entities<'_>,
    subject: &Subject<'_>,
) -> Result<Option<Finding>, OutOfMemory>
    ensures { IfOk result (spec.IsFinding (option_copied pools.entry) (Rule.Apart ones.now others.now) entities.now subject.now) }
{
    let name = subject.called();
    let is_one = ones.selects(name);
    if !is_one && !others.selects(name) {
        return Ok(None);
    }
    match subject.read_rights() {
        None => Ok(Some(Finding::Unread)),
        Some(rights) => {
            if is_one {
                crossed(alloc, pools, rights, others, entities)
            } else {
                Ok(None)
            }
        }
    }
}

/// What is found of an entity by a rule.
fn finding_of(
    alloc: Global,
    pools: Option<&[Pool]>,
    rule: &Rule,
    entities: &Entities<'_>,
    subject: &Subject<'_>,
) -> Result<Option<Finding>, OutOfMemory>
    ensures { IfOk result (spec.IsFinding (option_copied pools.entry) rule.now entities.now subject.now) }
{
    match rule {
        Rule::Each {
            demand,
            who,
            region,
        } => {
            if who.selects(subject.name) {
                each_finding(alloc, *demand, pools, region, subject)
            } else {
                Ok(None)
            }
        }
        Rule::Apart { ones, others } => {
            apart_finding(alloc, pools, ones, others, entities, subject)
        }
    }
}

/// The indices of the entities that have to be checked by a rule: nothing is found of the others.
fn places_for(
    alloc: Global,
    rule: &Rule,
    entities: &Entities<'_>,
) -> Result<Vec<usize>, OutOfMemory>
    ensures { IfOk result (λ places. (pools : Option (List PoolSeen)) → AreEnough pools rule.now entities.now places.items) }
{
    match rule {
        Rule::Each { demand, region, .. } => match demand {
            Demand::Never => entities.near(alloc, region),
            Demand::Always => entities.all(alloc),
        },
        Rule::Apart { .. } => entities.all(alloc),
    }
}

/// What is found of each entity by a rule, in their order. Those at other indices have no findings.
fn findings(
    alloc: Global,
    pools: Option<&[Pool]>,
    rule: &Rule,
    entities: &Entities<'_>,
    places: &[usize],
) -> Result<Vec<Found>, OutOfMemory>
    requires { AreEnough (option_copied pools) rule.now entities.now places.now }
    ensures { IfOk result (λ founds. spec.AreFound (option_copied pools.entry) rule.now entities.now 0 entities.now founds.items) }
{
    let subjects = entities.subjects();
    let mut founds = Vec::new(alloc);
    for place in places {
        let found = finding_of(alloc, pools, rule, entities, &subjects[*place])?;
        if let Some(finding) = found {
            founds.push(Found {
                place: *place,
                finding,
            })?;
        }
    }
    Ok(founds)
}

/// Checks the entities of a cluster by a rule: over all addresses, all requests that can be asked, by calls of every class
/// registry, and all pools or those that are given, each with exactly its tags.
///
/// A rule about nobody does not hold, and neither does one that names an entity whose text could not be read. When rights end is
/// not looked at. The only error is out of memory.
pub fn check(
    alloc: Global,
    pools: Option<&[Pool]>,
    rule: &Rule,
    entities: &Entities<'_>,
) -> Result<Outcome, OutOfMemory>
    ensures { IfOk result (spec.IsOutcome (option_copied pools.entry) rule.now entities.now) }
{
    if !rule.is_of_somebody(entities.subjects()) {
        return Ok(Outcome::Nobody);
    }
    let places = places_for(alloc, rule, entities)?;
    let founds = findings(alloc, pools, rule, entities, places.as_slice())?;
    if founds.is_empty() {
        Ok(Outcome::Kept)
    } else {
        Ok(Outcome::Broken(founds))
    }
}
