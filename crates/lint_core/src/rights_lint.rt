//! How each grant of a text that Ceph's rules expand stands to the others, at every address.

ghost use Rattle.std.specs.Prelude.{◌≡◌, ◌<◌, ◌^◌, ◌↔◌, false, IfOk, IsTrue, MatchOption, option_copied};
ghost use Rattle.lint_core.specs.RightsLint as spec;
ghost use Rattle.lint_core.specs.Lint.{AllowsAll};
ghost use Rattle.lint_core.specs.RightsLint.{AreLintsIn, CoversIn, IsFirstCoverIn, IsLintIn, IsRedundantIn, IsStandingIn, NoneCovers, part};
ghost use Rattle.lint_core.specs.Sampled.{AreSampled};

use crate::findings::Standing;
use crate::parts::{Sought, has_sought, part};
use crate::tickets::allows_all;
use common_types::OutOfMemory;
use rights_core::{Rights, addresses, tickets};
use share_core::Pool;
use std::alloc::Global;
use verdict_core::Ticket;

/// Which pools a grant reaches.
#[derive(Clone, Copy, Debug, PartialEq, Eq)]
pub enum Reach {
    /// Those of a name or a tag.
    Bounded,
    /// Every pool, there the objects whose names begin with a prefix.
    EveryPoolByPrefix,
    /// Every pool.
    EveryPool,
}

/// What is found of a grant of a text.
#[derive(Clone, Copy, Debug)]
pub struct GrantLint {
    /// How it stands to the others, at every address.
    pub standing: Standing,
    /// It expands to no grant: it uses a profile that Ceph does not know.
    pub nothing: bool,
    /// Its network matches no address.
    pub dead: bool,
    pub reach: Reach,
    /// It matches none of the pools that are given.
    pub without_pool: bool,
}

/// The tickets at addresses that decide for all addresses.
fn sampled(alloc: Global, rights: &Rights) -> Result<Vec<Ticket>, OutOfMemory>
    ensures { IfOk result (λ tickets. AreSampled rights.now tickets.items) }
{
    let samples = addresses(alloc, &[rights])?;
    let tickets = tickets(alloc, rights, samples.as_slice())?;
    Ok(tickets)
}

/// Whether all grants but that of a number allow the same as all. They do if they allow all that it allows.
fn others_allow_all(alloc: Global, number: usize, ticket: &Ticket) -> Result<bool, OutOfMemory>
    ensures { IfOk result (λ all. IsTrue all ↔ AllowsAll (part false number ticket.now.grants) ticket.now.grants) }
{
    let others = part(alloc, false, number, ticket)?;
    let own = part(alloc, true, number, ticket)?;
    let all = allows_all(alloc, &others, &own)?;
    Ok(all)
}

/// Whether at every address the other grants allow the same as all. The tickets decide for all addresses.
fn is_redundant(
    alloc: Global,
    rights: &Rights,
    tickets: &[Ticket],
    number: usize,
) -> Result<bool, OutOfMemory>
    requires { AreSampled rights.now tickets.now }
    ensures { IfOk result (λ redundant. IsTrue redundant ↔ IsRedundantIn rights.now number) }
{
    for ticket in tickets {
        if !others_allow_all(alloc, number, ticket)? {
            return Ok(false);
        }
    }
    Ok(true)
}

/// Whether another grant alone allows at every address all that the grant of a number allows there.
fn covers(
    alloc: Global,
    rights: &Rights,
    tickets: &[Ticket],
    number: usize,
    other: usize,
) -> Result<bool, OutOfMemory>
    requires { AreSampled rights.now tickets.now }
    ensures { IfOk result (λ covers. IsTrue covers ↔ CoversIn rights.now number other) }
{
    if other == number {
        return Ok(false);
    }
    for ticket in tickets {
        let own = part(alloc, true, number, ticket)?;
        let covering = part(alloc, true, other, ticket)?;
        if !allows_all(alloc, &covering, &own)? {
            return Ok(false);
        }
    }
    Ok(true)
}

/// The number of the first grant that covers the grant of a number.
fn first_cover(
    alloc: Global,
    rights: &Rights,
    tickets: &[Ticket],
    count: usize,
    number: usize,
) -> Result<Option<usize>, OutOfMemory>
    requires sampled { AreSampled rights.now tickets.now }
    requires few { count < 2 ^ 32 }
    ensures { IfOk result (λ found. MatchOption found (NoneCovers rights.now number count) (IsFirstCoverIn rights.now count number)) }
{
    for place in 0..count {
        if covers(alloc, rights, tickets, number, place + 1)? {
            return Ok(Some(place + 1));
        }
    }
    Ok(None)
}

/// How the grant of a number stands to the others.
fn standing_of(
    alloc: Global,
    rights: &Rights,
    tickets: &[Ticket],
    count: usize,
    number: usize,
) -> Result<Standing, OutOfMemory>
    requires sampled { AreSampled rights.now tickets.now }
    requires few { count < 2 ^ 32 }
    ensures { IfOk result (λ standing. IsStandingIn rights.now count number standing) }
{
    if !is_redundant(alloc, rights, tickets, number)? {
        return Ok(Standing::Needed);
    }
    match first_cover(alloc, rights, tickets, count, number)? {
        None => Ok(Standing::CoveredTogether),
        Some(found) => Ok(Standing::Covered(found)),
    }
}

/// Which pools the grant of a number reaches.
fn reach_of(rights: &Rights, number: usize) -> Reach
    ensures { result ≡ spec.reach_of rights.now number }
{
    if has_sought(rights, number, Sought::UnboundedWithoutPrefix) {
        Reach::EveryPool
    } else if has_sought(rights, number, Sought::Unbounded) {
        Reach::EveryPoolByPrefix
    } else {
        Reach::Bounded
    }
}

/// Whether the grant of a number matches none of the pools, where pools are given.
fn is_without_pool(rights: &Rights, number: usize, pools: Option<&[Pool]>) -> bool
    ensures { result ≡ spec.is_without_pool (option_copied pools.entry) rights.now number }
{
    match pools {
        None => false,
        Some(pools) => !has_sought(rights, number, Sought::OfPool(pools)),
    }
}

/// What is found of the grant of a number.
fn lint_of(
    alloc: Global,
    rights: &Rights,
    tickets: &[Ticket],
    count: usize,
    number: usize,
    pools: Option<&[Pool]>,
) -> Result<GrantLint, OutOfMemory>
    requires sampled { AreSampled rights.now tickets.now }
    requires few { count < 2 ^ 32 }
    ensures { IfOk result (λ found. IsLintIn (option_copied pools.entry) rights.now count number found) }
{
    Ok(GrantLint {
        standing: standing_of(alloc, rights, tickets, count, number)?,
        nothing: !has_sought(rights, number, Sought::Any),
        dead: has_sought(rights, number, Sought::Dead),
        reach: reach_of(rights, number),
        without_pool: is_without_pool(rights, number, pools),
    })
}

/// What is found of each grant of a text, in the text's order. `rights` are those of the text, and `count` is how many
/// grants the text has. The paths of what a grant expands to begin with its number, counted from 1.
///
/// What is allowed is compared at every address, over all targets, all reads and writes, and all calls of every class
/// registry. Each grant is checked alone: of two equal grants each is redundant, but only one can be removed. Pools are
/// checked if they are given. The only error is out of memory.
///
/// For each grant and each sample address it takes a comparison of the grant alone with all others, and for a redundant one a
/// comparison with each other grant.
pub fn lint_rights(
    alloc: Global,
    rights: &Rights,
    count: usize,
    pools: Option<&[Pool]>,
) -> Result<Vec<GrantLint>, OutOfMemory>
    requires { count < 2 ^ 32 }
    ensures { IfOk result (λ all. AreLintsIn (option_copied pools.entry) rights.now count all.items) }
{
    let tickets = sampled(alloc, rights)?;
    let mut all = Vec::new(alloc);
    for place in 0..count {
        all.push(lint_of(alloc, rights, tickets.as_slice(), count, place + 1, pools)?)?;
    }
    Ok(all)
}
