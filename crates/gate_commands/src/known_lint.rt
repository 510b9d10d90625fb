//! Redundant grants where requests call the methods of Ceph's class table alone.

use crate::known_changes::has_class;
use command_steps::{Methods, known_widening, rights_part};
use common_types::OutOfMemory;
use lint_core::{GrantLint, Pool, Reach, Standing, lint_rights};
use rights_core::Rights;
use std::alloc::Global;
use std::fmt::Write;
use verdict_core::ClassCall;
use verdict_text::{Printed, ReadText, Spelled};

/// The most grants that a text has.
const MAX_GRANTS: usize = 4_096;

/// How the grants of a text stand to one another, over which methods.
#[derive(Clone, Copy)]
pub(crate) struct KnownLint<'a, 'p> {
    pub(crate) methods: Methods,
    /// The methods that count.
    pub(crate) calls: &'a [ClassCall],
    pub(crate) pools: Option<&'p [Pool]>,
    pub(crate) check: bool,
}

/// What a text that Ceph read grants, and how many grants it has; or nothing where Ceph refuses it or it is empty.
pub(crate) fn ceph_grants(text: &ReadText) -> Option<(&Rights, usize)> {
    match (text.read(), text.spelled()) {
        (Ok(rights), Spelled::Counted(count)) => Some((rights, *count)),
        _ => None,
    }
}

/// Whether some rights allow all that others do.
fn allow_all(
    alloc: Global,
    calls: &[ClassCall],
    rights: &Rights,
    others: &Rights,
) -> Result<bool, OutOfMemory> {
    Ok(known_widening(alloc, calls, rights, others)?.is_empty())
}

/// The number of the first other grant that alone allows all that the grant of a number does.
fn first_cover(
    alloc: Global,
    calls: &[ClassCall],
    rights: &Rights,
    count: usize,
    number: usize,
) -> Result<Option<usize>, OutOfMemory> {
    let own = rights_part(alloc, rights, number, true)?;
    for place in 0..count {
        let other = place + 1;
        let theirs = rights_part(alloc, rights, other, true)?;
        if other != number && allow_all(alloc, calls, &theirs, &own)? {
            return Ok(Some(other));
        }
    }
    Ok(None)
}

/// How the grant of a number stands to the others.
fn known_standing(
    alloc: Global,
    calls: &[ClassCall],
    rights: &Rights,
    count: usize,
    number: usize,
) -> Result<Standing, OutOfMemory> {
    let others = rights_part(alloc, rights, number, false)?;
    if !allow_all(alloc, calls, &others, rights)? {
        return Ok(Standing::Needed);
    }
    match first_cover(alloc, calls, rights, count, number)? {
        Some(other) => Ok(Standing::Covered(other)),
        None => Ok(Standing::CoveredTogether),
    }
}

/// Adds the lines of a grant that expands to something at some address.
fn push_live(
    text: &mut String,
    before: &str,
    number: usize,
    found: &GrantLint,
) -> Result<(), OutOfMemory> {
    match found.standing {
        Standing::Needed => (),
        Standing::CoveredTogether => write!(text, "{before}{number} redundant\n")?,
        Standing::Covered(cover) => write!(text, "{before}{number} redundant, by {cover}\n")?,
    }
    match found.reach {
        Reach::Bounded => (),
        Reach::EveryPoolByPrefix => write!(text, "{before}{number} every pool, by prefix\n")?,
        Reach::EveryPool => write!(text, "{before}{number} every pool\n")?,
    }
    if found.without_pool {
        write!(text, "{before}{number} matches no pool\n")?;
    }
    Ok(())
}

/// Adds the lines of a grant.
fn push_found(
    text: &mut String,
    before: &str,
    number: usize,
    found: &GrantLint,
) -> Result<(), OutOfMemory> {
    if found.nothing {
        write!(text, "{before}{number} unknown profile, grants nothing\n")
    } else if found.dead {
        write!(text, "{before}{number} network matches no address\n")
    } else {
        push_live(text, before, number, found)
    }
}

/// Whether a check fails by a grant.
pub(crate) fn is_mistake(found: &GrantLint) -> bool {
    let is_redundant = !matches!(found.standing, Standing::Needed);
    found.nothing || found.dead || is_redundant || found.without_pool
}

/// What is found of each grant over the methods that count.
pub(crate) fn known_lints(
    alloc: Global,
    how: KnownLint<'_, '_>,
    rights: &Rights,
    count: usize,
) -> Result<Vec<GrantLint>, OutOfMemory> {
    let count = count.min(MAX_GRANTS);
    let mut all = lint_rights(alloc, rights, count, how.pools)?;
    for (place, found) in all.iter_mut().enumerate() {
        found.standing = known_standing(alloc, how.calls, rights, count, place + 1)?;
    }
    Ok(all)
}

/// The lines on the grants of a text that expands to these rights, each behind the text `before`. It is `None` if every
/// class registry counts and the methods make no difference.
pub(crate) fn known_lines(
    alloc: Global,
    how: KnownLint<'_, '_>,
    before: &str,
    rights: &Rights,
    count: usize,
) -> Result<Option<Printed>, OutOfMemory> {
    if how.methods == Methods::Every && !has_class(rights) {
        return Ok(None);
    }
    let all = known_lints(alloc, how, rights, count)?;
    let mut text = String::new(alloc);
    for (place, found) in all.iter().enumerate() {
        push_found(&mut text, before, place + 1, found)?;
    }
    Ok(Some(Printed {
        text,
        fails: how.check && all.iter().any(|found| is_mistake(found)),
    }))
}
