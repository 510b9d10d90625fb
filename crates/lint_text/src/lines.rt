//! The lines of the grants of a text.

ghost use Rattle.std.specs.Prelude.{◌≡◌, ◌≤◌, ◌++◌, length, string_bytes, OnOk};
ghost use Rattle.std.specs.List.{list_any};
ghost use Rattle.lint_text.specs.Linted as spec;
ghost use Rattle.lint_text.specs.Linted.{has_mistake, is_redundant, lines_from, pool_line, reach_line, standing_line};

use cap_text::Grant;
use common_types::OutOfMemory;
use lint_core::Standing;
use std::fmt::Write;

/// Adds the line of a grant that is redundant, behind the text `before`.
pub(crate) fn push_standing(
    text: &mut String,
    before: &str,
    number: usize,
    standing: Standing,
) -> Result<(), OutOfMemory>
    ensures { OnOk result (string_bytes text.new ≡ string_bytes text.old ++ standing_line before.now number standing) }
{
    match standing {
        Standing::Needed => Ok(()),
        Standing::CoveredTogether => write!(text, "{before}{number} redundant\n"),
        Standing::Covered(cover) => write!(text, "{before}{number} redundant, by {cover}\n"),
    }
}

/// Whether a grant names neither a pool nor a tag.
pub(crate) fn is_everywhere(grant: &Grant) -> bool
    ensures { result ≡ spec.is_everywhere grant.now }
{
    match grant {
        Grant::Allow(allow) => allow.pool.is_none() && allow.tag.is_none(),
        Grant::Profile(used) => used.pool.is_none(),
    }
}

/// Adds the line of a grant that is for every pool.
fn push_reach(
    text: &mut String,
    before: &str,
    number: usize,
    grant: &Grant,
) -> Result<(), OutOfMemory>
    ensures { OnOk result (string_bytes text.new ≡ string_bytes text.old ++ reach_line before.now number grant.now) }
{
    if is_everywhere(grant) {
        write!(text, "{before}{number} every pool\n")
    } else {
        Ok(())
    }
}

/// Adds the line of a grant that matches no pool.
pub(crate) fn push_without(
    text: &mut String,
    before: &str,
    number: usize,
    without: bool,
) -> Result<(), OutOfMemory>
    ensures { OnOk result (string_bytes text.new ≡ string_bytes text.old ++ pool_line before.now number without) }
{
    if without {
        write!(text, "{before}{number} matches no pool\n")
    } else {
        Ok(())
    }
}

/// Adds the lines of each grant.
pub(crate) fn push_lines(
    text: &mut String,
    before: &str,
    grants: &[Grant],
    standings: &[Standing],
    without: &[bool],
) -> Result<(), OutOfMemory>
    requires few { length grants.now ≤ 64 }
    requires all { length standings.now ≡ length grants.now }
    requires each { length without.now ≡ length grants.now }
    ensures { OnOk result (string_bytes text.new ≡ string_bytes text.old ++ lines_from before.now 1 grants.now standings.now without.now) }
{
    for (i, grant) in grants.iter().enumerate() {
        push_standing(text, before, i + 1, standings[i])?;
        push_reach(text, before, i + 1, grant)?;
        push_without(text, before, i + 1, without[i])?;
    }
    Ok(())
}

/// Whether some grant is redundant.
fn any_redundant(standings: &[Standing]) -> bool
    ensures { result ≡ list_any is_redundant standings.now }
{
    standings
        .iter()
        .any(|standing| !matches!(standing, Standing::Needed))
}

/// Whether some grant matches no pool.
fn any_without(without: &[bool]) -> bool
    ensures { result ≡ list_any (λ none. none) without.now }
{
    without.iter().any(|none| *none)
}

/// Whether some grant is redundant or matches no pool.
pub(crate) fn is_mistaken(standings: &[Standing], without: &[bool]) -> bool
    ensures { result ≡ has_mistake standings.now without.now }
{
    any_redundant(standings) || any_without(without)
}
