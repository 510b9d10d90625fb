//! What is printed of one capability text.

ghost use Rattle.std.specs.Prelude.{◌≡◌, ◌&&◌, [], None, true, length, option_copied, IfOk, string_bytes};
ghost use Rattle.grant_core.specs.BuiltIn.{built_in};
ghost use Rattle.grant_core.specs.Refusal.{expand_refusal};
ghost use Rattle.verdict_text.specs.Reading.{fault_text};
ghost use Rattle.verdict_text.specs.Text.{refused_text};
ghost use Rattle.verdict_text.specs.declared.reading.Rules.TheVariants as by;
ghost use Rattle.lint_text.specs.Linted.{IsLintAnswer, IsListLinted, IsListTidied, IsTidyAnswer, IsTidyForm, has_mistake, lines_from, or_nothing, too_long_line};
ghost use Rattle.lint_text.specs.ReadLinted.{IsLintAnswerBy};

use crate::ceph::lint_ceph_read;
use crate::lines::{is_mistaken, push_lines};
use crate::reading::{Judged, judged_of, kept_of, list_of, listed};
use cap_text::{CapList, print};
use common_types::OutOfMemory;
use grant_core::ProfileTable;
use lint_core::Pool;
use std::alloc::Global;
use verdict_text::{Printed, ReadText, Reader, Rules, TextFault};

/// The most bytes of a text that can be read.
const MAX_BYTES: usize = 4096;

/// What is printed of a text that is refused, which fails.
pub(crate) fn refused(alloc: Global, fault: TextFault) -> Result<Printed, OutOfMemory>
    ensures { IfOk result (λ printed. (string_bytes printed.text ≡ refused_text (fault_text fault)) × (printed.fails ≡ true)) }
{
    let text = format!(in alloc; "refused {fault}\n")?;
    Ok(Printed { text, fails: true })
}

/// What is printed of a list whose grants are looked at.
fn linted(
    alloc: Global,
    list: &CapList,
    judged: &Judged,
    check: bool,
) -> Result<Printed, OutOfMemory>
    requires all { length judged.now.standings.items ≡ length list.now }
    requires each { length judged.now.without.items ≡ length list.now }
    ensures text { IfOk result (λ printed. string_bytes printed.text ≡ or_nothing (lines_from [] 1 list.now judged.now.standings.items judged.now.without.items)) }
    ensures fails { IfOk result (λ printed. printed.fails ≡ (check && has_mistake judged.now.standings.items judged.now.without.items)) }
{
    let mut text = String::new(alloc);
    push_lines(
        &mut text,
        "",
        list.grants(),
        &judged.standings,
        &judged.without,
    )?;
    if text.is_empty() {
        text.push_str("nothing redundant\n")?;
    }
    let fails = check && is_mistaken(&judged.standings, &judged.without);
    Ok(Printed { text, fails })
}

/// What is printed of a list that can be expanded.
fn linted_list(
    alloc: Global,
    profiles: &ProfileTable,
    list: &CapList,
    pools: Option<&[Pool]>,
    check: bool,
) -> Result<Printed, OutOfMemory>
    requires profiles { profiles.now ≡ built_in }
    requires expands { expand_refusal built_in list.now ≡ None }
    ensures { IfOk result (λ printed. IsListLinted (option_copied pools.entry) check list.now (string_bytes printed.text) printed.fails) }
{
    let judged = judged_of(alloc, profiles, list, pools)?;
    linted(alloc, list, &judged, check)
}

/// What the program prints of the grants of a capability text that nobody needs, by the built-in profiles.
///
/// Each grant has these lines, with its number `N`, counted from 1:
///
/// - `N redundant`, if the text without it allows the same, or `N redundant, by M`, if also the grant M is the first
///   other one that alone allows all that it allows;
/// - `N every pool`, if it names neither a pool nor a tag;
/// - `N matches no pool`, if pools are given and it matches none of them by its name and tags.
///
/// If no grant has a line, it prints `nothing redundant`. With a check it fails if a grant is redundant or matches no
/// pool. A text that has no grants prints `refused FAULT`, which fails.
pub fn lint_caps(
    alloc: Global,
    caps: &str,
    pools: Option<&[Pool]>,
    check: bool,
) -> Result<Printed, OutOfMemory>
    ensures { IfOk result (λ printed. IsLintAnswer (option_copied pools.entry) check caps.now (string_bytes printed.text) printed.fails) }
{
    let profiles = ProfileTable::builtin(alloc)?;
    match list_of(alloc, &profiles, caps)? {
        Ok(list) => linted_list(alloc, &profiles, &list, pools, check),
        Err(fault) => refused(alloc, fault),
    }
}

/// What is printed of a text that was read by this project's rules.
fn lint_project(
    alloc: Global,
    reader: &Reader,
    text: &ReadText,
    pools: Option<&[Pool]>,
    check: bool,
) -> Result<Printed, OutOfMemory>
    requires { text.now.rules ≡ by.Project }
    ensures { IfOk result (λ printed. IsLintAnswer (option_copied pools.entry) check text.now.text (string_bytes printed.text) printed.fails) }
{
    if let Err(fault) = text.read() {
        return refused(alloc, *fault);
    }
    match listed(text) {
        Some(list) => linted_list(alloc, reader.profiles(), list, pools, check),
        None => lint_caps(alloc, text.text(), pools, check),
    }
}

/// What the program prints of the grants that nobody needs of a capability text that was read: the lines of [`lint_caps`], or
/// those of [`crate::lint_ceph_caps`] where it was read by Ceph's rules. It is read again only where nothing is kept of what it
/// spells. `reader` lends its profiles.
pub fn lint_read(
    alloc: Global,
    reader: &Reader,
    text: &ReadText,
    pools: Option<&[Pool]>,
    check: bool,
) -> Result<Printed, OutOfMemory>
    ensures { IfOk result (λ printed. IsLintAnswerBy text.now.rules (option_copied pools.entry) check text.now.text (string_bytes printed.text) printed.fails) }
{
    match text.rules() {
        Rules::Project => lint_project(alloc, reader, text, pools, check),
        Rules::Ceph => lint_ceph_read(alloc, text, pools, check),
    }
}

/// What is printed where a tidied text of this many bytes could not be read again, which fails.
fn too_long(alloc: Global, size: usize) -> Result<Printed, OutOfMemory>
    ensures { IfOk result (λ printed. (string_bytes printed.text ≡ too_long_line size) × (printed.fails ≡ true)) }
{
    let text = format!(in alloc; "refused tidied text of {size} bytes, of at most 4096\n")?;
    Ok(Printed { text, fails: true })
}

/// The canonical form of what is kept of a list, on a line. With a check it fails where a grant went. A form that is longer than
/// a text may be is refused.
fn tidy(alloc: Global, list: &CapList, kept: &CapList, check: bool) -> Result<Printed, OutOfMemory>
    ensures { IfOk result (λ printed. IsTidyForm check list.now kept.now (string_bytes printed.text) printed.fails) }
{
    let mut text = print(alloc, kept)?;
    if text.len() > MAX_BYTES {
        return too_long(alloc, text.len());
    }
    text.push_str("\n")?;
    let fails = check && kept.grants().len() != list.grants().len();
    Ok(Printed { text, fails })
}

/// What is printed of a list that can be expanded, without its redundant grants.
fn tidy_list(
    alloc: Global,
    profiles: &ProfileTable,
    list: &CapList,
    check: bool,
) -> Result<Printed, OutOfMemory>
    requires profiles { profiles.now ≡ built_in }
    requires expands { expand_refusal built_in list.now ≡ None }
    ensures { IfOk result (λ printed. IsListTidied check list.now (string_bytes printed.text) printed.fails) }
{
    let kept = kept_of(alloc, profiles, list)?;
    tidy(alloc, list, &kept, check)
}

/// What the program prints of a capability text to tidy it up: the canonical form of some of its grants, on a line.
/// They allow the same as all, and each of them is needed among them. Of grants that could each be removed the earlier
/// ones stay. With a check it fails if a grant was removed. A text that has no grants prints `refused FAULT`, which
/// fails.
///
/// What is printed can be read again and spells these grants. A canonical form of more than 4,096 bytes, the most that a text
/// may have, prints `refused tidied text of N bytes, of at most 4096` instead, which fails.
pub fn tidy_caps(alloc: Global, caps: &str, check: bool) -> Result<Printed, OutOfMemory>
    ensures { IfOk result (λ printed. IsTidyAnswer check caps.now (string_bytes printed.text) printed.fails) }
{
    let profiles = ProfileTable::builtin(alloc)?;
    match list_of(alloc, &profiles, caps)? {
        Ok(list) => tidy_list(alloc, &profiles, &list, check),
        Err(fault) => refused(alloc, fault),
    }
}

/// What is printed to tidy up a text that was read by this project's rules.
fn tidy_project(
    alloc: Global,
    reader: &Reader,
    text: &ReadText,
    check: bool,
) -> Result<Printed, OutOfMemory>
    requires { text.now.rules ≡ by.Project }
    ensures { IfOk result (λ printed. IsTidyAnswer check text.now.text (string_bytes printed.text) printed.fails) }
{
    if let Err(fault) = text.read() {
        return refused(alloc, *fault);
    }
    match listed(text) {
        Some(list) => tidy_list(alloc, reader.profiles(), list, check),
        None => tidy_caps(alloc, text.text(), check),
    }
}

/// What [`tidy_caps`] prints of a capability text that was read. It is read again only where it was read by Ceph's rules, or nothing
/// is kept of what it spells. `reader` lends its profiles.
pub fn tidy_read(
    alloc: Global,
    reader: &Reader,
    text: &ReadText,
    check: bool,
) -> Result<Printed, OutOfMemory>
    ensures { IfOk result (λ printed. IsTidyAnswer check text.now.text (string_bytes printed.text) printed.fails) }
{
    match text.rules() {
        Rules::Project => tidy_project(alloc, reader, text, check),
        Rules::Ceph => tidy_caps(alloc, text.text(), check),
    }
}
