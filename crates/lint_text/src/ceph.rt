//! What is printed by Ceph's rules.

ghost use Rattle.std.specs.Prelude.{◌≡◌, ◌++◌, ◌&&◌, [], false, codes, option_copied, IfOk, OnOk, string_bytes};
ghost use Rattle.std.specs.List.{list_any};
ghost use Rattle.verdict_text.specs.ShownName.{shown_name};
ghost use Rattle.verdict_text.specs.declared.reading.Rules.TheVariants as by;
ghost use Rattle.lint_text.specs.CephLinted.{AreCephLinted, IsCephEntityTold, IsCephLintAnswer, IsCephNameTold, IsFoundOf, all_lines, found_lines, is_mistake, line_of, live_lines, reach_line};
ghost use Rattle.lint_text.specs.Linted.{is_redundant, or_nothing};

use crate::lines::{push_standing, push_without};
use crate::texts::refused;
use common_types::OutOfMemory;
use lint_core::{GrantLint, Pool, Reach, Standing, lint_rights};
use std::alloc::Global;
use std::fmt::Write;
use verdict_text::{Entity, Printed, ReadText, Spelled, TextFault, push_name, read_ceph_rights};

/// Adds a line: what stands before it, the number of a grant, and words that end with a line feed.
fn push_line(text: &mut String, before: &str, number: usize, words: &str) -> Result<(), OutOfMemory>
    ensures { OnOk result (string_bytes text.new ≡ string_bytes text.old ++ line_of before.now number words.now) }
{
    write!(text, "{before}{number}{words}")
}

/// Adds the line of a grant that reaches every pool.
fn push_reach(
    text: &mut String,
    before: &str,
    number: usize,
    reach: Reach,
) -> Result<(), OutOfMemory>
    ensures { OnOk result (string_bytes text.new ≡ string_bytes text.old ++ reach_line before.now number reach) }
{
    match reach {
        Reach::Bounded => Ok(()),
        Reach::EveryPoolByPrefix => push_line(text, before, number, " every pool, by prefix\n"),
        Reach::EveryPool => push_line(text, before, number, " every pool\n"),
    }
}

/// Adds the lines of a grant that expands to something at some address.
fn push_live(
    text: &mut String,
    before: &str,
    number: usize,
    found: &GrantLint,
) -> Result<(), OutOfMemory>
    ensures { OnOk result (string_bytes text.new ≡ string_bytes text.old ++ live_lines before.now number found.now) }
{
    push_standing(text, before, number, found.standing)?;
    push_reach(text, before, number, found.reach)?;
    push_without(text, before, number, found.without_pool)
}

/// Adds the lines of a grant.
fn push_found(
    text: &mut String,
    before: &str,
    number: usize,
    found: &GrantLint,
) -> Result<(), OutOfMemory>
    ensures { OnOk result (string_bytes text.new ≡ string_bytes text.old ++ found_lines before.now number found.now) }
{
    if found.nothing {
        push_line(text, before, number, " unknown profile, grants nothing\n")
    } else if found.dead {
        push_line(text, before, number, " network matches no address\n")
    } else {
        push_live(text, before, number, found)
    }
}

/// Adds the lines of each grant.
fn push_all(text: &mut String, before: &str, all: &[GrantLint]) -> Result<(), OutOfMemory>
    ensures { OnOk result (string_bytes text.new ≡ string_bytes text.old ++ all_lines before.now 1 all.now) }
{
    for (i, found) in all.iter().enumerate() {
        push_found(text, before, i + 1, found)?;
    }
    Ok(())
}

fn is_redundant(standing: Standing) -> bool
    ensures { result ≡ is_redundant standing }
{
    !matches!(standing, Standing::Needed)
}

fn is_mistake(found: &GrantLint) -> bool
    ensures { result ≡ is_mistake found.now }
{
    found.nothing || found.dead || is_redundant(found.standing) || found.without_pool
}

fn has_mistake(all: &[GrantLint]) -> bool
    ensures { result ≡ list_any is_mistake all.now }
{
    all.iter().any(|found| is_mistake(found))
}

/// What is found of the grants of a text, or why Ceph reads none. An `Err` is out of memory alone.
pub(crate) fn found_of(
    alloc: Global,
    caps: &str,
    pools: Option<&[Pool]>,
) -> Result<Result<Vec<GrantLint>, TextFault>, OutOfMemory>
    ensures { IfOk result (λ found. IsFoundOf (option_copied pools.entry) caps.now found) }
{
    match read_ceph_rights(alloc, caps)? {
        Ok(read) => {
            let all = lint_rights(alloc, &read.rights, read.count, pools)?;
            Ok(Ok(all))
        }
        Err(fault) => Ok(Err(fault)),
    }
}

/// What is found of the grants of a text that was read by Ceph's rules, or why Ceph reads none. The empty text alone, which Ceph
/// refuses, is read again. An `Err` is out of memory alone.
#[tactic(auto, using(crate::proofs::KeptLists::found_counted))]
pub(crate) fn found_read(
    alloc: Global,
    text: &ReadText,
    pools: Option<&[Pool]>,
) -> Result<Result<Vec<GrantLint>, TextFault>, OutOfMemory>
    requires { text.now.rules ≡ by.Ceph }
    ensures { IfOk result (λ found. IsFoundOf (option_copied pools.entry) text.now.text found) }
{
    match text.read() {
        Err(fault) => Ok(Err(*fault)),
        Ok(rights) => match text.spelled() {
            Spelled::Counted(count) => Ok(Ok(lint_rights(alloc, rights, *count, pools)?)),
            Spelled::Nothing | Spelled::Listed(_) => found_of(alloc, text.text(), pools),
        },
    }
}

/// What is printed of a text whose grants are looked at.
fn linted(alloc: Global, all: &[GrantLint], check: bool) -> Result<Printed, OutOfMemory>
    ensures text { IfOk result (λ printed. string_bytes printed.text ≡ or_nothing (all_lines [] 1 all.now)) }
    ensures fails { IfOk result (λ printed. printed.fails ≡ (check && list_any is_mistake all.now)) }
{
    let mut text = String::new(alloc);
    push_all(&mut text, "", all)?;
    if text.is_empty() {
        text.push_str("nothing redundant\n")?;
    }
    Ok(Printed {
        text,
        fails: check && has_mistake(all),
    })
}

/// What is printed of a text that was read by Ceph's rules.
pub(crate) fn lint_ceph_read(
    alloc: Global,
    text: &ReadText,
    pools: Option<&[Pool]>,
    check: bool,
) -> Result<Printed, OutOfMemory>
    requires { text.now.rules ≡ by.Ceph }
    ensures { IfOk result (λ printed. IsCephLintAnswer (option_copied pools.entry) check text.now.text (string_bytes printed.text) printed.fails) }
{
    match found_read(alloc, text, pools)? {
        Ok(all) => linted(alloc, all.as_slice(), check),
        Err(fault) => refused(alloc, fault),
    }
}

/// What the program prints of the grants of a capability text that nobody needs, by Ceph's rules and at every address.
///
/// Each grant has these lines, with its number `N`, counted from 1:
///
/// - `N redundant` or `N redundant, by M`, as [`crate::lint_caps`] prints them;
/// - `N every pool`, if some grant that it expands to names neither a pool nor a tag, or `N every pool, by prefix`, if
///   all such grants have a prefix of objects;
/// - `N matches no pool`, if pools are given and none matches;
/// - `N unknown profile, grants nothing` alone, if it uses an unknown profile;
/// - `N network matches no address` alone, if its network matches no address.
///
/// If no grant has a line, it prints `nothing redundant`. With a check it fails if some grant has a line other than
/// those on every pool. A text that Ceph refuses prints `refused FAULT`, which fails.
pub fn lint_ceph_caps(
    alloc: Global,
    caps: &str,
    pools: Option<&[Pool]>,
    check: bool,
) -> Result<Printed, OutOfMemory>
    ensures { IfOk result (λ printed. IsCephLintAnswer (option_copied pools.entry) check caps.now (string_bytes printed.text) printed.fails) }
{
    match found_of(alloc, caps, pools)? {
        Ok(all) => linted(alloc, all.as_slice(), check),
        Err(fault) => refused(alloc, fault),
    }
}

/// What is printed of an entity whose grants are looked at: their lines, behind its name.
fn linted_entity(
    alloc: Global,
    name: &str,
    all: &[GrantLint],
    check: bool,
) -> Result<Printed, OutOfMemory>
    ensures text { IfOk result (λ printed. string_bytes printed.text ≡ all_lines (shown_name name.now ++ codes " ") 1 all.now) }
    ensures fails { IfOk result (λ printed. printed.fails ≡ (check && list_any is_mistake all.now)) }
{
    let mut before = String::new(alloc);
    push_name(&mut before, name)?;
    before.push_str(" ")?;
    let mut text = String::new(alloc);
    push_all(&mut text, before.as_str(), all)?;
    Ok(Printed {
        text,
        fails: check && has_mistake(all),
    })
}

/// What is printed of an entity that is left out: one of no text, or of one that Ceph refuses.
fn nothing(alloc: Global) -> Printed
    ensures text { string_bytes result.text ≡ [] }
    ensures fails { result.fails ≡ false }
{
    Printed {
        text: String::new(alloc),
        fails: false,
    }
}

/// What is printed of an entity of a name whose text was read by Ceph's rules.
pub(crate) fn told_ceph(
    alloc: Global,
    name: &str,
    text: &ReadText,
    pools: Option<&[Pool]>,
    check: bool,
) -> Result<Printed, OutOfMemory>
    requires { text.now.rules ≡ by.Ceph }
    ensures { IfOk result (λ printed. IsCephNameTold (option_copied pools.entry) check name.now text.now.text (string_bytes printed.text) printed.fails) }
{
    match found_read(alloc, text, pools)? {
        Ok(all) => linted_entity(alloc, name, all.as_slice(), check),
        Err(_) => Ok(nothing(alloc)),
    }
}

/// What is printed of an entity.
fn told(
    alloc: Global,
    entity: &Entity,
    pools: Option<&[Pool]>,
    check: bool,
) -> Result<Printed, OutOfMemory>
    ensures { IfOk result (λ printed. IsCephEntityTold (option_copied pools.entry) check entity.now (string_bytes printed.text) printed.fails) }
{
    match found_of(alloc, entity.osd.as_str(), pools)? {
        Ok(all) => linted_entity(alloc, entity.name.as_str(), all.as_slice(), check),
        Err(_) => Ok(nothing(alloc)),
    }
}

/// What the program prints by Ceph's rules of the grants of some entities that nobody needs: the lines of [`lint_ceph_caps`] for
/// each entity's text, each behind the entity's name and a blank. Names are written by [`verdict_text::push_name`].
/// An entity whose text Ceph refuses has no line. With a check it fails where it does for some text.
pub fn lint_ceph_entities(
    alloc: Global,
    entities: &[Entity],
    pools: Option<&[Pool]>,
    check: bool,
) -> Result<Printed, OutOfMemory>
    ensures { IfOk result (λ printed. AreCephLinted (option_copied pools.entry) check entities.now (string_bytes printed.text) printed.fails) }
{
    let mut text = String::new(alloc);
    let mut fails = false;
    for entity in entities {
        let told = told(alloc, entity, pools, check)?;
        text.push_str(told.text.as_str())?;
        fails = fails || told.fails;
    }
    Ok(Printed { text, fails })
}
