//! Clauses of a grant: each function reads what its name has in the grammar.

ghost use Rattle.std.specs.Prelude.{◌≡◌, ◌<◌, ◌∷◌, [], Some, option_map};
ghost use Rattle.ceph_text.specs.Readers.{word, present, optional};
ghost use Rattle.ceph_text.specs.Grammar as spec;
ghost use Rattle.ceph_text.specs.Pieces.{Reads, ns_of, part_of, tag_of};

use crate::bytes::{bare, inside, space, spaces, word};
use crate::pieces::{NsPiece, PartPiece, TagPiece};

#[tactic(auto, unfolding(crate::specs::Grammar::quoted))]
fn quoted<'a>(text: &'a str, mark: &str, quote: u8) -> Option<(&'a str, &'a str)>
    requires ascii { quote < 128 }
    requires same { mark.now ≡ quote ∷ [] }
    ensures { Reads (λ r. (r.0.now, r.1.now)) result (spec.quoted quote text.now) }
{
    let (inside, rest) = inside(word(text, mark)?, quote);
    let rest = word(rest, mark)?;
    Some((inside, rest))
}

#[tactic(auto, unfolding(crate::specs::Grammar::estr))]
fn estr(text: &str) -> Option<(&str, &str)>
    ensures { Reads (λ r. (r.0.now, r.1.now)) result (spec.estr text.now) }
{
    if let Some(found) = quoted(text, "\"", b'"') {
        return Some(found);
    }
    if let Some(found) = quoted(text, "'", b'\'') {
        return Some(found);
    }
    bare(text)
}

#[tactic(auto, unfolding(crate::specs::Grammar::str))]
pub(crate) fn name(text: &str) -> Option<(&str, &str)>
    ensures { Reads (λ r. (r.0.now, r.1.now)) result (spec.str text.now) }
{
    let (name, rest) = estr(text)?;
    if name.is_empty() {
        return None;
    }
    Some((name, rest))
}

#[tactic(auto, unfolding(crate::specs::Grammar::keyword))]
pub(crate) fn keyword<'a>(text: &'a str, bytes: &str) -> Option<&'a str>
    ensures { Reads (λ rest. (tt, rest.now)) result (spec.keyword bytes.now text.now) }
{
    word(space(text)?, bytes)
}

/// Whether these bytes are there, and the text behind them.
pub(crate) fn has_word<'a>(text: &'a str, bytes: &str) -> (bool, &'a str)
    ensures { present (word bytes.now) text.now ≡ Some (result.0, result.1.now) }
{
    match word(text, bytes) {
        Some(rest) => (true, rest),
        None => (false, text),
    }
}

pub(crate) fn has_keyword<'a>(text: &'a str, bytes: &str) -> (bool, &'a str)
    ensures { present (spec.keyword bytes.now) text.now ≡ Some (result.0, result.1.now) }
{
    match keyword(text, bytes) {
        Some(rest) => (true, rest),
        None => (false, text),
    }
}

#[tactic(auto, unfolding(crate::specs::Grammar::assigned))]
pub(crate) fn assigned(text: &str) -> Option<&str>
    ensures { Reads (λ rest. (tt, rest.now)) result (spec.assigned text.now) }
{
    if let Some(rest) = word(text, "=") {
        return Some(rest);
    }
    space(text)
}

#[tactic(auto, unfolding(crate::specs::Grammar::pool))]
fn pool(text: &str) -> Option<(&str, &str)>
    ensures { Reads (λ r. (r.0.now, r.1.now)) result (spec.pool text.now) }
{
    let rest = assigned(keyword(text, "pool")?)?;
    name(rest)
}

pub(crate) fn optional_pool(text: &str) -> (Option<&str>, &str)
    ensures { optional spec.pool text.now ≡ Some (option_map (λ name. name.now) result.0, result.1.now) }
{
    match pool(text) {
        Some((pool, rest)) => (Some(pool), rest),
        None => (None, text),
    }
}

fn namespaces(text: &str, starred: bool) -> NsPiece<'_>
    ensures { ns_of result ≡ spec.namespaces text.now starred }
{
    if starred {
        return NsPiece::Prefix(text);
    }
    let bytes = text.as_bytes();
    if 0 < bytes.len() && bytes[bytes.len() - 1] == b'*' {
        NsPiece::Prefix(text.split_at(bytes.len() - 1).0)
    } else {
        NsPiece::Exact(text)
    }
}

#[tactic(auto, unfolding(crate::specs::Grammar::ns))]
pub(crate) fn ns(text: &str) -> Option<(NsPiece<'_>, &str)>
    ensures { Reads (λ r. (ns_of r.0, r.1.now)) result (spec.ns text.now) }
{
    let rest = assigned(keyword(text, "namespace")?)?;
    let (text, rest) = estr(rest)?;
    let (starred, rest) = has_word(rest, "*");
    Some((namespaces(text, starred), rest))
}

pub(crate) fn optional_ns(text: &str) -> (Option<NsPiece<'_>>, &str)
    ensures { optional spec.ns text.now ≡ Some (option_map ns_of result.0, result.1.now) }
{
    match ns(text) {
        Some((ns, rest)) => (Some(ns), rest),
        None => (None, text),
    }
}

#[tactic(auto, unfolding(crate::specs::Grammar::prefix))]
fn prefix(text: &str) -> Option<(&str, &str)>
    ensures { Reads (λ r. (r.0.now, r.1.now)) result (spec.prefix text.now) }
{
    let rest = space(keyword(text, "object_prefix")?)?;
    name(rest)
}

pub(crate) fn optional_prefix(text: &str) -> (Option<&str>, &str)
    ensures { optional spec.prefix text.now ≡ Some (option_map (λ name. name.now) result.0, result.1.now) }
{
    match prefix(text) {
        Some((prefix, rest)) => (Some(prefix), rest),
        None => (None, text),
    }
}

/// A name, or the star if it is one.
fn named_part(name: &str) -> PartPiece<'_>
    ensures { part_of result ≡ spec.part_of name.now }
{
    if name == "*" {
        PartPiece::Any
    } else {
        PartPiece::Is(name)
    }
}

#[tactic(auto, unfolding(crate::specs::Grammar::part))]
fn part(text: &str) -> Option<(PartPiece<'_>, &str)>
    ensures { Reads (λ r. (part_of r.0, r.1.now)) result (spec.part text.now) }
{
    if let Some(rest) = word(text, "*") {
        return Some((PartPiece::Any, rest));
    }
    if let Some(rest) = word(text, "all") {
        return Some((PartPiece::Any, rest));
    }
    let (name, rest) = name(text)?;
    Some((named_part(name), rest))
}

#[tactic(auto, unfolding(crate::specs::Grammar::tag))]
pub(crate) fn tag(text: &str) -> Option<(TagPiece<'_>, &str)>
    ensures { Reads (λ r. (tag_of r.0, r.1.now)) result (spec.tag text.now) }
{
    let rest = space(keyword(text, "tag")?)?;
    let (application, rest) = name(rest)?;
    let (key, rest) = part(space(rest)?)?;
    let rest = spaces(word(spaces(rest), "=")?);
    let (value, rest) = part(rest)?;
    Some((
        TagPiece {
            application,
            key,
            value,
        },
        rest,
    ))
}
