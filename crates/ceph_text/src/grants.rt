//! A grant at the front of a text.

ghost use Rattle.std.specs.Prelude.{◌≡◌, Some, option_map};
ghost use Rattle.ceph_text.specs.Readers.{optional};
ghost use Rattle.ceph_text.specs.Grammar as spec;
ghost use Rattle.ceph_text.specs.Pieces.{Reads, where_of, access_of, ceph_of};

use crate::bytes::{blanks, network_bytes, space, spaces, word};
use crate::clauses::{
    assigned, has_keyword, has_word, keyword, name, ns, optional_ns, optional_pool,
    optional_prefix, tag,
};
use crate::pieces::{AccessPiece, CephPiece, GrantPiece, Place};
use cap_text::Flags;

#[tactic(auto, unfolding(crate::specs::Grammar::tagged))]
fn tagged(text: &str) -> Option<(Place<'_>, &str)>
    ensures { Reads (λ r. (where_of r.0, r.1.now)) result (spec.tagged text.now) }
{
    let (tag, rest) = tag(text)?;
    let place = Place {
        pool: None,
        namespace: None,
        prefix: None,
        tag: Some(tag),
    };
    Some((place, rest))
}

#[tactic(auto, unfolding(crate::specs::Grammar::ns_tagged))]
fn ns_tagged(text: &str) -> Option<(Place<'_>, &str)>
    ensures { Reads (λ r. (where_of r.0, r.1.now)) result (spec.ns_tagged text.now) }
{
    let (ns, rest) = ns(text)?;
    let (tag, rest) = tag(rest)?;
    let place = Place {
        pool: None,
        namespace: Some(ns),
        prefix: None,
        tag: Some(tag),
    };
    Some((place, rest))
}

#[tactic(auto, unfolding(crate::specs::Grammar::untagged, crate::specs::Grammar::with_ns, crate::specs::Grammar::without_ns))]
fn untagged(text: &str) -> (Place<'_>, &str)
    ensures { spec.untagged text.now ≡ Some (where_of result.0, result.1.now) }
{
    let (pool, rest) = optional_pool(text);
    match ns(rest) {
        Some((ns, rest)) => {
            let (prefix, rest) = optional_prefix(rest);
            let place = Place {
                pool,
                namespace: Some(ns),
                prefix,
                tag: None,
            };
            (place, rest)
        }
        None => {
            let (prefix, rest) = optional_prefix(rest);
            let place = Place {
                pool,
                namespace: None,
                prefix,
                tag: None,
            };
            (place, rest)
        }
    }
}

#[tactic(auto, unfolding(crate::specs::Grammar::place))]
fn place(text: &str) -> (Place<'_>, &str)
    ensures { spec.place text.now ≡ Some (where_of result.0, result.1.now) }
{
    if let Some(found) = tagged(text) {
        return found;
    }
    if let Some(found) = ns_tagged(text) {
        return found;
    }
    untagged(text)
}

#[tactic(auto, unfolding(crate::specs::Grammar::everything))]
fn everything(text: &str) -> Option<(AccessPiece<'_>, &str)>
    ensures { Reads (λ r. (access_of r.0, r.1.now)) result (spec.everything text.now) }
{
    if let Some(rest) = keyword(text, "*") {
        return Some((AccessPiece::All, rest));
    }
    let rest = keyword(text, "all")?;
    Some((AccessPiece::All, rest))
}

#[tactic(auto, unfolding(crate::specs::Grammar::letters))]
fn letters(text: &str) -> Option<((bool, bool, bool), &str)>
    ensures { Reads (λ r. (r.0, r.1.now)) result (spec.letters text.now) }
{
    let rest = space(text)?;
    let (reads, rest) = has_word(rest, "r");
    let (writes, rest) = has_word(rest, "w");
    let (calls, rest) = has_word(rest, "x");
    if reads || writes || calls {
        Some(((reads, writes, calls), rest))
    } else {
        None
    }
}

fn optional_letters(text: &str) -> (Option<(bool, bool, bool)>, &str)
    ensures { optional spec.letters text.now ≡ Some (result.0, result.1.now) }
{
    match letters(text) {
        Some((letters, rest)) => (Some(letters), rest),
        None => (None, text),
    }
}

#[tactic(auto, unfolding(crate::specs::Grammar::flags))]
fn flags(text: &str) -> Option<(AccessPiece<'_>, &str)>
    ensures { Reads (λ r. (access_of r.0, r.1.now)) result (spec.flags text.now) }
{
    let (letters, rest) = optional_letters(text);
    let (class_read, rest) = has_keyword(rest, "class-read");
    let (class_write, rest) = has_keyword(rest, "class-write");
    match letters {
        Some((read, write, calls)) => {
            let flags = Flags {
                read,
                write,
                class_read: calls || class_read,
                class_write: calls || class_write,
            };
            Some((AccessPiece::Flags(flags), rest))
        }
        None => {
            if class_read || class_write {
                let flags = Flags {
                    read: false,
                    write: false,
                    class_read,
                    class_write,
                };
                Some((AccessPiece::Flags(flags), rest))
            } else {
                None
            }
        }
    }
}

#[tactic(auto, unfolding(crate::specs::Grammar::method))]
fn method(text: &str) -> Option<(&str, &str)>
    ensures { Reads (λ r. (r.0.now, r.1.now)) result (spec.method text.now) }
{
    name(space(text)?)
}

fn optional_method(text: &str) -> (Option<&str>, &str)
    ensures { optional spec.method text.now ≡ Some (option_map (λ name. name.now) result.0, result.1.now) }
{
    match method(text) {
        Some((method, rest)) => (Some(method), rest),
        None => (None, text),
    }
}

#[tactic(auto, unfolding(crate::specs::Grammar::class))]
fn class(text: &str) -> Option<(AccessPiece<'_>, &str)>
    ensures { Reads (λ r. (access_of r.0, r.1.now)) result (spec.class text.now) }
{
    let rest = space(keyword(text, "class")?)?;
    let (class, rest) = name(rest)?;
    let (method, rest) = optional_method(rest);
    Some((AccessPiece::Class(class, method), rest))
}

#[tactic(auto, unfolding(crate::specs::Grammar::spec))]
fn access(text: &str) -> Option<(AccessPiece<'_>, &str)>
    ensures { Reads (λ r. (access_of r.0, r.1.now)) result (spec.spec text.now) }
{
    if let Some(found) = everything(text) {
        return Some(found);
    }
    if let Some(found) = flags(text) {
        return Some(found);
    }
    class(text)
}

#[tactic(auto, unfolding(crate::specs::Grammar::network))]
fn network(text: &str) -> Option<(&str, &str)>
    ensures { Reads (λ r. (r.0.now, r.1.now)) result (spec.network text.now) }
{
    let rest = space(keyword(text, "network")?)?;
    network_bytes(rest)
}

fn optional_network(text: &str) -> (Option<&str>, &str)
    ensures { optional spec.network text.now ≡ Some (option_map (λ name. name.now) result.0, result.1.now) }
{
    match network(text) {
        Some((network, rest)) => (Some(network), rest),
        None => (None, text),
    }
}

#[tactic(auto, unfolding(crate::specs::Grammar::spec_first))]
fn spec_first(text: &str) -> Option<(CephPiece<'_>, &str)>
    ensures { Reads (λ r. (ceph_of r.0, r.1.now)) result (spec.spec_first text.now) }
{
    let (access, rest) = access(word(text, "allow")?)?;
    let (place, rest) = place(rest);
    let (network, rest) = optional_network(rest);
    let grant = GrantPiece::Allow(access, place);
    Some((CephPiece { grant, network }, rest))
}

#[tactic(auto, unfolding(crate::specs::Grammar::match_first))]
fn match_first(text: &str) -> Option<(CephPiece<'_>, &str)>
    ensures { Reads (λ r. (ceph_of r.0, r.1.now)) result (spec.match_first text.now) }
{
    let (place, rest) = place(word(text, "allow")?);
    let (access, rest) = access(rest)?;
    let (network, rest) = optional_network(rest);
    let grant = GrantPiece::Allow(access, place);
    Some((CephPiece { grant, network }, rest))
}

#[tactic(auto, unfolding(crate::specs::Grammar::profile))]
fn profile(text: &str) -> Option<(CephPiece<'_>, &str)>
    ensures { Reads (λ r. (ceph_of r.0, r.1.now)) result (spec.profile text.now) }
{
    let rest = assigned(word(text, "profile")?)?;
    let (name, rest) = name(rest)?;
    let (pool, rest) = optional_pool(rest);
    let (ns, rest) = optional_ns(rest);
    let (network, rest) = optional_network(rest);
    let grant = GrantPiece::Profile(name, pool, ns);
    Some((CephPiece { grant, network }, rest))
}

#[tactic(auto, unfolding(crate::specs::Grammar::form))]
fn form(text: &str) -> Option<(CephPiece<'_>, &str)>
    ensures { Reads (λ r. (ceph_of r.0, r.1.now)) result (spec.form text.now) }
{
    if let Some(found) = spec_first(text) {
        return Some(found);
    }
    if let Some(found) = match_first(text) {
        return Some(found);
    }
    profile(text)
}

#[tactic(auto, unfolding(crate::specs::Grammar::grant))]
fn grant(text: &str) -> Option<(CephPiece<'_>, &str)>
    ensures { Reads (λ r. (ceph_of r.0, r.1.now)) result (spec.grant text.now) }
{
    let (piece, rest) = form(blanks(text))?;
    Some((piece, blanks(rest)))
}

#[tactic(auto, unfolding(crate::specs::Grammar::first_grant))]
pub(crate) fn first_grant(text: &str) -> Option<(CephPiece<'_>, &str)>
    ensures { Reads (λ r. (ceph_of r.0, r.1.now)) result (spec.first_grant text.now) }
{
    grant(spaces(text))
}

#[tactic(auto, unfolding(crate::specs::Grammar::separator))]
fn separator(text: &str) -> Option<&str>
    ensures { Reads (λ rest. (tt, rest.now)) result (spec.separator text.now) }
{
    if let Some(rest) = word(text, ",") {
        return Some(rest);
    }
    word(text, ";")
}

#[tactic(auto, unfolding(crate::specs::Grammar::next_grant))]
pub(crate) fn next_grant(text: &str) -> Option<(CephPiece<'_>, &str)>
    ensures { Reads (λ r. (ceph_of r.0, r.1.now)) result (spec.next_grant text.now) }
{
    let rest = separator(blanks(text))?;
    grant(blanks(rest))
}
