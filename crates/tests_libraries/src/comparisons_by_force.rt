//! Random pairs of texts, compared with all requests over small alphabets.

use crate::alphabets::{ALL_TAGS, all_needs, all_targets};
use crate::drawing::draw_text;
use crate::pieces::{expect_so, tags_of_each, ticket};
use cap_text::AllowGrant;
use compare_core::{Example, Registry, widening_by};
use grant_core::Path;
use std::alloc::Global;
use std::process::Abort;
use verdict_core::{Needs, Target, Ticket, grants_allow};

pub(crate) const TAGS: &[&str] = &[
    " tag p *=*",
    " tag p k=*",
    " tag p *=v",
    " tag p k=v",
    " tag q k=w",
];

/// Whether a request can be asked: for something, and of a listing to read alone.
fn can_be_asked(target: &Target<'_>, needs: &Needs) -> bool {
    let calls = !needs.calls.as_slice().is_empty();
    if target.object.is_empty() {
        needs.reads && !needs.writes && !calls
    } else {
        needs.reads || needs.writes || calls
    }
}

/// Whether a target shows a request that is allowed by the new grants and denied by the old one.
fn shows_at(
    old: &Ticket,
    new: &[(Path, AllowGrant)],
    target: &Target<'_>,
    needs: &[Needs],
) -> bool {
    // (the first needs ask nothing, and tell whether the new grants match)
    let [nothing, ..] = needs else {
        return false;
    };
    if !grants_allow(new, target, nothing) {
        return false;
    }
    for needs in needs {
        if can_be_asked(target, needs)
            && grants_allow(new, target, needs)
            && !grants_allow(old.grants(), target, needs)
        {
            return true;
        }
    }
    false
}

/// Whether some request over the alphabets is allowed by the new grants and denied by the old one.
pub(crate) fn gains(
    old: &Ticket,
    new: &[(Path, AllowGrant)],
    targets: &[Target<'_>],
    needs: &[Needs],
) -> bool {
    for target in targets {
        if shows_at(old, new, target, needs) {
            return true;
        }
    }
    false
}

/// Whether an example is of this one grant.
fn is_of(example: Option<&Example>, one: &[(Path, AllowGrant)]) -> bool {
    match (example, one) {
        (Some(example), [grant]) => example.path.as_slice() == grant.0.as_slice(),
        _ => false,
    }
}

/// Whether the examples are of the new grants that by themselves show something over the alphabets, in their order.
fn are_found(
    examples: &[Example],
    old: &Ticket,
    new: &Ticket,
    targets: &[Target<'_>],
    needs: &[Needs],
) -> bool {
    let mut told = examples.iter();
    for one in new.grants().chunks(1) {
        if gains(old, one, targets, needs) && !is_of(told.next(), one) {
            return false;
        }
    }
    told.next().is_none()
}

/// Whether a comparison finds what looking finds.
fn is_the_same<R: Abort>(
    rt: &R,
    alloc: Global,
    registry: Registry,
    texts: (&str, &str),
    targets: &[Target<'_>],
    needs: &[Needs],
) -> bool {
    let old = ticket(rt, alloc, texts.0, None);
    let new = ticket(rt, alloc, texts.1, None);
    let examples = widening_by(alloc, registry, &old, &new).expect(rt, "memory");
    are_found(examples.as_slice(), &old, &new, targets, needs)
}

fn expect_pairs<R: Abort>(
    rt: &R,
    alloc: Global,
    registry: Registry,
    pairs: u32,
    targets: &[Target<'_>],
    needs: &[Needs],
) {
    let mut row = 20u64;
    for _ in 0..pairs {
        let old = draw_text(rt, alloc, &mut row, TAGS);
        let new = draw_text(rt, alloc, &mut row, TAGS);
        let texts = (old.as_str(), new.as_str());
        let is_the_same = is_the_same(rt, alloc, registry, texts, targets, needs);
        expect_so(rt, is_the_same, new.as_str());
    }
}

fn expect_the_same<R: Abort>(rt: &R, alloc: Global, registry: Registry, pairs: u32) {
    let tags = tags_of_each(rt, alloc, ALL_TAGS);
    let targets = all_targets(rt, alloc, &tags);
    let needs = all_needs(rt, alloc, registry);
    expect_pairs(rt, alloc, registry, pairs, &targets, &needs);
}

#[test]
fn widening_finds_what_looking_finds(rt: HostRuntime) {
    expect_the_same(&rt, rt.alloc(), Registry::Every, 20);
}

#[test]
fn own_widening_finds_what_looking_finds(rt: HostRuntime) {
    expect_the_same(&rt, rt.alloc(), Registry::Own, 60);
}
