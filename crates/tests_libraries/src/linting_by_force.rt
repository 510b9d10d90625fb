//! Random texts, of which all requests over small alphabets tell which grants nobody needs.

use crate::alphabets::{ALL_TAGS, all_needs, all_targets};
use crate::comparisons_by_force::{TAGS, gains};
use crate::drawing::draw_text;
use crate::pieces::{
    entities_of, expect_printed, expect_so, expect_text, pools_of, read_entities, tags_of_each,
    ticket,
};
use cap_text::{CapList, parse, print};
use compare_core::Registry;
use grant_core::ProfileTable;
use lint_core::{Standing, redundancy, tidied};
use lint_text::{lint_caps, lint_entities, lint_read, lint_read_entities, tidy_caps, tidy_read};
use std::alloc::Global;
use std::process::Abort;
use verdict_core::{Needs, Target};
use verdict_text::{Reader, Rules};

/// The text of a list without the grant at a place.
fn text_without<R: Abort>(rt: &R, alloc: Global, list: &CapList, place: usize) -> String {
    let mut kept = Vec::new(alloc);
    for (number, grant) in list.grants().iter().enumerate() {
        if number != place {
            let grant = grant.copy().expect(rt, "memory");
            kept.push(grant).expect(rt, "memory");
        }
    }
    if !CapList::can_hold(&kept) {
        return String::new(alloc);
    }
    print(alloc, &CapList::from_vec(kept)).expect(rt, "memory")
}

/// Whether a text denies something that the whole one allows, by looking.
fn denies_some<R: Abort>(
    rt: &R,
    alloc: Global,
    text: &str,
    whole: &str,
    targets: &[Target<'_>],
    needs: &[Needs],
) -> bool {
    let old = ticket(rt, alloc, text, None);
    let new = ticket(rt, alloc, whole, None);
    gains(&old, new.grants(), targets, needs)
}

/// Whether each grant of a list is reported as needed if the search over all requests finds so, and else as covered. A
/// built-in profile has a grant that gives all that the profile does.
fn are_right<R: Abort>(
    rt: &R,
    alloc: Global,
    list: &CapList,
    standings: &[Standing],
    targets: &[Target<'_>],
    needs: &[Needs],
) -> bool {
    let whole = print(alloc, list).expect(rt, "memory");
    for (place, standing) in standings.iter().enumerate() {
        let rest = text_without(rt, alloc, list, place);
        let needed = denies_some(rt, alloc, rest.as_str(), whole.as_str(), targets, needs);
        let right = match standing {
            Standing::Needed => needed,
            Standing::CoveredTogether => false,
            Standing::Covered(_) => !needed,
        };
        if !right {
            return false;
        }
    }
    true
}

/// Whether the search confirms the report on a text, and the tidied text allows the same and needs each of its grants.
fn is_right<R: Abort>(
    rt: &R,
    alloc: Global,
    text: &str,
    targets: &[Target<'_>],
    needs: &[Needs],
) -> bool {
    let list = parse(alloc, text).expect(rt, "a list");
    let table = ProfileTable::builtin(alloc).expect(rt, "profiles");
    let told = redundancy(alloc, &table, &list).expect(rt, "memory");
    let kept = tidied(alloc, &table, &list).expect(rt, "memory");
    let left = redundancy(alloc, &table, &kept).expect(rt, "memory");
    let printed = print(alloc, &kept).expect(rt, "memory");
    left.iter().all(|one| matches!(one, Standing::Needed))
        && !denies_some(rt, alloc, printed.as_str(), text, targets, needs)
        && !denies_some(rt, alloc, text, printed.as_str(), targets, needs)
        && are_right(rt, alloc, &list, &told, targets, needs)
        && are_right(rt, alloc, &kept, &left, targets, needs)
}

fn expect_texts<R: Abort>(
    rt: &R,
    alloc: Global,
    texts: u32,
    targets: &[Target<'_>],
    needs: &[Needs],
) {
    let mut row = 11u64;
    for _ in 0..texts {
        let text = draw_text(rt, alloc, &mut row, TAGS);
        let is_right = is_right(rt, alloc, text.as_str(), targets, needs);
        expect_so(rt, is_right, text.as_str());
    }
}

#[test]
fn linting_finds_what_looking_finds(rt: HostRuntime) {
    let alloc = rt.alloc();
    let tags = tags_of_each(&rt, alloc, ALL_TAGS);
    let targets = all_targets(&rt, alloc, &tags);
    let needs = all_needs(&rt, alloc, Registry::Every);
    expect_texts(&rt, alloc, 5, &targets, &needs);
}

/// A table with a profile of two grants, neither of which gives what the other does.
fn table_of_both<R: Abort>(rt: &R, alloc: Global) -> ProfileTable {
    let both = parse(alloc, "allow r pool=a, allow w pool=b").expect(rt, "a list");
    let mut table = ProfileTable::builtin(alloc).expect(rt, "profiles");
    table.add("both", both).expect(rt, "a profile");
    table
}

/// Whether the first grant is redundant, and covers the two others.
fn are_covered(told: &[Standing]) -> bool {
    matches!(
        told,
        [
            Standing::CoveredTogether,
            Standing::Covered(1),
            Standing::Covered(1)
        ]
    )
}

#[test]
fn two_grants_cover_one(rt: HostRuntime) {
    let alloc = rt.alloc();
    let table = table_of_both(&rt, alloc);
    let list = parse(alloc, "profile both, allow r pool=a, allow w pool=b").expect(&rt, "a list");
    let told = redundancy(alloc, &table, &list).expect(&rt, "memory");
    expect_so(&rt, are_covered(&told), "two grants that one covers");
    let kept = tidied(alloc, &table, &list).expect(&rt, "memory");
    let printed = print(alloc, &kept).expect(&rt, "memory");
    expect_text(&rt, printed.as_str(), "profile both", "what is kept");
}

const CAPS: &str = "allow rw, allow r pool=data";

#[test]
fn lines_are_printed(rt: HostRuntime) {
    let alloc = rt.alloc();
    let linted = lint_caps(alloc, CAPS, None, true).expect(&rt, "memory");
    expect_printed(&rt, &linted, "1 every pool\n2 redundant, by 1\n", true);
    let tidied = tidy_caps(alloc, CAPS, false).expect(&rt, "memory");
    expect_printed(&rt, &tidied, "allow rw\n", false);
    let pools = pools_of(&rt, alloc, &[("logs", &[])]);
    let linted = lint_caps(alloc, CAPS, Some(&pools), true).expect(&rt, "memory");
    let lines = "1 every pool\n2 redundant, by 1\n2 matches no pool\n";
    expect_printed(&rt, &linted, lines, true);
    let entities = entities_of(&rt, alloc, &[("client.a", CAPS)]);
    let linted = lint_entities(alloc, &entities, None, true).expect(&rt, "memory");
    let lines = "client.a 1 every pool\nclient.a 2 redundant, by 1\n";
    expect_printed(&rt, &linted, lines, true);
}

#[test]
fn lines_of_texts_that_were_read_are_printed(rt: HostRuntime) {
    let alloc = rt.alloc();
    let reader = Reader::of(alloc, Rules::Project).expect(&rt, "memory");
    let entities = entities_of(&rt, alloc, &[("client.a", CAPS)]);
    let read = read_entities(&rt, alloc, &entities);
    let linted = lint_read_entities(alloc, &reader, &read, None, true).expect(&rt, "memory");
    let lines = "client.a 1 every pool\nclient.a 2 redundant, by 1\n";
    expect_printed(&rt, &linted, lines, true);
    for entity in &read {
        let linted = lint_read(alloc, &reader, &entity.osd, None, true).expect(&rt, "memory");
        expect_printed(&rt, &linted, "1 every pool\n2 redundant, by 1\n", true);
        let tidied = tidy_read(alloc, &reader, &entity.osd, false).expect(&rt, "memory");
        expect_printed(&rt, &tidied, "allow rw\n", false);
    }
}
