//! What is printed, once by each call. `sessions/` shows the texts.

use crate::pieces::{entities_of, expect_printed, expect_so, expect_text, name, read_entities};
use common_types::Tags;
use compare_core::{OwnedTarget, Registry};
use compare_text::{
    Comparison, compare_entities, compare_pairs, compare_text, push_target, read_pairs,
};
use std::alloc::Global;
use std::process::Abort;
use verdict_core::Target;
use verdict_text::{
    Asked, Entity, Explained, Format, NamedEntities, Printing, Reader, Rules, TextFault, answer,
    explain_ceph, explain_text, list_by, point_at_fault, push_shown_text, read_explained, text_of,
    verdict_by, verdict_text,
};
use who_text::{who_table, who_text};

/// A text that may read and write a pool.
const CAPS: &str = "allow rw pool=data";

/// Over every class registry, where a gain fails.
const CHECKED: Comparison = Comparison {
    registry: Registry::Every,
    check: true,
    format: Format::Text,
};

/// A write to the object x of a pool.
fn write<'a>(pool: &'a str, tags: &'a Tags, tick: u64) -> Asked<'a> {
    Asked {
        target: Target {
            pool: pool.as_bytes(),
            tags,
            namespace: b"",
            object: b"x",
        },
        reads: false,
        writes: true,
        calls: &[],
        stated: &[],
        tick,
        from: None,
    }
}

/// What a verdict on a write to this pool prints, where a ticket ends at the tick 10.
fn verdict<R: Abort>(rt: &R, alloc: Global, pool: &str, tick: u64) -> String {
    let tags = Tags::from_vec(Vec::new(alloc));
    verdict_text(alloc, CAPS, Some(10), &write(pool, &tags, tick)).expect(rt, "memory")
}

/// Pools that are written to, when, and the verdict.
const VERDICTS: &[(&str, u64, &str); 3] = &[
    ("data", 9, "allow\n"),
    ("logs", 9, "deny\n1 pool   allow rw pool=data\n"),
    ("data", 10, "deny\n1 expired   allow rw pool=data\n"),
];

#[test]
fn verdicts_print(rt: HostRuntime) {
    for (pool, tick, want) in VERDICTS {
        let verdict = verdict(&rt, rt.alloc(), pool, *tick);
        expect_text(&rt, verdict.as_str(), want, pool);
    }
}

/// What explains a text by this project's rules.
fn explained<R: Abort>(rt: &R, alloc: Global, caps: &str) -> Explained {
    let reader = Reader::of(alloc, Rules::Project).expect(rt, "memory");
    let caps = String::from_str(alloc, caps).expect(rt, "memory");
    read_explained(alloc, &reader, caps, Format::Text).expect(rt, "memory")
}

/// Whether what points at the fault of a text is this.
fn is_pointed_at<R: Abort>(rt: &R, alloc: Global, caps: &str, below: &str) -> bool {
    let mut pointed: Vec<u8> = Vec::new(alloc);
    let text = explained(rt, alloc, caps).text;
    point_at_fault(alloc, &text, &mut pointed);
    pointed.as_slice() == below.as_bytes()
}

#[test]
fn texts_print(rt: HostRuntime) {
    let alloc = rt.alloc();
    let lines = "allow rw pool=data\n1 allow rw pool=data\n";
    expect_printed(&rt, &explained(&rt, alloc, CAPS).printed, lines, false);
    let explained = explain_text(alloc, CAPS, Format::Text).expect(&rt, "memory");
    expect_printed(&rt, &explained, lines, false);
    let explained = explain_ceph(alloc, CAPS, Format::Text).expect(&rt, "memory");
    expect_printed(&rt, &explained, "1 allow rw pool=data\n", false);
    let more = "allow rw pool=data, allow r pool=data";
    let compared = compare_text(alloc, CAPS, more, CHECKED).expect(&rt, "memory");
    expect_printed(&rt, &compared, "same\n", false);
    let is_pointed_at = is_pointed_at(&rt, alloc, "deny r", "deny r\n^\n");
    expect_so(&rt, is_pointed_at, "a fault");
}

/// One entity.
const APP: &[(&str, &str); 1] = &[("client.app", CAPS)];

/// What some entities may do of writes to the pools data and logs.
fn table<R: Abort>(rt: &R, alloc: Global, entities: &[Entity], format: Format) -> String {
    let tags = Tags::from_vec(Vec::new(alloc));
    let requests = [write("data", &tags, 0), write("logs", &tags, 0)];
    let read = read_entities(rt, alloc, entities);
    who_table(alloc, read.as_slice(), requests.as_slice(), format).expect(rt, "memory")
}

/// The document of a verdict on a write to the pool data, without grants.
fn document<R: Abort>(rt: &R, alloc: Global) -> String {
    let tags = Tags::from_vec(Vec::new(alloc));
    let answer = answer(alloc, CAPS, None, &write("data", &tags, 0)).expect(rt, "memory");
    text_of(alloc, &answer, Format::Json).expect(rt, "memory")
}

/// The verdict on a write to a pool, with the grants.
fn reasoned<R: Abort>(rt: &R, alloc: Global, pool: &str, format: Format) -> String {
    let tags = Tags::from_vec(Vec::new(alloc));
    let asked = write(pool, &tags, 0);
    let read = explained(rt, alloc, CAPS).text;
    let answer = answer(alloc, CAPS, None, &asked).expect(rt, "memory");
    let how = Printing {
        rules: Rules::Project,
        why: true,
        format,
    };
    verdict_by(alloc, how, read.read(), &asked, &answer).expect(rt, "memory")
}

/// A pool that is written to, a format, and what is printed with the grants.
type ReasonedRow = (&'static str, Format, &'static str);

const REASONED: &[ReasonedRow; 4] = &[
    ("data", Format::Text, "allow\n1   allow rw pool=data\n"),
    ("logs", Format::Text, "deny\n1 pool   allow rw pool=data\n"),
    (
        "data",
        Format::Json,
        "{\"grants\":[{\"grant\":\"allow rw pool=data\",\"path\":\"1\"}],\"verdict\":\"allow\"}\n",
    ),
    (
        "logs",
        Format::Json,
        "{\"report\":[{\"condition\":\"pool\",\"grant\":\"allow rw pool=data\",\"path\":\"1\"}],\"verdict\":\"deny\"}\n",
    ),
];

#[test]
fn grants_are_printed(rt: HostRuntime) {
    for (pool, format, want) in REASONED {
        let text = reasoned(&rt, rt.alloc(), pool, *format);
        expect_text(&rt, text.as_str(), want, pool);
    }
}

/// The table of an entity as a document.
const TABLE: &str =
    "{\"entities\":[{\"answers\":[{\"verdict\":\"allow\"},{\"report\":[{\"condition\":\"pool\",\"path\":\"1\"}],\"verdict\":\"deny\"}],\"entity\":\"client.app\"}]}\n";

#[test]
fn tables_and_documents_print(rt: HostRuntime) {
    let alloc = rt.alloc();
    let app = entities_of(&rt, alloc, APP);
    let text = table(&rt, alloc, &app, Format::Text);
    expect_text(
        &rt,
        text.as_str(),
        "entity            1        2\nclient.app    allow     deny\n",
        "a table",
    );
    let text = table(&rt, alloc, &app, Format::Json);
    expect_text(&rt, text.as_str(), TABLE, "a document of a table");
    let text = document(&rt, alloc);
    expect_text(
        &rt,
        text.as_str(),
        "{\"verdict\":\"allow\"}\n",
        "a document",
    );
}

/// Whether an entity of this name and text is found.
fn is_found(named: &NamedEntities<'_>, name: &str) -> bool {
    match named.find(name) {
        Some(entity) => entity.osd.as_str() == CAPS,
        None => false,
    }
}

#[test]
fn entities_print(rt: HostRuntime) {
    let alloc = rt.alloc();
    let app = entities_of(&rt, alloc, APP);
    let tags = Tags::from_vec(Vec::new(alloc));
    let asked = write("data", &tags, 0);
    let read = read_entities(&rt, alloc, &app);
    let who = who_text(alloc, read.as_slice(), &asked, true, Format::Text).expect(&rt, "memory");
    expect_printed(&rt, &who, "client.app allow\n", false);
    let reader = Reader::of(alloc, Rules::Project).expect(&rt, "memory");
    let none = compare_entities(alloc, &reader, &app, &app, CHECKED).expect(&rt, "memory");
    expect_printed(&rt, &none, "", false);
    let named = NamedEntities::of(alloc, &app).expect(&rt, "memory");
    expect_so(&rt, is_found(&named, "client.app"), "an entity");
    expect_so(&rt, !is_found(&named, "client"), "no entity");
}

#[test]
fn pairs_print(rt: HostRuntime) {
    let alloc = rt.alloc();
    let reader = Reader::of(alloc, Rules::Project).expect(&rt, "memory");
    let old = entities_of(
        &rt,
        alloc,
        &[("client.a", "allow r pool=data"), ("client.b", CAPS)],
    );
    let new = entities_of(&rt, alloc, &[("client.a", CAPS), ("client.b", CAPS)]);
    let pairs = read_pairs(alloc, &reader, &old, &new).expect(&rt, "memory");
    expect_so(&rt, pairs.len() == 1, "one pair");
    let printed = compare_pairs(alloc, pairs.as_slice(), CHECKED).expect(&rt, "memory");
    let lines = "client.a wider\n  + 1 --pool data --namespace a --object a --write\n";
    expect_printed(&rt, &printed, lines, true);
}

/// A name as it is shown, and then a target without tags of the pool data.
fn shown_at<R: Abort>(rt: &R, alloc: Global, shown: &str) -> String {
    let target = OwnedTarget {
        pool: name(rt, alloc, "data"),
        tags: Tags::from_vec(Vec::new(alloc)),
        namespace: name(rt, alloc, ""),
        object: name(rt, alloc, "it's"),
    };
    let mut line = String::new(alloc);
    push_shown_text(&mut line, shown).expect(rt, "memory");
    push_target(&mut line, &target).expect(rt, "memory");
    line
}

/// Two pieces as a list.
fn listed<R: Abort>(rt: &R, alloc: Global, format: Format) -> String {
    let pieces = String::from_str(alloc, ",1,2").expect(rt, "memory");
    list_by(alloc, "names", pieces, format).expect(rt, "memory")
}

#[test]
fn pieces_print(rt: HostRuntime) {
    let alloc = rt.alloc();
    let shown = shown_at(&rt, alloc, "a\u{7} ");
    let line = "a\\x07 --pool data --object 'it'\\''s'";
    expect_text(&rt, shown.as_str(), line, "a target");
    let text = listed(&rt, alloc, Format::Text);
    expect_text(&rt, text.as_str(), ",1,2", "a list");
    let text = listed(&rt, alloc, Format::Json);
    expect_text(
        &rt,
        text.as_str(),
        "{\"names\":[1,2]}\n",
        "a document of a list",
    );
}

/// How many grants a text expands to by the reader's rules, or of which kind its fault is.
fn grants_of<R: Abort>(
    rt: &R,
    alloc: Global,
    reader: &Reader,
    caps: &str,
) -> Result<usize, &'static str> {
    match reader.read(alloc, caps, None).expect(rt, "memory") {
        Ok(rights) => Ok(rights.len()),
        Err(TextFault::Spelling(_)) => Err("spelling"),
        Err(TextFault::Expansion(_)) => Err("expansion"),
        Err(TextFault::Unread(_)) => Err("unread"),
    }
}

/// Capability texts by Ceph's rules: how many grants they expand to, or that Ceph does not read them.
const CEPH_TEXTS: &[(&str, Result<usize, &str>); 6] = &[
    ("profile rbd pool=a", Ok(5)),
    ("profile nobody", Ok(0)),
    ("allow r network 10.0.0.0/8", Ok(1)),
    ("allow rw tag cephfs data=all", Ok(1)),
    ("allow*", Err("unread")),
    ("", Ok(0)),
];

#[test]
fn texts_by_ceph_come_to_rights(rt: HostRuntime) {
    let alloc = rt.alloc();
    let reader = Reader::of(alloc, Rules::Ceph).expect(&rt, "memory");
    for (caps, want) in CEPH_TEXTS {
        let found = grants_of(&rt, alloc, &reader, caps);
        expect_so(&rt, found == *want, caps);
    }
}

/// Texts by this project's rules: how many grants they expand to, or the kind of their fault.
const TICKETS: &[(&str, Result<usize, &str>); 3] = &[
    ("allow r, allow w", Ok(2)),
    ("allow", Err("spelling")),
    ("profile nobody", Err("expansion")),
];

#[test]
fn texts_come_to_tickets(rt: HostRuntime) {
    let alloc = rt.alloc();
    let reader = Reader::of(alloc, Rules::Project).expect(&rt, "memory");
    for (caps, want) in TICKETS {
        let found = grants_of(&rt, alloc, &reader, caps);
        expect_so(&rt, found == *want, caps);
    }
}
