//! What several tests are made of: names, tickets, tags, pools and entities.

use cap_text::parse;
use common_types::{AppTags, Name, Pairs, Tags};
use grant_core::{ProfileTable, expand};
use share_core::Pool;
use std::alloc::Global;
use std::process::Abort;
use verdict_core::Ticket;
use verdict_text::{Entity, Printed, ReadEntity, ReadText, Reader, Rules};

/// The name of this text.
pub(crate) fn name<R: Abort>(rt: &R, alloc: Global, text: &str) -> Name {
    Name::new(alloc, text).expect(rt, "memory")
}

/// The ticket of a text that is expanded by the built-in profiles.
pub(crate) fn ticket<R: Abort>(rt: &R, alloc: Global, text: &str, until: Option<u64>) -> Ticket {
    let table = ProfileTable::builtin(alloc).expect(rt, "profiles");
    let list = parse(alloc, text).expect(rt, "a list");
    let tree = expand(alloc, &table, &list).expect(rt, "a tree");
    Ticket::of(tree, until)
}

/// An application of a pool, and the key and the value of its pair. A key without a name is no pair.
pub(crate) type TagRow = (&'static str, &'static str, &'static str);

/// An application with its pair.
fn app_of<R: Abort>(rt: &R, alloc: Global, row: &TagRow) -> AppTags {
    let mut pairs = Vec::new(alloc);
    if !row.1.is_empty() {
        let pair = (name(rt, alloc, row.1), name(rt, alloc, row.2));
        pairs.push(pair).expect(rt, "memory");
    }
    AppTags {
        application: name(rt, alloc, row.0),
        pairs: Pairs::from_vec(pairs),
    }
}

/// The tags of a pool.
fn tags_of<R: Abort>(rt: &R, alloc: Global, rows: &[TagRow]) -> Tags {
    let mut tags = Vec::new(alloc);
    for row in rows {
        tags.push(app_of(rt, alloc, row)).expect(rt, "memory");
    }
    Tags::from_vec(tags)
}

/// The tags of some pools.
pub(crate) fn tags_of_each<R: Abort>(rt: &R, alloc: Global, pools: &[&[TagRow]]) -> Vec<Tags> {
    let mut tags = Vec::new(alloc);
    for rows in pools {
        tags.push(tags_of(rt, alloc, rows)).expect(rt, "memory");
    }
    tags
}

/// Pools of these names with these tags.
pub(crate) fn pools_of<R: Abort>(rt: &R, alloc: Global, rows: &[(&str, &[TagRow])]) -> Vec<Pool> {
    let mut pools = Vec::new(alloc);
    for (pool, tags) in rows {
        let pool = Pool {
            name: name(rt, alloc, pool),
            tags: tags_of(rt, alloc, tags),
        };
        pools.push(pool).expect(rt, "memory");
    }
    pools
}

/// Entities of these names with these texts.
pub(crate) fn entities_of<R: Abort>(rt: &R, alloc: Global, rows: &[(&str, &str)]) -> Vec<Entity> {
    let mut entities = Vec::new(alloc);
    for (name, osd) in rows {
        let entity = Entity {
            name: String::from_str(alloc, name).expect(rt, "memory"),
            osd: String::from_str(alloc, osd).expect(rt, "memory"),
        };
        entities.push(entity).expect(rt, "memory");
    }
    entities
}

/// These entities, whose texts are read by this project's rules.
pub(crate) fn read_entities<R: Abort>(
    rt: &R,
    alloc: Global,
    entities: &[Entity],
) -> Vec<ReadEntity> {
    let reader = Reader::of(alloc, Rules::Project).expect(rt, "memory");
    let mut all = Vec::new(alloc);
    for entity in entities {
        let name = entity.name.clone().expect(rt, "memory");
        let text = entity.osd.clone().expect(rt, "memory");
        let osd = ReadText::of(alloc, &reader, text, None).expect(rt, "memory");
        all.push(ReadEntity { name, osd }).expect(rt, "memory");
    }
    all
}

/// The ticket of a text by this project's rules, if it has one.
pub(crate) fn ticket_of_text<R: Abort>(rt: &R, alloc: Global, caps: &str) -> Option<Ticket> {
    let reader = Reader::of(alloc, Rules::Project).expect(rt, "memory");
    match reader.read(alloc, caps, None).expect(rt, "memory") {
        Ok(rights) => Some(rights.anywhere(alloc).expect(rt, "memory")),
        Err(_) => None,
    }
}

/// Ends the test where something is not so, and names it.
pub(crate) fn expect_so<R: Abort>(rt: &R, is_so: bool, what: &str) {
    assert!(rt; is_so, "{what}");
}

/// Ends the test where a row is not so, and tells its place.
pub(crate) fn expect_row<R: Abort>(rt: &R, is_so: bool, what: &str, place: usize) {
    assert!(rt; is_so, "{what} {place}");
}

/// Ends the test where a text is not the one that is wanted, and names it.
pub(crate) fn expect_text<R: Abort>(rt: &R, found: &str, want: &str, what: &str) {
    assert_eq!(rt; found, want, "{what}");
}

/// Ends the test where this was not printed, or by a command that fails where it is not to, or does not where it is.
pub(crate) fn expect_printed<R: Abort>(rt: &R, printed: &Printed, want: &str, fails: bool) {
    expect_text(rt, printed.text.as_str(), want, "what is printed");
    expect_so(rt, printed.fails == fails, "whether it fails");
}
