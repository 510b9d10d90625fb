//! What it costs to find what the entities of a file share.

use crate::fault::Fault;
use cap_text::parse;
use common_types::OutOfMemory;
use share_text::{Detail, Strictness, holders_of, share_entities};
use std::alloc::Global;
use std::time::Clock;
use stopwatch::{Table, Work};
use verdict_text::{Format, ReadEntity, ReadText, Reader, Rules};

/// Entities, none of which shares anything with another one.
#[derive(Drop)]
struct Tenants {
    alloc: Global,
    entities: Vec<ReadEntity>,
}

impl Work for Tenants {
    fn once(&self, _turn: usize) -> Result<bool, OutOfMemory> {
        let strictness = Strictness {
            reads: true,
            check: true,
            format: Format::Text,
        };
        let holders = holders_of(self.alloc, self.entities.as_slice())?;
        let holders = holders.as_slice();
        let told = share_entities(self.alloc, holders, strictness, None, Detail::Brief)?;
        Ok(told.text.is_empty())
    }

    fn size(&self) -> u64 {
        (self.entities.len() as u64).max(1)
    }
}

/// The entity of a number, with three grants for a pool of its own.
fn entity(alloc: Global, reader: &Reader, name: &str, number: u32) -> Result<ReadEntity, Fault> {
    let pool = format!(in alloc; "{name}{number}")?;
    let osd = format!(in alloc;
        "allow rw pool={pool}, allow r pool={pool} namespace=a, allow class-read pool={pool} object_prefix b"
    )?;
    let _list = parse(alloc, osd.as_str())?;
    Ok(ReadEntity {
        name: format!(in alloc; "client.{number}")?,
        osd: ReadText::of(alloc, reader, osd, None)?,
    })
}

fn entities(alloc: Global, name: &str, count: u32) -> Result<Vec<ReadEntity>, Fault> {
    let reader = Reader::of(alloc, Rules::Project)?;
    let mut entities = Vec::new(alloc);
    for number in 0..count {
        entities.push(entity(alloc, &reader, name, number)?)?;
    }
    Ok(entities)
}

/// Adds the rows of what entities share: the time for each of them.
pub(crate) fn add_shares<C: Clock>(table: &mut Table<'_, C>, name: &str) -> Result<(), Fault> {
    let alloc = table.alloc();
    for (row, count) in [
        ("share, 1,000 entities of own pools", 1000u32),
        ("share, 10,000 entities of own pools", 10000),
    ] {
        let work = Tenants {
            alloc,
            entities: entities(alloc, name, count)?,
        };
        table.row(row, &work)?;
    }
    Ok(())
}
