//! Pools of a log against a file of pools.

use common_types::{OutOfMemory, Tags};
use gate_files::pool_of;
use indexmap::IndexMap;
use log_text::{LogReading, has_tags};
use share_core::Pool;
use std::alloc::Global;
use verdict_text::push_name;

/// Adds the line of a pool whose tags the log and the file do not have alike.
fn push_pool(
    note: &mut String,
    alloc: Global,
    name: &str,
    tags: &Tags,
    pools: &[Pool],
) -> Result<(), OutOfMemory> {
    let word = match pool_of(pools, name) {
        None => " is not in the file of pools\n",
        Some(pool) if !has_tags(alloc, tags, &pool.tags)? => {
            " has other tags in the file of pools than in the log\n"
        }
        Some(_) => return Ok(()),
    };
    note.push_str("osdgate: pool ")?;
    push_name(note, name)?;
    note.push_str(word)
}

/// A line for each pool of the log that the file of pools lacks, or that has other tags there.
pub(crate) fn pool_lines(
    alloc: Global,
    reading: &LogReading,
    pools: &[Pool],
) -> Result<String, OutOfMemory> {
    let mut note = String::new(alloc);
    let mut looked = IndexMap::new(alloc);
    for request in reading.requests() {
        let target = &request.decided.target;
        let name = target.pool.as_str();
        if !looked.contains_key(name) {
            looked.insert(String::from_str(alloc, name)?, ())?;
            push_pool(&mut note, alloc, name, &target.tags, pools)?;
        }
    }
    Ok(note)
}
