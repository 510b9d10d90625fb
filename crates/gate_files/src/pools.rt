//! Pools of a cluster by name, and lines on them.

use common_types::{AppTags, OutOfMemory, Tags};
use share_core::Pool;
use std::alloc::Global;
use verdict_text::push_name;

/// The pool of this name.
pub fn pool_of<'a>(pools: &'a [Pool], name: &str) -> Option<&'a Pool> {
    pools.iter().find(|pool| pool.name.as_str() == name)
}

/// Adds an application, and behind it its pairs.
fn push_application(line: &mut String, app: &AppTags) -> Result<(), OutOfMemory> {
    push_name(line, app.application.as_str())?;
    for (key, value) in app.pairs.as_slice() {
        line.push_str(" ")?;
        push_name(line, key.as_str())?;
        line.push_str("=")?;
        push_name(line, value.as_str())?;
    }
    Ok(())
}

/// Adds the applications of a pool.
fn push_applications(line: &mut String, tags: &Tags) -> Result<(), OutOfMemory> {
    line.push_str(match tags.len() {
        0 => "no application",
        1 => "the application ",
        _ => "the applications ",
    })?;
    let mut between = "";
    for app in tags.as_slice() {
        line.push_str(between)?;
        push_application(line, app)?;
        between = ", ";
    }
    Ok(())
}

/// A line that tells which applications were taken of a pool.
pub fn taken_line(alloc: Global, pool: &Pool) -> Result<String, OutOfMemory> {
    let mut line = String::from_str(alloc, "osdgate: pool ")?;
    push_name(&mut line, pool.name.as_str())?;
    line.push_str(" has ")?;
    push_applications(&mut line, &pool.tags)?;
    line.push_str("\n")?;
    Ok(line)
}

/// The line that reports that the file has no pool of this name, and lists the pools that it has.
pub fn no_pool_line(alloc: Global, pools: &[Pool], name: &str) -> Result<String, OutOfMemory> {
    let mut line = String::from_str(alloc, "the pools file has no pool ")?;
    push_name(&mut line, name)?;
    line.push_str(", only")?;
    for pool in pools {
        line.push_str(" ")?;
        push_name(&mut line, pool.name.as_str())?;
    }
    Ok(line)
}
