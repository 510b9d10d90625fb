//! What each row reaches, in words, and its grants with an example each.

use crate::escaping::push_escaped;
use crate::example::{example_words, pool_word};
use crate::rows::{Row, push_row_name};
use audit_text::{Reached, is_alike, is_everywhere, push_cell_word};
use cap_text::AllowGrant;
use ceph_text::push_ceph_grant;
use common_types::OutOfMemory;
use grant_core::Path;
use indexmap::IndexMap;
use network_core::Network;
use rights_core::Rights;
use share_core::{Pool, is_for};
use std::alloc::Global;
use std::fmt::Write;

/// How the numbers of the columns of all pools are written.
const ALL_COLUMNS: &str = "all";

/// The numbers of the columns of the pools that a grant is for, with blanks between them, or `all`.
fn columns_of(alloc: Global, grant: &AllowGrant, pools: &[Pool]) -> Result<String, OutOfMemory> {
    if pools.iter().all(|pool| is_for(grant, pool)) {
        return String::from_str(alloc, ALL_COLUMNS);
    }
    let mut columns = String::new(alloc);
    for (number, pool) in pools.iter().enumerate() {
        if is_for(grant, pool) {
            write!(columns, "{number} ")?;
        }
    }
    Ok(columns)
}

/// The first pool that a grant is for.
fn first_pool<'p>(grant: &AllowGrant, pools: &'p [Pool]) -> Option<&'p Pool> {
    pools.iter().find(|pool| is_for(grant, pool))
}

/// Adds the network of a grant.
fn push_network(text: &mut String, network: Option<Network>) -> Result<(), OutOfMemory> {
    match network {
        None => Ok(()),
        Some(Network::Never) => text.push_str(" network that matches no address"),
        Some(Network::Range(address, length)) => write!(text, " network {address}/{length}"),
    }
}

/// Adds the example of a grant in a pool, as words of a shell.
fn push_example(
    text: &mut String,
    alloc: Global,
    grant: &AllowGrant,
    network: Option<Network>,
    pool: &Pool,
) -> Result<(), OutOfMemory> {
    let name = pool_word(alloc, pool)?;
    let words = example_words(alloc, grant, network)?;
    text.push_str(" <span class=\"example\">for example <code>--pool <b>")?;
    push_escaped(text, name.as_str())?;
    text.push_str("</b>")?;
    push_escaped(text, words.as_str())?;
    text.push_str("</code></span>")
}

/// Adds a grant: its path, itself, and an example in the first pool that it is for.
fn push_grant(
    text: &mut String,
    alloc: Global,
    pools: &[Pool],
    path: &Path,
    network: Option<Network>,
    grant: &AllowGrant,
) -> Result<(), OutOfMemory> {
    let columns = columns_of(alloc, grant, pools)?;
    let mut words = String::new(alloc);
    push_ceph_grant(&mut words, grant)?;
    push_network(&mut words, network)?;
    write!(text, "<li data-p=\"{columns}\">{path} <code>")?;
    push_escaped(text, words.as_str())?;
    text.push_str("</code>")?;
    match first_pool(grant, pools) {
        Some(pool) if network != Some(Network::Never) => {
            push_example(text, alloc, grant, network, pool)?;
        }
        _ => text.push_str(" <span class=\"example\">matches no pool or no address</span>")?,
    }
    text.push_str("</li>\n")
}

/// Adds the grants of some rights.
fn push_grants(
    text: &mut String,
    alloc: Global,
    pools: &[Pool],
    rights: &Rights,
) -> Result<(), OutOfMemory> {
    text.push_str("<ul class=\"grants\">\n")?;
    for index in 0..rights.len() {
        if let Some((path, network, grant)) = rights.entry(index) {
            push_grant(text, alloc, pools, path, network, grant)?;
        }
    }
    text.push_str("</ul>\n")
}

/// How a cell is written that reaches nothing.
const NOTHING: &str = "-";

/// The names of the pools that are reached, by the word of their cell.
fn pools_by_word(
    alloc: Global,
    one: &Reached<'_>,
    pools: &[Pool],
) -> Result<IndexMap<String, String>, OutOfMemory> {
    let mut by_word = IndexMap::new(alloc);
    for (cell, pool) in one.cells.as_slice().iter().zip(pools.iter()) {
        let mut word = String::new(alloc);
        push_cell_word(&mut word, alloc, cell)?;
        if word.as_str() == NOTHING {
            continue;
        }
        let mut names = match by_word.swap_remove(word.as_str()) {
            Some(names) => names,
            None => String::new(alloc),
        };
        names.push_str(" ")?;
        push_escaped(&mut names, pool.name.as_str())?;
        by_word.insert(word, names)?;
    }
    Ok(by_word)
}

/// Adds what a row reaches, each kind of reach with its pools.
fn push_reach(
    text: &mut String,
    alloc: Global,
    number: usize,
    one: &Reached<'_>,
    pools: &[Pool],
) -> Result<(), OutOfMemory> {
    let by_word = pools_by_word(alloc, one, pools)?;
    let is_one = by_word.len() == 1 && is_everywhere(one.cells.as_slice());
    write!(text, "<dl id=\"e{number}\">\n")?;
    if by_word.is_empty() {
        text.push_str("<dt>-</dt><dd>no pool</dd>\n")?;
    }
    for (word, names) in by_word.iter() {
        let names = if is_one {
            " every pool"
        } else {
            names.as_str()
        };
        write!(text, "<dt>{word}</dt><dd>{names}</dd>\n")?;
    }
    text.push_str("</dl>\n")
}

/// Adds the names of a row.
fn push_members(
    text: &mut String,
    all: &[Reached<'_>],
    one: &Reached<'_>,
) -> Result<(), OutOfMemory> {
    text.push_str("<p class=\"names\">")?;
    for other in all {
        if is_alike(one, other) {
            text.push_str(" ")?;
            push_escaped(text, other.entity.name.as_str())?;
        }
    }
    text.push_str("</p>\n")
}

/// Adds a row in words.
fn push_entity(
    text: &mut String,
    alloc: Global,
    pools: &[Pool],
    all: &[Reached<'_>],
    row: &Row<'_, '_>,
) -> Result<(), OutOfMemory> {
    text.push_str("<details><summary>")?;
    push_row_name(text, row)?;
    text.push_str("</summary>\n")?;
    if row.count > 1 {
        push_members(text, all, row.first)?;
    }
    push_reach(text, alloc, row.number, row.first, pools)?;
    if let Ok(rights) = row.first.entity.osd.read() {
        push_grants(text, alloc, pools, rights)?;
    }
    text.push_str("</details>\n")
}

/// Adds each row in words, with its grants.
pub(crate) fn push_entities(
    text: &mut String,
    alloc: Global,
    pools: &[Pool],
    all: &[Reached<'_>],
    rows: &[Row<'_, '_>],
) -> Result<(), OutOfMemory> {
    text.push_str("<section id=\"entities\"><h2>Each entity</h2>\n")?;
    for row in rows {
        push_entity(text, alloc, pools, all, row)?;
    }
    text.push_str("</section>\n")
}
