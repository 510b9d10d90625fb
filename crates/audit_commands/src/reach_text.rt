//! What is printed of what an entity reaches.

use crate::reached_pools::{Giving, ReachedPool};
use audit_text::push_cell_word;
use ceph_text::push_ceph_grant;
use common_types::OutOfMemory;
use network_core::Network;
use serde_json::{Value, json};
use std::alloc::Global;
use std::fmt::Write;
use verdict_text::{push_name, push_shown_text};

/// Adds the network of a grant, if it has one.
fn push_network(text: &mut String, network: Option<Network>) -> Result<(), OutOfMemory> {
    match network {
        None => Ok(()),
        Some(Network::Never) => text.push_str(" network that matches no address"),
        Some(Network::Range(address, length)) => write!(text, " network {address}/{length}"),
    }
}

/// A grant in words, with its network.
fn grant_words(alloc: Global, giving: &Giving<'_>) -> Result<String, OutOfMemory> {
    let mut words = String::new(alloc);
    push_ceph_grant(&mut words, giving.grant)?;
    push_network(&mut words, giving.network)?;
    Ok(words)
}

/// Adds the line of a grant: its path, and the grant.
fn push_grant(text: &mut String, alloc: Global, giving: &Giving<'_>) -> Result<(), OutOfMemory> {
    let path = giving.path;
    write!(text, "  {path} ")?;
    push_shown_text(text, grant_words(alloc, giving)?.as_str())?;
    text.push_str("\n")
}

/// Adds the lines of a pool: its name and what is reached of it, and below them the grants that are for it.
fn push_pool(text: &mut String, alloc: Global, pool: &ReachedPool<'_>) -> Result<(), OutOfMemory> {
    push_name(text, pool.pool)?;
    text.push_str(" ")?;
    push_cell_word(text, alloc, &pool.cell)?;
    text.push_str("\n")?;
    for giving in &pool.grants {
        push_grant(text, alloc, giving)?;
    }
    Ok(())
}

/// The lines of each pool.
pub(crate) fn reach_lines(alloc: Global, pools: &[ReachedPool<'_>]) -> Result<String, OutOfMemory> {
    let mut text = String::new(alloc);
    for pool in pools {
        push_pool(&mut text, alloc, pool)?;
    }
    Ok(text)
}

fn grant_value(alloc: Global, giving: &Giving<'_>) -> Result<Value, OutOfMemory> {
    let path = giving.path;
    let path = format!(in alloc; "{path}")?;
    let words = grant_words(alloc, giving)?;
    json!(in alloc; {"grant": words, "path": path})
}

fn pool_value(alloc: Global, pool: &ReachedPool<'_>) -> Result<Value, OutOfMemory> {
    let mut grants = Vec::new(alloc);
    for giving in &pool.grants {
        grants.push(grant_value(alloc, giving)?)?;
    }
    let grants = Value::from(grants);
    let mut word = String::new(alloc);
    push_cell_word(&mut word, alloc, &pool.cell)?;
    json!(in alloc; {"cell": word, "grants": grants, "pool": pool.pool})
}

/// The document of an entity, on a line.
pub(crate) fn reach_document(
    alloc: Global,
    entity: &str,
    pools: &[ReachedPool<'_>],
) -> Result<String, OutOfMemory> {
    let mut items = Vec::new(alloc);
    for pool in pools {
        items.push(pool_value(alloc, pool)?)?;
    }
    let items = Value::from(items);
    let document: Value = json!(in alloc; {"entity": entity, "pools": items})?;
    let mut text = document.to_string(alloc)?;
    text.push_str("\n")?;
    Ok(text)
}
