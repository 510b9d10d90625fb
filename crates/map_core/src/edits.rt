//! What commands do to a pool and its applications.

ghost use Rattle.std.specs.Prelude.{◌≡◌, ◌++◌, [], ◌∷◌, OnOk, OnErr, IfOk, position};
ghost use Rattle.map_core.specs.Map.{is_key, put_pair, without_pair, with_pairs, tags_after, tagged, change_first, is_named, is_app, created};
ghost use Rattle.map_core.specs.Map as spec;

use crate::command::MapCommand;
use crate::pool::Pool;
use common_types::{AppTags, Name, OutOfMemory, Pairs, Tags};
use std::alloc::Global;
use std::mem;

// A new pool.
pub(crate) fn create(
    alloc: Global,
    name: &Name,
    pg_num: u32,
    size: u32,
    min_size: u32,
) -> Result<Pool, OutOfMemory>
    ensures { IfOk result (λ pool. pool ≡ created name.now pg_num size min_size) }
{
    Ok(Pool {
        name: name.copy()?,
        pg_num,
        size,
        min_size,
        tags: Tags::from_vec(Vec::new(alloc)),
    })
}

// The place of a key.
fn key_place(pairs: &[(Name, Name)], key: &Name) -> Option<usize>
    ensures { result ≡ position (is_key key.now) pairs.now }
{
    pairs.iter().position(|pair| pair.0.equals(key))
}

// Gives a key a value.
fn put(pairs: &mut Vec<(Name, Name)>, key: &Name, value: &Name) -> Result<(), OutOfMemory>
    ensures ok { OnOk result (pairs.new.items ≡ put_pair key.now value.now pairs.old.items) }
    ensures err { OnErr result (pairs.new.items ≡ pairs.old.items) }
{
    let value = value.copy()?;
    match key_place(pairs, key) {
        Some(place) => {
            let pair = &mut pairs[place];
            pair.1 = value;
            Ok(())
        }
        None => {
            pairs.push((key.copy()?, value))?;
            Ok(())
        }
    }
}

// Takes a key away.
fn remove(pairs: &mut Vec<(Name, Name)>, key: &Name)
    ensures { pairs.new.items ≡ without_pair key.now pairs.old.items }
{
    if let Some(place) = key_place(pairs, key) {
        let _pair = pairs.remove(place);
    }
}

// The place of an application.
fn app_place(tags: &[AppTags], app: &Name) -> Option<usize>
    ensures { result ≡ position (is_app app.now) tags.now }
{
    tags.iter().position(|tag| tag.application.equals(app))
}

// Enables an application.
fn enable(alloc: Global, tags: &mut Vec<AppTags>, app: &Name) -> Result<(), OutOfMemory>
    ensures ok { OnOk result (tags.new.items ≡ tags.old.items ++ (record { application = app.now; pairs = [] }) ∷ []) }
    ensures err { OnErr result (tags.new.items ≡ tags.old.items) }
{
    tags.push(AppTags {
        application: app.copy()?,
        pairs: Pairs::from_vec(Vec::new(alloc)),
    })?;
    Ok(())
}

// Gives a key of this application a value.
fn put_in(alloc: Global, tag: &mut AppTags, key: &Name, value: &Name) -> Result<(), OutOfMemory>
    ensures ok { OnOk result (tag.new ≡ record tag.old { pairs = put_pair key.now value.now tag.old.pairs }) }
    ensures err { OnErr result (tag.new ≡ tag.old) }
{
    let mut pairs = mem::replace(&mut tag.pairs, Pairs::from_vec(Vec::new(alloc))).into_vec();
    let outcome = put(&mut pairs, key, value);
    tag.pairs = Pairs::from_vec(pairs);
    outcome
}

// Takes a key of this application away.
fn remove_in(alloc: Global, tag: &mut AppTags, key: &Name)
    ensures { tag.new ≡ record tag.old { pairs = without_pair key.now tag.old.pairs } }
{
    let mut pairs = mem::replace(&mut tag.pairs, Pairs::from_vec(Vec::new(alloc))).into_vec();
    remove(&mut pairs, key);
    tag.pairs = Pairs::from_vec(pairs);
}

// Gives a key of an application a value.
fn set_pair(
    alloc: Global,
    tags: &mut Vec<AppTags>,
    app: &Name,
    key: &Name,
    value: &Name,
) -> Result<(), OutOfMemory>
    ensures ok { OnOk result (tags.new.items ≡ with_pairs app.now (put_pair key.now value.now) tags.old.items) }
    ensures err { OnErr result (tags.new.items ≡ tags.old.items) }
{
    match app_place(tags, app) {
        None => Ok(()),
        Some(place) => {
            let tag = &mut tags[place];
            put_in(alloc, tag, key, value)?;
            Ok(())
        }
    }
}

// Takes a key of an application away.
fn remove_pair(alloc: Global, tags: &mut Vec<AppTags>, app: &Name, key: &Name)
    ensures { tags.new.items ≡ with_pairs app.now (without_pair key.now) tags.old.items }
{
    match app_place(tags, app) {
        None => (),
        Some(place) => {
            let tag = &mut tags[place];
            remove_in(alloc, tag, key);
        }
    }
}

// Changes applications as a command on them says.
fn change_tags(
    alloc: Global,
    tags: &mut Vec<AppTags>,
    command: &MapCommand,
) -> Result<(), OutOfMemory>
    ensures ok { OnOk result (tags.new.items ≡ tags_after command.now tags.old.items) }
    ensures err { OnErr result (tags.new.items ≡ tags.old.items) }
{
    match command {
        MapCommand::AppEnable { app, .. } => enable(alloc, tags, app),
        MapCommand::AppSet {
            app,
            key,
            value,
            ..
        } => set_pair(alloc, tags, app, key, value),
        MapCommand::AppRm { app, key, .. } => {
            remove_pair(alloc, tags, app, key);
            Ok(())
        }
        _ => Ok(()),
    }
}

// Changes a pool's applications as a command on them says.
pub(crate) fn change_pool(
    alloc: Global,
    pool: &mut Pool,
    command: &MapCommand,
) -> Result<(), OutOfMemory>
    ensures ok { OnOk result (pool.new ≡ tagged command.now pool.old) }
    ensures err { OnErr result (pool.new ≡ pool.old) }
{
    let mut tags = mem::replace(&mut pool.tags, Tags::from_vec(Vec::new(alloc))).into_vec();
    let outcome = change_tags(alloc, &mut tags, command);
    pool.tags = Tags::from_vec(tags);
    outcome
}

// The place of the pool of this name.
fn pool_place(pools: &[Pool], name: &Name) -> Option<usize>
    ensures { result ≡ position (is_named name.now) pools.now }
{
    pools.iter().position(|pool| pool.name.equals(name))
}

// Changes the pool of this name.
fn change_named(
    alloc: Global,
    pools: &mut Vec<Pool>,
    name: &Name,
    command: &MapCommand,
) -> Result<(), OutOfMemory>
    ensures ok { OnOk result (pools.new.items ≡ change_first (is_named name.now) (tagged command.now) pools.old.items) }
    ensures err { OnErr result (pools.new.items ≡ pools.old.items) }
{
    match pool_place(pools, name) {
        None => Ok(()),
        Some(place) => {
            let pool = &mut pools[place];
            change_pool(alloc, pool, command)?;
            Ok(())
        }
    }
}

/// Changes the pools as an accepted command says.
///
/// Whether the command is accepted is not asked here. An error is a growth that was refused, which leaves the pools as they were.
pub fn change_pools(
    alloc: Global,
    pools: &mut Vec<Pool>,
    command: &MapCommand,
) -> Result<(), OutOfMemory>
    ensures ok { OnOk result (pools.new.items ≡ spec.pools_after command.now pools.old.items) }
    ensures err { OnErr result (pools.new.items ≡ pools.old.items) }
{
    match command {
        MapCommand::PoolCreate {
            name,
            pg_num,
            size,
            min_size,
        } => {
            pools.push(create(alloc, name, *pg_num, *size, *min_size)?)?;
            Ok(())
        }
        MapCommand::AppEnable { pool, .. }
        | MapCommand::AppSet { pool, .. }
        | MapCommand::AppRm { pool, .. } => change_named(alloc, pools, pool, command),
        MapCommand::OsdUp(_) | MapCommand::OsdDown(_) | MapCommand::OsdRestart(_) => Ok(()),
    }
}
