//! Why commands and questions are refused. Nothing here takes memory.

ghost use Rattle.std.specs.Prelude.{◌≡◌, option_copied};
ghost use Rattle.std.specs.List.{find};
ghost use Rattle.map_core.specs.Refusal.{first_of, create_tests, enable_tests, set_tests, remove_tests, daemon_tests, acting_tests};
ghost use Rattle.map_core.specs.Refusal as spec;
ghost use Rattle.map_core.specs.Map as map;

use crate::command::MapCommand;
use crate::fault::MapFault;
use crate::pool::{Pool, find_pool};
use common_types::{AppTags, Name, are_word_bytes};
use place_core::DaemonSet;

const LAST_EPOCH: u32 = 65535;

const MAX_POOLS: usize = 32;

const MAX_APPLICATIONS: usize = 8;

const MAX_PAIRS: usize = 16;

// 1 to 64 word bytes.
#[tactic(auto, unfolding(crate::specs::Refusal::is_word))]
pub(crate) fn is_word(name: &Name) -> bool
    ensures { result ≡ spec.is_word name.now }
{
    let bytes = name.as_str().as_bytes();
    bytes.len() >= 1 && bytes.len() <= 64 && are_word_bytes(bytes)
}

// The applications of the pool of this name.
#[tactic(auto, unfolding(crate::specs::Refusal::tags_in))]
fn tags_in<'a>(pools: &'a [Pool], name: &Name) -> &'a [AppTags]
    ensures { result.now ≡ spec.tags_in pools.now name.now }
{
    match find_pool(pools, name) {
        Some(pool) => pool.tags.as_slice(),
        None => &[],
    }
}

// The application of this name.
fn find_app<'a>(tags: &'a [AppTags], app: &Name) -> Option<&'a AppTags>
    ensures { option_copied result ≡ find (map.is_app app.now) tags.now }
{
    tags.iter().find(|tag| tag.application.equals(app))
}

// The pairs of an application.
#[tactic(auto, unfolding(crate::specs::Refusal::pairs_in))]
fn pairs_in<'a>(tags: &'a [AppTags], app: &Name) -> &'a [(Name, Name)]
    ensures { result.now ≡ spec.pairs_in tags.now app.now }
{
    match find_app(tags, app) {
        Some(tag) => tag.pairs.as_slice(),
        None => &[],
    }
}

#[tactic(auto, unfolding(crate::specs::Refusal::has_app))]
fn has_app(tags: &[AppTags], app: &Name) -> bool
    ensures { result ≡ spec.has_app tags.now app.now }
{
    tags.iter().any(|tag| tag.application.equals(app))
}

#[tactic(auto, unfolding(crate::specs::Refusal::has_key))]
fn has_key(pairs: &[(Name, Name)], key: &Name) -> bool
    ensures { result ≡ spec.has_key pairs.now key.now }
{
    pairs.iter().any(|pair| pair.0.equals(key))
}

#[tactic(auto, unfolding(crate::specs::Refusal::in_limits))]
fn in_limits(pg_num: u32, size: u32, min_size: u32) -> bool
    ensures { result ≡ spec.in_limits pg_num size min_size }
{
    pg_num >= 1 && pg_num <= 64 && size >= 1 && size <= 5 && min_size >= 1 && min_size <= size
}

// Why a new pool is refused.
fn create_refusal(
    pools: &[Pool],
    epoch: u32,
    created: &Name,
    numbers: (u32, u32, u32),
) -> Option<MapFault>
    ensures { result ≡ first_of (create_tests pools.now epoch created.now numbers.0 numbers.1 numbers.2) }
{
    if !is_word(created) {
        return Some(MapFault::BadName);
    }
    if find_pool(pools, created).is_some() {
        return Some(MapFault::PoolExists);
    }
    if !in_limits(numbers.0, numbers.1, numbers.2)
        || pools.len() >= MAX_POOLS
        || epoch >= LAST_EPOCH
    {
        return Some(MapFault::Limit);
    }
    None
}

// Why enabling an application is refused.
fn enable_refusal(pools: &[Pool], epoch: u32, pool: &Name, app: &Name) -> Option<MapFault>
    ensures { result ≡ first_of (enable_tests pools.now epoch pool.now app.now) }
{
    if !is_word(pool) || !is_word(app) {
        return Some(MapFault::BadName);
    }
    if find_pool(pools, pool).is_none() {
        return Some(MapFault::NoPool);
    }
    let tags = tags_in(pools, pool);
    if has_app(tags, app) {
        return Some(MapFault::AlreadySo);
    }
    if tags.len() >= MAX_APPLICATIONS || epoch >= LAST_EPOCH {
        return Some(MapFault::Limit);
    }
    None
}

// Why a new value of a key is refused.
fn set_refusal(
    pools: &[Pool],
    epoch: u32,
    pool: &Name,
    app: &Name,
    key: &Name,
    value: &Name,
) -> Option<MapFault>
    ensures { result ≡ first_of (set_tests pools.now epoch pool.now app.now key.now value.now) }
{
    if !is_word(pool) || !is_word(app) || !is_word(key) || !is_word(value) {
        return Some(MapFault::BadName);
    }
    if find_pool(pools, pool).is_none() {
        return Some(MapFault::NoPool);
    }
    let applications = tags_in(pools, pool);
    if !has_app(applications, app) {
        return Some(MapFault::NoApplication);
    }
    let pairs = pairs_in(applications, app);
    if (!has_key(pairs, key) && pairs.len() >= MAX_PAIRS) || epoch >= LAST_EPOCH {
        return Some(MapFault::Limit);
    }
    None
}

// Why taking a key away is refused.
fn remove_refusal(
    pools: &[Pool],
    epoch: u32,
    pool: &Name,
    app: &Name,
    key: &Name,
) -> Option<MapFault>
    ensures { result ≡ first_of (remove_tests pools.now epoch pool.now app.now key.now) }
{
    if !is_word(pool) || !is_word(app) || !is_word(key) {
        return Some(MapFault::BadName);
    }
    if find_pool(pools, pool).is_none() {
        return Some(MapFault::NoPool);
    }
    let tags = tags_in(pools, pool);
    if !has_app(tags, app) {
        return Some(MapFault::NoApplication);
    }
    if !has_key(pairs_in(tags, app), key) {
        return Some(MapFault::NoKey);
    }
    if epoch >= LAST_EPOCH {
        return Some(MapFault::Limit);
    }
    None
}

// Why a command on a daemon is refused, which is not to be up, or down, already.
fn daemon_refusal(daemons: u8, up: &DaemonSet, epoch: u32, daemon: u8, so: bool) -> Option<MapFault>
    ensures { result ≡ first_of (daemon_tests daemons up.now epoch daemon so) }
{
    if daemon >= daemons {
        return Some(MapFault::NoDaemon);
    }
    if up.has(daemon) == so {
        return Some(MapFault::AlreadySo);
    }
    if epoch >= LAST_EPOCH {
        return Some(MapFault::Limit);
    }
    None
}

// Why a command is refused, except for out of memory.
#[tactic(auto, unfolding(crate::specs::Refusal::refusal))]
pub(crate) fn refusal(
    daemons: u8,
    pools: &[Pool],
    up: &DaemonSet,
    epoch: u32,
    command: &MapCommand,
) -> Option<MapFault>
    ensures { result ≡ spec.refusal (record { daemons = daemons; pools = pools.now; up = up.now }) epoch command.now }
{
    match command {
        MapCommand::PoolCreate {
            name,
            pg_num,
            size,
            min_size,
        } => create_refusal(pools, epoch, name, (*pg_num, *size, *min_size)),
        MapCommand::AppEnable { pool, app } => enable_refusal(pools, epoch, pool, app),
        MapCommand::AppSet {
            pool,
            app,
            key,
            value,
        } => set_refusal(pools, epoch, pool, app, key, value),
        MapCommand::AppRm { pool, app, key } => remove_refusal(pools, epoch, pool, app, key),
        MapCommand::OsdUp(daemon) => daemon_refusal(daemons, up, epoch, *daemon, true),
        MapCommand::OsdDown(daemon) => daemon_refusal(daemons, up, epoch, *daemon, false),
        MapCommand::OsdRestart(daemon) => daemon_refusal(daemons, up, epoch, *daemon, false),
    }
}

// Why a group's acting set is refused, except for out of memory.
pub(crate) fn acting_refusal(pools: &[Pool], name: &Name, group: u32) -> Option<MapFault>
    ensures { result ≡ first_of (acting_tests pools.now name.now group) }
{
    if !is_word(name) {
        return Some(MapFault::BadName);
    }
    if find_pool(pools, name).is_none() {
        return Some(MapFault::NoPool);
    }
    if group >= groups_in(pools, name) {
        return Some(MapFault::NoGroup);
    }
    None
}

// How many groups the pool of this name has.
#[tactic(auto, unfolding(crate::specs::Refusal::groups_in))]
fn groups_in(pools: &[Pool], name: &Name) -> u32
    ensures { result ≡ spec.groups_in pools.now name.now }
{
    match find_pool(pools, name) {
        Some(pool) => pool.pg_num,
        None => 0,
    }
}
