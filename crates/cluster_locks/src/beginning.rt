//! What a cluster begins with, as events of a world.

ghost use Rattle.std.specs.Prelude.{◌≡◌, ◌++◌, map as each, IfOk};
ghost use Rattle.cluster_locks.specs.Beginning.{creation_of, addition_of, events_of};

use auth_db::Caps;
use common_types::Name;
use map_core::MapCommand;
use std::alloc::{AllocError, Global};
use world_front::{AuthCommand, Event};

/// A pool of a cluster: 1 to 64 groups, sets of 1 to 5 daemons, and how many of a set are needed at least.
#[derive(Debug, Drop)]
pub struct PoolSpec {
    pub name: Name,
    pub pg_num: u32,
    pub size: u32,
    pub min_size: u32,
}

/// A user of a cluster, and its texts.
#[derive(Debug, Drop)]
pub struct UserSpec {
    pub name: Name,
    pub caps: Caps,
}

// The creation of a pool.
fn creation(pool: PoolSpec) -> Event
    ensures { result ≡ creation_of pool }
{
    let PoolSpec {
        name,
        pg_num,
        size,
        min_size,
    } = pool;
    Event::Map(MapCommand::PoolCreate {
        name,
        pg_num,
        size,
        min_size,
    })
}

// The addition of a user.
fn addition(user: UserSpec) -> Event
    ensures { result ≡ addition_of user }
{
    let UserSpec { name, caps } = user;
    Event::Auth(AuthCommand::Add { name, caps })
}

// The creations of pools, in order.
fn creations(alloc: Global, pools: Vec<PoolSpec>) -> Result<Vec<Event>, AllocError>
    ensures { IfOk result (λ events. events.items ≡ each creation_of pools.items) }
{
    let mut events = Vec::new(alloc);
    for pool in pools {
        events.push(creation(pool))?;
    }
    Ok(events)
}

// With the additions of users, in order.
fn with_users(mut events: Vec<Event>, users: Vec<UserSpec>) -> Result<Vec<Event>, AllocError>
    ensures { IfOk result (λ all. all.items ≡ events.items ++ each addition_of users.items) }
{
    for user in users {
        events.push(addition(user))?;
    }
    Ok(events)
}

/// The creations of the pools, in order, and then the additions of the users.
pub fn events_of(
    alloc: Global,
    pools: Vec<PoolSpec>,
    users: Vec<UserSpec>,
) -> Result<Vec<Event>, AllocError>
    ensures { IfOk result (λ events. events.items ≡ events_of pools.items users.items) }
{
    with_users(creations(alloc, pools)?, users)
}
