//! Commands that change the map.

ghost use Rattle.std.specs.Prelude.{◌≡◌, ◌↔◌, IfOk, IsTrue};
ghost use Rattle.map_core.specs.State.{Begins};
ghost use Rattle.map_core.specs.declared.command.MapCommand.TheVariants.{PoolCreate, AppEnable, AppSet, AppRm};

use common_types::{Name, OutOfMemory};
use std::alloc::Global;

/// A change of the map. An accepted one raises the epoch by 1.
///
/// Names of pools and applications, keys and values are 1 to 64 bytes of `A-Z a-z 0-9 _ . / -`.
#[derive(Debug)]
pub enum MapCommand {
    /// A new pool of 1 to 64 groups, whose acting sets have at most `size` daemons, 1 to 5, of which `min_size` are needed.
    PoolCreate {
        name: Name,
        pg_num: u32,
        size: u32,
        min_size: u32,
    },
    /// Tags a pool with an application, which has no pairs at first. A pool has at most 8.
    AppEnable {
        pool: Name,
        app: Name,
    },
    /// Gives a key of an application a value, in place of the one that it had. An application has at most 16 keys.
    AppSet {
        pool: Name,
        app: Name,
        key: Name,
        value: Name,
    },
    /// Takes a key and its value away.
    AppRm {
        pool: Name,
        app: Name,
        key: Name,
    },
    /// A daemon that was down is up.
    OsdUp(u8),
    /// A daemon that was up is down.
    OsdDown(u8),
    /// A daemon that is up restarts. Only the epoch of the map changes.
    OsdRestart(u8),
}

impl Drop for MapCommand {
    fn drop(self) {
        match self {
            MapCommand::PoolCreate {
                name: _,
                pg_num: _,
                size: _,
                min_size: _,
            }
            | MapCommand::AppEnable { pool: _, app: _ }
            | MapCommand::AppSet {
                pool: _,
                app: _,
                key: _,
                value: _,
            }
            | MapCommand::AppRm {
                pool: _,
                app: _,
                key: _,
            }
            | MapCommand::OsdUp(_)
            | MapCommand::OsdDown(_)
            | MapCommand::OsdRestart(_) => (),
        }
    }
}

impl MapCommand {
    /// An equal command.
    pub fn copy(&self) -> Result<MapCommand, OutOfMemory>
        ensures { IfOk result (λ command. command ≡ self.now) }
    {
        match self {
            MapCommand::PoolCreate {
                name,
                pg_num,
                size,
                min_size,
            } => Ok(MapCommand::PoolCreate {
                name: name.copy()?,
                pg_num: *pg_num,
                size: *size,
                min_size: *min_size,
            }),
            MapCommand::AppEnable { pool, app } => app_enable(pool, app),
            MapCommand::AppSet {
                pool,
                app,
                key,
                value,
            } => app_set(pool, app, key, value),
            MapCommand::AppRm { pool, app, key } => app_rm(pool, app, key),
            MapCommand::OsdUp(daemon) => Ok(MapCommand::OsdUp(*daemon)),
            MapCommand::OsdDown(daemon) => Ok(MapCommand::OsdDown(*daemon)),
            MapCommand::OsdRestart(daemon) => Ok(MapCommand::OsdRestart(*daemon)),
        }
    }

    /// Whether two commands are equal.
    pub fn equals(&self, other: &MapCommand) -> bool
        ensures { IsTrue result ↔ (self.now ≡ other.now) }
    {
        match (self, other) {
            (
                MapCommand::PoolCreate {
                    name,
                    pg_num,
                    size,
                    min_size,
                },
                other,
            ) => other.creates(name, *pg_num, *size, *min_size),
            (MapCommand::AppEnable { pool, app }, other) => other.enables(pool, app),
            (
                MapCommand::AppSet {
                    pool,
                    app,
                    key,
                    value,
                },
                other,
            ) => other.sets(pool, app, key, value),
            (MapCommand::AppRm { pool, app, key }, other) => other.removes(pool, app, key),
            (MapCommand::OsdUp(daemon), MapCommand::OsdUp(other)) => *daemon == *other,
            (MapCommand::OsdDown(daemon), MapCommand::OsdDown(other)) => *daemon == *other,
            (MapCommand::OsdRestart(daemon), MapCommand::OsdRestart(other)) => *daemon == *other,
            _ => false,
        }
    }

    // Whether it creates a pool of this name with these numbers.
    fn creates(&self, pool: &Name, groups: u32, daemons: u32, needed: u32) -> bool
        ensures { IsTrue result ↔ (PoolCreate pool.now groups daemons needed ≡ self.now) }
    {
        match self {
            MapCommand::PoolCreate {
                name,
                pg_num,
                size,
                min_size,
            } => {
                pool.equals(name) && groups == *pg_num && daemons == *size && needed == *min_size
            }
            _ => false,
        }
    }

    // Whether it enables this application.
    fn enables(&self, of_pool: &Name, application: &Name) -> bool
        ensures { IsTrue result ↔ (AppEnable of_pool.now application.now ≡ self.now) }
    {
        match self {
            MapCommand::AppEnable { pool, app } => of_pool.equals(pool) && application.equals(app),
            _ => false,
        }
    }

    // Whether it gives this key this value.
    fn sets(&self, of_pool: &Name, application: &Name, of_key: &Name, new_value: &Name) -> bool
        ensures { IsTrue result ↔ (AppSet of_pool.now application.now of_key.now new_value.now ≡ self.now) }
    {
        match self {
            MapCommand::AppSet {
                pool,
                app,
                key,
                value,
            } => {
                of_pool.equals(pool)
                    && application.equals(app)
                    && of_key.equals(key)
                    && new_value.equals(value)
            }
            _ => false,
        }
    }

    // Whether it takes this key away.
    fn removes(&self, of_pool: &Name, application: &Name, of_key: &Name) -> bool
        ensures { IsTrue result ↔ (AppRm of_pool.now application.now of_key.now ≡ self.now) }
    {
        match self {
            MapCommand::AppRm { pool, app, key } => {
                of_pool.equals(pool) && application.equals(app) && of_key.equals(key)
            }
            _ => false,
        }
    }
}

// The command that enables an application.
fn app_enable(pool: &Name, app: &Name) -> Result<MapCommand, OutOfMemory>
    ensures { IfOk result (λ command. command ≡ AppEnable pool.now app.now) }
{
    Ok(MapCommand::AppEnable {
        pool: pool.copy()?,
        app: app.copy()?,
    })
}

// The command that gives a key a value.
fn app_set(pool: &Name, app: &Name, key: &Name, value: &Name) -> Result<MapCommand, OutOfMemory>
    ensures { IfOk result (λ command. command ≡ AppSet pool.now app.now key.now value.now) }
{
    Ok(MapCommand::AppSet {
        pool: pool.copy()?,
        app: app.copy()?,
        key: key.copy()?,
        value: value.copy()?,
    })
}

// The command that takes a key away.
fn app_rm(pool: &Name, app: &Name, key: &Name) -> Result<MapCommand, OutOfMemory>
    ensures { IfOk result (λ command. command ≡ AppRm pool.now app.now key.now) }
{
    Ok(MapCommand::AppRm {
        pool: pool.copy()?,
        app: app.copy()?,
        key: key.copy()?,
    })
}

/// Equal commands, for a copy of a map. An error is a growth that was refused.
pub fn copy_commands(alloc: Global, commands: &[MapCommand]) -> Result<Vec<MapCommand>, OutOfMemory>
    ensures { IfOk result (λ copy. copy.items ≡ commands.now) }
{
    let mut all = Vec::with_capacity(alloc, commands.len())?;
    for command in commands {
        all.push(command.copy()?)?;
    }
    Ok(all)
}

/// Whether commands begin with all of the others, as those of a map do with those of an earlier one. It takes no memory.
pub fn begin_with(commands: &[MapCommand], front: &[MapCommand]) -> bool
    ensures { IsTrue result ↔ Begins commands.now front.now }
{
    if front.len() > commands.len() {
        return false;
    }
    for place in 0..front.len() {
        if !commands[place].equals(&front[place]) {
            return false;
        }
    }
    true
}
