//! Worlds that are put together of parts.

ghost use Rattle.std.specs.Prelude.{◌≡◌, [], IfOk, IfErr};
ghost use Rattle.group_model_whole.specs.Each.{Each};
ghost use Rattle.world_core.specs.Inside.{entries_told};
ghost use Rattle.world_core.specs.Parts.{FitTogether, decided_of, put_together, requests_of};
ghost use Rattle.world_core.specs.Sound.{FitsAt, IsSound};
ghost use Rattle.world_events.specs.Submitting.{AreNew};

use crate::audit::{Run, keep};
use crate::world::World;
use auth_db::AuthDb;
use common_types::OutOfMemory;
use group_core::Group;
use map_core::ClusterMap;
use std::alloc::Global;
use world_front::{ControlPlane, Session, Submissions};

/// What a world is put together of, as threads give it back.
#[derive(Drop)]
pub struct WorldParts {
    pub users: AuthDb,
    pub map: ClusterMap,
    /// By their numbers, which count from 1.
    pub sessions: Vec<Session>,
    /// One for each group of the map's pools, in order of creation and by number.
    pub groups: Vec<Group>,
}

/// The requests of all groups, group by group.
fn submissions_of(alloc: Global, groups: &[Group]) -> Result<Submissions, OutOfMemory>
    requires { AreNew [] (requests_of groups.now) }
    ensures { IfOk result (λ all. all ≡ requests_of groups.now) }
{
    let mut all = Submissions::new(alloc);
    for place in 0..groups.len() {
        let group = &groups[place];
        all.append(group.requests())?;
    }
    Ok(all)
}

/// Where the entries stand that were decided, group by group.
fn runs_of(alloc: Global, groups: &[Group]) -> Result<Vec<Run>, OutOfMemory>
    ensures fit { IfOk result (λ runs. Each (FitsAt groups.now) runs.items) }
    ensures told { IfOk result (λ runs. entries_told groups.now runs.items ≡ decided_of groups.now) }
{
    let mut runs = Vec::new(alloc);
    for place in 0..groups.len() {
        runs.reserve(1)?;
        let group = &groups[place];
        keep(&mut runs, place, 0, group.decided_count());
    }
    Ok(runs)
}

impl World {
    /// A world of these parts. Its submissions are the groups' requests, and its decided entries are those of the
    /// groups, group by group. It has no lists of names.
    ///
    /// If an allocation fails, the parts are returned.
    pub fn of(parts: WorldParts) -> Result<World, (WorldParts, OutOfMemory)>
        requires { FitTogether parts }
        ensures made { IfOk result (λ world. world ≡ put_together parts) }
        ensures back { IfErr result (λ refused. refused.0 ≡ parts) }
    {
        let alloc = *parts.groups.allocator();
        let submissions = match submissions_of(alloc, parts.groups.as_slice()) {
            Ok(submissions) => submissions,
            Err(error) => return Err((parts, error)),
        };
        let runs = match runs_of(alloc, parts.groups.as_slice()) {
            Ok(runs) => runs,
            Err(error) => return Err((parts, error)),
        };
        let WorldParts {
            users,
            map,
            sessions,
            groups,
        } = parts;
        Ok(World {
            front: ControlPlane::of(alloc, users, map, sessions, submissions),
            groups,
            runs,
        })
    }

    /// The users, the map, the sessions and the groups. The groups also hold what was submitted and decided. It
    /// allocates nothing.
    pub fn into_parts(self) -> WorldParts
        ensures front { (result.users ≡ self.front.database) × (result.map ≡ self.front.history) × (result.sessions.items ≡ self.front.sessions) }
        ensures groups { result.groups.items ≡ self.groups }
        ensures sound { IsSound self }
    {
        let World {
            front,
            groups,
            runs: _,
        } = self;
        let (users, map, sessions) = front.into_parts();
        WorldParts {
            users,
            map,
            sessions,
            groups,
        }
    }
}
