//! The table of profiles.

ghost use Rattle.std.specs.Prelude.{◌≡◌, ◌+◌, ◌<◌, ◌≤◌, ◌++◌, [], ◌∷◌, length, OnOk, OnErr, MatchOption, false};
ghost use Rattle.cap_grants.specs.declared.grant.ProfileUse.{ProfileUse};
ghost use Rattle.grant_core.specs.Flat.{flat};
ghost use Rattle.grant_core.specs.Found.{IsFound, parts_before};
ghost use Rattle.common_types.specs.Refused.{RefusedFirst};
ghost use Rattle.grant_core.specs.Refusal.{add_refusal};
ghost use Rattle.grant_core.specs.Refusal as spec;
ghost use Rattle.grant_core.specs.Table.{table_of, IsSized};

use crate::fault::ExpandFault;
use crate::refusal::accepted_size;
use cap_text::{CapList, Grant};
use common_types::{Name, OutOfMemory};
use indexmap::IndexMap;
use std::alloc::Global;
use std::marker::Model;

/// A profile's grants, and how many they expand to.
#[derive(Drop)]
pub(crate) struct Profile {
    pub(crate) body: CapList,
    pub(crate) size: usize,
}

/// Profiles in the order in which they were added, at most 32, which contracts see as the list of them by name.
#[derive(Drop)]
pub struct ProfileTable {
    profiles: IndexMap<String, Profile>,
}

impl Model for ProfileTable {
    ghost use Rattle.std.specs.Prelude.{List, ℕ};
    ghost use Rattle.cap_grants.specs.declared.grant.Grant.{Grant};
    ghost use Rattle.grant_core.specs.Table.{table_of, IsSized};

    ghost Value = { List (List ℕ × List Grant) };

    ghost view = { λ t. table_of t.profiles.entries };

    ghost invariant = { λ t. IsSized t.profiles.entries };
}

impl ProfileTable {
    pub(crate) fn empty(alloc: Global) -> ProfileTable
        ensures { result ≡ [] }
    {
        ProfileTable {
            profiles: IndexMap::new(alloc),
        }
    }

    pub(crate) fn profiles(&self) -> &IndexMap<String, Profile>
        ensures value { self.now ≡ table_of result.now.entries }
        ensures sized { IsSized result.now.entries }
    {
        &self.profiles
    }

    /// Adds a profile. Its body may use the profiles that are in the table.
    ///
    /// The first of these that holds refuses it, and the table then stays as it was:
    ///
    /// - the table has a profile of that name;
    /// - the table has 32 profiles;
    /// - the body's first grant that uses an unknown profile or has a tag;
    /// - the body expands to more than 256 grants.
    pub fn add(&mut self, name: &str, body: CapList) -> Result<(), ExpandFault>
        ensures added { OnOk result (self.new ≡ self.old ++ (name.now, body) ∷ []) }
        ensures refused { RefusedFirst (add_refusal self.old name.now body) ExpandFault.OutOfMemory result }
        ensures unchanged { OnErr result (self.new ≡ self.old) }
    {
        let size = accepted_size(&self.profiles, name, body.grants())?;
        push_profile(&mut self.profiles, name, Profile { body, size })?;
        Ok(())
    }
}

// Puts a profile last, whose name is new.
fn push_profile(
    profiles: &mut IndexMap<String, Profile>,
    name: &str,
    profile: Profile,
) -> Result<(), OutOfMemory>
    requires fresh { spec.has_profile (table_of profiles.old.entries) name.now ≡ false }
    requires sized { IsSized profiles.old.entries }
    requires room { length profiles.old.entries < 32 }
    requires size { profile.size ≡ length (flat (table_of profiles.old.entries) profile.body) }
    requires small { profile.size ≤ 256 }
    ensures ok { OnOk result (table_of profiles.new.entries ≡ table_of profiles.old.entries ++ (name.now, profile.body) ∷ []) }
    ensures sized { IsSized profiles.new.entries }
    ensures err { OnErr result (profiles.new.entries ≡ profiles.old.entries) }
{
    let name = String::from_str(*profiles.allocator(), name)?;
    profiles.insert(name, profile)?;
    Ok(())
}

/// Whether there is a profile of this name.
pub(crate) fn has_profile(profiles: &IndexMap<String, Profile>, name: &str) -> bool
    ensures { result ≡ spec.has_profile (table_of profiles.now.entries) name.now }
{
    profiles.contains_key(name)
}

/// The profile of this name and its place, if it stands before another place.
pub(crate) fn find_before<'a>(
    profiles: &'a IndexMap<String, Profile>,
    name: &Name,
    before: usize,
) -> Option<(usize, &'a Profile)>
    requires { before ≤ length profiles.now.entries }
    ensures { MatchOption result
        ((used : ProfileUse) → used.name ≡ name.now → parts_before profiles.now.entries before used ≡ [])
        (λ found. IsFound profiles.now.entries before name.now found.0 found.1.now) }
{
    let _ = profiles.len();
    let place = profiles.get_index_of(name.as_str())?;
    if place >= before {
        return None;
    }
    let (_, profile) = profiles.get_index(place)?;
    Some((place, profile))
}

// How many grants a grant expands to.
fn size_of_grant(profiles: &IndexMap<String, Profile>, grant: &Grant) -> usize
    requires { IsSized profiles.now.entries }
    ensures value { result ≡ length (flat (table_of profiles.now.entries) (grant.now ∷ [])) }
    ensures small { result ≤ 256 }
{
    match grant {
        Grant::Allow(_) => 1,
        Grant::Profile(used) => match find_before(profiles, &used.name, profiles.len()) {
            None => 0,
            Some((_, profile)) => profile.size,
        },
    }
}

/// How many grants a list expands to.
pub(crate) fn size_of(profiles: &IndexMap<String, Profile>, grants: &[Grant]) -> usize
    requires sized { IsSized profiles.now.entries }
    requires few { length grants.now ≤ 64 }
    ensures { result ≡ length (flat (table_of profiles.now.entries) grants.now) }
{
    let mut size = 0;
    for grant in grants {
        size += size_of_grant(profiles, grant);
    }
    size
}
