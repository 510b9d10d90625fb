//! Places of a list, noted by the pools that they name.

ghost use Rattle.std.specs.Prelude.{◌≡◌, ℕ, List, ◌++◌, true, is_some, IfOk, OnOk};
ghost use Rattle.std.specs.List.{Contains};
ghost use Rattle.share_core.specs.PoolPlaces.{AreKept, IsNotedFor, gathered, list_of, named_of, noted, of_name};

use cap_text::AllowGrant;
use common_types::{Name, OutOfMemory};
use grant_core::Path;
use indexmap::IndexMap;
use std::alloc::Global;

/// The places at which some grant names a pool, by the pool's name, and those at which some grant names none. More may be
/// noted: where memory ran out, the place of a list that was not noted to its end.
pub(crate) struct PoolPlaces {
    named: IndexMap<String, Vec<usize>>,
    unnamed: Vec<usize>,
}

impl Drop for PoolPlaces {
    fn drop(self) {
        let PoolPlaces {
            named: _,
            unnamed: _,
        } = self;
    }
}

/// Whether a place is the last one of some.
fn ends_with(places: &[usize], place: usize) -> bool
    ensures { result ≡ true → Contains places.now place }
{
    let count = places.len();
    count > 0 && places[count - 1] == place
}

/// Adds a place behind others, if it is not the last of them.
fn note(places: &mut Vec<usize>, place: usize) -> Result<(), OutOfMemory>
    ensures kept { (other : ℕ) → Contains places.old.items other → Contains places.new.items other }
    ensures added { OnOk result (Contains places.new.items place) }
{
    if !ends_with(places.as_slice(), place) {
        places.push(place)?;
    }
    Ok(())
}

/// Adds an empty list for a name, if it has none.
fn prepare(named: &mut IndexMap<String, Vec<usize>>, name: &str) -> Result<(), OutOfMemory>
    ensures same { (wanted : List ℕ) → of_name named.new.entries wanted ≡ of_name named.old.entries wanted }
    ensures known { OnOk result (is_some (list_of named.new.entries name.now) ≡ true) }
{
    if !named.contains_key(name) {
        let alloc = *named.allocator();
        let key = String::from_str(alloc, name)?;
        named.insert(key, Vec::new(alloc))?;
    }
    Ok(())
}

/// Adds a place behind those of a name that has a list.
fn note_name(
    named: &mut IndexMap<String, Vec<usize>>,
    name: &str,
    place: usize,
) -> Result<(), OutOfMemory>
    ensures kept { (wanted : List ℕ) (other : ℕ) → Contains (of_name named.old.entries wanted) other → Contains (of_name named.new.entries wanted) other }
    ensures added { OnOk result (is_some (list_of named.old.entries name.now) ≡ true → Contains (of_name named.new.entries name.now) place) }
{
    match named.get_mut(name) {
        None => Ok(()),
        Some(places) => note(places, place),
    }
}

/// Adds the places of a name behind others.
fn push_named(
    places: &mut Vec<usize>,
    named: &IndexMap<String, Vec<usize>>,
    name: &str,
) -> Result<(), OutOfMemory>
    ensures { OnOk result (places.new.items ≡ places.old.items ++ of_name named.now.entries name.now) }
{
    match named.get(name) {
        None => Ok(()),
        Some(more) => places.extend_from_slice(more.as_slice()),
    }
}

impl PoolPlaces {
    /// No places. It takes no memory.
    pub(crate) fn new(alloc: Global) -> PoolPlaces {
        PoolPlaces {
            named: IndexMap::new(alloc),
            unnamed: Vec::new(alloc),
        }
    }

    /// Notes a place for a grant's pool, or for grants without one.
    fn note_pool(&mut self, pool: &Option<Name>, place: usize) -> Result<(), OutOfMemory>
        ensures kept { AreKept (noted self.old) (noted self.new) }
        ensures added { OnOk result (Contains (noted self.new pool.now) place) }
    {
        match pool {
            None => note(&mut self.unnamed, place),
            Some(name) => {
                prepare(&mut self.named, name.as_str())?;
                note_name(&mut self.named, name.as_str(), place)
            }
        }
    }

    /// Notes a place for each of some grants. An error leaves what was noted, and may leave more.
    pub(crate) fn note_grants(
        &mut self,
        grants: &[(Path, AllowGrant)],
        place: usize,
    ) -> Result<(), OutOfMemory>
        ensures kept { AreKept (noted self.old) (noted self.new) }
        ensures added { OnOk result (IsNotedFor (noted self.new) place grants.now) }
    {
        for grant in grants {
            self.note_pool(&grant.1.pool, place)?;
        }
        Ok(())
    }

    /// Adds the places of a grant's pool behind others. Those of the grants without one are not among them.
    fn push_pool(&self, places: &mut Vec<usize>, pool: &Option<Name>) -> Result<(), OutOfMemory>
        ensures { OnOk result (places.new.items ≡ places.old.items ++ named_of self.now pool.now) }
    {
        match pool {
            None => Ok(()),
            Some(name) => push_named(places, &self.named, name.as_str()),
        }
    }

    /// The places that are noted for grants without a pool, and those that are noted for the pools of these grants.
    pub(crate) fn gather(&self, grants: &[(Path, AllowGrant)]) -> Result<Vec<usize>, OutOfMemory>
        ensures { IfOk result (λ places. places.items ≡ gathered self.now grants.now) }
    {
        let mut places = self.unnamed.clone()?;
        for grant in grants {
            self.push_pool(&mut places, &grant.1.pool)?;
        }
        Ok(places)
    }
}
