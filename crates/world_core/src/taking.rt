//! Requests that groups take together: all of them, or none.

ghost use Rattle.std.specs.Prelude.{◌≡◌, ◌⊎◌, ◌<◌, List, true, false, length, IfOk, IfErr, OnOk, OnErr};
ghost use Rattle.std.specs.List.{list_any};
ghost use Rattle.store_core.specs.Request as request;
ghost use Rattle.group_model_whole.specs.Each.{Each};
ghost use Rattle.group_model.specs.Group as group;
ghost use Rattle.group_messages.specs.declared.fault.GroupFault.TheVariants as group_fault;
ghost use Rattle.map_core.specs.Map.{map_of};
ghost use Rattle.world_events.specs.declared.fault.WorldFault.TheVariants as faults;
ghost use Rattle.world_core.specs.Taking.{Takes, TakesAll, is_full_at, places_for};

use common_types::{Items, OutOfMemory, TryClone};
use entry_core::Sealed;
use group_core::Group;
use group_messages::GroupFault;
use map_core::ClusterMap;
use std::alloc::{AllocError, Global};
use world_front::{WorldFault, place_for};

/// Where the groups of requests stand.
pub(crate) fn places(
    alloc: Global,
    map: &ClusterMap,
    requests: &[Sealed],
) -> Result<Vec<usize>, OutOfMemory>
    ensures { IfOk result (λ places. places.items ≡ places_for (map_of map.now).pools requests.now) }
{
    let _epoch = map.epoch();
    let pools = map.pools();
    let mut all = Items::new(alloc);
    for request in requests {
        match all.push(place_for(pools, request)) {
            Ok(()) => {}
            Err(error) => return Err(error),
        }
    }
    Ok(all.into_vec())
}

/// Whether a group at one of these places takes no more requests.
pub(crate) fn is_one_full(groups: &[Group], places: &[usize]) -> bool
    requires { Each (λ place. place < length groups.now) places.now }
    ensures { result ≡ list_any (is_full_at groups.now) places.now }
{
    for place in places {
        let group = &groups[*place];
        if group.is_full_of_requests() {
            return true;
        }
    }
    false
}

/// The group at a place takes a copy of a request, or is left as it was.
fn take_at(groups: &mut Vec<Group>, place: usize, request: &Sealed) -> Result<(), OutOfMemory>
    requires { place < length groups.old.items }
    ensures taken { OnOk result (Takes groups.old.items place request.now groups.new.items) }
    ensures unchanged { OnErr result (groups.new.items ≡ groups.old.items) }
{
    let copy = match request.copy() {
        Ok(copy) => copy,
        Err(error) => return Err(error),
    };
    let group = &mut groups[place];
    group.keeps_promises();
    match group.submit(copy) {
        Ok(()) => Ok(()),
        Err(_) => Err(AllocError),
    }
}

/// The group at a place gives back the request that it took last.
fn take_back_at(groups: &mut Vec<Group>, place: usize)
    requires { (before : List group.Group) × ((s : request.Sealed) × Takes before place s groups.old.items) }
    ensures { (before : List group.Group) (s : request.Sealed) → Takes before place s groups.old.items → groups.new.items ≡ before }
{
    let group = &mut groups[place];
    group.undo_submit();
}

/// The group at each place takes a copy of its request, or all are left as they were.
///
/// Each group has room, and its request is new to it, so the only fault is out of memory.
pub(crate) fn submit_all(
    groups: &mut Vec<Group>,
    places: &[usize],
    requests: &[Sealed],
) -> Result<(), OutOfMemory>
    requires there { Each (λ place. place < length groups.old.items) places.now }
    requires same { length places.now ≡ length requests.now }
    ensures taken { OnOk result (TakesAll groups.old.items places.now requests.now groups.new.items) }
    ensures unchanged { OnErr result (groups.new.items ≡ groups.old.items) }
{
    if places.is_empty() || requests.is_empty() {
        return Ok(());
    }
    match take_at(groups, places[0], &requests[0]) {
        Ok(()) => {}
        Err(error) => return Err(error),
    }
    match submit_all(groups, &places[1..], &requests[1..]) {
        Ok(()) => Ok(()),
        Err(error) => {
            take_back_at(groups, places[0]);
            Err(error)
        }
    }
}

/// The groups at these places give back the requests that they took last, in the other order.
pub(crate) fn take_back_all(groups: &mut Vec<Group>, places: &[usize])
    requires { (before : List group.Group) × ((requests : List request.Sealed) × TakesAll before places.now requests groups.old.items) }
    ensures { (before : List group.Group) (requests : List request.Sealed) → TakesAll before places.now requests groups.old.items → groups.new.items ≡ before }
{
    if places.is_empty() {
        return;
    }
    take_back_all(groups, &places[1..]);
    take_back_at(groups, places[0]);
}

/// Each request is taken by its group, and it is said where these stand; or none is. P3 where one of the groups is full.
pub(crate) fn take_requests(
    groups: &mut Vec<Group>,
    map: &ClusterMap,
    requests: &[Sealed],
) -> Result<Vec<usize>, WorldFault>
    requires { Each (λ place. place < length groups.old.items) (places_for (map_of map.now).pools requests.now) }
    ensures places { IfOk result (λ places. places.items ≡ places_for (map_of map.now).pools requests.now) }
    ensures room { OnOk result (list_any (is_full_at groups.old.items) (places_for (map_of map.now).pools requests.now) ≡ false) }
    ensures taken { OnOk result (TakesAll groups.old.items (places_for (map_of map.now).pools requests.now) requests.now groups.new.items) }
    ensures refused { IfErr result (λ fault. (fault ≡ faults.OutOfMemory) ⊎ ((fault ≡ faults.Group group_fault.Full) × (list_any (is_full_at groups.old.items) (places_for (map_of map.now).pools requests.now) ≡ true))) }
    ensures unchanged { OnErr result (groups.new.items ≡ groups.old.items) }
{
    let alloc = *groups.allocator();
    let places = match places(alloc, map, requests) {
        Ok(places) => places,
        Err(_) => return Err(WorldFault::OutOfMemory),
    };
    if is_one_full(groups.as_slice(), places.as_slice()) {
        return Err(WorldFault::Group(GroupFault::Full));
    }
    match submit_all(groups, places.as_slice(), requests) {
        Ok(()) => Ok(places),
        Err(_) => Err(WorldFault::OutOfMemory),
    }
}
