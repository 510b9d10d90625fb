//! What questions to a world print.

ghost use Rattle.std.specs.Prelude.{◌≡◌, ◌≢◌, ◌++◌, OnOk, string_bytes};
ghost use Rattle.world_events.specs.declared.fault.WorldFault.TheVariants.{Map as OfMap};
ghost use Rattle.world_core.specs.Answers.{answer_at};
ghost use Rattle.world_script.specs.Script as spec;
ghost use Rattle.script_printing.specs.Text.{id_text, asked_text, refused_text, users_text};

use common_types::{Name, OutOfMemory};
use entry_core::{GroupId, Id};
use map_core::MapFault;
use place_core::group_of;
use script_printing::{push_answer, push_located, push_ready, push_refused, push_user, push_users};
use std::alloc::AllocError;
use world_core::{World, WorldFault, are_names};

/// Adds where an object is: its group, and the members of the acting set.
pub(crate) fn locate(
    world: &World,
    pool: &Name,
    namespace: &Name,
    object: &Name,
    text: &mut String,
) -> Result<(), OutOfMemory>
    ensures { OnOk result (string_bytes text.new ≡ string_bytes text.old ++ spec.locate_text world.now.front pool.now namespace.now object.now) }
{
    let map = world.map();
    let view = match map.view(pool, map.epoch()) {
        Ok(view) => view,
        Err(fault) => return refuse_map(fault, text),
    };
    if !are_names(object, namespace) {
        return push_refused(text, WorldFault::BadObjectName);
    }
    let group = group_of(namespace.as_str(), object.as_str(), view.pg_num);
    match map.acting_set(pool, group) {
        None => push_located(text, group, &[]),
        Some(members) => push_located(text, group, members.as_slice()),
    }
}

/// Adds why the map refuses a question, or returns out of memory.
fn refuse_map(fault: MapFault, text: &mut String) -> Result<(), OutOfMemory>
    ensures text { OnOk result (string_bytes text.new ≡ string_bytes text.old ++ refused_text (OfMap fault)) }
    ensures other { OnOk result (fault ≢ MapFault.OutOfMemory) }
{
    match fault {
        MapFault::OutOfMemory => Err(AllocError),
        fault => push_refused(text, WorldFault::Map(fault)),
    }
}

/// Adds a user's name and its texts.
pub(crate) fn show_user(world: &World, name: &Name, text: &mut String) -> Result<(), OutOfMemory>
    ensures { OnOk result (string_bytes text.new ≡ string_bytes text.old ++ spec.show_text world.now.front name.now) }
{
    match world.users().get(name.as_str()) {
        Ok(caps) => push_user(text, name, caps),
        Err(fault) => push_refused(text, WorldFault::Auth(fault)),
    }
}

/// Adds how many users there are, and their names.
pub(crate) fn list_users(world: &World, text: &mut String) -> Result<(), OutOfMemory>
    ensures { OnOk result (string_bytes text.new ≡ string_bytes text.old ++ users_text world.now.front.database.users) }
{
    match world.users().list() {
        Ok(names) => push_users(text, names.as_slice()),
        Err(_) => Err(AllocError),
    }
}

/// Adds the answer to a request.
pub(crate) fn answer(world: &World, id: Id, text: &mut String) -> Result<(), OutOfMemory>
    ensures { OnOk result (string_bytes text.new
        ≡ string_bytes text.old ++ asked_text (id_text id) (spec.answer_in world.now.front (answer_at world.now) id)) }
{
    match world.answer(id) {
        Ok(reply) => push_answer(text, id, reply),
        Err(fault) => push_refused(text, fault),
    }
}

/// Adds what a list came to.
pub(crate) fn listing(world: &World, first: Id, text: &mut String) -> Result<(), OutOfMemory>
    ensures { OnOk result (string_bytes text.new
        ≡ string_bytes text.old ++ asked_text (id_text first) (spec.listing_in world.now.front (answer_at world.now) first)) }
{
    match world.listing(first) {
        Ok(reply) => push_answer(text, first, reply.as_ref()),
        Err(fault) => match fault {
            WorldFault::OutOfMemory => Err(AllocError),
            fault => push_refused(text, fault),
        },
    }
}

/// Adds whether a group is ready.
pub(crate) fn ready(world: &World, group: &GroupId, text: &mut String) -> Result<(), OutOfMemory>
    ensures { OnOk result (string_bytes text.new ≡ string_bytes text.old ++ spec.ready_line_text world.now group.now) }
{
    match world.ready(group) {
        Ok(ready) => push_ready(text, ready),
        Err(fault) => push_refused(text, fault),
    }
}
