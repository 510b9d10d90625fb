//! The answers of a list's pieces, put together.

ghost use Rattle.std.specs.Prelude.{◌≡◌, ◌+◌, ◌<◌, ◌%◌, IfOk};
ghost use Rattle.store_core.specs.Request.{numbers};
ghost use Rattle.world_core.specs.Answers.{answer_at};
ghost use Rattle.world_core.specs.Listing.{listing_of};

use crate::world::World;
use common_types::OutOfMemory;
use entry_core::{Id, Reply};
use std::alloc::Global;
use world_front::Joined;

/// The id of a piece of a list, counted from 0.
fn piece_id(first: Id, place: u32) -> Id
    requires { first % numbers + place < numbers }
    ensures { result ≡ first + place }
{
    Id::new(first.session(), first.number() + place)
}

/// What a list came to: none until each piece has its answer. A step for each piece, and one insertion for each name.
pub(crate) fn join_pieces(
    alloc: Global,
    world: &World,
    first: Id,
    count: u32,
) -> Result<Option<Reply>, OutOfMemory>
    ensures { IfOk result (λ reply. reply ≡ listing_of (answer_at world.now) (record { first = first; count = count })) }
{
    let mut joined = Joined::new(alloc);
    for place in 0..count {
        let reply = match world.reply_to(piece_id(first, place)) {
            Some(reply) => reply,
            None => return Ok(None),
        };
        joined.add(alloc, reply)?;
    }
    Ok(Some(joined.into_reply(alloc)?))
}
