//! What the client was answered, and what its lists came to.

ghost use Rattle.std.specs.Prelude.{◌≡◌, ◌+◌, ◌<◌, ◌%◌, IfOk, IfSome, Ok, option_copied};
ghost use Rattle.world_core.specs.Answers.{answer_at};
ghost use Rattle.world_core.specs.Calls.{answer_refusal};
ghost use Rattle.store_core.specs.Request.{numbers};
ghost use Rattle.world_front.specs.ControlPlane.{error_of};
ghost use Rattle.world_core.specs.Listing.{listing_at};
ghost use Rattle.common_types.specs.Refused.{RefusedExactly};
ghost use Rattle.world_front.specs.Refusing.{RefusedOrMemory};
ghost use Rattle.world_core.specs.Serving.{service_of};

use crate::group_places::place_of_request;
use crate::joining::join_pieces;
use crate::world::World;
use entry_core::{Id, Reply};
use world_front::WorldFault;

impl World {
    /// The reply to the request of an id that reached the client first, or none yet (this project's profile).
    ///
    /// W5 where no request of this id was submitted. The request and the reply are found by hash, the group in a step for each
    /// pool. It takes no memory.
    pub fn answer(&self, id: Id) -> Result<Option<&Reply>, WorldFault>
        ensures answer { IfOk result (λ reply. option_copied reply ≡ (service_of self.now).answers id) }
        ensures refused { RefusedExactly (answer_refusal self.now id) result }
    {
        let _runs = &self.runs;
        let request = match self.front.submitted(id) {
            Some(request) => request,
            None => return Err(WorldFault::NoRequest),
        };
        let place = place_of_request(self.front.map(), request);
        let found = &self.groups[place];
        Ok(found.answer(id))
    }

    /// The reply to the request of an id, if it was submitted and answered. The next number is an id's too.
    pub(crate) fn reply_to(&self, id: Id) -> Option<&Reply>
        ensures reply { option_copied result ≡ answer_at self.now id }
        ensures low { IfSome result (λ _. id % numbers + 1 < numbers) }
    {
        let _front = &self.front;
        let _groups = &self.groups;
        let _runs = &self.runs;
        match self.answer(id) {
            Ok(reply) => reply,
            Err(_) => None,
        }
    }

    /// The result of the list that begins with a request. It is `None` until each piece has its answer. Then it is
    /// the first denial, or else the names of all pieces in the order of their bytes (this project's profile).
    ///
    /// W5: no list begins with this id. W7: out of memory. It takes a step for each piece, and one insertion for each
    /// name.
    pub fn listing(&self, first: Id) -> Result<Option<Reply>, WorldFault>
        ensures listing { IfOk result (λ reply. listing_at self.now first ≡ Ok reply) }
        ensures refused { RefusedOrMemory (error_of (listing_at self.now first)) result }
    {
        let _runs = &self.runs;
        let list = match self.front.list_at(first) {
            Some(list) => list,
            None => return Err(WorldFault::NoRequest),
        };
        let alloc = *self.groups.allocator();
        match join_pieces(alloc, self, list.first, list.count) {
            Ok(reply) => Ok(reply),
            Err(_) => Err(WorldFault::OutOfMemory),
        }
    }
}
