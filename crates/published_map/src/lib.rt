//! The published map: a cluster map that one writer changes and any number of threads read without a lock.
//!
//! A reader waits for nobody.
//!
//! - Each answer of [`view`] or [`locate`] is by one map that was published. That map goes on from all that this reader
//!   saw before, so what a reader sees never goes back.
//! - [`tell`] gives the news of what the writer has published. A reader that was given it by [`learn`] sees no less
//!   from then on. So a thread that hears of a change in another way, for example by a message, can be sure to see it.
//!
//! It is not promised that a reader finds a place, or that the writer's wait ends.
//!
//! # What contracts see
//!
//! What a reader or the writer knows is the map that it saw last and the map that was reported to it since. The rule is
//! that the published map goes on from all of these.
//!
//! # Costs
//!
//! A view or a location is one look by a reader, without a lock. To learn news both readers enter, and their maps are compared: a
//! walk over the commands.
//!
//! # Design
//!
//! A `left_right` keeps two copies of the map. Readers see one of them. The one writer changes the other, waits until
//! readers have left it, and swaps the two. News is a reader that was told what the writer has published. The place
//! that one reader was told at fits no other, so maps are compared.
#![tactic(auto)]

mod laws;
mod news;
mod places;
mod pools;
mod published;

pub use laws::what_is_seen_was_published;
pub use news::{News, learn, tell};
pub use places::{Located, locate};
pub use pools::view;
pub use published::{
    Knowledge, MapReader, MapWriter, PublishedMap, PublishedRule, SeenMap, publish, publish_first,
    stage,
};
