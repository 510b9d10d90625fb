//! Whether two tenants reach a common object: an exact answer, with an example.
//!
//! A request reads, writes or calls by one grant alone, so two tickets share an object just where a grant of the one
//! meets a grant of the other. Two grants meet just where they do so in each part: pools, namespaces, prefixes of objects,
//! and tags, of which a pool has one value for each key of an application. So a few comparisons of names for each pair of
//! grants decide the matter for all pools, tags, namespaces and objects.
//!
//! # What contracts see
//!
//! What two tickets share is a list of examples, one for each pair of grants that reach a common object. A `Touch` is one way to
//! touch it: a read, a write, a call, or any request that reads, or writes.
//!
//! # Costs
//!
//! Each pair of grants takes a few comparisons of names. `share` takes no memory; `sharing` makes a target for each pair that
//! shares something. `share_in` looks at the pools only where two grants meet in all else, and takes no memory either;
//! `example_in` asks pool by pool up to the first that has an example. A `PoolIndex` has for each pool's name the places of the
//! tickets that name it, and those with a grant without a pool; `near` gathers the lists of a ticket's pools, sorts them and
//! drops doubles. So tickets of own pools are compared with none, and those of one pool each with each.
//!
//! # Design
//!
//! A request reads, writes or calls by one grant alone: each call is covered by one usable grant, and reads and writes are given
//! by each. So two tickets share an object just where a grant of the one meets a grant of the other, and two grants meet just
//! where they do so part by part (`meet`): pools, namespaces, prefixes, and tags, of which a pool has one value for each key of
//! an application. A grant that lists has no prefix, so whoever shares a listing shares an object, and a target is never a
//! listing.
#![tactic(auto)]

mod giving;
mod laws;
mod meetings;
mod pool_index;
mod pool_places;
mod pools;
mod reaching;
mod targets;
mod touches;

pub use laws::possible_targets_are_held;
pub use pool_index::PoolIndex;
pub use pools::{Pool, example_in, is_for, share_in};
pub use reaching::{Shared, share, sharing};
pub use touches::Touch;
