//! Requests, what was decided on them, and the log of one copy.
//!
//! A request is sealed with all that its verdict looks at, so that it is denied on every log or on none. A log decides
//! by the objects that its entries make. All of it is this project's profile, after Ceph's placement group logs.
//!
//! # What contracts see
//!
//! A `Sealed` is its id, ticket, tick, view, group number, namespace and work. An `Id` is one number, its session times 2^32 plus
//! its number there. A `Log` is the list of its entries. A `BoxedLog`, a log on the heap, is seen as the log: what carries one
//! stays small.
//!
//! # Costs
//!
//! A decision costs one look-up and the work on the one object; a listing piece the number of objects, and the sorting of the
//! names that it lists. A push costs a few hash operations, and copies no object. A reply is found by one look-up. A copy of a
//! `Sealed` shares its parts. A copy of a log copies its replies, its index and the names of its objects, and shares the objects,
//! which nothing changes in place. A `part` costs its own length. A `fit` costs what the part costs, and nothing in the log's
//! length: a few hash operations for each of its requests, and the work on their objects. With a listing piece in the part it
//! copies the names of all objects, as many as the piece reads anyway. Dropping the last entry costs a few hash operations, but
//! after a `fit` that dropped one and decided none, the next that drops one decides the earlier requests again.
//!
//! # Design
//!
//! Inside a log are a vector of entries, a hash index from id to place, and a hash map from (pool, namespace, name) to shared
//! objects. The type's invariant ties both to the entries: the objects are `store_of` them. Ids are hashed so that a session's
//! consecutive requests stand side by side in a table (`IdHash`), which is filled and read in order. A `fit` makes a draft first
//! (`Draft`): it shares the objects that the part names, decides the requests on these, and writes down each change. Stores that
//! hold the same at a request's object decide it alike, so the entries are those that the log itself would decide. Then it takes
//! room for all of them, and only then changes the log, where nothing can be refused any more; so there is nothing to undo.
#![tactic(auto)]

mod draft;
mod laws;
mod log;

pub use laws::{
    decision_tells_the_store, find_tells, fit_gives_the_log, fit_of_nothing, fitted_is_legal,
    groups_decide_apart, listings_are_sorted, others_are_left, refusals_leave_the_store,
    verdict_is_sealed,
};
pub use log::Log;
pub use store_core::{Decided, Entry, GroupId, Id, IdHash, Reply, Sealed, reply_number};
