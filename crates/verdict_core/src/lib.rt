//! Verdicts: whether the grants of a ticket allow a request, and why not.
//!
//! The conditions of a grant are those of the Ceph manual's User Management chapter, "Authorization
//! capabilities"; that one grant must give all of a request's reads and writes, and that a call is covered
//! by grants which do so, is how Ceph's daemons decide. Reports are this project's profile.
//!
//! # What contracts see
//!
//! A `Ticket` is the list of its grants with their paths, and the tick at which it ends, if it does. An `IndexedTicket` and a
//! `SharedTicket`, which a session and its requests share, are seen as their ticket. A `Target` is its four values. `is_allowed`
//! is the decision rule, `first_failure` the first condition of a grant that a request fails, `report_of` the list of those.
//!
//! # Costs
//!
//! A verdict takes no memory and copies nothing, since a `Target` borrows its texts. `docs/PERFORMANCE.md` has the times.
//!
//! # Design
//!
//! Both kinds of ticket are judged by one function (`judging.rt`, `allow_by`), which goes by the chains where the ticket has
//! them. `kinds.rt` says by which parts grants are found, `hashing.rt` makes numbers of names without a call, and `chains.rt`
//! walks: it asks one small function of each grant on the way, which compares words and calls nothing. The proof knows of the
//! numbers only that equal names have equal ones (`specs/Kinds.antt`), so another way to make them changes `hashing.rt` and
//! `specs/Hash.antt` alone.
#![tactic(auto)]

mod chains;
mod hashing;
mod indexed;
mod judging;
mod kinds;
mod matching;
mod reporting;
mod shared;
mod texts;
mod ticket;

pub use indexed::IndexedTicket;
pub use judging::{grants_allow, judge};
pub use matching::{can_read, can_write, covers, first_failure, matches_tag, names};
pub use reporting::report;
pub use request_types::{Calls, ClassCall, Condition, Needs, Target};
pub use shared::SharedTicket;
pub use ticket::{MAX_GRANTS, Report, Ticket};
