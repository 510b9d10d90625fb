//! Rights: the grants of an entity, each for the addresses of its network, and verdicts at an address or at all addresses.
#![tactic(auto)]

mod entries;
mod judging;
mod reporting;
mod rights;
mod sampling;

pub use entries::{Entries, Entry};
pub use judging::{Everywhere, judge_at, judge_everywhere};
pub use rights::{MAX_GRANTS, Rights};
pub use sampling::{addresses, tickets};
