//! The front of a world: users, map, sessions, submissions and lists, and the requests that are sealed from them.
//!
//! The front has no groups, messages or copies. `world_events` defines what happens to a world, what a call reports
//! of it, and why a call is refused. Its names are re-exported here, since each event reaches the front first.
//!
//! All of it is this project's profile, over the commands of the Ceph manual.
#![tactic(auto)]

mod asking;
mod front;
mod joined;
mod lists;
mod name_set;
mod pool_places;
mod sealing;
mod session;
mod stopping;
mod users;

pub use asking::{are_names, is_namespace};
pub use front::{ControlPlane, MAX_SESSIONS};
pub use joined::Joined;
pub use pool_places::{groups_before, place_for};
pub use sealing::{seal_piece, seal_vector};
pub use session::{ListRange, Session};
pub use stopping::at_place;
pub use users::change_users;
pub use world_events::{Ask, AuthCommand, Event, Ops, Submissions, Told, WorldFault};
