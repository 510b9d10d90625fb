//! The object classes of Ceph 16.2.15: their methods with flags, and which classes are listed by default.
#![tactic(auto)]

mod flags;
mod listing;
mod lookup;
mod table;

pub use flags::{ClassMethod, MethodFlags};
pub use listing::{default_list, is_listed};
pub use lookup::{find, find_in, methods};

/// The release of Ceph that the table and the list were measured on.
pub const RELEASE: &str = "16.2.15";
