//! Capability texts as Ceph 16.2.15 reads them, and what they expand to by its profiles.
#![tactic(auto)]

mod bytes;
mod clauses;
mod entry;
mod fault;
mod grant;
mod grants;
mod list;
mod owned;
mod pieces;
mod printing;
mod profiles;
mod reading;
mod row;

pub use entry::CephEntry;
pub use fault::CephFault;
pub use grant::CephGrant;
pub use list::CephList;
pub use printing::push_ceph_grant;
pub use profiles::{expand_ceph, is_known_profile, unknown_profiles};
pub use reading::{read, reads_one_list};
