//! The applications that a pool is tagged with, and their pairs of a key and a value.
//!
//! Source: the Ceph manual's Pools chapter, "Associating a pool with an application".

use crate::items::{Items, TryClone};
use crate::memory::OutOfMemory;
use crate::name::Name;

/// An application of a pool, with its pairs.
#[derive(Debug, Drop)]
pub struct AppTags {
    pub application: Name,
    pub pairs: Pairs,
}

/// Keys with their values, which contracts see as the list of them.
pub type Pairs = Items<(Name, Name)>;

/// The applications of a pool, which contracts see as the list of them.
pub type Tags = Items<AppTags>;

impl TryClone for AppTags {
    fn copy(&self) -> Result<AppTags, OutOfMemory> {
        Ok(AppTags {
            application: self.application.copy()?,
            pairs: self.pairs.copy()?,
        })
    }
}
