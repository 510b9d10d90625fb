//! How finely a suggestion divides targets.

use cap_text::Tag;

/// What divides the targets of a suggestion into regions.
#[derive(Clone, Copy, Debug, PartialEq, Eq)]
pub enum Division {
    /// Each pool is a region.
    Pool,
    /// Each namespace of a pool is a region.
    Namespace,
    /// In each namespace of a pool, the names that begin as all names seen there do.
    Prefix,
}

/// How finely a suggestion divides targets into regions.
#[derive(Debug)]
pub struct Grain {
    pub by: Division,
    /// Tags in place of the names of pools. The first that all requests seen share is taken, except where prefixes divide.
    pub tags: Vec<Tag>,
}

impl Drop for Grain {
    fn drop(self) {
        let Grain { by: _, tags: _ } = self;
    }
}
