//! Targets that own their names.

ghost use Rattle.std.specs.Prelude.{◌≡◌, []};

use common_types::{Name, Tags};
use std::alloc::Global;
use std::marker::Model;
use verdict_core::Target;

/// Where a request goes: an object of a namespace in a pool, and the pool's application tags.
///
/// A listing has the empty object name.
#[derive(Debug)]
pub struct OwnedTarget {
    pub pool: Name,
    pub tags: Tags,
    pub namespace: Name,
    pub object: Name,
}

impl Drop for OwnedTarget {
    fn drop(self) {
        let OwnedTarget {
            pool: _,
            tags: _,
            namespace: _,
            object: _,
        } = self;
    }
}

impl Model for OwnedTarget {
    ghost use Rattle.request_types.specs.Target as verdict_core;

    ghost Value = { verdict_core.Target };

    ghost view = { λ p. record { pool = p.pool; tags = p.tags; namespace = p.namespace; object = p.object } };
}

impl OwnedTarget {
    /// The listing of its namespace. It takes no memory.
    pub(crate) fn into_listing(self, alloc: Global) -> OwnedTarget
        ensures { result ≡ record { pool = self.pool; tags = self.tags; namespace = self.namespace; object = [] } }
    {
        let OwnedTarget {
            pool,
            tags,
            namespace,
            object: _,
        } = self;
        OwnedTarget {
            pool,
            tags,
            namespace,
            object: Name::from_string(String::new(alloc)),
        }
    }

    /// The target, for a verdict. It copies nothing.
    pub fn as_target(&self) -> Target<'_>
        ensures { result ≡ self.now }
    {
        Target {
            pool: self.pool.as_str().as_bytes(),
            tags: &self.tags,
            namespace: self.namespace.as_str().as_bytes(),
            object: self.object.as_str().as_bytes(),
        }
    }
}
