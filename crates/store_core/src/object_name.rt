//! The names of objects.

ghost use Rattle.std.specs.Prelude.{◌≡◌};
ghost use Rattle.std.specs.Cmp.{partial_equiv_from_equiv};
ghost use Rattle.store_core.specs.Names.{is_same, is_same_equiv, hash_of, hashes_alike};

use common_types::{Name, OutOfMemory};
use std::alloc::AllocError;
use std::hash::{Hash, Hasher};
use std::marker::Model;

/// Where an object is: its pool, its namespace, and its name there.
pub struct ObjectName {
    pub(crate) pool: Name,
    pub(crate) namespace: Name,
    pub(crate) name: Name,
}

impl Drop for ObjectName {
    fn drop(self) {
        let ObjectName {
            pool: _,
            namespace: _,
            name: _,
        } = self;
    }
}

impl Model for ObjectName {
    ghost use Rattle.store_core.specs.Store as store;

    ghost Value = { store.ObjectName };

    ghost view = { λ n. record { pool = n.pool; namespace = n.namespace; name = n.name } };
}

impl PartialEq for ObjectName {
    ghost eq = { is_same };

    ghost laws = { partial_equiv_from_equiv is_same_equiv };

    fn eq(&self, other: &ObjectName) -> bool {
        self.pool.equals(&other.pool)
            && (self.namespace.equals(&other.namespace) && self.name.equals(&other.name))
    }
}

impl Eq for ObjectName {
    ghost laws = { is_same_equiv };
}

impl Hash for ObjectName {
    ghost hash_input = { hash_of };

    ghost respects_eq = { hashes_alike };

    fn hash<H: Hasher>(&self, state: &mut H) {
        self.pool.as_str().hash(state);
        self.namespace.as_str().hash(state);
        self.name.as_str().hash(state);
    }
}

impl Clone for ObjectName {
    ghost is_clone = { λ a b. b ≡ a };

    fn clone(&self) -> Result<ObjectName, AllocError> {
        Ok(ObjectName {
            pool: self.pool.copy()?,
            namespace: self.namespace.copy()?,
            name: self.name.copy()?,
        })
    }
}
