//! The acting sets of a group's intervals.

ghost use Rattle.std.specs.Prelude.{◌≡◌, ◌++◌, [], ◌∷◌, length, IfOk};

use common_types::{OutOfMemory, TryClone};
use place_core::ActingSet;
use std::alloc::Global;
use std::marker::Model;
use std::sync::Arc;

/// The acting sets of all intervals so far, the first first, which contracts see as a list. Its copies share them.
#[derive(Drop)]
pub struct IntervalSets {
    // none where there is no set
    shared: Option<Arc<Vec<ActingSet>>>,
}

impl Model for IntervalSets {
    ghost use Rattle.std.specs.Prelude.{List, ℕ, []};
    ghost use Rattle.std.specs.Option.{option_map_or};
    ghost use Rattle.std.specs.Arc.{arc_value};
    ghost use Rattle.std.specs.Global.{Vec};

    ghost Value = { List (List ℕ) };

    ghost view = { λ s. option_map_or (λ sets. (arc_value {X = Vec (List ℕ)} sets).items) s.shared [] };
}

impl IntervalSets {
    /// No sets. It takes no memory.
    pub fn new() -> IntervalSets
        ensures { result ≡ [] }
    {
        IntervalSets { shared: None }
    }

    /// How many intervals there are.
    pub fn len(&self) -> usize
        ensures { result ≡ length self.now }
    {
        self.as_slice().len()
    }

    /// The sets in order.
    pub fn as_slice(&self) -> &[ActingSet]
        ensures { result.now ≡ self.now }
    {
        match &self.shared {
            Some(sets) => sets.as_slice(),
            None => &[],
        }
    }

    /// These sets and one more.
    pub fn followed_by(&self, alloc: Global, set: ActingSet) -> Result<IntervalSets, OutOfMemory>
        ensures { IfOk result (λ sets. sets ≡ self.now ++ set ∷ []) }
    {
        let mut sets = Vec::new(alloc);
        sets.reserve(self.len())?;
        for earlier in self.as_slice() {
            sets.push(*earlier)?;
        }
        sets.push(set)?;
        Ok(IntervalSets {
            shared: Some(Arc::new(alloc, sets)?),
        })
    }
}

impl TryClone for IntervalSets {
    /// A copy that shares the sets.
    fn copy(&self) -> Result<IntervalSets, OutOfMemory> {
        match &self.shared {
            Some(sets) => Ok(IntervalSets {
                shared: Some(Arc::try_clone(sets)?),
            }),
            None => Ok(IntervalSets::new()),
        }
    }
}
