//! Capabilities that several handles share.

ghost use Rattle.std.specs.Prelude.{◌≡◌, IfOk};

use crate::caps::Caps;
use common_types::OutOfMemory;
use std::alloc::Global;
use std::marker::Model;
use std::sync::Arc;

/// Capabilities that several handles share. A copy takes the same time and memory, however many grants there are.
#[derive(Debug, Drop)]
pub(crate) struct SharedCaps {
    caps: Arc<Caps>,
}

impl Model for SharedCaps {
    ghost use Rattle.std.specs.Arc.{arc_value};
    ghost use Rattle.gate_calls.specs.Caps as seen;

    ghost Value = { seen.Caps };

    ghost view = { λ s. arc_value s.caps };
}

impl SharedCaps {
    pub(crate) fn of(alloc: Global, caps: Caps) -> Result<SharedCaps, OutOfMemory>
        ensures { IfOk result (λ shared. shared ≡ caps) }
    {
        Ok(SharedCaps {
            caps: Arc::new(alloc, caps)?,
        })
    }

    pub(crate) fn as_caps(&self) -> &Caps
        ensures { result.now ≡ self.now }
    {
        &self.caps
    }

    /// A second owner of the same capabilities.
    pub(crate) fn copy(&self) -> Result<SharedCaps, OutOfMemory>
        ensures { IfOk result (λ shared. shared ≡ self.now) }
    {
        Ok(SharedCaps {
            caps: Arc::try_clone(&self.caps)?,
        })
    }
}
