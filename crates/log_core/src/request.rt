//! Requests that a log decides.

ghost use Rattle.std.specs.Prelude.{◌≡◌, IfOk, string_bytes};
ghost use Rattle.log_core.specs.Ledger.{key_of};

use common_types::{Name, OutOfMemory};
use std::alloc::Global;

/// A request of an entity that a log decides. Names are as the log writes them.
#[derive(Debug)]
pub struct Request {
    pub entity: Name,
    pub object: Name,
    /// What the decision's line has behind its session.
    pub text: Name,
}

impl Drop for Request {
    fn drop(self) {
        let Request {
            entity: _,
            object: _,
            text: _,
        } = self;
    }
}

impl Request {
    /// What its repetitions have in common. The only error is out of memory.
    pub fn key(&self, alloc: Global) -> Result<String, OutOfMemory>
        ensures { IfOk result (λ key. string_bytes key ≡ key_of self.now) }
    {
        let mut key = String::from_str(alloc, self.entity.as_str())?;
        key.push_str("\n")?;
        key.push_str(self.object.as_str())?;
        key.push_str("\n")?;
        key.push_str(self.text.as_str())?;
        Ok(key)
    }
}
