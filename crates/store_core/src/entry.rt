//! What stands in a log.

use crate::reply::Reply;
use crate::sealed::Sealed;
use common_types::TryClone;
use std::alloc::AllocError;

/// A request and the reply that was decided.
pub struct Entry {
    pub sealed: Sealed,
    pub reply: Reply,
}

impl Drop for Entry {
    fn drop(self) {
        let Entry {
            sealed: _,
            reply: _,
        } = self;
    }
}

impl TryClone for Entry {
    fn copy(&self) -> Result<Entry, AllocError> {
        Ok(Entry {
            sealed: self.sealed.copy()?,
            reply: self.reply.copy()?,
        })
    }
}
