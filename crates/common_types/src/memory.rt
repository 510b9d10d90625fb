//! Out of memory.

use std::alloc::AllocError;

/// An allocation failed.
pub type OutOfMemory = AllocError;
