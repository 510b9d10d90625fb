//! Vectors of operations.

use common_types::Items;
use object_core::Op;

/// The operations of a vector, in order, which contracts see as their list.
pub type Ops = Items<Op>;
