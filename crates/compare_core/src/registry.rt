//! Whose class methods requests call.

/// The class registries over which tickets are compared.
#[derive(Clone, Copy, Debug, PartialEq, Eq)]
pub enum Registry {
    /// Every registry: each class may have each method, which reads, writes or both, and may be on the default list
    /// or not.
    Every,
    /// This project's own.
    Own,
}
