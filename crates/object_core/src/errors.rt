//! The numbers of errors, as Linux and Ceph have them.

/// The object is missing.
pub(crate) const ENOENT: u32 = 2;
/// The object exists, and exclusive was asked.
pub(crate) const EEXIST: u32 = 17;
/// Bytes that are not what they must be.
pub const EINVAL: u32 = 22;
/// More than 65,536 bytes.
pub(crate) const EFBIG: u32 = 27;
/// A number or an attribute over its limit.
pub const ERANGE: u32 = 34;
/// There is no such attribute.
pub(crate) const ENODATA: u32 = 61;
/// There is no such class or method.
pub const EOPNOTSUPP: u32 = 95;
