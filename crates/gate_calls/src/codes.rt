//! The numbers of the answers, as `include/sigmuyap.h` names them.

pub(crate) const OK: u32 = 0;

pub(crate) const DENY: u32 = 0;

pub(crate) const ALLOW: u32 = 1;

pub(crate) const NOT_WIDER: u32 = 0;

pub(crate) const WIDER: u32 = 1;
/// The handle holds no ticket.
pub(crate) const EMPTY: u32 = 2;
/// A text or a name is not UTF-8.
pub(crate) const NOT_UTF8: u32 = 3;
/// An allocation failed.
pub(crate) const NO_MEMORY: u32 = 4;
/// The capability text has a fault.
pub(crate) const REFUSED: u32 = 5;
/// The rules are not known.
pub(crate) const BAD_RULES: u32 = 6;
/// Two slices differ in length.
pub(crate) const BAD_LENGTH: u32 = 7;
/// No address is given, and the answer is not the same at all addresses.
pub(crate) const DEPENDS: u32 = 8;
/// The text of an address writes none.
pub(crate) const BAD_ADDRESS: u32 = 9;
