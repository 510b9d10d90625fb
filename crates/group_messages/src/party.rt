//! Who sends messages, and to whom.

/// Who sends or receives.
#[derive(Clone, Copy, Debug, PartialEq, Eq)]
pub enum Party {
    /// The client, which also tells daemons of intervals.
    Client,
    /// The daemon of a number.
    Osd(u8),
}
