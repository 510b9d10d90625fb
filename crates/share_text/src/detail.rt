//! How much is printed.

ghost use Rattle.std.specs.Prelude.{◌≡◌};
ghost use Rattle.share_text.specs.Details as spec;

/// How much is printed of what entities share, and of where data flows.
#[derive(Clone, Copy, Debug, PartialEq, Eq)]
pub enum Detail {
    /// No pair with an entity that reads and writes every object of every pool, and of a chain its first step and its length.
    Brief,
    /// Each pair, and each step of a chain.
    Whole,
}

impl Detail {
    /// Whether pairs are left out.
    pub(crate) fn is_brief(self) -> bool
        ensures { result ≡ spec.is_brief self }
    {
        match self {
            Detail::Brief => true,
            Detail::Whole => false,
        }
    }
}
