//! In what ways two share an object.

ghost use Rattle.std.specs.Prelude.{◌≡◌};
ghost use Rattle.share_text.specs.Kinds as spec;

use share_core::Touch;

/// What the one does and what the other does, both at one target. Each counts calls of methods that do so.
#[derive(Clone, Copy, Debug)]
pub(crate) enum Kind {
    /// Both write.
    WritesWrites,
    /// The one writes what the other reads.
    WritesReads,
    /// The one reads what the other writes.
    ReadsWrites,
    /// Both read.
    ReadsReads,
}

impl Kind {
    /// What the one does.
    pub(crate) fn one(self) -> Touch
        ensures { result ≡ spec.one_touch self }
    {
        match self {
            Kind::WritesWrites | Kind::WritesReads => Touch::AnyWrite,
            Kind::ReadsWrites | Kind::ReadsReads => Touch::AnyRead,
        }
    }

    /// What the other does.
    pub(crate) fn other(self) -> Touch
        ensures { result ≡ spec.other_touch self }
    {
        match self {
            Kind::WritesWrites | Kind::ReadsWrites => Touch::AnyWrite,
            Kind::WritesReads | Kind::ReadsReads => Touch::AnyRead,
        }
    }

    /// Whether one of them writes, so that a check fails.
    pub(crate) fn is_written(self) -> bool
        ensures { result ≡ spec.is_written self }
    {
        match self {
            Kind::WritesWrites | Kind::WritesReads | Kind::ReadsWrites => true,
            Kind::ReadsReads => false,
        }
    }

    pub(crate) fn words(self) -> &'static str
        ensures { result.now ≡ spec.kind_words self }
    {
        match self {
            Kind::WritesWrites => "writes writes",
            Kind::WritesReads => "writes reads",
            Kind::ReadsWrites => "reads writes",
            Kind::ReadsReads => "reads reads",
        }
    }
}
