//! How many lines there are of each kind.

ghost use Rattle.std.specs.Prelude.{◌≡◌};
ghost use Rattle.log_core.specs.Ledger as spec;

use common_types::Name;

/// How many lines there are of each kind. Each counts up to 2^64 - 1.
#[derive(Clone, Copy, Debug, Default, PartialEq, Eq)]
pub struct LineCounts {
    /// Sessions that begin.
    pub sessions: u64,
    /// Decisions, also those whose entity or object is not known.
    pub decisions: u64,
    /// Decisions in sessions whose beginning the log lacks.
    pub without_entity: u64,
    /// Decisions of which the entity is known, and not the object.
    pub without_object: u64,
    /// Lines that lack a part.
    pub cut: u64,
}

impl LineCounts {
    pub(crate) fn with_session(self) -> LineCounts
        ensures { result ≡ spec.with_session self }
    {
        LineCounts {
            sessions: self.sessions.saturating_add(1),
            decisions: self.decisions,
            without_entity: self.without_entity,
            without_object: self.without_object,
            cut: self.cut,
        }
    }

    pub(crate) fn with_cut(self) -> LineCounts
        ensures { result ≡ spec.with_cut self }
    {
        LineCounts {
            sessions: self.sessions,
            decisions: self.decisions,
            without_entity: self.without_entity,
            without_object: self.without_object,
            cut: self.cut.saturating_add(1),
        }
    }

    /// With one more decision, by whether its entity and its object are known.
    pub(crate) fn with_decision(self, entity: &Option<Name>, object: &Option<Name>) -> LineCounts
        ensures { result ≡ spec.with_decision entity.now object.now self }
    {
        let (without_entity, without_object) = match (entity, object) {
            (None, _) => (self.without_entity.saturating_add(1), self.without_object),
            (Some(_), None) => (self.without_entity, self.without_object.saturating_add(1)),
            (Some(_), Some(_)) => (self.without_entity, self.without_object),
        };
        LineCounts {
            sessions: self.sessions,
            decisions: self.decisions.saturating_add(1),
            without_entity,
            without_object,
            cut: self.cut,
        }
    }
}
