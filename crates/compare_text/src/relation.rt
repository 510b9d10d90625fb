//! How new grants stand to old ones, and the words for it.

ghost use Rattle.std.specs.Prelude.{◌≡◌, ◌&&◌, option_copied};
ghost use Rattle.compare_text.specs.Relation as spec;

/// How the rights of new grants stand to those of old ones.
#[derive(Clone, Copy, Debug, PartialEq, Eq)]
pub enum Relation {
    /// Each allows what the other does.
    Same,
    /// The old grants allow all that the new ones do, and more.
    Narrower,
    /// The new grants allow all that the old ones do, and more.
    Wider,
    /// Each allows something that the other denies.
    Different,
}

/// Which of two lists have an entity.
#[derive(Clone, Copy, Debug, PartialEq, Eq)]
pub enum Presence {
    Both,
    /// The new list alone.
    New,
    /// The old list alone.
    Gone,
}

impl Relation {
    /// The relation of grants by whether the new ones allow what the old ones deny, and the other way round.
    pub fn of(gains: bool, loses: bool) -> Relation
        ensures { result ≡ spec.relation_of gains loses }
    {
        match (gains, loses) {
            (false, false) => Relation::Same,
            (false, true) => Relation::Narrower,
            (true, false) => Relation::Wider,
            (true, true) => Relation::Different,
        }
    }

    /// The word that a comparison prints for it.
    pub fn word(self) -> &'static str
        ensures { result.now ≡ spec.relation_word self }
    {
        match self {
            Relation::Same => "same",
            Relation::Narrower => "narrower",
            Relation::Wider => "wider",
            Relation::Different => "different",
        }
    }

    /// Whether the new grants allow what the old ones deny.
    fn is_wider(self) -> bool
        ensures { result ≡ spec.is_wider self }
    {
        match self {
            Relation::Same | Relation::Narrower => false,
            Relation::Wider | Relation::Different => true,
        }
    }
}

/// Whether a comparison fails: where a check was asked for, and the new grants allow what the old ones deny.
pub fn fails_check(check: bool, relation: Relation) -> bool
    ensures { result ≡ (check && spec.is_wider relation) }
{
    check && relation.is_wider()
}

/// The word behind an entity's name, or nothing where its rights are the same.
pub fn word_of(presence: Presence, relation: Relation) -> Option<&'static str>
    ensures { option_copied result ≡ spec.word_of presence relation }
{
    match (presence, relation) {
        (Presence::Both, Relation::Same) => None,
        (Presence::Both, relation) => Some(relation.word()),
        (Presence::New, _) => Some("new"),
        (Presence::Gone, _) => Some("gone"),
    }
}
