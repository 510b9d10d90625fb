//! The laws of what the grammar can spell.

ghost use Rattle.cap_text.specs.Spelled.{SpelledIsSpellable, SpellableIsSpelled};

/// A law: whatever a text spells passes the test of what the grammar can spell. It does nothing.
pub fn spelled_is_spellable()
    ensures { SpelledIsSpellable }
{}

/// A law: some text spells whatever passes the test. It does nothing.
pub fn spellable_is_spelled()
    ensures { SpellableIsSpelled }
{}
