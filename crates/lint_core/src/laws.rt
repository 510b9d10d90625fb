//! What is so of all texts: functions that do nothing, whose clauses are the laws.

ghost use Rattle.std.specs.Prelude.{ℕ, List};
ghost use Rattle.cap_grants.specs.declared.grant.Grant.{Grant};
ghost use Rattle.lint_core.specs.Idle.{NoneIsIdle};

/// Each grant of a text, by the built-in profiles, allows some request that needs something: a read, a write, or one
/// call of some class method. So no grant is reported as idle (this project's profile).
pub fn no_grant_is_idle()
    ensures { (text : List ℕ) (grants : List Grant) → NoneIsIdle text grants }
{}
