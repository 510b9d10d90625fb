//! Laws of objects, each the contract of a function that does nothing.

ghost use Rattle.object_core.specs.Laws.{RemovedIsGone};

/// An attribute that was removed is gone: no second one has its name.
pub fn removed_is_gone()
    ensures { RemovedIsGone }
{}
