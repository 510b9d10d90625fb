//! Laws of deciding, each the contract of a function that does nothing.

ghost use Rattle.entry_core.specs.Laws.{VerdictIsSealed, RefusalsLeaveTheStore, OthersAreLeft, FindTells, DecisionTellsTheStore, ListingsAreSorted};
ghost use Rattle.entry_core.specs.Locality.{SealedDecideAlike};
ghost use Rattle.entry_core.specs.FittingLaws.{FitGivesTheLog, FitOfNothing, FittedIsLegal};

/// On every log a request is denied just where its own ticket, target, needs and tick are not allowed, and with their report.
pub fn verdict_is_sealed()
    ensures { VerdictIsSealed }
{}

/// An entry that was denied, that failed or that lists names leaves all objects as they were.
pub fn refusals_leave_the_store()
    ensures { RefusalsLeaveTheStore }
{}

/// An entry leaves each object but its own as it was.
pub fn others_are_left()
    ensures { OthersAreLeft }
{}

/// What a group decides hangs on its own objects alone: stores that agree on the objects of a pool whose names hash to a group
/// decide alike each request that is sealed for the group.
pub fn groups_decide_apart()
    ensures { SealedDecideAlike }
{}

/// In a legal log an entry that is found under an id is of that id, and was decided on the entries before it.
pub fn find_tells()
    ensures { FindTells }
{}

/// A decision, once it stands in the log, changes the objects as it says.
pub fn decision_tells_the_store()
    ensures { DecisionTellsTheStore }
{}

/// The names of a listing piece stand in the order of their bytes, each once.
pub fn listings_are_sorted()
    ensures { ListingsAreSorted }
{}

/// A log that is fitted to the part of another, with which it nearly begins, becomes the other.
pub fn fit_gives_the_log()
    ensures { FitGivesTheLog }
{}

/// An empty part behind a log changes nothing.
pub fn fit_of_nothing()
    ensures { FitOfNothing }
{}

/// A legal log that is fitted stays legal.
pub fn fitted_is_legal()
    ensures { FittedIsLegal }
{}
