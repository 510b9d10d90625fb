//! A law of the words of a line, as the contract of a function that does nothing.

ghost use Rattle.rules_words.specs.Laws.{LinesAreCutOnce};

/// A line has one list of words, or one first fault.
pub fn lines_are_cut_once()
    ensures { LinesAreCutOnce }
{}
