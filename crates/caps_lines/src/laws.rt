//! A law of lines, as the contract of a function that does nothing.

ghost use Rattle.caps_lines.specs.Laws.{WordsAreReadBack};

/// A shell reads a line as its words, and expands none of them. Words have no byte 0.
#[tactic(auto, using(crate::proofs::ReadBack::words_are_read_back))]
pub fn words_are_read_back()
    ensures { WordsAreReadBack }
{}
