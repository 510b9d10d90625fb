//! Laws of lines, words, numbers and printed texts, each the contract of a function that does nothing.

ghost use Rattle.script_text.specs.Laws.{LinesAreTheText, LinesAreReadBack, QuotedIsReadBack, NumbersAreReadBack, PairsAreReadBack, NumeralsAreDecimal};

/// The lines of a text, each with its end, are the text, whose last line may have had no end.
pub fn lines_are_the_text()
    ensures { LinesAreTheText }
{}

/// Lines without a line feed, each with its end, are a text of just these lines.
pub fn lines_are_read_back()
    ensures { LinesAreReadBack }
{}

/// A printed text whose bytes stand for themselves is one word.
pub fn quoted_is_read_back()
    ensures { QuotedIsReadBack }
{}

/// A printed number is read back.
pub fn numbers_are_read_back()
    ensures { NumbersAreReadBack }
{}

/// A count is printed as other numbers are, wherever these can be: below 10^64.
pub fn numerals_are_decimal()
    ensures { NumeralsAreDecimal }
{}

/// Two printed numbers with a dot between them are read back.
pub fn pairs_are_read_back()
    ensures { PairsAreReadBack }
{}
