//! Why a file of rules is refused.

ghost use Rattle.std.specs.Prelude.{◌≡◌, Some};
ghost use Rattle.rules_text.specs.Faults as spec;

use std::fmt;
use verdict_text::TextFault;

/// Why a line of a file of rules is refused. It prints as its number and its name, and for a capability text the fault of it.
#[derive(Clone, Copy, Debug, Drop)]
pub enum RuleFault {
    /// U1: the first word is not `group`, `never`, `always` or `apart`.
    UnknownWord,
    /// U2: no entity is named.
    NoEntities,
    /// U3: there is no capability text in quotes, or it grants nothing.
    NoText,
    /// U4: a quote is not closed.
    OpenQuote,
    /// U5: the capability text is refused.
    BadText(TextFault),
    /// U6: a group has the name of an earlier one.
    DoubledGroup,
    /// U7: a group has the name of an entity.
    GroupIsEntity,
    /// U8: `*` is not the last byte of a name, or is in the name of a group.
    StarInside,
    /// U9: the line is behind the first 65,536.
    TooManyLines,
    /// U10: the line has more than 8,192 bytes.
    LineTooLong,
    /// U11: there are 4,096 rules before it.
    TooManyRules,
    /// U12: more than 4,096 names on one side, groups counted by their members.
    TooManyNames,
    /// U13: a byte is neither a tab nor from 32 to 126.
    BadByte,
    /// U14: a quote within a word, or a word that goes on behind its quote.
    StrayQuote,
    /// U15: `except` where a name is wanted.
    BadExcept,
    /// U16: a name in quotes.
    QuotedName,
    /// U17: a word behind the end of the rule.
    ExtraWord,
    /// U18: there are 1,024 groups before it.
    TooManyGroups,
}

impl fmt::Display for RuleFault {
    ghost output = { λ fault. Some (spec.fault_text fault) };

    fn fmt<W: fmt::Write>(&self, f: &mut fmt::Formatter<W>) -> fmt::Result {
        match self {
            RuleFault::UnknownWord => write!(f, "U1 UnknownWord"),
            RuleFault::NoEntities => write!(f, "U2 NoEntities"),
            RuleFault::NoText => write!(f, "U3 NoText"),
            RuleFault::OpenQuote => write!(f, "U4 OpenQuote"),
            RuleFault::BadText(fault) => write!(f, "U5 BadText {fault}"),
            RuleFault::DoubledGroup => write!(f, "U6 DoubledGroup"),
            RuleFault::GroupIsEntity => write!(f, "U7 GroupIsEntity"),
            RuleFault::StarInside => write!(f, "U8 StarInside"),
            RuleFault::TooManyLines => write!(f, "U9 TooManyLines"),
            RuleFault::LineTooLong => write!(f, "U10 LineTooLong"),
            RuleFault::TooManyRules => write!(f, "U11 TooManyRules"),
            RuleFault::TooManyNames => write!(f, "U12 TooManyNames"),
            RuleFault::BadByte => write!(f, "U13 BadByte"),
            RuleFault::StrayQuote => write!(f, "U14 StrayQuote"),
            RuleFault::BadExcept => write!(f, "U15 BadExcept"),
            RuleFault::QuotedName => write!(f, "U16 QuotedName"),
            RuleFault::ExtraWord => write!(f, "U17 ExtraWord"),
            RuleFault::TooManyGroups => write!(f, "U18 TooManyGroups"),
        }
    }
}

impl RuleFault {
    /// What was expected there.
    pub fn expected(&self) -> &'static str
        ensures { result.now ≡ spec.expected self.now }
    {
        match self {
            RuleFault::UnknownWord => "group, never, always or apart",
            RuleFault::NoEntities => "the name of an entity or a group",
            RuleFault::NoText => "a capability text in quotes that grants something",
            RuleFault::OpenQuote => "the quote that closes this one",
            RuleFault::BadText(_) => "a capability text",
            RuleFault::DoubledGroup => "a name that no earlier group has",
            RuleFault::GroupIsEntity => "a name that no entity has",
            RuleFault::StarInside => "a name with * as its last byte alone, and a group's without",
            RuleFault::TooManyLines => "at most 65,536 lines",
            RuleFault::LineTooLong => "at most 8,192 bytes in a line",
            RuleFault::TooManyRules => "at most 4,096 rules",
            RuleFault::TooManyNames => "at most 4,096 names",
            RuleFault::BadByte => "a printable ASCII byte or a tab",
            RuleFault::StrayQuote => "a blank behind the word",
            RuleFault::BadExcept => "a name, and one except in a rule",
            RuleFault::QuotedName => "a name without quotes",
            RuleFault::ExtraWord => "the end of the line",
            RuleFault::TooManyGroups => "at most 1,024 groups",
        }
    }
}

/// A fault of a line, and the position of its byte, counted from 0.
#[derive(Clone, Copy, Debug, Drop)]
pub(crate) struct LineFault {
    pub(crate) at: usize,
    pub(crate) fault: RuleFault,
}

/// The first fault of a file of rules.
#[derive(Clone, Copy, Debug, Drop)]
pub struct BadRule {
    /// Its line, counted from 1.
    pub line: usize,
    /// The position of its byte in the line, counted from 0. It is the length of the line where a word is missing at the end.
    pub at: usize,
    pub fault: RuleFault,
}
