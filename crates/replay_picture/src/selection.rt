//! Which steps of a script a picture shows.

use entry_core::Id;

/// The steps of some lines, or of one request.
#[derive(Clone, Copy)]
pub(crate) struct Selection {
    /// The first and the last line, counted from 1.
    pub(crate) lines: Option<(usize, usize)>,
    pub(crate) request: Option<Id>,
}

impl Selection {
    /// Whether a line comes before the first one that is shown.
    pub(crate) fn is_before(&self, line: usize) -> bool {
        match self.lines {
            None => false,
            Some((first, _)) => line < first,
        }
    }

    /// Whether a line comes behind the last one that is shown.
    pub(crate) fn is_behind(&self, line: usize) -> bool {
        match self.lines {
            None => false,
            Some((_, last)) => line > last,
        }
    }
}

/// How far a request is.
#[derive(Clone, Copy, PartialEq, Eq)]
pub(crate) enum Stage {
    /// It was not submitted yet.
    Before,
    Open,
    Answered,
}

/// What a row is to a picture of one request.
#[derive(Clone, Copy)]
pub(crate) enum Part {
    Shown,
    /// It moves the group after the answer, and is shown if the request goes on.
    Later,
    Apart,
}
