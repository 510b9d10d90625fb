//! How answers are printed.

/// How an answer is printed.
#[derive(Clone, Copy, Debug, PartialEq, Eq)]
pub enum Format {
    /// As lines of text.
    Text,
    /// As one JSON document, on a line.
    Json,
}
