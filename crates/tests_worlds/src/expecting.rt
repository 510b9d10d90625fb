//! What ends a test. A call of these costs the proof less than an assertion that stands in the test.

use std::process::Abort;

/// Ends the test where something is not so, and names it.
pub(crate) fn expect_so<R: Abort>(rt: &R, is_so: bool, what: &str) {
    assert!(rt; is_so, "{what}");
}

/// Ends the test where a row is not so, and tells its place.
pub(crate) fn expect_row<R: Abort>(rt: &R, is_so: bool, what: &str, place: usize) {
    assert!(rt; is_so, "{what} {place}");
}

/// Ends the test where a text is not the one that is wanted.
pub(crate) fn expect_text<R: Abort>(rt: &R, found: &str, want: &str) {
    assert_eq!(rt; found, want);
}
