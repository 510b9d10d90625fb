//! What tests see of entries and replies.

use entry_core::{Entry, Id, Reply};

// Whether entries are those of the requests of these numbers, in this order.
pub(crate) fn are(entries: &[Entry], numbers: &[u32]) -> bool {
    entries.len() == numbers.len()
        && entries
            .iter()
            .zip(numbers)
            .all(|(entry, number)| entry.sealed.id() == Id::new(1, *number))
}

// Whether a reply has just these outputs.
pub(crate) fn gives(reply: &Reply, outputs: &[&str]) -> bool {
    let Reply::Done(given) = reply else {
        return false;
    };
    if given.as_slice().len() != outputs.len() {
        return false;
    }
    for (bytes, output) in given.as_slice().iter().zip(outputs) {
        if bytes.as_slice() != output.as_bytes() {
            return false;
        }
    }
    true
}
