//! Counts, as they are printed.

use crate::expecting::expect_text;
use script_text::{Count, push_count};
use std::alloc::{AllocError, Global};

/// What a count is printed as after `times` additions of one.
fn counted(alloc: Global, times: u32) -> Result<String, AllocError> {
    let mut count = Count::new(alloc);
    for _ in 0..times {
        count.add_one()?;
    }
    let mut text = String::new(alloc);
    push_count(&mut text, &count)?;
    Ok(text)
}

const COUNTS: &[(u32, &str); 8] = &[
    (0, "0"),
    (1, "1"),
    (9, "9"),
    (10, "10"),
    (99, "99"),
    (100, "100"),
    (109, "109"),
    (1_000, "1000"),
];

#[test]
fn a_count_gets_a_digit_behind_nines(rt: HostRuntime) {
    for (times, printed) in COUNTS {
        let text = counted(rt.alloc(), *times).expect(&rt, "memory");
        expect_text(&rt, text.as_str(), printed);
    }
}
