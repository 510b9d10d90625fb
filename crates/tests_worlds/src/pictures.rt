//! A script's group as a picture, in both forms.

use crate::expecting::expect_so;
use replay_picture::{Format, draw_script};
use std::alloc::{AllocError, Global};

const SCRIPT: &[u8] = b"osds 1
osd pool create data 1 1 1
settle
";

const MERMAID: &str = "sequenceDiagram
    participant client as client
    participant osd0 as osd.0
    Note left of client: 1 osds 1
    Note left of client: 2 osd pool create data 1 1 1
    Note over client,osd0: interval 1, acting 0
    Note left of client: 3 settle
    client->>osd0: Interval 1
";

/// How the picture of the script's only group begins and ends in each form.
const ROWS: &[(Format, &str, &str); 2] = &[
    (Format::Mermaid, MERMAID, MERMAID),
    (Format::Svg, "<svg ", "</svg>\n"),
];

/// Whether the script's picture begins and ends so.
fn is_drawn(alloc: Global, row: &(Format, &str, &str)) -> Result<bool, AllocError> {
    let (format, begins, ends) = *row;
    Ok(match draw_script(alloc, SCRIPT, None, format)? {
        None => false,
        Some(picture) => {
            let text = picture.text.as_bytes();
            text.starts_with(begins.as_bytes()) && text.ends_with(ends.as_bytes())
        }
    })
}

#[test]
fn a_script_is_drawn(rt: HostRuntime) {
    for row in ROWS {
        let is_drawn = is_drawn(rt.alloc(), row).expect(&rt, "memory");
        expect_so(&rt, is_drawn, row.1);
    }
}
