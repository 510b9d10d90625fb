//! Words and texts that are drawn by a fixed row of numbers.

use std::alloc::Global;
use std::process::Abort;

const ACCESSES: &[&str] = &[
    "r",
    "w",
    "rw",
    "x",
    "rwx",
    "*",
    "r class-read",
    "class counter",
    "class counter get",
    "class vault",
];

const NAMESPACES: &[&str] = &[
    "",
    "",
    " namespace=a",
    " namespace=a*",
    " namespace=ab*",
    " namespace=''",
];

const POOLS: &[&str] = &["", "", " pool=a", " pool=b"];

const PREFIXES: &[&str] = &["", "", " object_prefix a", " object_prefix ab"];

/// The next of the numbers.
pub(crate) fn draw(row: &mut u64) -> usize {
    *row = row
        .wrapping_mul(6364136223846793005)
        .wrapping_add(1442695040888963407);
    (*row >> 33) as usize
}

/// The next of the numbers takes one of the words.
pub(crate) fn pick(row: &mut u64, words: &[&'static str]) -> &'static str {
    if words.is_empty() {
        return "";
    }
    words[draw(row) % words.len()]
}

/// The words of a grant, behind what stands before it.
fn draw_grant(row: &mut u64, before: &'static str, tags: &[&'static str]) -> [&'static str; 5] {
    let access = pick(row, ACCESSES);
    if pick(row, ["tag", "no", "no"].as_slice()) == "tag" {
        [before, access, pick(row, NAMESPACES), pick(row, tags), ""]
    } else {
        let pool = pick(row, POOLS);
        let namespace = pick(row, NAMESPACES);
        [before, access, pool, namespace, pick(row, PREFIXES)]
    }
}

/// A text of up to three grants, with these tags.
pub(crate) fn draw_text<R: Abort>(
    rt: &R,
    alloc: Global,
    row: &mut u64,
    tags: &[&'static str],
) -> String {
    let mut text = String::new(alloc);
    for before in ["allow ", ", allow ", ", allow "] {
        if pick(row, ["stop", "go", "go"].as_slice()) == "stop" {
            break;
        }
        for word in draw_grant(row, before, tags) {
            text.push_str(word).expect(rt, "memory");
        }
    }
    text
}
