//! Patterns of names, as `--only`, `--without` and `--known` take them. In a pattern `*` stands for any bytes.
#![tactic(auto)]

mod patterns;

pub use patterns::{matches, matches_any};
