//! Worked examples at the edges of the rules, and streams that fail.

mod counting;
mod reading;
mod streams;
