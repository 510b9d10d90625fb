//! Steps of the worked examples, each with any one allocation refused. A step that was refused has left what it was made on as
//! it was, and goes when it is made once more.
//!
//! Run as it is, nothing is refused. `tools/refuse_allocations` runs each test with one allocation after another refused; in
//! a run only one is, so a second refusal fails the test.
#![tactic(auto)]

#[cfg(test)]
mod events;
#[cfg(test)]
mod fits;
#[cfg(test)]
mod groups;
#[cfg(test)]
mod looks;
#[cfg(test)]
mod maps;
#[cfg(test)]
mod requests;
#[cfg(test)]
mod scripts;
#[cfg(test)]
mod texts;
#[cfg(test)]
mod users;
