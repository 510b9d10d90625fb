//! Clusters, each test with any one allocation refused. A call that was refused has left the cluster as it was, and goes when it
//! is made once more.
//!
//! Run as it is, nothing is refused, and each test passes. `tools/refuse_allocations` runs each test with one allocation after
//! another refused; in a run only one is, so a second refusal fails the test. Where a refusal left a change of the map or a list in
//! part, and all that is asked of it then held, the test ends with a word that says how far it had come. The tool takes these words
//! for right ends, and misses those that do not come.
#![tactic(auto)]

#[cfg(test)]
mod begun;
#[cfg(test)]
mod changes;
#[cfg(test)]
mod closing;
#[cfg(test)]
mod listings;
#[cfg(test)]
mod looks;
#[cfg(test)]
mod notes;
#[cfg(test)]
mod steps;
#[cfg(test)]
mod workers;
#[cfg(test)]
mod worlds;
