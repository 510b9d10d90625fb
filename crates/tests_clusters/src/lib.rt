//! The worked examples of locks and clusters, as tests. Each calls only what is public.
//!
//! They stand here and not beside the code, since a crate with tests is proved a second time with them.
#![tactic(auto)]

#[cfg(test)]
mod apart;
#[cfg(test)]
mod begun;
#[cfg(test)]
mod changes;
#[cfg(test)]
mod closing;
#[cfg(test)]
mod failover;
#[cfg(test)]
mod faults;
#[cfg(test)]
mod gates;
#[cfg(test)]
mod held;
#[cfg(test)]
mod listings;
#[cfg(test)]
mod loads;
#[cfg(test)]
mod locks;
#[cfg(test)]
mod notes;
#[cfg(test)]
mod tickets;
