//! Rules that the entities of a cluster must keep, and whether they keep them: exact answers, with examples.
//!
//! # What contracts see
//!
//! A rule is a value: what it demands, of whom, and for which region of requests, which are rights as of an entity. An entity is
//! its name and its rights, if its capability text could be read. The three demands, never, always and apart, are definitions over
//! `is_allowed` alone (`specs/Demands.antt`): over all addresses, all requests that can be asked by calls of every class registry,
//! and all pools or those that are given.
//!
//! # Costs
//!
//! `Entities` finds entities by the pools that they name. So `never` about one pool looks only at the entities that name it, and at
//! those with a grant without a pool, with a network, or whose text could not be read; and `apart` compares an entity only with
//! those near it. `always` looks at each entity that it names.
//!
//! A look takes some comparisons of names for each grant of the entity with each grant of the region, and memory only where a rule
//! may be broken. `Always` takes a comparison of rights; where pools are given, one for each pool that the region is for. Where
//! neither side has networks one address decides.
//!
//! # Design
//!
//! Two tickets allow a common request just where they allow a common one of few touches: a read, a write, or a call by the names of
//! either, which reads or writes (`touches`). Where they neither both read nor both write at a common target, no request is common.
//!
//! What a region allows in one pool is what its grants allow there that are for the pool, with the pool's name and without their
//! tags, in any pool (`narrow`). Over addresses samples decide.
#![tactic(auto)]

mod always;
mod apart;
mod breaches;
mod checking;
mod demand;
mod entities;
mod never;
mod requests;
mod rule;
mod targets;
mod touches;

pub use apart::{Crossing, crossing_between};
pub use breaches::breach;
pub use checking::{Finding, Found, Outcome, check};
pub use demand::Demand;
pub use entities::Entities;
pub use rule::{Rule, Subject, Who};
