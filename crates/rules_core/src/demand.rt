//! What rules demand of one entity.

/// What a rule demands of each entity that it names, for a region of requests.
#[derive(Clone, Copy, Debug, PartialEq, Eq)]
pub enum Demand {
    /// None of the requests that the region allows is allowed to the entity.
    Never,
    /// Each request that the region allows is allowed to the entity.
    Always,
}
