//! A law of the published map, the contract of a function that does nothing.

ghost use Rattle.published_map.specs.Laws.{SeenWasPublished};

/// While the rule of the published map holds ([`PublishedRule`](crate::PublishedRule)), what a reader saw last is a beginning of
/// what is published.
pub fn what_is_seen_was_published()
    ensures { SeenWasPublished }
{}
