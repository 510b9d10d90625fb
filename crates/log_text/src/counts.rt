//! How many lines a log has, by what they are.

/// How many lines a log has, by what they are. Each count is at most 2^64 - 1.
#[derive(Clone, Copy, Debug, Default, PartialEq, Eq)]
pub struct Counts {
    /// All lines.
    pub lines: u64,
    /// Lines of an OSD that may tell of requests, and one for all lines of an OSD before them.
    pub of_osd: u64,
    /// Sessions that begin.
    pub sessions: u64,
    /// Decisions, also those that could not be read.
    pub decisions: u64,
    /// Lines that tell of a request and lack a part.
    pub cut: u64,
    /// Lines that are not UTF-8.
    pub not_text: u64,
    /// Decisions in sessions whose beginning the log lacks.
    pub without_entity: u64,
    /// Decisions whose operation the log lacks.
    pub without_object: u64,
    /// Decisions that are not what an OSD of Ceph 16.2.15 writes.
    pub unread: u64,
}

impl Counts {
    /// Decisions of which the entity and the request are known.
    pub fn known(&self) -> u64 {
        self.decisions
            .saturating_sub(self.without_entity)
            .saturating_sub(self.without_object)
            .saturating_sub(self.unread)
    }
}

/// Counts one more.
pub(crate) fn add_one(count: &mut u64) {
    *count = count.saturating_add(1);
}
