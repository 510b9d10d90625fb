//! What an entity reaches of a pool, letter by letter.

/// A kind of requests: a letter of a cell.
#[derive(Clone, Copy, Debug, PartialEq, Eq)]
pub enum Letter {
    /// Reads of objects.
    Read,
    /// Writes of objects.
    Write,
    /// Listings of namespaces.
    Listing,
    /// Calls on objects, of classes on the default list, whose method reads, writes or both.
    Call,
    /// All requests: reads and writes, also in one request, listings, and calls of any class.
    Any,
}

/// How much of a pool is reached.
#[derive(Clone, Copy, Debug, PartialEq, Eq, PartialOrd, Ord)]
pub enum Extent {
    /// No request is allowed from any address.
    Nothing,
    /// Some request is allowed from some address, and some other one, or from some other address, is not.
    Part,
    /// Every request is allowed from every address: every object of every namespace.
    Whole,
}

/// What an entity reaches of a pool.
#[derive(Clone, Copy, Debug, PartialEq, Eq)]
pub struct Cell {
    pub read: Extent,
    pub write: Extent,
    pub list: Extent,
    pub call: Extent,
    /// How many of all requests are allowed: the whole is every request, also with calls of classes that are not listed.
    pub any: Extent,
}
