//! Parts of a text that are grants or parts of them: nothing is copied until a whole grant was read.

use cap_text::Flags;

#[derive(Clone, Copy)]
pub(crate) enum NsPiece<'a> {
    Exact(&'a str),
    Prefix(&'a str),
}

#[derive(Clone, Copy)]
pub(crate) enum PartPiece<'a> {
    Any,
    Is(&'a str),
}

#[derive(Clone, Copy)]
pub(crate) struct TagPiece<'a> {
    pub(crate) application: &'a str,
    pub(crate) key: PartPiece<'a>,
    pub(crate) value: PartPiece<'a>,
}

#[derive(Clone, Copy)]
pub(crate) enum AccessPiece<'a> {
    All,
    Flags(Flags),
    Class(&'a str, Option<&'a str>),
}

/// Where a grant holds.
#[derive(Clone, Copy)]
pub(crate) struct Place<'a> {
    pub(crate) pool: Option<&'a str>,
    pub(crate) namespace: Option<NsPiece<'a>>,
    pub(crate) prefix: Option<&'a str>,
    pub(crate) tag: Option<TagPiece<'a>>,
}

#[derive(Clone, Copy)]
pub(crate) enum GrantPiece<'a> {
    Allow(AccessPiece<'a>, Place<'a>),
    /// A profile's name, and the pool and the namespace of its use.
    Profile(&'a str, Option<&'a str>, Option<NsPiece<'a>>),
}

#[derive(Clone, Copy)]
pub(crate) struct CephPiece<'a> {
    pub(crate) grant: GrantPiece<'a>,
    pub(crate) network: Option<&'a str>,
}
