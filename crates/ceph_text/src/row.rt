//! The grants of Ceph's profiles, as data: the release is 16.2.15.

ghost use Rattle.std.specs.Prelude.{◌≡◌, map, option_map};
ghost use Rattle.ceph_text.specs.Profiles as spec;
ghost use Rattle.ceph_text.specs.Pieces.{access_of};
ghost use Rattle.ceph_text.specs.Rows.{row_of};

use crate::pieces::AccessPiece;
use cap_text::Flags;

/// Where a grant of a profile holds.
#[derive(Clone, Copy)]
pub(crate) enum Scope {
    /// It takes neither the pool nor the namespace of the use.
    Everywhere,
    /// In the pool of the use, and in its namespace `""`.
    EmptyNamespace,
    /// In the pool and the namespace of the use.
    WhereUsed,
}

/// A grant of a profile.
#[derive(Clone, Copy)]
pub(crate) struct Row {
    pub(crate) access: AccessPiece<'static>,
    pub(crate) scope: Scope,
    pub(crate) prefix: Option<&'static str>,
}

fn flags(read: bool, write: bool, class_read: bool, class_write: bool) -> AccessPiece<'static>
    ensures { access_of result ≡ spec.flags read write class_read class_write }
{
    AccessPiece::Flags(Flags {
        read,
        write,
        class_read,
        class_write,
    })
}

fn rbd_call(method: &'static str) -> AccessPiece<'static>
    ensures { access_of result ≡ spec.rbd_call method.now }
{
    AccessPiece::Class("rbd", Some(method))
}

fn table_row(access: AccessPiece<'static>, scope: Scope, prefix: Option<&'static str>) -> Row
    ensures { row_of result ≡ spec.row (access_of access.entry) scope (option_map (λ p. p.now) prefix.entry) }
{
    Row {
        access,
        scope,
        prefix,
    }
}

/// The grants of `profile rbd`.
pub(crate) fn rbd() -> [Row; 5]
    ensures { map row_of result ≡ spec.rbd }
{
    [
        table_row(
            flags(true, false, false, false),
            Scope::Everywhere,
            Some("rbd_info"),
        ),
        table_row(
            flags(false, false, true, false),
            Scope::Everywhere,
            Some("rbd_children"),
        ),
        table_row(
            flags(false, false, true, false),
            Scope::Everywhere,
            Some("rbd_mirroring"),
        ),
        table_row(
            rbd_call("metadata_list"),
            Scope::EmptyNamespace,
            Some("rbd_info"),
        ),
        table_row(flags(true, true, true, true), Scope::WhereUsed, None),
    ]
}

/// The grants of `profile rbd-read-only`.
pub(crate) fn rbd_read_only() -> [Row; 4]
    ensures { map row_of result ≡ spec.rbd_read_only }
{
    [
        table_row(
            rbd_call("metadata_list"),
            Scope::EmptyNamespace,
            Some("rbd_info"),
        ),
        table_row(flags(true, false, true, false), Scope::WhereUsed, None),
        table_row(
            rbd_call("child_attach"),
            Scope::WhereUsed,
            Some("rbd_header."),
        ),
        table_row(
            rbd_call("child_detach"),
            Scope::WhereUsed,
            Some("rbd_header."),
        ),
    ]
}

/// The grants of `profile read-only`.
pub(crate) fn read_only() -> [Row; 1]
    ensures { map row_of result ≡ spec.read_only }
{
    [table_row(flags(true, false, false, false), Scope::WhereUsed, None)]
}

/// The grants of `profile read-write`.
pub(crate) fn read_write() -> [Row; 1]
    ensures { map row_of result ≡ spec.read_write }
{
    [table_row(flags(true, true, false, false), Scope::WhereUsed, None)]
}
