//! Copies of what was read.

ghost use Rattle.std.specs.Prelude.{◌≡◌, IfOk, option_map};
ghost use Rattle.ceph_text.specs.Pieces.{ns_of, part_of, tag_of, access_of, grant_of, ceph_of};

use crate::grant::CephGrant;
use crate::pieces::{AccessPiece, CephPiece, GrantPiece, NsPiece, PartPiece, TagPiece};
use cap_text::{Access, AllowGrant, Grant, NsMatch, Part, ProfileUse, Tag};
use common_types::{Name, OutOfMemory};
use std::alloc::Global;

pub(crate) fn name(alloc: Global, text: &Option<&str>) -> Result<Option<Name>, OutOfMemory>
    ensures { IfOk result (λ name. name ≡ option_map (λ t. t.now) text.now) }
{
    match text {
        None => Ok(None),
        Some(text) => Ok(Some(Name::new(alloc, text)?)),
    }
}

fn namespace(alloc: Global, piece: &Option<NsPiece<'_>>) -> Result<Option<NsMatch>, OutOfMemory>
    ensures { IfOk result (λ ns. ns ≡ option_map ns_of piece.now) }
{
    match piece {
        None => Ok(None),
        Some(NsPiece::Exact(text)) => Ok(Some(NsMatch::Exact(Name::new(alloc, text)?))),
        Some(NsPiece::Prefix(text)) => Ok(Some(NsMatch::Prefix(Name::new(alloc, text)?))),
    }
}

fn part(alloc: Global, piece: &PartPiece<'_>) -> Result<Part, OutOfMemory>
    ensures { IfOk result (λ part. part ≡ part_of piece.now) }
{
    match piece {
        PartPiece::Any => Ok(Part::Any),
        PartPiece::Is(text) => Ok(Part::Is(Name::new(alloc, text)?)),
    }
}

fn tag(alloc: Global, piece: &Option<TagPiece<'_>>) -> Result<Option<Tag>, OutOfMemory>
    ensures { IfOk result (λ tag. tag ≡ option_map tag_of piece.now) }
{
    match piece {
        None => Ok(None),
        Some(piece) => Ok(Some(Tag {
            application: Name::new(alloc, piece.application)?,
            key: part(alloc, &piece.key)?,
            value: part(alloc, &piece.value)?,
        })),
    }
}

pub(crate) fn access(alloc: Global, piece: &AccessPiece<'_>) -> Result<Access, OutOfMemory>
    ensures { IfOk result (λ access. access ≡ access_of piece.now) }
{
    match piece {
        AccessPiece::All => Ok(Access::All),
        AccessPiece::Flags(flags) => Ok(Access::Flags(*flags)),
        AccessPiece::Class(class, method) => Ok(Access::Class {
            class: Name::new(alloc, class)?,
            method: name(alloc, method)?,
        }),
    }
}

fn grant(alloc: Global, piece: &GrantPiece<'_>) -> Result<Grant, OutOfMemory>
    ensures { IfOk result (λ grant. grant ≡ grant_of piece.now) }
{
    match piece {
        GrantPiece::Allow(access_piece, place) => Ok(Grant::Allow(AllowGrant {
            access: access(alloc, access_piece)?,
            pool: name(alloc, &place.pool)?,
            namespace: namespace(alloc, &place.namespace)?,
            prefix: name(alloc, &place.prefix)?,
            tag: tag(alloc, &place.tag)?,
        })),
        GrantPiece::Profile(profile, pool, ns) => Ok(Grant::Profile(ProfileUse {
            name: Name::new(alloc, profile)?,
            pool: name(alloc, pool)?,
            namespace: namespace(alloc, ns)?,
        })),
    }
}

/// The grant that a part of a text stands for.
pub(crate) fn owned(alloc: Global, piece: &CephPiece<'_>) -> Result<CephGrant, OutOfMemory>
    ensures { IfOk result (λ grant. grant ≡ ceph_of piece.now) }
{
    Ok(CephGrant {
        grant: grant(alloc, &piece.grant)?,
        network: name(alloc, &piece.network)?,
    })
}
