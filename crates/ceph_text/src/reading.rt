//! Reads capability texts as Ceph does.

ghost use Rattle.std.specs.Prelude.{◌≤◌, length, IfOk, IfErr};
ghost use Rattle.ceph_text.specs.Pieces.{Reads, ceph_of, reader_at};
ghost use Rattle.ceph_text.specs.Texts.{IsCephText, IsFault, AtMostOneCephList};

use crate::bytes::spaces;
use crate::fault::CephFault;
use crate::grants::{first_grant, next_grant};
use crate::list::CephList;
use crate::owned::owned;
use crate::pieces::CephPiece;
use std::alloc::Global;

/// The most bytes of a text.
const MAX_BYTES: usize = 1_048_576;

/// The most grants of a text.
const MAX_GRANTS: usize = 4096;

/// The next grant of a text: the first one, or one behind its separator.
fn grant_at(first: bool, text: &str) -> Option<(CephPiece<'_>, &str)>
    ensures { Reads (λ r. (ceph_of r.0, r.1.now)) result (reader_at first text.now) }
{
    if first {
        first_grant(text)
    } else {
        next_grant(text)
    }
}

/// The grants of a text as Ceph 16.2.15 reads it.
///
/// Faults, the first that applies: more than 1,048,576 bytes; more than 4,096 grants from its front; a text that Ceph
/// refuses, which grants nothing at all. An allocation may fail at any time. It takes time linear in the text.
///
/// Source: `OSDCap.cc` of Ceph 16.2.15, measured.
pub fn read(alloc: Global, text: &str) -> Result<CephList, CephFault>
    ensures list { IfOk result (λ list. IsCephText text.now list) }
    ensures short { IfOk result (λ list. length text.now ≤ 1048576) }
    ensures fault { IfErr result (λ fault. IsFault text.now fault) }
{
    if text.len() > MAX_BYTES {
        return Err(CephFault::TooLong);
    }
    let mut grants = Vec::new(alloc);
    let mut rest = text;
    loop {
        match grant_at(grants.is_empty(), rest) {
            Some((piece, after)) => {
                if grants.len() == MAX_GRANTS {
                    return Err(CephFault::TooManyGrants);
                }
                grants.push(owned(alloc, &piece)?)?;
                rest = after;
            }
            None => {
                let behind = spaces(rest);
                if behind.is_empty() && !grants.is_empty() {
                    return Ok(CephList::from_vec(grants));
                }
                // `behind` is an end of the text, so this is where it begins.
                let at = text.len().saturating_sub(behind.len());
                return Err(CephFault::Refused { at });
            }
        }
    }
}

/// The law that no text is two lists of grants. It does nothing.
pub fn reads_one_list()
    ensures { AtMostOneCephList }
{}
