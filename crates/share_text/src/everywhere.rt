//! Whose grants reach every object of every pool.

ghost use Rattle.std.specs.Prelude.{◌≡◌, ◌↔◌, IfOk, IsTrue};
ghost use Rattle.share_text.specs.Everywhere as spec;
ghost use Rattle.share_text.specs.Everywhere.{ReadsAndWritesAll};

use cap_grants::{Access, AllowGrant, Flags};
use common_types::{Name, OutOfMemory};
use compare_core::widening;
use grant_core::Path;
use std::alloc::Global;
use verdict_core::Ticket;

/// A grant at every object of every pool, which reads or writes and covers no calls.
fn everywhere(alloc: Global, reads: bool, writes: bool) -> Result<AllowGrant, OutOfMemory>
    ensures { IfOk result (λ grant. grant ≡ spec.everywhere reads writes) }
{
    Ok(AllowGrant {
        access: Access::Flags(Flags {
            read: reads,
            write: writes,
            class_read: false,
            class_write: false,
        }),
        pool: None,
        namespace: None,
        prefix: Some(Name::new(alloc, "")?),
        tag: None,
    })
}

/// The ticket of such a grant that reads, and of one that writes.
fn every_object(alloc: Global) -> Result<Ticket, OutOfMemory>
    ensures { IfOk result (λ ticket. ticket.grants ≡ spec.every_object) }
{
    let mut grants = Vec::new(alloc);
    grants.push((Path::of(alloc, &[1])?, everywhere(alloc, true, false)?))?;
    grants.push((Path::of(alloc, &[2])?, everywhere(alloc, false, true)?))?;
    Ok(Ticket::from_grants(grants, None))
}

/// Whether grants let read and write every object of every pool: they deny nothing that such grants allow.
pub(crate) fn reads_and_writes_all(alloc: Global, ticket: &Ticket) -> Result<bool, OutOfMemory>
    ensures { IfOk result (λ all. IsTrue all ↔ ReadsAndWritesAll ticket.now.grants) }
{
    let every = every_object(alloc)?;
    let denied = widening(alloc, ticket, &every)?;
    Ok(denied.is_empty())
}
