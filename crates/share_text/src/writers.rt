//! Entities of a file that write the same, of whom neither reads what the other writes.

ghost use Rattle.std.specs.Prelude.{◌≡◌, drop, string_bytes, option_copied, IfOk, IsTrue, ◌↔◌};
ghost use Rattle.share_core.specs.Near.{AreNear};
ghost use Rattle.share_text.specs.Behind.{grants_of};
ghost use Rattle.share_text.specs.Tenants.{InTurn};
ghost use Rattle.share_text.specs.Writers.{AreWritersTold, IsWriterToldWith, IsWritersTold, OnlyWrite};

use crate::holder::Holder;
use crate::kind::Kind;
use crate::tenants::{
    Strictness, Tenant, index_of, lives_of, nothing, push_told, share_within, tenants_of,
    told_within,
};
use common_types::OutOfMemory;
use share_core::Pool;
use std::alloc::Global;
use verdict_text::{Printed, list_by};

/// Whether both write something, and neither reads what the other writes. It takes no memory.
fn only_write(one: &Tenant<'_>, other: &Tenant<'_>, pools: Option<&[Pool]>) -> bool
    ensures { IsTrue result ↔ OnlyWrite (option_copied pools.entry) one.now other.now }
{
    share_within(Kind::WritesWrites, one.ticket, other.ticket, pools)
        && !share_within(Kind::WritesReads, one.ticket, other.ticket, pools)
        && !share_within(Kind::ReadsWrites, one.ticket, other.ticket, pools)
}

/// What is reported of two tenants.
fn told_writers(
    alloc: Global,
    strictness: Strictness,
    pools: Option<&[Pool]>,
    one: &Tenant<'_>,
    other: &Tenant<'_>,
) -> Result<Printed, OutOfMemory>
    ensures { IfOk result (λ printed. IsWritersTold (option_copied pools.entry) strictness one.now other.now (string_bytes printed.text) printed.fails) }
{
    if !only_write(one, other, pools) {
        return Ok(nothing(alloc));
    }
    told_within(alloc, Kind::WritesWrites, one, other, strictness, pools)
}

/// What is reported of a tenant with each of those from a place on. The near ones of these are given. The others share
/// nothing with it, so nothing is reported of them.
fn writers_with(
    alloc: Global,
    strictness: Strictness,
    pools: Option<&[Pool]>,
    one: &Tenant<'_>,
    tenants: &[Tenant<'_>],
    from: usize,
    near: &[usize],
) -> Result<Printed, OutOfMemory>
    requires { AreNear one.now.ticket.now.grants (grants_of tenants.now) from near.now }
    ensures { IfOk result (λ printed. IsWriterToldWith (option_copied pools.entry) strictness one.now (drop from tenants.now) (string_bytes printed.text) printed.fails) }
{
    let mut printed = nothing(alloc);
    for place in near {
        let told = told_writers(alloc, strictness, pools, one, &tenants[*place])?;
        push_told(&mut printed, &told)?;
    }
    Ok(printed)
}

/// What is reported of each two tenants.
fn writers_of_each(
    alloc: Global,
    strictness: Strictness,
    pools: Option<&[Pool]>,
    tenants: &[Tenant<'_>],
) -> Result<Printed, OutOfMemory>
    ensures { IfOk result (λ printed. InTurn (IsWriterToldWith (option_copied pools.entry) strictness) tenants.now (string_bytes printed.text) printed.fails) }
{
    let index = index_of(alloc, tenants)?;
    let mut printed = nothing(alloc);
    for place in 0..tenants.len() {
        let one = &tenants[place];
        let from = place + 1;
        let near = index.near(one.ticket, from)?;
        let told = writers_with(
            alloc,
            strictness,
            pools,
            one,
            tenants,
            from,
            near.as_slice(),
        )?;
        push_told(&mut printed, &told)?;
    }
    Ok(printed)
}

/// What the program prints of entities that write the same, where neither of two reads what the other writes. No data flows
/// between them, but each may learn of the other's objects by what its own requests answer.
///
/// Each two such entities have the line `ONE and OTHER write TARGET`, in the file's order. A check fails where there is a line.
/// As a document it has the member `writers`, with items as in `pairs`. All else is as in [`crate::share_entities`].
///
/// The only error is `OutOfMemory`, which leaves nothing. Time grows as that of [`crate::share_entities`]. The lines are this
/// project's profile.
pub fn writer_entities(
    alloc: Global,
    entities: &[Holder<'_>],
    strictness: Strictness,
    pools: Option<&[Pool]>,
) -> Result<Printed, OutOfMemory>
    ensures { IfOk result (λ printed. AreWritersTold (option_copied pools.entry) strictness entities.now (string_bytes printed.text) printed.fails) }
{
    let lives = lives_of(alloc, entities)?;
    let tenants = tenants_of(alloc, lives.as_slice())?;
    let told = writers_of_each(alloc, strictness, pools, tenants.as_slice())?;
    Ok(Printed {
        text: list_by(alloc, "writers", told.text, strictness.format)?,
        fails: told.fails,
    })
}
